//! A network in memory, and its doors.

ghost use Rattle.std.specs.Prelude.{◌≡◌, Some, [], All, IfOk, IfSome, length, map, option_map, reverse};
ghost use Rattle.okws_outer.specs.Doors.{new_entrance};

use crate::noted::Noted;
use okws_base::items::{Items, copies};
use okws_base::told::{Parts, Says};
use okws_outer::conn::Conn;
use okws_outer::door::{Door, Served};
use okws_outer::error::{Fault, MakeError};
use okws_outer::memory::conn::MemoryConn;
use okws_outer::memory::failing::Failing;
use okws_outer::network::{Listening, Network};
use std::alloc::{AllocError, Global};
use std::sync::Arc;
use std::sync::atomic::{AtomicU64, Ordering};

/// A client, whose connection is as `MemoryConn::new` makes it of these.
#[derive(Clone, Copy)]
pub struct Client<'a> {
    /// All bytes that it sends.
    pub bytes: &'a [u8],
    /// The sizes of the pieces in which they come.
    pub sizes: &'a [usize],
    /// For how many bytes there is room that are given to it.
    pub room: usize,
    /// The numbers of the calls that fail.
    pub failing: &'a [u64],
}

/// A door in memory. An accept fails too where memory is refused for the connection, which is then
/// lost, and where no client is left.
pub struct MemoryDoor<'a> {
    alloc: Global,
    clients: &'a [Client<'a>],
    // The place of the next client, for all doors of the line.
    next: Arc<AtomicU64, Global>,
    out: Option<&'a [u8]>,
    finished: Noted<Served>,
    failing: Failing<'a>,
}

impl<'a> Drop for MemoryDoor<'a> {
    fn drop(self) {
        let MemoryDoor {
            alloc: _,
            clients: _,
            next,
            out: _,
            finished,
            failing: _,
        } = self;
        drop(next);
        drop(finished);
    }
}

/// A connection that is finished, and its client's bytes.
#[derive(Clone, Copy)]
struct Finished<'c, 'a> {
    came: &'a [u8],
    conn: &'c MemoryConn<'a>,
}

impl<'c, 'a> Says for Finished<'c, 'a> {
    type Item = Served;

    ghost use Rattle.std.specs.Prelude.{Some};

    ghost item = { λ f. record {
      came = Some f.came.now;
      left = (⟦<MemoryConn<'a> as Conn>⟧.wire f.conn.now).left;
      given = (⟦<MemoryConn<'a> as Conn>⟧.wire f.conn.now).given;
      faults = (⟦<MemoryConn<'a> as Conn>⟧.wire f.conn.now).faults;
    } };
}

impl<'c, 'a> Parts for Finished<'c, 'a> {
    fn make(&self, alloc: Global) -> Result<Served, AllocError> {
        Ok(Served {
            came: Some(Items::of(copies(alloc, self.came)?)),
            left: Some(Items::of(copies(alloc, self.conn.left())?)),
            given: Some(Items::of(copies(alloc, self.conn.given())?)),
            faults: self.conn.faults(),
        })
    }
}

impl<'a> MemoryDoor<'a> {
    /// The connections that were finished, the oldest first, unless memory was refused for one.
    pub fn finished(&self) -> Option<&[Served]>
        ensures { IfSome result (λ s. reverse s.now ≡ (⟦<MemoryDoor<'a> as Door>⟧.entrance self.now).finished) }
    {
        self.finished.as_slice()
    }

    /// How many calls have failed, those of finished connections included.
    pub fn faults(&self) -> u64
        ensures { result ≡ (⟦<MemoryDoor<'a> as Door>⟧.entrance self.now).faults }
    {
        self.failing.faults
    }

    /// The next client of the line.
    fn next_client(&self) -> Option<&'a Client<'a>> {
        let place = self.next.fetch_add(1, Ordering::SeqCst);
        self.clients.get(usize::try_from(place).ok()?)
    }
}

impl<'a> Door for MemoryDoor<'a> {
    type Conn = MemoryConn<'a>;

    ghost entrance = { λ d. record {
      out = option_map (λ came. Some came.now) d.out;
      finished = d.finished.told.past;
      faults = d.failing.faults;
    } };

    fn accept(&mut self) -> Result<Option<MemoryConn<'a>>, Fault> {
        if self.failing.fails() {
            return Err(Fault);
        }
        if let Some(c) = self.next_client()
            && let Ok(conn) = MemoryConn::new(self.alloc, c.bytes, c.sizes, c.room, c.failing)
        {
            self.out = Some(c.bytes);
            return Ok(Some(conn));
        }
        self.failing.count();
        Err(Fault)
    }

    fn finish(&mut self, conn: MemoryConn<'a>) {
        let came = self.out.take().unwrap();
        self.finished
            .note(self.alloc, &Finished { came, conn: &conn });
        self.failing.add(conn.faults());
    }

    fn shut(&mut self) {}
}

/// A network in memory, on whose port these clients come in this order.
pub struct MemoryNetwork<'a> {
    alloc: Global,
    clients: &'a [Client<'a>],
    refusals: &'a [u64],
    listened: Noted<Listening>,
    doors: Vec<MemoryDoor<'a>>,
    refuses: bool,
    failing: Failing<'a>,
}

impl<'a> Drop for MemoryNetwork<'a> {
    fn drop(self) {
        let MemoryNetwork {
            alloc: _,
            clients: _,
            refusals: _,
            listened,
            doors,
            refuses: _,
            failing: _,
        } = self;
        drop(listened);
        drop(doors);
    }
}

impl<'a> MemoryNetwork<'a> {
    /// A network of these clients, who come once for each listen. The accepts of the numbers in
    /// `refusals` fail, at each door by its own count, and the listens of the numbers in `failing`.
    pub fn new(
        alloc: Global,
        clients: &'a [Client<'a>],
        refusals: &'a [u64],
        failing: &'a [u64],
    ) -> Self
        ensures { ⟦<MemoryNetwork<'a> as Network>⟧.net result ≡ record { listened = []; doors = []; faults = 0 } }
    {
        MemoryNetwork {
            alloc,
            clients,
            refusals,
            listened: Noted::new(alloc),
            doors: Vec::new(alloc),
            refuses: false,
            failing: Failing::at(failing),
        }
    }

    /// A network that is not there: each listen fails.
    pub fn absent(alloc: Global) -> Self
        ensures { ⟦<MemoryNetwork<'a> as Network>⟧.net result ≡ record { listened = []; doors = []; faults = 0 } }
    {
        MemoryNetwork {
            alloc,
            clients: &[],
            refusals: &[],
            listened: Noted::new(alloc),
            doors: Vec::new(alloc),
            refuses: true,
            failing: Failing::at(&[]),
        }
    }

    /// The doors that were last taken back, in order.
    pub fn doors(&self) -> &[MemoryDoor<'a>]
        ensures { map ⟦<MemoryDoor<'a> as Door>⟧.entrance result.now ≡ (⟦<MemoryNetwork<'a> as Network>⟧.net self.now).doors }
    {
        &self.doors
    }

    /// The listens, the oldest first, unless memory was refused for one.
    pub fn listened(&self) -> Option<&[Listening]>
        ensures { IfSome result (λ s. reverse s.now ≡ (⟦<MemoryNetwork<'a> as Network>⟧.net self.now).listened) }
    {
        self.listened.as_slice()
    }

    /// How many listens have failed.
    pub fn faults(&self) -> u64
        ensures { result ≡ (⟦<MemoryNetwork<'a> as Network>⟧.net self.now).faults }
    {
        self.failing.faults
    }

    /// A door over this line.
    fn door(
        &self,
        alloc: Global,
        next: &Arc<AtomicU64, Global>,
    ) -> Result<MemoryDoor<'a>, AllocError>
        ensures { IfOk result (λ d. ⟦<MemoryDoor<'a> as Door>⟧.entrance d ≡ new_entrance) }
    {
        Ok(MemoryDoor {
            alloc,
            clients: self.clients,
            next: Arc::try_clone(next)?,
            out: None,
            finished: Noted::new(alloc),
            failing: Failing::at(self.refusals),
        })
    }

    /// So many doors over one line.
    fn open(&self, alloc: Global, count: usize) -> Result<Vec<MemoryDoor<'a>>, AllocError>
        ensures count { IfOk result (λ doors. length doors.items ≡ count) }
        ensures doors { IfOk result (λ doors. All (λ d. ⟦<MemoryDoor<'a> as Door>⟧.entrance d ≡ new_entrance) doors.items) }
    {
        let next = Arc::new(alloc, AtomicU64::new(0))?;
        let mut doors = Vec::with_capacity(alloc, count)?;
        for _ in 0..count {
            doors.push(self.door(alloc, &next)?)?;
        }
        Ok(doors)
    }
}

impl<'a> Network for MemoryNetwork<'a> {
    type Door = MemoryDoor<'a>;

    ghost net = { λ n. record {
      listened = n.listened.told.past;
      doors = map ⟦<MemoryDoor<'a> as Door>⟧.entrance n.doors.items;
      faults = n.failing.faults;
    } };

    fn listen(
        &mut self,
        alloc: Global,
        port: u16,
        count: usize,
        patience: Option<u16>,
    ) -> Result<Vec<MemoryDoor<'a>>, MakeError> {
        let listening = Listening {
            port,
            count,
            patience,
        };
        self.listened.note(self.alloc, &listening);
        if self.failing.fails_or(self.refuses) {
            return Err(MakeError::Failed);
        }
        Ok(self.open(alloc, count)?)
    }

    fn close(&mut self, doors: Vec<MemoryDoor<'a>>)
        ensures doors { self.new.doors.items ≡ doors.entry.items }
        ensures listened { self.new.listened.told.past ≡ self.old.listened.told.past }
        ensures faults { self.new.failing.faults ≡ self.old.failing.faults }
    {
        self.doors = doors;
    }
}
