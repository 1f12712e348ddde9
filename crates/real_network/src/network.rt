//! The network of the system, and its doors.

ghost use Rattle.std.specs.Prelude.{◌≡◌, [], All, None, IfOk, length, map};
ghost use Rattle.okws_outer.specs.Doors.{new_entrance};
ghost use Rattle.real_network.specs.Entrances.{entrance_of};

use crate::clock::Time;
use crate::conn::RealConn;
use crate::notice;
use crate::pending::{Client, Pending};
use crate::trying::{count, is_passing, refusal};
use okws_base::told::{Says, Told};
use okws_outer::conn::Conn;
use okws_outer::door::{Door, Served};
use okws_outer::error::{Fault, MakeError};
use okws_outer::network::{Listening, Network};
use real_stores::pause::pause;
use std::alloc::{AllocError, Global};
use std::io;
use std::io::Stderr;
use std::net::{Net, SocketAddr, TcpListener, TcpStream};
use std::os::fd::{AsRawFd, OwnedFd};
use std::time::Duration;

/// Milliseconds for which a door waits for a connection before it tells that none came.
const WAIT: u64 = 250;

/// How many connections may wait to be accepted.
const BACKLOG: i32 = 1024;

/// A door: a descriptor of its own of the socket that all doors share.
pub struct RealDoor {
    // None once the door is closed.
    listener: Option<TcpListener>,
    // The clients that have said nothing yet, if they have a limit of time.
    pending: Option<Pending>,
    is_out: bool,
    finished: Told<Served>,
    faults: u64,
}

impl Drop for RealDoor {
    fn drop(self) {
        let RealDoor {
            listener,
            pending,
            is_out: _,
            finished: _,
            faults: _,
        } = self;
        drop(listener);
        drop(pending);
    }
}

impl RealDoor {
    fn new(listener: TcpListener, pending: Option<Pending>) -> Self
        ensures { ⟦<RealDoor as Door>⟧.entrance result ≡ new_entrance }
    {
        RealDoor {
            listener: Some(listener),
            pending,
            is_out: false,
            finished: Told::new(),
            faults: 0,
        }
    }

    /// How many calls have failed, those of finished connections included.
    pub fn faults(&self) -> u64
        ensures { result ≡ (⟦<RealDoor as Door>⟧.entrance self.now).faults }
    {
        self.faults
    }

    /// The port on which the door listens, unless it is closed.
    pub fn port(&self) -> Option<u16> {
        let address = self.listener.as_ref()?.local_addr().ok()?;
        Some(address.port())
    }

    /// What is found at the socket, once a client is there or the door has waited long enough.
    fn next_client(&self) -> Found {
        let Some(listener) = self.listener.as_ref() else {
            return Found::Broken;
        };
        match &self.pending {
            Some(pending) => match pending.next(listener) {
                Some(Some(Client { stream, time })) => Found::Client(stream, Some(time)),
                Some(None) => Found::None,
                None => Found::Broken,
            },
            None => next_stream(listener),
        }
    }
}

/// What a door finds at its socket.
enum Found {
    /// A connection, and the time that its client has, where that is limited.
    Client(TcpStream, Option<Time>),
    /// None that can be accepted now.
    None,
    /// There can be none.
    Broken,
}

/// Whether no connection came for a while, or a signal did.
fn is_late(error: &io::Error) -> bool {
    match error.raw_os_error() {
        Some(code) => matches!(code, libc::EAGAIN | libc::EINTR),
        None => false,
    }
}

/// The next connection of a listener at which clients have no limit. Where the system has no room for it now, it may
/// be asked again.
fn next_stream(listener: &TcpListener) -> Found {
    match listener.accept() {
        Ok((stream, _)) => {
            // It has the listener's limit at first.
            let _ = stream.set_read_timeout(None);
            Found::Client(stream, None)
        }
        Err(error) if is_late(&error) => Found::None,
        Err(error) if is_passing(&error) => {
            pause();
            Found::None
        }
        Err(_) => Found::Broken,
    }
}

/// A connection that is finished.
#[derive(Clone, Copy)]
struct Finished<'c> {
    conn: &'c RealConn<TcpStream>,
}

impl<'c> Says for Finished<'c> {
    type Item = Served;

    ghost use Rattle.std.specs.Prelude.{None};

    ghost item = { λ f. record { came = None; left = None; given = None; faults = (⟦<RealConn<TcpStream> as Conn>⟧.wire f.conn.now).faults } };
}

impl Door for RealDoor {
    type Conn = RealConn<TcpStream>;

    ghost use Rattle.real_network.specs.Entrances.{entrance_of};

    ghost entrance = { entrance_of };

    fn accept(&mut self) -> Result<Option<RealConn<TcpStream>>, Fault> {
        match self.next_client() {
            Found::Client(stream, time) => {
                self.is_out = true;
                Ok(Some(RealConn::new(stream, time)))
            }
            Found::None => Ok(None),
            Found::Broken => {
                count(&mut self.faults);
                Err(Fault)
            }
        }
    }

    fn finish(&mut self, mut conn: RealConn<TcpStream>) {
        conn.linger();
        self.finished = self.finished.and(&Finished { conn: &conn });
        self.faults = self.faults.saturating_add(conn.faults());
        self.is_out = false;
    }

    fn shut(&mut self) {
        self.listener = None;
        self.pending = None;
    }
}

/// Lets each accept at a listener wait for a while at most.
fn limit_waits(listener: &TcpListener) -> io::Result<()> {
    // The limit is the socket's, whichever of its descriptors sets it.
    let socket = TcpStream::from(OwnedFd::from(listener.try_clone()?));
    socket.set_read_timeout(Some(Duration::from_millis(WAIT)))
}

/// A listener on a port of the loopback address, where a run may follow another at once.
fn bind<R: Net<Listener = TcpListener, Stream = TcpStream>>(
    rt: &R,
    port: u16,
) -> io::Result<TcpListener> {
    let listener = TcpListener::bind(rt, SocketAddr::from(([127, 0, 0, 1], port)))?;
    // Where this fails, fewer may wait.
    let _ = libc::net::listen(listener.as_raw_fd(), BACKLOG);
    Ok(listener)
}

/// The pending clients of a listener, at which no call waits then, where they have so many seconds. Else a call waits
/// there for a while at most.
fn pending_of(
    alloc: Global,
    listener: &TcpListener,
    patience: Option<u16>,
) -> io::Result<Option<Pending>> {
    let Some(patience) = patience else {
        limit_waits(listener)?;
        return Ok(None);
    };
    listener.set_nonblocking(true)?;
    Ok(Some(Pending::new(alloc, patience)?))
}

/// A listener on a port, and its pending clients.
fn listen<R: Net<Listener = TcpListener, Stream = TcpStream>>(
    rt: &R,
    alloc: Global,
    port: u16,
    patience: Option<u16>,
) -> io::Result<(TcpListener, Option<Pending>)> {
    let listener = bind(rt, port)?;
    let pending = pending_of(alloc, &listener, patience)?;
    Ok((listener, pending))
}

/// The same pending clients for another door, where clients have a limit.
fn share(pending: &Option<Pending>) -> io::Result<Option<Pending>> {
    match pending {
        Some(pending) => Ok(Some(pending.share()?)),
        None => Ok(None),
    }
}

/// A door at this listener, with these pending clients.
fn door_of(listener: &TcpListener, pending: &Option<Pending>) -> io::Result<RealDoor>
    ensures { IfOk result (λ door. ⟦<RealDoor as Door>⟧.entrance door ≡ new_entrance) }
{
    let own = listener.try_clone()?;
    Ok(RealDoor::new(own, share(pending)?))
}

/// Doors on one listener, with the same pending clients.
fn doors_of(
    alloc: Global,
    listener: &TcpListener,
    pending: &Option<Pending>,
    number: usize,
) -> Result<Vec<RealDoor>, MakeError>
    ensures count { IfOk result (λ doors. length doors.items ≡ number) }
    ensures doors { IfOk result (λ doors. All (λ d. ⟦<RealDoor as Door>⟧.entrance d ≡ new_entrance) doors.items) }
{
    let mut doors = Vec::new(alloc);
    for _ in 0..number {
        match door_of(listener, pending) {
            Ok(door) => doors.push(door).map_err(AllocError::from)?,
            Err(error) => return Err(refusal(&error)),
        }
    }
    Ok(doors)
}

/// How many calls of these doors have failed.
fn faults_of(doors: &[RealDoor]) -> u64 {
    let mut faults = 0u64;
    for door in doors {
        faults = faults.saturating_add(door.faults);
    }
    faults
}

/// Closes the sockets of doors.
fn shut(doors: &mut [RealDoor])
    ensures { map entrance_of doors.new ≡ map entrance_of doors.old }
{
    for door in doors.iter_mut() {
        door.listener = None;
        door.pending = None;
    }
}

/// The network of the system. Its doors take from one socket on the loopback address. It tells on standard error that they
/// listen, and at the end how many of their calls failed.
pub struct RealNetwork<'r, R> {
    rt: &'r R,
    errors: Stderr,
    listened: Told<Listening>,
    doors: Vec<RealDoor>,
    faults: u64,
}

impl<'r, R> Drop for RealNetwork<'r, R> {
    fn drop(self) {
        let RealNetwork {
            rt: _,
            errors: _,
            listened: _,
            doors,
            faults: _,
        } = self;
        drop(doors);
    }
}

impl<'r, R: Net<Listener = TcpListener, Stream = TcpStream>> RealNetwork<'r, R> {
    /// The network, with no listen yet and no fault counted.
    pub fn new(rt: &'r R, errors: Stderr, alloc: Global) -> Self
        ensures { ⟦<RealNetwork<'r, R> as Network>⟧.net result ≡ record { listened = []; doors = []; faults = 0 } }
    {
        RealNetwork {
            rt,
            errors,
            listened: Told::new(),
            doors: Vec::new(alloc),
            faults: 0,
        }
    }

    /// How many listens have failed.
    pub fn faults(&self) -> u64
        ensures { result ≡ (⟦<RealNetwork<'r, R> as Network>⟧.net self.now).faults }
    {
        self.faults
    }

    fn open(
        &self,
        alloc: Global,
        port: u16,
        number: usize,
        patience: Option<u16>,
    ) -> Result<Vec<RealDoor>, MakeError>
        ensures count { IfOk result (λ doors. length doors.items ≡ number) }
        ensures doors { IfOk result (λ doors. All (λ d. ⟦<RealDoor as Door>⟧.entrance d ≡ new_entrance) doors.items) }
    {
        match listen(self.rt, alloc, port, patience) {
            Ok((listener, pending)) => doors_of(alloc, &listener, &pending, number),
            Err(error) => Err(refusal(&error)),
        }
    }
}

impl<'r, R: Net<Listener = TcpListener, Stream = TcpStream>> Network for RealNetwork<'r, R> {
    type Door = RealDoor;

    ghost net = { λ n. record { listened = n.listened.past; doors = map entrance_of n.doors.items; faults = n.faults } };

    fn listen(
        &mut self,
        alloc: Global,
        port: u16,
        count: usize,
        patience: Option<u16>,
    ) -> Result<Vec<RealDoor>, MakeError> {
        let listening = Listening {
            port,
            count,
            patience,
        };
        self.listened = self.listened.and(&listening);
        let opened = self.open(alloc, port, count, patience);
        match &opened {
            Ok(_) => notice::listening(self.errors, port),
            Err(MakeError::Failed) => self.faults = self.faults.saturating_add(1),
            Err(MakeError::NoMemory) => {}
        }
        opened
    }

    fn close(&mut self, mut doors: Vec<RealDoor>)
        ensures doors { map entrance_of self.new.doors.items ≡ map entrance_of doors.items }
        ensures listened { self.new.listened.past ≡ self.old.listened.past }
        ensures faults { self.new.faults ≡ self.old.faults }
    {
        shut(&mut doors);
        notice::door_faults(self.errors, faults_of(&doors));
        self.doors = doors;
    }
}
