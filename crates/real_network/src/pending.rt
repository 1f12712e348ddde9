//! Where clients wait who have said nothing yet, so that no door waits for one of them alone.

ghost use Rattle.std.specs.Prelude.{◌<◌, IfSome, length};

use crate::clock::{Instant, Time};
use crate::trying::is_passing;
use libc::net::{POLLIN, poll};
use libc::types::pollfd;
use std::alloc::{AllocError, Global};
use std::io;
use std::io::ErrorKind;
use std::net::{TcpListener, TcpStream};
use std::os::fd::{AsRawFd, RawFd};
use std::sync::{Arc, Mutex, MutexGuard};
use std::thread::yield_now;

/// How many clients may be pending. Others wait until the system lets them in.
const MOST_PENDING: usize = 255;

/// So many milliseconds a door looks at those whom it found pending, before it looks anew who is there.
const LOOK: i32 = 50;

/// So many times it looks before it tells that nobody is there.
const LOOKS: u8 = 5;

/// Milliseconds that a client has at least behind its first byte, however long it waited for a door.
const GRACE: u32 = 100;

/// A client that was accepted, and the time that it has.
#[derive(Drop)]
pub(crate) struct Client {
    pub(crate) stream: TcpStream,
    pub(crate) time: Time,
}

/// The descriptors that are looked at.
#[derive(Drop)]
struct Looked {
    asked: [pollfd; MOST_PENDING + 1],
    count: usize,
}

impl Looked {
    fn new() -> Self {
        let none = pollfd {
            fd: -1,
            events: POLLIN,
            revents: 0,
        };
        Looked {
            asked: [none; MOST_PENDING + 1],
            count: 0,
        }
    }

    fn add(&mut self, fd: RawFd) {
        if let Some(asked) = self.asked.get_mut(self.count) {
            asked.fd = fd;
            self.count += 1;
        }
    }

    /// Waits so many milliseconds at most until something comes at one of them.
    fn wait(&mut self, milliseconds: i32) {
        if let Some(asked) = self.asked.get_mut(..self.count) {
            poll(asked, milliseconds);
        }
    }

    /// Whether something came at the one in this place.
    fn came(&self, place: usize) -> bool {
        match self.asked.get(place) {
            Some(asked) => asked.revents != 0,
            None => false,
        }
    }
}

/// Whether more clients may come now.
#[derive(Clone, Copy)]
enum Coming {
    /// All who have come are in.
    Yes,
    /// There is no room for another one.
    NoRoom,
    /// No client will come any more.
    Never,
}

/// Those who wait, the first one first.
#[derive(Drop)]
struct Waiting {
    clients: Vec<Client>,
}

impl Waiting {
    /// Takes in who has come to the listener, at which no call waits.
    fn take_in(&mut self, listener: &TcpListener, patience: u16) -> Coming {
        for _ in 0..MOST_PENDING {
            if self.clients.len() >= MOST_PENDING {
                return Coming::NoRoom;
            }
            match listener.accept() {
                Ok((stream, _)) => self.add(stream, Time::of(patience)),
                Err(error) if error.kind() == ErrorKind::WouldBlock => return Coming::Yes,
                Err(error) if is_passing(&error) => return Coming::NoRoom,
                Err(_) => return Coming::Never,
            }
        }
        Coming::Yes
    }

    fn add(&mut self, stream: TcpStream, time: Time) {
        // Where memory is refused the client is let go.
        let _ = self.clients.push(Client { stream, time });
    }

    /// Whom to look at, in their order.
    fn looked(&self) -> Looked {
        let mut looked = Looked::new();
        for client in self.clients.iter() {
            looked.add(client.stream.as_raw_fd());
        }
        looked
    }

    /// The place of the first at which something came, or for which it is too late.
    fn place(&self, looked: &Looked) -> Option<usize>
        ensures { IfSome result (λ place. place < length self.now.clients.items) }
    {
        for (place, client) in self.clients.iter().enumerate() {
            if looked.came(place) || client.time.until.left().is_none() {
                return Some(place);
            }
        }
        None
    }

    /// The first who has said something, or for whom it is too late.
    fn first(&mut self) -> Option<Client> {
        let mut looked = self.looked();
        looked.wait(0);
        let place = self.place(&looked)?;
        let mut client = self.clients.remove(place);
        if looked.came(place) {
            client.time.until = client.time.until.or_later(Instant::after(GRACE));
        }
        Some(client)
    }
}

/// The clients that were accepted and have said nothing yet, which doors share.
pub(crate) struct Pending {
    waiting: Arc<Mutex<Waiting>>,
    patience: u16,
}

impl Drop for Pending {
    fn drop(self) {
        let Pending {
            waiting,
            patience: _,
        } = self;
        drop(waiting);
    }
}

impl Pending {
    /// No client is pending; each will have so many seconds.
    pub(crate) fn new(alloc: Global, patience: u16) -> Result<Pending, AllocError> {
        let waiting = Waiting {
            clients: Vec::new(alloc),
        };
        match Arc::new(alloc, Mutex::new(waiting)) {
            Ok(waiting) => Ok(Pending { waiting, patience }),
            Err(_) => Err(AllocError),
        }
    }

    /// The same clients for another door.
    pub(crate) fn share(&self) -> io::Result<Pending> {
        let waiting = Arc::try_clone(&self.waiting)?;
        Ok(Pending {
            waiting,
            patience: self.patience,
        })
    }

    // Each other turn ends at once, so that this one comes soon.
    fn turn(&self) -> Option<MutexGuard<'_, Waiting>> {
        for _ in 0..u64::MAX {
            if let Some(waiting) = self.waiting.try_lock() {
                return Some(waiting);
            }
            yield_now();
        }
        None
    }

    /// The next one, or whom to look at until somebody says something.
    fn look(&self, listener: &TcpListener) -> Option<Result<Client, Looked>> {
        let mut waiting = self.turn()?;
        let coming = waiting.take_in(listener, self.patience);
        if let Some(client) = waiting.first() {
            return Some(Ok(client));
        }
        let mut looked = waiting.looked();
        match coming {
            Coming::Yes => looked.add(listener.as_raw_fd()),
            Coming::NoRoom => {}
            Coming::Never => return None,
        }
        Some(Err(looked))
    }

    /// The next client who has said something, or for whom it is too late, if there is one before the door has looked
    /// long enough; None where there can be none.
    pub(crate) fn next(&self, listener: &TcpListener) -> Option<Option<Client>> {
        for _ in 0..LOOKS {
            match self.look(listener)? {
                Ok(client) => return Some(Some(client)),
                Err(mut looked) => looked.wait(LOOK),
            }
        }
        Some(None)
    }
}
