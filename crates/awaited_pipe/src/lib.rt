//! The end of a pipe at which an answer is awaited. A reader looks for a while before it sleeps: often the
//! other end answers sooner than a thread could sleep and be woken. Between two looks other threads run, since
//! the one that answers may wait for the same processor.
#![tactic(auto)]

mod patience;

use libc::net::{POLLIN, poll};
use libc::types::pollfd;
use os::set_nonblocking;
pub use patience::{Looks, Patience};
use std::io;
use std::io::{ErrorKind, Read};
use std::os::fd::{AsRawFd, RawFd};

/// How often a reading end is looked at before its reader sleeps.
const LOOKS: u64 = 48;

/// So many milliseconds do not end.
const FOREVER: i32 = -1;

/// Waits so many milliseconds at most until a read of the descriptor would not wait, and tells whether it is so.
fn is_ready(fd: RawFd, wait: i32) -> bool {
    let mut asked = [pollfd {
        fd,
        events: POLLIN,
        revents: 0,
    }];
    poll(&mut asked, wait) != 0
}

/// Looks for a while whether something came at the descriptor.
pub fn look_for(fd: RawFd, patience: &Patience) {
    let mut looks = patience.begin();
    if looks.ended {
        return;
    }
    while !is_ready(fd, 0) {
        if !looks.again() {
            return;
        }
    }
    looks.end();
}

/// A reading end. It gives the bytes that come at it, and a read of it takes the place of a look.
#[derive(Drop)]
pub struct Awaited<R> {
    end: R,
    patience: Patience,
}

impl<R: Read + AsRawFd> Awaited<R> {
    /// This reading end, which nothing else may read: its reads are made such that do not wait.
    pub fn new(end: R) -> Self {
        // Where this fails, a read waits asleep.
        let _ = set_nonblocking(end.as_raw_fd(), true);
        Awaited {
            end,
            patience: Patience::new(LOOKS),
        }
    }
}

impl<R: Read + AsRawFd> Read for Awaited<R> {
    ghost remaining = { λ a. R.remaining a.end };

    fn read(&mut self, into: &mut [u8]) -> io::Result<usize> {
        let Awaited { end, patience } = self;
        let mut looks = patience.begin();
        for _ in 0..u64::MAX {
            match end.read(into) {
                Err(error) if error.kind() == ErrorKind::WouldBlock => {
                    if !looks.again() {
                        is_ready(end.as_raw_fd(), FOREVER);
                    }
                }
                read => {
                    looks.end();
                    return read;
                }
            }
        }
        Err(io::Error::from(ErrorKind::WouldBlock))
    }
}

#[cfg(test)]
mod tests;
