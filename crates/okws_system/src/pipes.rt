//! The two pipes of a child. What a child starts may hold their other ends for as long as it likes; nobody waits for it
//! once the child has ended or was stopped.

use crate::process::Shared;
use awaited_pipe::Patience;
use libc::net::{POLLIN, POLLOUT, poll};
use libc::types::pollfd;
use os::set_nonblocking;
use std::io;
use std::io::{ErrorKind, PipeWriter, Read, Write};
use std::os::fd::{AsRawFd, RawFd};
use std::process::ChildStdout;

/// How often a reading end is looked at before its reader sleeps.
const LOOKS: u64 = 48;

/// So many milliseconds a pipe is waited for before its child is asked whether it has ended.
const WAIT: i32 = 100;

/// Waits so many milliseconds at most until the descriptor is ready for this.
fn is_ready(fd: RawFd, events: i16, wait: i32) -> bool {
    let mut asked = [pollfd {
        fd,
        events,
        revents: 0,
    }];
    poll(&mut asked, wait) != 0
}

/// Whether a pipe that isn't ready will be so by its child no more. Otherwise it is ready, or was waited for.
fn is_over(fd: RawFd, events: i16, process: &Shared) -> bool {
    !is_ready(fd, events, WAIT) && process.is_gone() && !is_ready(fd, events, 0)
}

/// The standard output of a child. It has ended where the child was stopped or has ended, and nothing came that wasn't read.
pub struct ChildOutput {
    end: ChildStdout,
    patience: Patience,
    process: Shared,
}

impl Drop for ChildOutput {
    fn drop(self) {
        let ChildOutput {
            end,
            patience,
            process,
        } = self;
        drop(end);
        drop(patience);
        drop(process);
    }
}

impl ChildOutput {
    /// The output of this process; its reads are made such that do not wait.
    pub(crate) fn new(end: ChildStdout, process: Shared) -> Self {
        // Where this fails, a read waits asleep.
        let _ = set_nonblocking(end.as_raw_fd(), true);
        ChildOutput {
            end,
            patience: Patience::new(LOOKS),
            process,
        }
    }
}

impl Read for ChildOutput {
    fn read(&mut self, into: &mut [u8]) -> io::Result<usize> {
        let ChildOutput {
            end,
            patience,
            process,
        } = self;
        let mut looks = patience.begin();
        for _ in 0..u64::MAX {
            match end.read(into) {
                Err(error) if error.kind() == ErrorKind::WouldBlock => {
                    if !looks.again() && is_over(end.as_raw_fd(), POLLIN, process) {
                        return Ok(0);
                    }
                }
                read => {
                    looks.end();
                    return read;
                }
            }
        }
        Err(io::Error::from(ErrorKind::WouldBlock))
    }
}

/// The standard input of a child. It is closed where the child was stopped or has ended, and there is no room in it.
pub struct ChildInput {
    end: PipeWriter,
    process: Shared,
}

impl Drop for ChildInput {
    fn drop(self) {
        let ChildInput { end, process } = self;
        drop(end);
        drop(process);
    }
}

impl ChildInput {
    /// The input of this process; its writes are made such that do not wait.
    pub(crate) fn new(end: PipeWriter, process: Shared) -> Self {
        // Where this fails, a write waits asleep.
        let _ = set_nonblocking(end.as_raw_fd(), true);
        ChildInput { end, process }
    }
}

impl Write for ChildInput {
    fn write(&mut self, bytes: &[u8]) -> io::Result<usize> {
        for _ in 0..u64::MAX {
            match self.end.write(bytes) {
                Err(error) if error.kind() == ErrorKind::WouldBlock => {
                    if is_over(self.end.as_raw_fd(), POLLOUT, &self.process) {
                        return Err(io::Error::from(ErrorKind::BrokenPipe));
                    }
                }
                written => return written,
            }
        }
        Err(io::Error::from(ErrorKind::WouldBlock))
    }

    fn flush(&mut self) -> io::Result<()> {
        Ok(())
    }
}
