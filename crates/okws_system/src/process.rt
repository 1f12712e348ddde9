//! A process that was started, which who holds it and its link ask by turns.

use okws_outer::child::Ended;
use std::alloc::Global;
use std::io;
use std::io::ErrorKind;
use std::os::unix::process::ExitStatusExt;
use std::process::{Child, ExitStatus, SystemProcess};
use std::sync::{Arc, Mutex, MutexGuard};
use std::thread::yield_now;

/// The signal that stops a process.
const KILL: i32 = 9;

/// A process, whether it was to be stopped, and whether it had not ended then.
struct Process {
    inner: Child<SystemProcess>,
    is_stopped: bool,
    is_killed: bool,
}

impl Drop for Process {
    fn drop(self) {
        let Process {
            inner,
            is_stopped: _,
            is_killed: _,
        } = self;
        drop(inner);
    }
}

impl Process {
    /// Whether it has ended, whatever signals come.
    fn ended(&mut self) -> Ended {
        for _ in 0..u64::MAX {
            match self.inner.try_wait() {
                Ok(Some(_)) => return Ended::Yes,
                Ok(None) => return Ended::No,
                Err(error) if error.kind() == ErrorKind::Interrupted => {}
                Err(_) => return Ended::Failed,
            }
        }
        Ended::Failed
    }

    /// Whether nobody is to wait for it any more.
    fn is_gone(&mut self) -> bool {
        self.is_stopped || self.ended() != Ended::No
    }

    /// Kills it, unless it has ended.
    fn stop(&mut self) {
        self.is_stopped = true;
        if self.ended() != Ended::Yes {
            self.is_killed = true;
            let _ = self.inner.kill();
        }
    }

    /// Kills it, unless it has ended, and waits for its end; how it ended, where it did so by itself.
    fn end(&mut self) -> Option<ExitStatus> {
        self.stop();
        let status = self.inner.wait().ok()?;
        if self.is_killed && status.signal() == Some(KILL) {
            return None;
        }
        Some(status)
    }
}

/// One of those that have a process: who holds it, or a pipe of its link.
pub(crate) struct Shared {
    process: Arc<Mutex<Process>>,
}

impl Drop for Shared {
    fn drop(self) {
        let Shared { process } = self;
        drop(process);
    }
}

impl Shared {
    /// A process that was started just now; where memory is refused it is ended.
    pub(crate) fn new(alloc: Global, inner: Child<SystemProcess>) -> io::Result<Shared> {
        let process = Process {
            inner,
            is_stopped: false,
            is_killed: false,
        };
        match Arc::new(alloc, Mutex::new(process)) {
            Ok(process) => Ok(Shared { process }),
            Err(refused) => {
                let _ = refused.value.into_inner().end();
                Err(io::Error::from(ErrorKind::OutOfMemory))
            }
        }
    }

    /// The same process for another.
    pub(crate) fn share(&self) -> io::Result<Shared> {
        let process = Arc::try_clone(&self.process)?;
        Ok(Shared { process })
    }

    // Each other turn ends at once, so that this one comes soon.
    fn turn(&self) -> Option<MutexGuard<'_, Process>> {
        for _ in 0..u64::MAX {
            if let Some(process) = self.process.try_lock() {
                return Some(process);
            }
            yield_now();
        }
        None
    }

    /// Whether the process has ended.
    pub(crate) fn ended(&self) -> Ended {
        match self.turn() {
            Some(mut process) => process.ended(),
            None => Ended::Failed,
        }
    }

    /// Whether the process has ended or was stopped; false where somebody else has it this moment.
    pub(crate) fn is_gone(&self) -> bool {
        match self.process.try_lock() {
            Some(mut process) => process.is_gone(),
            None => false,
        }
    }

    /// Kills the process, unless it has ended.
    pub(crate) fn stop(&self) {
        if let Some(mut process) = self.turn() {
            process.stop();
        }
    }

    /// Kills the process, unless it has ended, and waits for its end; how it ended, where it did so by itself.
    pub(crate) fn end(&self) -> Option<ExitStatus> {
        self.turn()?.end()
    }
}
