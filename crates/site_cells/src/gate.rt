//! What is passed before a cell's turn for a dialog.

use awaited_pipe::Patience;
use std::sync::{Mutex, MutexGuard, Wait};

/// How often a gate is tried before who waits for it sleeps.
const TRIES: u64 = 60;

/// Who wants a cell's turn for a dialog passes its gate before, which may be passed again by the one that left
/// it: turns are served in order, and a thread that sleeps is slow to take its turn. A dialog mostly ends sooner
/// than a thread could sleep and be woken, so who waits for a gate tries it for a while.
#[derive(Drop)]
pub struct DialogGate {
    shut: Mutex<bool>,
    patience: Patience,
}

impl DialogGate {
    /// A gate that nobody is in.
    pub(crate) fn new() -> DialogGate {
        DialogGate {
            shut: Mutex::new(false),
            patience: Patience::new(TRIES),
        }
    }

    /// Passes the gate, which is shut for others until the guard is let go.
    pub(crate) fn pass<R: Wait>(&self, rt: &R) -> MutexGuard<'_, bool> {
        let mut looks = self.patience.begin();
        for _ in 0..u64::MAX {
            if let Some(guard) = self.shut.try_lock() {
                looks.end();
                return guard;
            }
            if !looks.again() {
                break;
            }
        }
        self.shut.lock(rt)
    }
}
