//! A column of numbers.
ghost use Rattle.std.specs.Prelude.{◌≡◌, [], ◌∷◌, OnOk, OnErr};

use okws_base::journal::{Entry, Journal};
use std::alloc::{AllocError, Global};
use std::marker::Model;
use turn_lock::Journaled;

/// Numbers, each entered by a worker.
#[derive(Drop)]
pub struct Ledger {
    entries: Journal<Entry<u64>>,
    holder: u16,
    label: u16,
}

impl Model for Ledger {
    ghost use Rattle.turn_tests.specs.Works.{LedgerIs};

    ghost Value = { LedgerIs };

    ghost view = { λ l. record { past = l.entries.past; holder = l.holder; label = l.label } };
}

impl Ledger {
    /// The column of this label, with nothing entered.
    pub fn new(alloc: Global, label: u16) -> Self
        ensures past { result.past ≡ [] }
        ensures label { result.label ≡ label }
    {
        Ledger {
            entries: Journal::new(alloc, true),
            holder: 0,
            label,
        }
    }

    /// Enters a number under the holder's; where memory is refused all is as before.
    pub fn enter(&mut self, number: u64) -> Result<(), AllocError>
        ensures ok { OnOk result (self.new ≡ record self.old { past = record { worker = self.old.holder; event = number } ∷ self.old.past }) }
        ensures err { OnErr result (self.new ≡ self.old) }
    {
        self.entries.make_room(1)?;
        self.entries.enter(Entry {
            worker: self.holder,
            event: number,
        });
        Ok(())
    }

    /// The entries, the oldest first.
    pub fn as_slice(&self) -> &[Entry<u64>] {
        self.entries.as_slice().unwrap_or(&[])
    }
}

impl Journaled for Ledger {
    ghost use Rattle.turn_tests.specs.Works.{by_worker};

    type Entry = Entry<u64>;

    ghost journal = { λ l. l.past };

    ghost by = { by_worker };

    ghost holder = { λ l. l.holder };

    ghost label = { λ l. l.label };

    ghost held = { λ l n. record l { holder = n } };

    fn hold(&mut self, number: u16)
        ensures { self.new ≡ record self.old { holder = number } }
    {
        self.holder = number;
    }

    fn label(&self) -> u16 {
        self.label
    }

    fn holder(&self) -> u16 {
        self.holder
    }
}
