//! Cells over links in memory.

ghost use Rattle.std.specs.Prelude.{◌≡◌, ◌≢◌, ℕ, List, IsTrue, ◌↔◌, OnOk, OnErr, option_map, IfSome, true};
ghost use Rattle.monitor_model.specs.Cell.{incarnation};
ghost use Rattle.okws_outer.specs.Wire.{fed, shut};
ghost use Rattle.service_cell.specs.Standing.{IsReadyLink, ended_of, left_of};

use crate::cell::Cell;
use frame_codec::reading::is_short;
use okws_outer::memory::link::FedLink;
use std::alloc::AllocError;

impl<L: FedLink> Cell<L> {
    /// Adds bytes that are to come from the service; where memory is refused all is as before.
    pub fn feed(&mut self, bytes: &[u8]) -> Result<(), AllocError>
        requires { incarnation self.old.past ≢ 0 }
        ensures ok { OnOk result (self.new ≡ record self.old { link = option_map (fed bytes.now) self.old.link }) }
        ensures err { OnErr result (self.new ≡ self.old) }
    {
        match &mut self.wire {
            Some(link) => link.feed(bytes),
            None => unreachable!(),
        }
    }

    /// Says that no bytes are to come behind those that are left.
    pub fn feed_end(&mut self)
        requires { incarnation self.old.past ≢ 0 }
        ensures { self.new ≡ record self.old { link = option_map shut self.old.link } }
    {
        match &mut self.wire {
            Some(link) => link.feed_end(),
            None => unreachable!(),
        }
    }

    /// Whether the end was fed to the link that is there.
    pub fn has_ended(&self) -> bool
        ensures { result ≡ ended_of self.now.link }
    {
        match &self.wire {
            Some(link) => link.is_ended(),
            None => false,
        }
    }

    /// Whether what is left begins with a whole frame, or is bad, or nothing is to come behind it.
    pub fn ready(&self) -> bool
        requires { incarnation self.now.past ≢ 0 }
        ensures { IfSome (left_of self.now.link) (λ left. IsTrue result ↔ IsReadyLink self.now.link left) }
    {
        match &self.wire {
            Some(link) => link.is_ended() || !is_short(link.left()),
            None => unreachable!(),
        }
    }
}
