//! What a turn tells of what it entered.

ghost use Rattle.std.specs.Prelude.{◌≡◌, ◌≤◌, ◌+◌, List, [], ◌++◌, IfNone, option_to_list};
ghost use Rattle.okws_base.specs.declared.limit.TheConstants.{MOST_INCARNATIONS};
ghost use Rattle.okws_plan.specs.declared.event.LauncherEvent.{LauncherEvent};
ghost use Rattle.okld_launch.specs.Entering.{events_of};

use okws_base::limit::GREATEST_RETRY;
use okws_plan::event::LauncherEvent;
use std::marker::Model;

/// Entries that one turn makes at most, at a site that gives a service up after `GREATEST_RETRY` tries or
/// fewer: each try that failed makes two.
pub const MOST_ENTERED: usize = 2 * GREATEST_RETRY as usize + 2;

/// What a turn entered in the launcher's journal, all of one service. Contracts see it as the list of its
/// events, the newest first. It takes no memory.
#[derive(Drop)]
pub struct Entered {
    service: u16,
    // What was entered before the first attempt.
    opening: Option<LauncherEvent>,
    // The incarnation of the first attempt, and how many failed, one after the other.
    incarnation: u32,
    failed: u32,
    // What was entered after the attempts that failed.
    closing: Option<LauncherEvent>,
}

impl Model for Entered {
    ghost use Rattle.std.specs.Prelude.{◌≤◌, ◌+◌, List};
    ghost use Rattle.okws_base.specs.declared.limit.TheConstants.{MOST_INCARNATIONS};
    ghost use Rattle.okws_plan.specs.declared.event.LauncherEvent.{LauncherEvent};
    ghost use Rattle.okld_launch.specs.Entering.{events_of};

    ghost Value = { List LauncherEvent };

    ghost view = { λ e. events_of e.opening e.service e.incarnation e.failed e.closing };

    ghost invariant = { λ e. e.incarnation + e.failed ≤ MOST_INCARNATIONS + 1 };
}

impl Entered {
    // What opened the turn, the attempts that failed, from this incarnation on, and what closed it.
    pub(crate) fn new(
        opening: Option<LauncherEvent>,
        service: u16,
        incarnation: u32,
        failed: u32,
        closing: Option<LauncherEvent>,
    ) -> Self
        requires counted { incarnation + failed ≤ MOST_INCARNATIONS + 1 }
        ensures { result ≡ events_of opening service incarnation failed closing }
    {
        Entered {
            service,
            opening,
            incarnation,
            failed,
            closing,
        }
    }

    /// Of a turn that enters nothing.
    pub fn nothing(service: u16) -> Self
        ensures { result ≡ [] }
    {
        Entered::new(None, service, 1, 0, None)
    }

    /// Takes the oldest of the events that are left.
    pub fn pop_oldest(&mut self) -> Option<LauncherEvent>
        ensures left { self.old ≡ self.new ++ option_to_list result }
        ensures none { IfNone result (self.old ≡ []) }
    {
        if let Some(event) = self.opening.take() {
            return Some(event);
        }
        if self.failed == 0 {
            return self.closing.take();
        }
        let service = self.service;
        let incarnation = self.incarnation;
        self.opening = Some(LauncherEvent::Failed {
            service,
            incarnation,
        });
        self.incarnation += 1;
        self.failed -= 1;
        Some(LauncherEvent::Begun {
            service,
            incarnation,
        })
    }
}
