//! What stands behind a door.

ghost use Rattle.std.specs.Prelude.{◌≡◌, OnOk};
ghost use Rattle.http_front.specs.Requests.{HasTarget};
ghost use Rattle.door_worker.specs.declared.handler.Outcome.{Outcome};
ghost use Rattle.http_front.specs.Replies.{Replied};
ghost use Rattle.door_worker.specs.Asking.{Asked, asked_by};

use http_front::reading::Request;
use http_front::reply::Reply;
use monitor_model::record::End;
use std::alloc::AllocError;

/// What became of a request.
#[derive(Clone, Copy, PartialEq, Eq)]
pub enum Outcome {
    /// Nobody owns its path.
    NotOwned,
    /// The owner of its path isn't up.
    Down,
    /// It went to an incarnation that wasn't there.
    Missed,
    /// Its dialog ended so; where a service replied, the Reply is at hand.
    Ended(End),
    /// Memory was refused before its dialog.
    NoMemory,
}

/// All that stands behind a door: who owns a path, and the dialog with the service that does.
pub trait Handler {
    /// What was done behind the door so far, as contracts see it.
    ghost State: { Type 0 };

    /// What was done so far.
    ghost state: { Self → State };

    /// That there is room for what is noted of one connection more.
    ghost has_room: { Self → Type 0 };

    /// That this became of a request: from what was done before, with the Reply that is at hand then,
    /// to what was done then.
    ghost handles: { State → Asked → Outcome → Replied → State → Type 0 };

    /// That want of memory was noted: from what was done before to what was done then.
    ghost starves: { State → State → Type 0 };

    /// Makes sure of room for what is noted of one connection. Nothing else changes, also where memory is
    /// refused.
    fn make_room(&mut self) -> Result<(), AllocError>
        ensures room { OnOk result (has_room self.new) }
        ensures state { state self.new ≡ state self.old };

    /// Handles a request; where a service replied, the Reply is filled.
    fn handle(&mut self, request: Request, reply: &mut Reply) -> Outcome
        requires room { has_room self.old }
        requires target { HasTarget request }
        ensures { handles (state self.old) (asked_by request) result reply.new (state self.new) };

    /// Notes that memory was refused for a request before it was whole. Takes no memory.
    fn starve(&mut self)
        requires { has_room self.old }
        ensures { starves (state self.old) (state self.new) };
}
