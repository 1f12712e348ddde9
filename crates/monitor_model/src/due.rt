//! What was due on a link as it failed.

ghost use Rattle.std.specs.Prelude.{◌≡◌, []};
ghost use Rattle.frame_codec.specs.Spelling.{server_spelling};

use frame_codec::frame::ServerFrame;
use okws_base::told::{Says, Told};
use std::marker::Model;

/// The bytes of the frame that was due in a dialog as its link failed; none where nothing was due, or
/// where the link didn't fail. It has no bytes itself: contracts alone see it.
#[derive(Drop)]
pub struct Due {
    told: Told<ServerFrame>,
}

impl Model for Due {
    ghost use Rattle.std.specs.Prelude.{List, ℕ};
    ghost use Rattle.monitor_model.specs.Due.{due_text};

    ghost Value = { List ℕ };

    ghost view = { λ a. due_text a.told.past };
}

/// A frame that is borrowed.
#[derive(Clone, Copy)]
struct Borrowed<'a> {
    frame: &'a ServerFrame,
}

impl<'a> Says for Borrowed<'a> {
    type Item = ServerFrame;

    ghost item = { λ b. b.frame.now };
}

impl Due {
    /// Nothing was due.
    pub fn none() -> Self
        ensures { result ≡ [] }
    {
        Due { told: Told::new() }
    }

    /// This frame was due.
    pub fn frame(frame: &ServerFrame) -> Self
        ensures { result ≡ server_spelling frame.now }
    {
        Due {
            told: Told::new().and(&Borrowed { frame }),
        }
    }
}
