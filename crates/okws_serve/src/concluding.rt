//! What is left to do once the console was overseen.

ghost use Rattle.std.specs.Prelude.{◌≡◌, ◌+◌, slice_index};
ghost use Rattle.site_worker.specs.declared.console.Overseen.TheVariants as left;
ghost use Rattle.site_worker.specs.declared.door.TheConstants.{STOPPED};
ghost use Rattle.okws_serve.specs.Posts.{Concludes, is_cut};

use crate::outfit::Ending;
use admin_console::answer::Answer;
use admin_console::reader::Reader;
use admin_console::step::{Stepped, tell};
use okws_outer::conn::Conn;
use site_worker::console::Overseen;
use site_worker::door::STOPPED;
use turn_lock::board::{Board, Seat as Place};

// Whether a call of the console failed in a step.
fn is_cut(stepped: Stepped) -> bool
    ensures { result ≡ is_cut stepped }
{
    match stepped {
        Stepped::Answered(_) | Stepped::Finished | Stepped::Stop => false,
        Stepped::ConsoleFault(_) => true,
    }
}

// Draws all numbers of connections that are left, shows at the board that the run is stopped, and answers the
// `stop` by how many numbers were drawn before, of those below the limit.
fn stop<O: Conn>(
    console: &mut O,
    reader: &mut Reader,
    numbers: &Board,
    place: &mut Place,
    most: u64,
) -> Ending
    requires board { place.old.board ≡ numbers.now.id }
    requires last { place.old.number + 1 ≡ numbers.now.count }
    requires calm { slice_index place.old.seen STOPPED ≡ 0 }
    ensures concludes { Concludes most left.Stop (O.wire console.old) (O.wire console.new) place.old place.new result }
    ensures lines { reader.new ≡ reader.old }
{
    let first = numbers.draw_rest(place);
    numbers.raise(place, STOPPED, 1);
    let count = first.min(most);
    let told = tell(console, reader, Answer::Stopping(count));
    Ending {
        stopped: Some(count),
        failed: is_cut(told),
    }
}

/// Carries out what is left to do where a console was overseen so.
pub(crate) fn conclude<O: Conn>(
    console: &mut O,
    reader: &mut Reader,
    numbers: &Board,
    place: &mut Place,
    most: u64,
    overseen: Overseen,
) -> Ending
    requires board { place.old.board ≡ numbers.now.id }
    requires last { place.old.number + 1 ≡ numbers.now.count }
    requires calm { slice_index place.old.seen STOPPED ≡ 0 }
    ensures concludes { Concludes most overseen (O.wire console.old) (O.wire console.new) place.old place.new result }
    ensures lines { reader.new ≡ reader.old }
{
    match overseen {
        Overseen::Finished => Ending {
            stopped: None,
            failed: false,
        },
        Overseen::ConsoleFault => Ending {
            stopped: None,
            failed: true,
        },
        Overseen::Stop => stop(console, reader, numbers, place, most),
    }
}
