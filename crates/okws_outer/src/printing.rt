//! Prints to a sink, and gives it nothing more once it has failed.

ghost use Rattle.okws_outer.specs.Printing.{PrintsOn, printer};

use crate::stream::{Put, Sink};

/// Prints these bytes, unless the sink has stopped: `stopped` tells that a put to it has failed. The
/// caller goes on in either case.
pub fn print<O: Sink>(out: &mut O, stopped: &mut bool, bytes: &[u8])
    ensures { PrintsOn (printer O.given O.faults out.old stopped.old) (printer O.given O.faults out.new stopped.new) bytes.now }
{
    if !*stopped {
        match out.put(bytes) {
            Put::Done => {}
            Put::Stopped(_) => *stopped = true,
        }
    }
}
