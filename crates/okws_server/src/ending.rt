//! The last lines of runs that end early.

ghost use Rattle.std.specs.Prelude.{◌≡◌, OnOk, OnErr, []};
ghost use Rattle.okws_outer.specs.Printing.{PrintsOn, printer};
ghost use Rattle.play_script.specs.Refusal.{script_refused};
ghost use Rattle.play_script.specs.Rule.{script_rule_number};
ghost use Rattle.okws_server.specs.Ending.{Told, read_fault_line, no_memory_line, RoseWhere};
ghost use Rattle.okws_server.specs.Ran.{out_status, TellsRefusal};

use crate::script::Broken;
use crate::status::Status;
use config_reader::Refusal;
use okws_outer::printing::print;
use okws_outer::stream::Sink;
use play_script::refusal::{config_refused, script_refused};
use std::alloc::{AllocError, Global};

/// How a run ends that printed all that was due, unless out has stopped.
pub fn out_status(stopped: bool) -> Status
    ensures { result ≡ out_status stopped }
{
    if stopped {
        Status::OutFault
    } else {
        Status::Ok
    }
}

/// Prints the last line of a run of which nothing was printed.
pub fn print_last<O: Sink>(out: &mut O, line: &[u8])
    ensures { Told (O.given out.old) (O.given out.new) line.now (RoseWhere (O.faults out.old) (O.faults out.new)) }
{
    let mut stopped = false;
    print(out, &mut stopped, line);
}

/// The last line of a run where memory was refused.
pub const NO_MEMORY: &[u8] = b"no memory\n";

/// Prints that a file could not be read.
pub fn print_read_fault<O: Sink>(out: &mut O)
    ensures { Told (O.given out.old) (O.given out.new) read_fault_line (RoseWhere (O.faults out.old) (O.faults out.new)) }
{
    print_last(out, b"read fault\n");
}

/// Prints that memory was refused.
pub fn print_no_memory<O: Sink>(out: &mut O)
    ensures { Told (O.given out.old) (O.given out.new) no_memory_line (RoseWhere (O.faults out.old) (O.faults out.new)) }
{
    print_last(out, NO_MEMORY);
}

/// Prints where a configuration is refused, and answers how the run ends.
pub fn print_config_refusal<O: Sink>(alloc: Global, out: &mut O, refusal: Refusal) -> Status
    ensures { TellsRefusal refusal (O.given out.old) (O.given out.new) (RoseWhere (O.faults out.old) (O.faults out.new)) result }
{
    match config_refused(alloc, refusal.line as usize, refusal.rule.number()) {
        Ok(line) => {
            print_last(out, &line);
            Status::ConfigRefused
        }
        Err(_) => {
            print_no_memory(out);
            Status::NoMemory
        }
    }
}

/// Prints where a script is refused, behind what was printed before; nothing where memory is refused.
#[tactic(auto, using(okws_outer::proofs::Printed::nothing_on))]
pub fn print_script_refusal<O: Sink>(
    alloc: Global,
    out: &mut O,
    stopped: &mut bool,
    found: Broken,
) -> Result<(), AllocError>
    ensures ok { OnOk result (PrintsOn (printer O.given O.faults out.old stopped.old) (printer O.given O.faults out.new stopped.new) (script_refused found.line (script_rule_number found.rule))) }
    ensures err { OnErr result (PrintsOn (printer O.given O.faults out.old stopped.old) (printer O.given O.faults out.new stopped.new) []) }
{
    let line = script_refused(alloc, found.line, found.rule.number())?;
    print(out, stopped, &line);
    Ok(())
}
