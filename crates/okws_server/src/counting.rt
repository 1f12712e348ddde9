//! The counts that are printed at a server's end.

ghost use Rattle.std.specs.Prelude.{◌≡◌};
ghost use Rattle.okws_outer.specs.Printing.{PrintsOn, printer};
ghost use Rattle.okws_server.specs.Counting.{count_line, counts_text};

use itoa::Buffer;
use okws_outer::printing::print;
use okws_outer::stream::Sink;
use site_run::ended::Counts;

/// Prints a line of a name and a number. Takes no memory.
#[tactic(auto, using(okws_outer::proofs::Printed::then_on))]
fn print_count<O: Sink>(out: &mut O, stopped: &mut bool, name: &[u8], count: u64)
    ensures { PrintsOn (printer O.given O.faults out.old stopped.old) (printer O.given O.faults out.new stopped.new) (count_line name.now count) }
{
    let mut buffer = Buffer::new();
    let digits = buffer.format(count);
    print(out, stopped, name);
    print(out, stopped, digits.as_bytes());
    print(out, stopped, b"\n");
}

/// Prints the counts of a run, a line each. Takes no memory.
pub fn print_counts<O: Sink>(out: &mut O, stopped: &mut bool, counts: &Counts)
    ensures { PrintsOn (printer O.given O.faults out.old stopped.old) (printer O.given O.faults out.new stopped.new) (counts_text counts.now) }
{
    print_count(out, stopped, b"connections ", counts.connections);
    print_count(out, stopped, b"accepts ", counts.accepts);
    print_count(out, stopped, b"launches ", counts.launches);
    print_count(out, stopped, b"publications ", counts.publications);
    print_count(out, stopped, b"logged ", counts.logged);
}
