//! The check of a configuration, which lists its queries.

ghost use Rattle.okws_server.specs.Ending.{RoseWhere};
ghost use Rattle.okws_server.specs.Ran.{Checked, Lists};

use crate::ending::{
    NO_MEMORY, out_status, print_config_refusal, print_no_memory, print_read_fault,
};
use crate::listing::print_listing;
use crate::preparing::{ConfigStop, read_config};
use crate::status::Status;
use okws_outer::files::Files;
use okws_outer::printing::print;
use okws_outer::stream::Sink;
use okws_plan::configuration::Config;
use std::alloc::Global;

/// Prints the listing of a configuration, and answers how the run ends.
fn list<O: Sink>(alloc: Global, out: &mut O, config: &Config) -> Status
    ensures { Lists config.now (O.given out.old) (O.given out.new) (RoseWhere (O.faults out.old) (O.faults out.new)) result }
{
    let mut stopped = false;
    match print_listing(alloc, out, &mut stopped, config) {
        Ok(()) => out_status(stopped),
        Err(_) => {
            print(out, &mut stopped, NO_MEMORY);
            Status::NoMemory
        }
    }
}

/// Reads a configuration, and prints a line for each of its queries, or where it is refused.
pub fn check<F: Files, O: Sink>(alloc: Global, files: &mut F, out: &mut O, path: &str) -> Status
    ensures { Checked (F.shelf files.old) (F.shelf files.new) path.now (O.given out.old) (O.given out.new) (RoseWhere (O.faults out.old) (O.faults out.new)) result }
{
    match read_config(alloc, files, path) {
        Ok(config) => list(alloc, out, &config),
        Err(ConfigStop::ReadFault) => {
            print_read_fault(out);
            Status::ReadFault
        }
        Err(ConfigStop::Refused(refusal)) => print_config_refusal(alloc, out, refusal),
        Err(ConfigStop::NoMemory) => {
            print_no_memory(out);
            Status::NoMemory
        }
    }
}
