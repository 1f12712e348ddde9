//! A worker that carries out an operator's commands.

ghost use Rattle.std.specs.Prelude.{◌≡◌, ◌≤◌, length};
ghost use Rattle.okws_base.specs.declared.limit.TheConstants.{MOST_SERVICES, MOST_TEMPLATES};
ghost use Rattle.site_worker.specs.Commands.{Oversees};
ghost use Rattle.site_worker.specs.Lives.{SameWorker};

use crate::worker::Worker;
use admin_console::reader::Reader;
use admin_console::step::{Stepped, step};
use okld_launch::named::Staffed;
use okws_outer::children::Children;
use okws_outer::conn::Conn;
use okws_outer::gate::Gate;
use okws_outer::keeper::Keeper;
use okws_outer::stream::Sink;
use okws_plan::configuration::Config;
use site_cells::lock_names::CellNames;
use site_locks::named::Site;
use std::sync::Wait;

/// How the console ended.
#[derive(Clone, Copy)]
pub enum Overseen {
    /// By `end`, or by the end of its input.
    Finished,
    /// By `stop`, which is not carried out and not answered yet.
    Stop,
    /// A call of it failed and was counted.
    ConsoleFault,
}

impl<
    'a,
    R: Wait,
    G: Gate,
    N: Staffed,
    J: Site,
    C: CellNames,
    K: Keeper,
    S: Sink,
    F: Children,
> Worker<'a, R, G, N, J, C, K, S, F> {
    /// Carries out the commands of a console and answers them, one after the other, until it ends.
    pub fn oversee<O: Conn>(
        &mut self,
        console: &mut O,
        reader: &mut Reader,
        site: &Config,
    ) -> Overseen
        requires config { site.now ≡ N.site }
        requires services { length N.site.services ≤ MOST_SERVICES }
        requires templates { length N.site.templates ≤ MOST_TEMPLATES }
        ensures oversees { Oversees N.site (O.wire console.old) (O.wire console.new) reader.old reader.new self.old.life self.new.life result }
        ensures same { SameWorker self.old.life self.new.life }
    {
        let rt = self.rt;
        let alloc = self.alloc;
        for _ in rt.forever() {
            match step(rt, alloc, console, reader, site, self) {
                Stepped::Answered(_) => {}
                Stepped::Finished => return Overseen::Finished,
                Stepped::Stop => return Overseen::Stop,
                Stepped::ConsoleFault(_) => return Overseen::ConsoleFault,
            }
        }
        unreachable!()
    }
}
