//! A worker at the console.

ghost use Rattle.std.specs.Prelude.{◌≡◌};
ghost use Rattle.site_worker.specs.Steering.{told_of};

use crate::worker::{TURN_ITEMS, Worker};
use admin_console::controls::{Controls, Publishing, Relaunching, Status};
use monitor_model::verdict::Published;
use okld_launch::answer::Launched;
use okld_launch::named::Staffed;
use okws_base::items::Items;
use okws_outer::children::Children;
use okws_outer::gate::Gate;
use okws_outer::keeper::Keeper;
use okws_outer::stream::Sink;
use site_cells::lock_names::CellNames;
use site_locks::named::Site;
use std::sync::Wait;

// What an operator is told of a launch.
fn told_of(answer: Launched) -> Relaunching
    ensures { result ≡ told_of answer }
{
    match answer {
        Launched::Up(incarnation) => Relaunching::Up(incarnation),
        Launched::Dead(tries) => Relaunching::Dead(tries),
        Launched::Spent => Relaunching::Spent,
        Launched::NoMemory => Relaunching::NoMemory,
    }
}

impl<
    'a,
    R: Wait,
    G: Gate,
    N: Staffed,
    J: Site,
    C: CellNames,
    K: Keeper,
    S: Sink,
    F: Children,
> Controls for Worker<'a, R, G, N, J, C, K, S, F> {
    ghost use Rattle.site_worker.specs.Lives.{Life};
    ghost use Rattle.site_worker.specs.Steering.{Publishes, Relaunches, Surveys};

    ghost State = { Life };

    ghost state = { λ w. w.life };

    ghost config = { λ _. N.site };

    ghost publishes = { Publishes };

    ghost relaunches = { Relaunches N.site };

    ghost surveys = { Surveys N.site };

    fn publish(&mut self, template: u16, content: Items<u8>) -> Publishing {
        if self.make_spare(TURN_ITEMS).is_err() {
            return Publishing::NoMemory;
        }
        match self.hands.publish(template, content) {
            Ok(Published::Edition(number)) => Publishing::Edition(number),
            Ok(Published::EditionsSpent) => Publishing::EditionsSpent,
            Ok(Published::NoSuchTemplate | Published::TooLong) => unreachable!(),
            Err(_) => {
                self.note_starved();
                Publishing::NoMemory
            }
        }
    }

    fn relaunch(&mut self, service: u16) -> Relaunching {
        if self.make_spare(TURN_ITEMS).is_err() {
            return Relaunching::NoMemory;
        }
        told_of(self.ask(service))
    }

    fn status(&mut self) -> Status {
        let (connections, standing, note) = self.look_turn();
        let counted = self.count(note);
        Status {
            connections,
            accepts: counted.accepts,
            launches: counted.launches,
            publications: counted.publications,
            logged: counted.logged,
            up: standing.up,
            down: standing.down,
            dead: standing.dead,
        }
    }
}
