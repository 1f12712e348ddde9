//! Putting the launcher of a run behind its lock.

ghost use Rattle.std.specs.Prelude.{◌≡◌, ◌≤◌, ◌<◌, reverse, IfOk, IfErr, length, vec_len, vec_capacity};
ghost use Rattle.std.specs.Arc.{arc_value};
ghost use Rattle.okws_base.specs.declared.limit.TheConstants.{MOST_PROXIES, MOST_SERVICES};
ghost use Rattle.site_cells.specs.Row.{IsNew};
ghost use Rattle.site_locks.specs.Made.{fresh};
ghost use Rattle.turn_lock.specs.Seats.{AreFresh};
ghost use Rattle.launch_turns.specs.Papers.{ArePapers};

use launch_turns::papers::Papers;
use launch_turns::resting::Resting;
use okld_launch::named::Staffed;
use okws_outer::children::Children;
use okws_outer::keeper::Keeper;
use okws_outer::stream::Sink;
use site_cells::lock_names::CellNames;
use site_cells::seats::CellSeats;
use site_locks::locks::Seats;
use site_locks::named::Site;
use site_locks::noted_link::Noted;
use site_making::order::turned;
use std::alloc::Global;
use turn_lock::{Seat, Turn};

/// The launcher's lock, and the seats of the workers at it, those of number 0 first.
pub(crate) struct Hired<N: Staffed, J: Site, C: CellNames, K: Keeper, S: Sink, F: Children> {
    pub(crate) turn: Turn<Resting<N, J, C, K, S, F>>,
    pub(crate) turns: Vec<Seat<Resting<N, J, C, K, S, F>>>,
}

/// The launcher of a site, at which nothing was launched, behind a lock for so many workers. Where memory is
/// refused, the children come back.
pub(crate) fn hire<N: Staffed, J: Site, C: CellNames, K: Keeper, S: Sink, F: Children + Drop>(
    alloc: Global,
    papers: Papers,
    seats: Seats<N, J, K, S>,
    cells: CellSeats<N, C, Noted<N, J, K, S, F>>,
    children: F,
    workers: u16,
    keeps: bool,
) -> Result<Hired<N, J, C, K, S, F>, F>
    requires papers { ArePapers N.site N.run_seed papers.journal (arc_value papers.site) papers.seed }
    requires seats { seats ≡ fresh (length N.site.proxies) N.launcher }
    requires cells { IsNew (length N.site.services) N.launcher cells }
    requires few { (length N.site.proxies ≤ MOST_PROXIES) × (length N.site.services ≤ MOST_SERVICES) }
    requires children { F.family children ≡ N.children }
    requires workers { 0 < workers }
    ensures ok { IfOk result (λ h. (h.turn.count ≡ workers) × (vec_len h.turns ≡ workers) × (workers ≤ vec_capacity h.turns) × AreFresh h.turn.id h.turn.label 0 (reverse h.turns.items)) }
    ensures err { IfErr result (λ f. F.family f ≡ F.family children) }
{
    let launcher = papers.launcher(alloc, seats, cells, children, keeps)?;
    match Turn::new(alloc, launcher, workers) {
        Ok((turn, turns)) => Ok(Hired {
            turn,
            turns: turned(turns),
        }),
        Err(launcher) => {
            let (_past, crew, _deeds) = launcher.close();
            Err(crew.into_children())
        }
    }
}
