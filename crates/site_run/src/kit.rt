//! What a run needs in memory, taken before it begins.

ghost use Rattle.std.specs.Prelude.{◌≡◌, ◌≤◌, ◌<◌, ◌+◌, [], length, map, IfOk, vec_len, IfErr};
ghost use Rattle.std.specs.Arc.{arc_value};
ghost use Rattle.okws_base.specs.declared.limit.TheConstants.{MOST_DOORS};
ghost use Rattle.turn_lock.specs.BoardSeats.{IsFresh};
ghost use Rattle.turn_lock.specs.Rows.{AllCount};
ghost use Rattle.site_locks.specs.Sat.{ids_of};
ghost use Rattle.site_making.specs.Making.{IsServable};
ghost use Rattle.site_run.specs.Places.{AllIdle};
ghost use Rattle.site_run.specs.Rooms.{IsStock};
ghost use Rattle.site_run.specs.Whole.{IsReady};
ghost use Rattle.site_run.specs.declared.room.Desk.{Desk};

use crate::room::{Office, Room};
use crate::whole::{Run, name};
use admin_console::reader::Reader;
use launch_turns::papers::Papers;
use named_columns::named::Backed;
use okld_launch::named::Staffed;
use okws_outer::children::Children;
use okws_outer::door::Door;
use okws_outer::keeper::Keeper;
use okws_outer::stream::{Link, Sink};
use okws_plan::configuration::Config;
use site_cells::lock_names::CellNames;
use site_cells::making::NewCells;
use site_columns::opening::shared;
use site_locks::making::Made;
use site_locks::named::Site;
use site_locks::noted_link::Noted;
use site_making::making::make_cell_locks;
use std::alloc::{AllocError, Global};
use std::marker::Model;
use std::sync::Arc;
use token_core::Seed;

/// Memory that a run takes before it begins: its columns and its cells, whose locks are there but not named to
/// it yet, and what is needed beside them. The cells' links tell of the columns' locks.
pub struct Kit<N: Backed, K: Keeper, S: Sink, L: Link> {
    pub columns: Made<N, K, S>,
    pub cells: NewCells<N, L>,
    pub stock: Stock<N, K, L>,
}

impl<N: Backed, K: Keeper + Drop, S: Sink + Drop, L: Link + Drop> Drop for Kit<N, K, S, L> {
    fn drop(self) {
        let Kit {
            columns,
            cells,
            stock,
        } = self;
        drop(columns);
        drop(cells);
        drop(stock);
    }
}

impl<N: Backed, K: Keeper, S: Sink, L: Link> Kit<N, K, S, L> {
    // The columns, the cells, and what is beside them.
    fn into_parts(self) -> (Made<N, K, S>, NewCells<N, L>, Stock<N, K, L>)
        ensures columns { result.0 ≡ self.columns }
        ensures cells { result.1 ≡ self.cells }
        ensures stock { result.2 ≡ self.stock }
    {
        let Kit {
            columns,
            cells,
            stock,
        } = self;
        (columns, cells, stock)
    }
}

/// What is needed beside the locks.
pub struct Stock<N: Backed, K: Keeper, L: Link> {
    site: Arc<Config, Global>,
    papers: Papers,
    office: Office,
    reader: Reader,
    room: Room<N, K, L>,
}

impl<N: Backed, K: Keeper + Drop, L: Link + Drop> Drop for Stock<N, K, L> {
    fn drop(self) {
        let Stock {
            site,
            papers,
            office,
            reader,
            room,
        } = self;
        drop(site);
        drop(papers);
        drop(office);
        drop(reader);
        drop(room);
    }
}

impl<N: Backed, K: Keeper, L: Link> Model for Stock<N, K, L> {
    ghost use Rattle.std.specs.Prelude.{map};
    ghost use Rattle.std.specs.Arc.{arc_value};
    ghost use Rattle.site_run.specs.declared.room.Desk.{Desk};
    ghost use Rattle.site_run.specs.Rooms.{StockIs};

    ghost Value = { StockIs };

    ghost view = { λ x. record { shown = arc_value x.site; journal = x.papers.journal; site = arc_value x.papers.site; seed = x.papers.seed; numbers = x.office.numbers; places = map (λ (d : Desk). d.place) x.office.desks.items; last = x.office.last; lines = x.reader; room = x.room } };
}

impl<N: Backed, K: Keeper, L: Link> Stock<N, K, L> {
    // The site, what the launcher takes, the office, the reader of the console's lines, and room for the end.
    fn into_parts(self) -> (Arc<Config, Global>, Papers, Office, Reader, Room<N, K, L>)
        ensures { self ≡ record { shown = arc_value result.0; journal = result.1.journal; site = arc_value result.1.site; seed = result.1.seed; numbers = result.2.numbers; places = map (λ (d : Desk). d.place) result.2.desks.items; last = result.2.last; lines = result.3; room = result.4 } }
    {
        let Stock {
            site,
            papers,
            office,
            reader,
            room,
        } = self;
        (site, papers, office, reader, room)
    }
}

// What a run with so many doors needs beside its locks.
fn make_stock<N: Backed, K: Keeper + Drop, L: Link + Drop>(
    alloc: Global,
    site: &Arc<Config, Global>,
    seed: &Seed,
    doors: u16,
    keeps: bool,
) -> Result<Stock<N, K, L>, AllocError>
    requires site { arc_value site.now ≡ N.site }
    requires seed { seed.now ≡ N.run_seed }
    requires doors { (0 < doors) × (doors ≤ MOST_DOORS) }
    ensures { IfOk result (IsStock N.site N.run_seed doors) }
{
    let proxies = site.proxies.as_slice().len();
    let services = site.services.as_slice().len();
    let shown = shared(site)?;
    let papers = Papers::new(alloc, site, seed, keeps)?;
    let office = Office::new(alloc, doors)?;
    let reader = Reader::new(alloc)?;
    let room = Room::new(alloc, proxies, services, doors as usize)?;
    Ok(Stock {
        site: shown,
        papers,
        office,
        reader,
        room,
    })
}

/// The memory of a run with so many doors, whose columns have locks. Where memory is refused, these are let go.
pub fn make_kit<N: Backed, K: Keeper + Drop, S: Sink + Drop, L: Link + Drop>(
    alloc: Global,
    site: &Arc<Config, Global>,
    seed: &Seed,
    doors: u16,
    keeps: bool,
    columns: Made<N, K, S>,
) -> Result<Kit<N, K, S, L>, AllocError>
    requires site { arc_value site.now ≡ N.site }
    requires seed { seed.now ≡ N.run_seed }
    requires servable { IsServable N.site }
    requires doors { (0 < doors) × (doors ≤ MOST_DOORS) × (N.launcher ≡ doors + 1) }
    ensures columns { IfOk result (λ k. k.columns ≡ columns) }
    ensures cells { IfOk result (λ k. (k.cells.numbers ≡ N.launcher + 1) × AllCount (N.launcher + 1) k.cells.turns × (length k.cells.turns ≡ length N.site.services)) }
    ensures stock { IfOk result (λ k. IsStock N.site N.run_seed doors k.stock) }
{
    let cells = make_cell_locks(alloc, site, seed, doors + 2, keeps)?;
    let stock = make_stock(alloc, site, seed, doors, keeps)?;
    Ok(Kit {
        columns,
        cells,
        stock,
    })
}

/// A run that began, and what is beside it: the site, the reader of its console's lines, and room for its end.
pub struct Begun<N: Staffed, J: Site, C: CellNames, K: Keeper, S: Sink, F: Children, D: Door> {
    pub run: Run<N, J, C, K, S, F, D>,
    pub site: Arc<Config, Global>,
    pub reader: Reader,
    pub room: Room<N, K, Noted<N, J, K, S, F>>,
}

/// Gives the locks their names, and begins the run. Where memory is refused, the doors and the children come
/// back.
pub fn begin<
    N: Staffed,
    J: Site,
    C: CellNames,
    K: Keeper + Drop,
    S: Sink + Drop,
    F: Children + Drop,
    D: Door,
>(
    alloc: Global,
    kit: Kit<N, K, S, Noted<N, J, K, S, F>>,
    doors: Vec<D>,
    children: F,
    keeps: bool,
) -> Result<Begun<N, J, C, K, S, F, D>, (Vec<D>, F)>
    requires names { (ids_of kit.columns ≡ J.ids) × (kit.cells.turns ≡ C.cell_turns) }
    requires cells { (kit.cells.numbers ≡ N.launcher + 1) × AllCount (N.launcher + 1) kit.cells.turns × (length kit.cells.turns ≡ length N.site.services) }
    requires stock { IsStock N.site N.run_seed (vec_len doors) kit.stock }
    requires launcher { N.launcher ≡ vec_len doors + 1 }
    requires servable { IsServable N.site }
    requires doors { (0 < vec_len doors) × (vec_len doors ≤ MOST_DOORS) }
    requires idle { AllIdle (map D.entrance doors.items) }
    requires children { F.family children ≡ N.children }
    ensures ready { IfOk result (λ b. IsReady N.site N.launcher b.run.hall.turn b.run.hall.numbers b.run.hall.cells b.run.chairs b.run.places) }
    ensures doors { IfOk result (λ b. b.run.places.entrances ≡ map D.entrance doors.items) }
    ensures beside { IfOk result (λ b. (arc_value b.site ≡ N.site) × (b.reader ≡ 0) × (b.room + 1 ≡ N.launcher)) }
    ensures last { IfOk result (λ b. IsFresh b.run.hall.numbers.id (vec_len doors) b.run.last) }
    ensures back { IfErr result (λ b. (b.0.items ≡ doors.items) × (F.family b.1 ≡ F.family children)) }
{
    let (columns, cells, stock) = kit.into_parts();
    let (site, papers, office, reader, room) = stock.into_parts();
    match name::<N, J, C, K, S, Noted<N, J, K, S, F>>(alloc, columns, cells, keeps) {
        Err(_) => Err((doors, children)),
        Ok(named) => {
            let run = Run::new(alloc, named, papers, office, doors, children, keeps)?;
            Ok(Begun {
                run,
                site,
                reader,
                room,
            })
        }
    }
}
