//! A cell behind its lock, which who launches and a worker take in turn.

ghost use Rattle.std.specs.Prelude.{◌≡◌, ◌≤◌, [], None, length};
ghost use Rattle.okws_base.specs.declared.limit.TheConstants.{MOST_PROXIES};
ghost use Rattle.okws_outer.specs.Families.{IsNewLink};

use crate::bare::Bare;
use crate::dialogs::{REPLY, site};
use crate::holding::{MEMORY, holds};
use okws_base::items::Items;
use okws_base::name::Name;
use okws_outer::children::{Children, Started};
use okws_outer::stream::Link;
use outer_memory::children::{ChildPlan, MemoryChildren};
use service_cell::answer::{Booting, Spoken};
use service_cell::cell::Cell;
use site_cells::cell::SiteCell;
use site_cells::named::Numbered;
use std::alloc::Global;
use std::marker::Brand;
use std::process::Abort;
use turn_lock::Journaled;

/// The number of who launches.
const LAUNCHER: u16 = 3;

/// The cell is booted by who launches, speaks with worker 0, and is retired. What the dialog answers,
/// and the incarnation before the retirement and behind it.
fn take_turns<R: Abort, N: Numbered, L: Link + Drop>(
    rt: &R,
    alloc: Global,
    cell: Cell<L>,
    link: L,
    columns: &mut Bare,
) -> Option<(Spoken, u32, u32)>
    requires launcher { N.launcher ≡ LAUNCHER }
    requires site { cell.config ≡ N.site }
    requires seed { cell.seed ≡ N.run_seed }
    requires few { length N.site.proxies ≤ MOST_PROXIES }
    requires service { cell.service ≡ 0 }
    requires new { (cell.past ≡ []) × (cell.open_dialog ≡ None) × (cell.link ≡ None) }
    requires link { IsNewLink 0 1 (L.wire link) }
{
    let Ok(tokens) = cell.tokens(1) else {
        panic!(rt; "memory was refused");
    };
    let mut held = SiteCell::<N, L>::new(cell);
    held.hold(LAUNCHER);
    match held.boot(link, 1, Items::of(tokens)) {
        Booting::Booted => {}
        Booting::LinkFault(_) | Booting::NoMemory(_) => return None,
    }
    held.hold(0);
    let head = Items::of(Vec::new(alloc));
    let content = Items::of(Vec::new(alloc));
    let answer = held.dialog(head, content, 1, columns);
    let before = held.incarnation();
    held.hold(LAUNCHER);
    let _link = held.retire();
    let behind = held.incarnation();
    let _pasts = held.close();
    Some((answer, before, behind))
}

/// A service's name.
fn guest(rt: &impl Abort, alloc: Global) -> Name {
    let bytes = Items::of(Vec::from_slice(alloc, b"guest").expect(rt, MEMORY));
    Name::new(bytes).expect(rt, "a name")
}

/// What the child of the cell's incarnation does.
const PLANS: [ChildPlan<'static>; 1] = [ChildPlan {
    service: 0,
    incarnation: 1,
    says: REPLY,
    piece: 3,
    failing: &[],
    answers: &[],
}];

#[test]
fn a_cell_is_taken_in_turns(rt: HostRuntime) {
    let alloc = rt.alloc();
    let mut columns = Bare::new(alloc);
    let mut children = MemoryChildren::new(alloc, &PLANS, &[]);
    let Ok(Started { child: _, link }) = children.start(alloc, 0, &guest(&rt, alloc), 1, &[]) else {
        panic!(rt; "not as planned");
    };
    let cell = Cell::new(alloc, site(&rt, alloc), [0; 32], 0, false);
    let taken = take_turns::<_, Brand, _>(&rt, alloc, cell, link, &mut columns);
    holds(&rt, taken == Some((Spoken::Reply, 1, 0)), "taken");
}
