//! The children of a server in memory, on the ways that no clause tells. Not tested here: real children, and what
//! threads do to each other.

use crate::holding::{MEMORY, has_failed, holds};
use crate::objects::is;
use okws_base::items::Items;
use okws_base::name::Name;
use okws_outer::child::{Child, Ended};
use okws_outer::children::{Children, Started};
use okws_outer::stream::{Link, Pull, Put};
use outer_memory::children::{ChildLink, ChildPlan, MemoryChildren};
use std::alloc::Global;
use std::process::Abort;

const PLANS: [ChildPlan<'static>; 1] = [ChildPlan {
    service: 1,
    incarnation: 2,
    says: b"hello",
    piece: 3,
    failing: &[1],
    answers: &[Ended::No, Ended::Failed, Ended::Yes],
}];

/// A service's name.
fn guest(rt: &impl Abort, alloc: Global) -> Name {
    let bytes = Items::of(Vec::from_slice(alloc, b"guest").expect(rt, MEMORY));
    Name::new(bytes).expect(rt, "a name")
}

/// The link says `hel`, fails once, and takes four bytes as soon as there is room.
fn speaks(rt: &impl Abort, link: &mut ChildLink) {
    let mut piece = [0u8; 8];
    holds(rt, link.pull(&mut piece) == Pull::Took(3), "pull");
    holds(rt, link.pull(&mut piece) == Pull::Failed, "pull");
    holds(rt, link.put(b"boot") == Put::Stopped(0), "put");
    holds(rt, link.make_room(4).is_ok(), "room");
    holds(rt, link.put(b"boot") == Put::Done, "put");
}

/// One start and one end are told.
fn tells_a_child(rt: &impl Abort, children: &MemoryChildren) {
    holds(rt, children.faults() == 1, "faults");
    let (Some([start]), Some([end])) = (children.started(), children.finished()) else {
        panic!(rt; "not as planned");
    };
    holds(
        rt,
        (start.service, start.incarnation, start.after) == (1, 2, 0),
        "the start",
    );
    holds(rt, is(&start.says, b"hello"), "says");
    holds(
        rt,
        (end.service, end.incarnation, end.faults) == (1, 2, 2),
        "the end",
    );
    holds(rt, end.ended, "ended");
    holds(rt, is(&end.left, b"lo"), "left");
    holds(rt, is(&end.given, b"boot"), "given");
}

#[test]
fn children_do_what_is_planned(rt: HostRuntime) {
    let mut children = MemoryChildren::new(rt.alloc(), &PLANS, &[0]);
    let refused = children.start(rt.alloc(), 1, &guest(&rt, rt.alloc()), 1, &[]);
    holds(&rt, has_failed(refused), "refused");
    let Ok(
        Started {
            mut child,
            mut link,
        },
    ) = children.start(rt.alloc(), 1, &guest(&rt, rt.alloc()), 2, &[])
    else {
        panic!(rt; "not as planned");
    };
    speaks(&rt, &mut link);
    holds(&rt, child.ended() == Ended::No, "not yet");
    holds(&rt, child.ended() == Ended::Failed, "failed");
    holds(&rt, child.ended() == Ended::Yes, "ended");
    child.stop();
    children.finish(1, 2, child, link);
    tells_a_child(&rt, &children);
}

#[test]
fn child_without_a_plan_is_silent(rt: HostRuntime) {
    let mut children = MemoryChildren::new(rt.alloc(), &PLANS, &[]);
    let Ok(
        Started {
            mut child,
            mut link,
        },
    ) = children.start(rt.alloc(), 1, &guest(&rt, rt.alloc()), 1, &[])
    else {
        panic!(rt; "not as planned");
    };
    holds(&rt, link.pull(&mut [0u8; 8]) == Pull::End, "pull");
    holds(&rt, child.ended() == Ended::No, "not yet");
    child.stop();
    children.finish(1, 1, child, link);
}

/// A child is started and finished.
fn passes(rt: &impl Abort, alloc: Global, children: &mut MemoryChildren, incarnation: u32) {
    let Ok(Started { mut child, link }) = children.start(
        alloc,
        1,
        &guest(rt, alloc),
        incarnation,
        &[],
    ) else {
        panic!(rt; "not as planned");
    };
    child.stop();
    children.finish(1, incarnation, child, link);
}

#[test]
fn start_tells_how_many_were_finished(rt: HostRuntime) {
    let mut children = MemoryChildren::new(rt.alloc(), &PLANS, &[]);
    for incarnation in [1, 2, 3] {
        passes(&rt, rt.alloc(), &mut children, incarnation);
    }
    let Some([first, second, third]) = children.started() else {
        panic!(rt; "not as planned");
    };
    holds(
        &rt,
        (first.after, second.after, third.after) == (0, 1, 2),
        "after",
    );
}

#[test]
fn absent_children_refuse_each_start(rt: HostRuntime) {
    let mut children = MemoryChildren::absent(rt.alloc());
    for _ in 0..2 {
        let child = children.start(rt.alloc(), 0, &guest(&rt, rt.alloc()), 1, &[]);
        holds(&rt, has_failed(child), "refused");
    }
    holds(&rt, children.faults() == 2, "faults");
}
