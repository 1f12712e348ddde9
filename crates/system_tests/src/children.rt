//! Real children.

ghost use Rattle.std.specs.Prelude.{◌≡◌};

use crate::holding::{MEMORY, has_failed, holds};
use okws_base::items::Items;
use okws_base::name::Name;
use okws_outer::child::{Child, Ended};
use okws_outer::children::{Children, Started};
use okws_outer::stream::{Link, Pull, Put};
use okws_system::children::RealChildren;
use std::alloc::Global;
use std::process::Abort;
use std::rt::Clock;
use std::time::{Duration, Instant};
use std::{env, thread};

/// A service's name.
fn guest(rt: &impl Abort, alloc: Global) -> Name {
    let bytes = Items::of(Vec::from_slice(alloc, b"guest").expect(rt, MEMORY));
    Name::new(bytes).expect(rt, "a name")
}

/// Words of a program.
fn words(rt: &impl Abort, alloc: Global, texts: &[&str]) -> Vec<Items<u8>> {
    let mut words = Vec::new(alloc);
    for text in texts {
        let word = Vec::from_slice(alloc, text.as_bytes()).expect(rt, MEMORY);
        words.push(Items::of(word)).expect(rt, MEMORY);
    }
    words
}

/// Waits until a child has ended, thirty seconds at most.
fn has_ended<R: Clock, C: Child>(rt: &R, child: &mut C) -> bool
    ensures service { (C.life child.new).service ≡ (C.life child.old).service }
    ensures incarnation { (C.life child.new).incarnation ≡ (C.life child.old).incarnation }
    ensures stopped { (C.life child.new).stopped ≡ (C.life child.old).stopped }
{
    for _ in 0..3_000 {
        if child.ended() == Ended::Yes {
            return true;
        }
        let _ = thread::sleep(rt, Duration::from_millis(10));
    }
    false
}

/// Gives a link five bytes, and takes them in pieces of four at most.
fn is_heard<L: Link>(link: &mut L) -> bool {
    let mut piece = [0u8; 4];
    if link.put(b"hello") != Put::Done || link.pull(&mut piece) != Pull::Took(4) {
        return false;
    }
    piece == *b"hell" && link.pull(&mut piece) == Pull::Took(1) && piece[0] == b'o'
}

/// Whether a link's other end is closed.
fn is_cut<L: Link>(link: &mut L) -> bool {
    link.put(b"hello") == Put::Stopped(0) && link.pull(&mut [0u8; 4]) == Pull::End
}

#[test]
fn child_says_what_it_heard(rt: HostRuntime) {
    let mut children = RealChildren::new(&rt, rt.stderr());
    let cat = words(&rt, rt.alloc(), &["/bin/cat"]);
    let Ok(
        Started {
            mut child,
            mut link,
        },
    ) = children.start(rt.alloc(), 0, &guest(&rt, rt.alloc()), 1, &cat)
    else {
        panic!(rt; "not as planned");
    };
    holds(&rt, is_heard(&mut link), "heard");
    child.stop();
    holds(&rt, has_ended(&rt, &mut child), "ended");
    holds(&rt, is_cut(&mut link), "cut");
    holds(&rt, link.faults() == 1, "faults");
    children.finish(0, 1, child, link);
}

#[test]
fn child_is_ended_at_its_finish(rt: HostRuntime) {
    let mut children = RealChildren::new(&rt, rt.stderr());
    let sleep = words(&rt, rt.alloc(), &["/bin/sleep", "600"]);
    let Ok(Started { mut child, link }) = children.start(
        rt.alloc(),
        0,
        &guest(&rt, rt.alloc()),
        1,
        &sleep,
    ) else {
        panic!(rt; "not as planned");
    };
    child.stop();
    children.finish(0, 1, child, link);
}

#[test]
fn child_that_ends_is_seen(rt: HostRuntime) {
    let mut children = RealChildren::new(&rt, rt.stderr());
    let truth = words(&rt, rt.alloc(), &["/bin/true"]);
    let Ok(
        Started {
            mut child,
            mut link,
        },
    ) = children.start(rt.alloc(), 0, &guest(&rt, rt.alloc()), 1, &truth)
    else {
        panic!(rt; "not as planned");
    };
    holds(&rt, link.pull(&mut [0u8; 4]) == Pull::End, "the end");
    holds(&rt, has_ended(&rt, &mut child), "ended");
    child.stop();
    children.finish(0, 1, child, link);
}

/// Whether no child is started of these words.
fn is_refused<R: Abort, C: Children>(
    rt: &R,
    children: &mut C,
    alloc: Global,
    texts: &[&str],
) -> bool {
    let program = words(rt, alloc, texts);
    has_failed(children.start(alloc, 0, &guest(rt, alloc), 1, &program))
}

#[test]
fn what_is_no_program_fails(rt: HostRuntime) {
    let mut children = RealChildren::new(&rt, rt.stderr());
    holds(
        &rt,
        is_refused(&rt, &mut children, rt.alloc(), &["/nowhere/program"]),
        "nowhere",
    );
    holds(
        &rt,
        is_refused(&rt, &mut children, rt.alloc(), &["/tmp"]),
        "a folder",
    );
    holds(
        &rt,
        is_refused(&rt, &mut children, rt.alloc(), &[]),
        "no words",
    );
    holds(&rt, children.faults() == 3, "faults");
}

/// A program of the shell that leaves another, which has its pipes for four seconds.
fn shell(rt: &impl Abort, alloc: Global, text: &str) -> Vec<Items<u8>> {
    words(rt, alloc, &["/bin/sh", "-c", text])
}

/// Whether a link whose pipes somebody else holds has ended, and takes no more than what there is room for.
fn is_let_go<L: Link>(link: &mut L) -> bool {
    let put = link.put(&[b'a'; 200_000]);
    matches!(put, Put::Stopped(_)) && link.pull(&mut [0u8; 4]) == Pull::End
}

#[test]
fn nobody_waits_for_what_an_ended_child_left(rt: HostRuntime) {
    let mut children = RealChildren::new(&rt, rt.stderr());
    let leaves = shell(&rt, rt.alloc(), "exec 3<&0; sleep 4 <&3 & exit 0");
    let Ok(
        Started {
            mut child,
            mut link,
        },
    ) = children.start(rt.alloc(), 0, &guest(&rt, rt.alloc()), 1, &leaves)
    else {
        panic!(rt; "not as planned");
    };
    let begun = Instant::now(&rt).expect(&rt, "no clock");
    holds(&rt, is_let_go(&mut link), "let go");
    child.stop();
    children.finish(0, 1, child, link);
    let took = begun.elapsed(&rt).expect(&rt, "no clock");
    holds(&rt, took < Duration::from_secs(3), "soon");
}

#[test]
fn nobody_waits_for_what_a_stopped_child_left(rt: HostRuntime) {
    let mut children = RealChildren::new(&rt, rt.stderr());
    let leaves = shell(&rt, rt.alloc(), "exec 3<&0; sleep 4 <&3 & exec sleep 600");
    let Ok(
        Started {
            mut child,
            mut link,
        },
    ) = children.start(rt.alloc(), 0, &guest(&rt, rt.alloc()), 1, &leaves)
    else {
        panic!(rt; "not as planned");
    };
    let _ = thread::sleep(&rt, Duration::from_millis(300));
    let begun = Instant::now(&rt).expect(&rt, "no clock");
    child.stop();
    holds(&rt, is_let_go(&mut link), "let go");
    children.finish(0, 1, child, link);
    let took = begun.elapsed(&rt).expect(&rt, "no clock");
    holds(&rt, took < Duration::from_secs(3), "soon");
}

/// All bytes that come on a link.
fn all_of<L: Link>(rt: &impl Abort, alloc: Global, link: &mut L) -> Vec<u8> {
    let mut all = Vec::new(alloc);
    let mut piece = [0u8; 64];
    for _ in 0..100_000 {
        match link.pull(&mut piece) {
            Pull::Took(count) => {
                let came = piece.get(..count).unwrap_or(b"");
                all.extend_from_slice(came).expect(rt, MEMORY);
            }
            Pull::End | Pull::Failed => break,
        }
    }
    all
}

#[test]
fn child_has_path_alone(rt: HostRuntime) {
    let mut children = RealChildren::new(&rt, rt.stderr());
    let shows = words(&rt, rt.alloc(), &["/usr/bin/env"]);
    let Ok(
        Started {
            mut child,
            mut link,
        },
    ) = children.start(rt.alloc(), 0, &guest(&rt, rt.alloc()), 1, &shows)
    else {
        panic!(rt; "not as planned");
    };
    let shown = all_of(&rt, rt.alloc(), &mut link);
    let wanted = match env::var(&rt, "PATH") {
        Ok(path) => format!(in rt.alloc(); "PATH={path}\n"),
        Err(_) => format!(in rt.alloc(); ""),
    };
    let wanted = wanted.expect(&rt, MEMORY);
    holds(&rt, shown.as_slice() == wanted.as_bytes(), "shown");
    child.stop();
    children.finish(0, 1, child, link);
}
