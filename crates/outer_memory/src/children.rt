//! Children in memory.

ghost use Rattle.std.specs.Prelude.{◌≡◌, ◌==◌, [], IfOk, IfSome, Some, length, reverse};
ghost use Rattle.okws_outer.specs.Lives.{new_life};
ghost use Rattle.okws_outer.specs.Wire.{unused, fed, shut};

use crate::noted::Noted;
use okws_base::items::{Items, copies};
use okws_base::name::Name;
use okws_base::told::{Parts, Says};
use okws_outer::child::{Child, Ended};
use okws_outer::children::{ChildEnd, ChildName, ChildStart, Children, Started};
use okws_outer::error::MakeError;
use okws_outer::memory::failing::Failing;
use okws_outer::memory::link::{FedLink, MemoryLink};
use okws_outer::stream::{Link, Pull, Put};
use std::alloc::{AllocError, Global};

/// What the child of a service's incarnation does.
#[derive(Clone, Copy)]
pub struct ChildPlan<'a> {
    /// The service, by its number.
    pub service: u16,
    /// The incarnation, from 1.
    pub incarnation: u32,
    /// All bytes that it says.
    pub says: &'a [u8],
    /// They come in pieces of at most so many, and of 1 where this is 0.
    pub piece: usize,
    /// The numbers of the link's calls that fail.
    pub failing: &'a [u64],
    /// What `ended` answers, in order; the last answer goes for all further calls, and none is No.
    pub answers: &'a [Ended],
}

/// What a child does of which there is no plan: it says nothing.
const SILENT: ChildPlan<'static> = ChildPlan {
    service: 0,
    incarnation: 0,
    says: b"",
    piece: 1,
    failing: &[],
    answers: &[],
};

/// A child in memory.
#[derive(Clone, Copy)]
pub struct MemoryChild<'a> {
    service: u16,
    incarnation: u32,
    answers: &'a [Ended],
    asked: u64,
    last: Option<Ended>,
    ended: bool,
    faults: u64,
    stopped: bool,
}

impl<'a> MemoryChild<'a> {
    fn new(service: u16, incarnation: u32, answers: &'a [Ended]) -> Self
        ensures { ⟦<MemoryChild<'a> as Child>⟧.life result ≡ new_life service incarnation }
    {
        MemoryChild {
            service,
            incarnation,
            answers,
            asked: 0,
            last: None,
            ended: false,
            faults: 0,
            stopped: false,
        }
    }
}

/// The next answer; the one of a list's end stays.
fn next_answer(answers: &mut &[Ended]) -> Ended {
    match *answers {
        [] => Ended::No,
        [last] => *last,
        [first, rest @ ..] => {
            *answers = rest;
            *first
        }
    }
}

impl<'a> Child for MemoryChild<'a> {
    ghost life = { λ c. record {
      service = c.service;
      incarnation = c.incarnation;
      asked = c.asked;
      last = c.last;
      ended = c.ended;
      faults = c.faults;
      stopped = c.stopped;
    } };

    fn ended(&mut self) -> Ended {
        let answer = next_answer(&mut self.answers);
        self.asked = self.asked.saturating_add(1);
        self.last = Some(answer);
        match answer {
            Ended::Yes => self.ended = !self.stopped || self.ended,
            Ended::No => {}
            Ended::Failed => self.faults = self.faults.saturating_add(1),
        }
        answer
    }

    fn stop(&mut self) {
        self.stopped = true;
    }
}

/// The link of a child in memory, to which all that the child says was fed at its start.
#[derive(Drop)]
pub struct ChildLink<'a> {
    whose: ChildName,
    says: &'a [u8],
    link: MemoryLink<'a>,
}

impl<'a> Link for ChildLink<'a> {
    ghost wire = { λ s. record (⟦<MemoryLink<'a> as Link>⟧.wire s.link) { whose = Some s.whose; came = Some s.says.now } };

    fn pull(&mut self, into: &mut [u8]) -> Pull {
        self.link.pull(into)
    }

    fn put(&mut self, bytes: &[u8]) -> Put {
        self.link.put(bytes)
    }

    fn make_room(&mut self, n: usize) -> Result<(), AllocError> {
        self.link.make_room(n)
    }
}

/// Children in memory, which do what is planned.
pub struct MemoryChildren<'a> {
    alloc: Global,
    plans: &'a [ChildPlan<'a>],
    started: Noted<ChildStart>,
    finished: Noted<ChildEnd>,
    refuses: bool,
    failing: Failing<'a>,
}

impl<'a> Drop for MemoryChildren<'a> {
    fn drop(self) {
        let MemoryChildren {
            alloc: _,
            plans: _,
            started,
            finished,
            refuses: _,
            failing: _,
        } = self;
        drop(started);
        drop(finished);
    }
}

impl<'a> MemoryChildren<'a> {
    /// Children of these plans, of which the first of a service's incarnation stands; the starts of
    /// the numbers in `failing` fail.
    pub fn new(alloc: Global, plans: &'a [ChildPlan<'a>], failing: &'a [u64]) -> Self
        ensures { ⟦<MemoryChildren<'a> as Children>⟧.family result ≡ record { started = []; finished = []; faults = 0 } }
    {
        MemoryChildren {
            alloc,
            plans,
            started: Noted::new(alloc),
            finished: Noted::new(alloc),
            refuses: false,
            failing: Failing::at(failing),
        }
    }

    /// Children that are not there: each start fails.
    pub fn absent(alloc: Global) -> Self
        ensures { ⟦<MemoryChildren<'a> as Children>⟧.family result ≡ record { started = []; finished = []; faults = 0 } }
    {
        MemoryChildren {
            alloc,
            plans: &[],
            started: Noted::new(alloc),
            finished: Noted::new(alloc),
            refuses: true,
            failing: Failing::at(&[]),
        }
    }

    /// The starts, the oldest first, unless memory was refused for one, or for a child that was finished
    /// before it.
    pub fn started(&self) -> Option<&[ChildStart]>
        ensures { IfSome result (λ s. reverse s.now ≡ (⟦<MemoryChildren<'a> as Children>⟧.family self.now).started) }
    {
        self.started.as_slice()
    }

    /// The children that were finished, the oldest first, unless memory was refused for one.
    pub fn finished(&self) -> Option<&[ChildEnd]>
        ensures { IfSome result (λ s. reverse s.now ≡ (⟦<MemoryChildren<'a> as Children>⟧.family self.now).finished) }
    {
        self.finished.as_slice()
    }

    /// How many starts have failed.
    pub fn faults(&self) -> u64
        ensures { result ≡ (⟦<MemoryChildren<'a> as Children>⟧.family self.now).faults }
    {
        self.failing.faults
    }
}

/// The plan of a service's incarnation.
fn plan_of<'a>(plans: &'a [ChildPlan<'a>], service: u16, incarnation: u32) -> ChildPlan<'a> {
    for plan in plans {
        if plan.service == service && plan.incarnation == incarnation {
            return *plan;
        }
    }
    SILENT
}

/// The link of a child, over which the bytes come that it says, and nothing behind them.
fn link_of<'a>(
    alloc: Global,
    whose: ChildName,
    plan: &ChildPlan<'a>,
) -> Result<ChildLink<'a>, AllocError>
    ensures { IfOk result (λ l. ⟦<ChildLink<'a> as Link>⟧.wire l ≡ record (shut (fed plan.now.says.now (unused (length plan.now.failing.now == 0)))) { whose = Some whose }) }
{
    let mut link = MemoryLink::new(alloc, plan.piece, plan.failing);
    link.feed(plan.says)?;
    link.feed_end();
    Ok(ChildLink {
        whose,
        says: plan.says,
        link,
    })
}

/// A child that was started, and those that were finished before.
#[derive(Clone, Copy)]
struct Starting<'c> {
    service: u16,
    incarnation: u32,
    words: &'c [Items<u8>],
    says: &'c [u8],
    finished: &'c Noted<ChildEnd>,
}

impl<'c> Says for Starting<'c> {
    type Item = ChildStart;

    ghost use Rattle.std.specs.Prelude.{Some, length};

    ghost item = { λ s. record { service = s.service; incarnation = s.incarnation; words = s.words.now; says = Some s.says.now; after = length s.finished.now.told.past } };
}

impl<'c> Parts for Starting<'c> {
    fn make(&self, alloc: Global) -> Result<ChildStart, AllocError> {
        let after = self.finished.count().ok_or(AllocError)?;
        Ok(ChildStart {
            service: self.service,
            incarnation: self.incarnation,
            words: Items::of(copies(alloc, self.words)?),
            says: Some(Items::of(copies(alloc, self.says)?)),
            after,
        })
    }
}

/// A child that is finished, and its link.
#[derive(Clone, Copy)]
struct Finished<'c, 'a> {
    child: &'c MemoryChild<'a>,
    link: &'c ChildLink<'a>,
}

impl<'c, 'a> Says for Finished<'c, 'a> {
    type Item = ChildEnd;

    ghost item = { λ f. record {
      service = f.child.now.service;
      incarnation = f.child.now.incarnation;
      ended = f.child.now.ended;
      whose = (⟦<ChildLink<'a> as Link>⟧.wire f.link.now).whose;
      came = (⟦<ChildLink<'a> as Link>⟧.wire f.link.now).came;
      left = (⟦<ChildLink<'a> as Link>⟧.wire f.link.now).left;
      given = (⟦<ChildLink<'a> as Link>⟧.wire f.link.now).given;
      faults = (⟦<ChildLink<'a> as Link>⟧.wire f.link.now).faults;
    } };
}

impl<'c, 'a> Parts for Finished<'c, 'a> {
    fn make(&self, alloc: Global) -> Result<ChildEnd, AllocError> {
        Ok(ChildEnd {
            service: self.child.service,
            incarnation: self.child.incarnation,
            ended: self.child.ended,
            whose: Some(self.link.whose),
            came: Some(Items::of(copies(alloc, self.link.says)?)),
            left: Some(Items::of(copies(alloc, self.link.link.left())?)),
            given: Some(Items::of(copies(alloc, self.link.link.given())?)),
            faults: self.link.link.faults(),
        })
    }
}

impl<'a> Children for MemoryChildren<'a> {
    type Child = MemoryChild<'a>;

    type Link = ChildLink<'a>;

    ghost family = { λ c. record { started = c.started.told.past; finished = c.finished.told.past; faults = c.failing.faults } };

    fn start(
        &mut self,
        alloc: Global,
        service: u16,
        _name: &Name,
        incarnation: u32,
        words: &[Items<u8>],
    ) -> Result<Started<MemoryChild<'a>, ChildLink<'a>>, MakeError> {
        if self.failing.fails_or(self.refuses) {
            return Err(MakeError::Failed);
        }
        let plan = plan_of(self.plans, service, incarnation);
        let whose = ChildName {
            service,
            incarnation,
        };
        let link = link_of(alloc, whose, &plan)?;
        let says = plan.says;
        let starting = Starting {
            service,
            incarnation,
            words,
            says,
            finished: &self.finished,
        };
        self.started.note(self.alloc, &starting);
        Ok(Started {
            child: MemoryChild::new(service, incarnation, plan.answers),
            link,
        })
    }

    fn give_up(&mut self, _name: &Name, _tries: u32) {}

    fn finish(
        &mut self,
        _service: u16,
        _incarnation: u32,
        child: MemoryChild<'a>,
        link: ChildLink<'a>,
    ) {
        let finished = Finished {
            child: &child,
            link: &link,
        };
        self.finished.note(self.alloc, &finished);
    }
}
