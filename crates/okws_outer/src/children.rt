//! The children of a run, which are started and finished.

ghost use Rattle.std.specs.Prelude.{◌≡◌, IfOk, OnErr, true};
ghost use Rattle.okws_outer.specs.Families.{Family, IsNewChild, IsNewLink, with_start, with_end};
ghost use Rattle.okws_outer.specs.Making.{CountsMade};

use crate::child::Child;
use crate::error::MakeError;
use crate::stream::Link;
use okws_base::items::Items;
use okws_base::name::Name;
use std::alloc::Global;

/// A child, by its service and its incarnation.
#[derive(Clone, Copy)]
pub struct ChildName {
    /// The service, by its number.
    pub service: u16,
    /// The incarnation, from 1.
    pub incarnation: u32,
}

/// A child that was started, and its link.
#[derive(Drop)]
pub struct Started<C, L> {
    /// The child.
    pub child: C,
    /// Its standard input and output.
    pub link: L,
}

/// What is told of a child at its start.
#[derive(Drop)]
pub struct ChildStart {
    /// The service that it is to be, by its number.
    pub service: u16,
    /// The incarnation, from 1.
    pub incarnation: u32,
    /// The program and its words.
    pub words: Items<Items<u8>>,
    /// All bytes that it says, where its link told them.
    pub says: Option<Items<u8>>,
    /// How many children had been finished when it was started.
    pub after: usize,
}

/// What is told of a child at its end.
#[derive(Drop)]
pub struct ChildEnd {
    /// The service that it was, by its number.
    pub service: u16,
    /// The incarnation, from 1.
    pub incarnation: u32,
    /// Whether Yes was among its answers before it was stopped.
    pub ended: bool,
    /// The child that the link led to with which it was finished.
    pub whose: Option<ChildName>,
    /// All bytes that came on that link or were to, where it told them.
    pub came: Option<Items<u8>>,
    /// Those of them that were not taken.
    pub left: Option<Items<u8>>,
    /// The bytes that were given to go out on it, where it told them.
    pub given: Option<Items<u8>>,
    /// How many calls of it failed.
    pub faults: u64,
}

/// The children of a run.
pub trait Children {
    /// A child that runs.
    type Child: Child + Drop;

    /// The two pipes of a child.
    type Link: Link + Drop;

    /// What is told of the children. The count of failed starts never falls, and stays at 2^64 - 1
    /// once it is there.
    ghost family: { Self → Family };

    /// Starts a program, whose name and words these are, as an incarnation of a service, which has this name.
    /// Its link leads to it, and over that nothing came or went yet.
    fn start(
        &mut self,
        alloc: Global,
        service: u16,
        name: &Name,
        incarnation: u32,
        words: &[Items<u8>],
    ) -> Result<Started<Self::Child, Self::Link>, MakeError>
        ensures child { IfOk result (λ s. IsNewChild service incarnation (Self.Child.life s.child)) }
        ensures link { IfOk result (λ s. IsNewLink service incarnation (Self.Link.wire s.link)) }
        ensures started { IfOk result (λ s. family self.new ≡ with_start service incarnation words.now (Self.Link.wire s.link) (family self.old)) }
        ensures refused { OnErr result (family self.new ≡ record (family self.old) { faults = (family self.new).faults }) }
        ensures faults { CountsMade (family self.old).faults (family self.new).faults result };

    /// Waits for the end of a child that was stopped, and closes its link. The child is that of this
    /// service and incarnation.
    fn finish(&mut self, service: u16, incarnation: u32, child: Self::Child, link: Self::Link)
        requires service { (Self.Child.life child).service ≡ service }
        requires incarnation { (Self.Child.life child).incarnation ≡ incarnation }
        requires stopped { (Self.Child.life child).stopped ≡ true }
        ensures { family self.new ≡ with_end (Self.Child.life child) (Self.Link.wire link) (family self.old) };

    /// Is told that the service of this name was given up, after so many tries.
    fn give_up(&mut self, name: &Name, tries: u32)
        ensures { family self.new ≡ family self.old };
}
