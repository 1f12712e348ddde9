//! The children that the launcher has started.

ghost use Rattle.std.specs.Prelude.{◌≡◌, ◌<◌, ◌≤◌, None, Some, IfOk, IfErr, OnErr, IsErrOf, length, option_map, replicate, slice_set};
ghost use Rattle.okws_outer.specs.Families.{IsNewLink, with_start, with_end};
ghost use Rattle.okws_outer.specs.Lives.{new_life};
ghost use Rattle.okws_outer.specs.Streams.{Rose};
ghost use Rattle.launch_crew.specs.Crews.{running_at, IsStaff};
ghost use Rattle.launch_crew.specs.Steps.{AsksChild, HasStopped, StopsChild};
ghost use Rattle.launch_crew.specs.Told.{with_end_of};

use crate::answer::Missed;
use okws_base::items::Items;
use okws_base::name::Name;
use okws_outer::child::{Child, Ended};
use okws_outer::children::{Children, Started};
use okws_outer::error::MakeError;
use site_cells::named::Numbered;
use std::alloc::{AllocError, Global};
use std::marker::{Model, PhantomData};

/// A child that runs, with the incarnation that it is. Contracts see what is told of the child.
#[derive(Drop)]
pub struct Running<F: Children> {
    incarnation: u32,
    child: F::Child,
}

impl<F: Children> Model for Running<F> {
    ghost use Rattle.std.specs.Prelude.{◌≡◌};
    ghost use Rattle.okws_outer.specs.Lives.{Life};

    ghost Value = { Life };

    ghost view = { λ r. F.Child.life r.child };

    ghost invariant = { λ r. (F.Child.life r.child).incarnation ≡ r.incarnation };
}

/// The children of a run, and which one runs of each service. Contracts see what is told of them.
pub struct Staff<N: Numbered, F: Children> {
    alloc: Global,
    running: Vec<Option<Running<F>>>,
    children: F,
    of: PhantomData<N>,
}

impl<N: Numbered, F: Children + Drop> Drop for Staff<N, F> {
    fn drop(self) {
        let Staff {
            alloc: _,
            running,
            children,
            of: _,
        } = self;
        drop(running);
        drop(children);
    }
}

impl<N: Numbered, F: Children> Model for Staff<N, F> {
    ghost use Rattle.launch_crew.specs.Crews.{StaffIs, IsStaff};

    ghost Value = { StaffIs };

    ghost view = { λ t. record { running = t.running.items; family = F.family t.children } };

    ghost invariant = { λ t. IsStaff N.site (record { running = t.running.items; family = F.family t.children }) };
}

// No child of each of so many services.
fn no_children<F: Children>(
    alloc: Global,
    services: usize,
) -> Result<Vec<Option<Running<F>>>, AllocError>
    ensures { IfOk result (λ r. r.items ≡ replicate services None) }
{
    let mut running = Vec::with_capacity(alloc, services)?;
    for _ in 0..services {
        running.push_reserved(None);
    }
    Ok(running)
}

impl<N: Numbered, F: Children + Drop> Staff<N, F> {
    /// Children none of which runs yet. Where memory is refused, they come back.
    pub fn new(alloc: Global, services: usize, children: F) -> Result<Self, F>
        requires { services ≡ length N.site.services }
        ensures ok { IfOk result (λ t. t ≡ record { running = replicate services None; family = F.family children }) }
        ensures err { IfErr result (λ f. F.family f ≡ F.family children) }
    {
        let Ok(running) = no_children(alloc, services) else {
            return Err(children);
        };
        Ok(Staff {
            alloc,
            running,
            children,
            of: PhantomData,
        })
    }
}

impl<N: Numbered, F: Children> Staff<N, F> {
    /// The children, at the end of a run.
    pub fn into_children(self) -> F
        ensures { F.family result ≡ self.family }
    {
        let Staff {
            alloc: _,
            running,
            children,
            of: _,
        } = self;
        drop(running);
        children
    }

    /// What a staff's type tells of it.
    pub fn fits(&self)
        ensures { IsStaff N.site self.now }
    {
        let _running = &self.running;
    }

    /// Asks the child of the service whether it has ended, where one runs.
    pub fn ended(&mut self, service: u16) -> Option<Ended>
        requires { service < length N.site.services }
        ensures { AsksChild service self.old result self.new }
    {
        match &mut self.running[service as usize] {
            None => None,
            Some(running) => Some(running.child.ended()),
        }
    }

    /// Stops the child of the service, where one runs, and tells whether one does.
    pub fn stop(&mut self, service: u16) -> bool
        requires { service < length N.site.services }
        ensures { StopsChild service self.old result self.new }
    {
        match &mut self.running[service as usize] {
            None => false,
            Some(running) => {
                running.child.stop();
                true
            }
        }
    }

    /// Finishes the child of the service, which was stopped, over its link, where there are both.
    pub fn release(&mut self, service: u16, link: Option<F::Link>)
        requires service { service < length N.site.services }
        requires stopped { HasStopped (running_at self.old.running service) }
        ensures running { self.new.running ≡ slice_set self.old.running service None }
        ensures family { self.new.family ≡ with_end_of (running_at self.old.running service) (option_map F.Link.wire link) self.old.family }
    {
        let running = self.running[service as usize].take();
        match (running, link) {
            (Some(Running { incarnation, child }), Some(link)) => {
                self.children.finish(service, incarnation, child, link);
            }
            (_, _) => {}
        }
    }

    /// Starts a child of the service, which has this name, and of which nothing is kept yet.
    pub fn start(
        &mut self,
        service: u16,
        name: &Name,
        incarnation: u32,
        words: &[Items<u8>],
    ) -> Result<Started<F::Child, F::Link>, Missed>
        ensures running { self.new.running ≡ self.old.running }
        ensures started { IfOk result (λ s. self.new.family ≡ with_start service incarnation words.now (F.Link.wire s.link) self.old.family) }
        ensures refused { OnErr result (self.new.family ≡ record self.old.family { faults = self.new.family.faults }) }
        ensures faults { self.old.family.faults ≤ self.new.family.faults }
        ensures child { IfOk result (λ s. F.Child.life s.child ≡ new_life service incarnation) }
        ensures link { IfOk result (λ s. IsNewLink service incarnation (F.Link.wire s.link)) }
        ensures cause { IsErrOf result Missed.Failed → Rose self.old.family.faults self.new.family.faults }
    {
        match self
            .children
            .start(self.alloc, service, name, incarnation, words)
        {
            Ok(started) => Ok(started),
            Err(MakeError::Failed) => Err(Missed::Failed),
            Err(MakeError::NoMemory) => Err(Missed::NoMemory),
        }
    }

    /// Keeps a child that was booted.
    pub fn keep(&mut self, service: u16, incarnation: u32, child: F::Child)
        requires service { service < length N.site.services }
        requires child { F.Child.life child ≡ new_life service incarnation }
        ensures is { self.new ≡ record self.old { running = slice_set self.old.running service (Some (new_life service incarnation)) } }
        ensures child { running_at self.new.running service ≡ Some (new_life service incarnation) }
    {
        self.running[service as usize] = Some(Running { incarnation, child });
    }

    /// Stops and finishes a child that was not booted.
    pub fn finish(&mut self, service: u16, incarnation: u32, mut child: F::Child, link: F::Link)
        requires child { F.Child.life child ≡ new_life service incarnation }
        ensures { self.new ≡ record self.old { family = with_end (new_life service incarnation) (F.Link.wire link) self.old.family } }
    {
        child.stop();
        self.children.finish(service, incarnation, child, link);
    }

    /// Tells the children that the service of this name was given up, after so many tries.
    pub fn give_up(&mut self, name: &Name, tries: u32)
        ensures { self.new ≡ self.old }
    {
        self.children.give_up(name, tries);
    }
}
