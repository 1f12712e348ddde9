//! What an operator steers.

ghost use Rattle.std.specs.Prelude.{◌≡◌, ◌<◌, ◌≤◌, ℕ, List, length};
ghost use Rattle.okws_base.specs.declared.limit.TheConstants.{LONGEST_TEMPLATE};
ghost use Rattle.okws_plan.specs.declared.configuration.Config.{Config};
ghost use Rattle.admin_console.specs.declared.controls.Publishing.{Publishing};
ghost use Rattle.admin_console.specs.declared.controls.Relaunching.{Relaunching};
ghost use Rattle.admin_console.specs.declared.controls.Status.{Status};

use okws_base::items::Items;

/// What became of a publication.
#[derive(Clone, Copy)]
pub enum Publishing {
    /// The edition's number, from 1.
    Edition(u32),
    /// The template has all the editions that it may have.
    EditionsSpent,
    /// Memory was refused.
    NoMemory,
}

/// What became of a relaunch.
#[derive(Clone, Copy)]
pub enum Relaunching {
    /// This incarnation is up.
    Up(u32),
    /// The service was given up after so many tries.
    Dead(u32),
    /// The service had all the incarnations that it may have, and none is up.
    Spent,
    /// Memory was refused.
    NoMemory,
}

/// What is told of a running site, as it was when each number was counted.
#[derive(Clone, Copy, PartialEq, Eq)]
pub struct Status {
    /// Connections behind which a service was looked after.
    pub connections: u64,
    /// Requests that were accepted.
    pub accepts: u64,
    /// Incarnations that came up.
    pub launches: u64,
    /// Editions that were published.
    pub publications: u64,
    /// Texts that were logged.
    pub logged: u64,
    /// Services of which an incarnation is up.
    pub up: u16,
    /// Services of which none is, and which were not given up.
    pub down: u16,
    /// Services of which none is, and which were given up.
    pub dead: u16,
}

/// A running site, as its operator steers it.
pub trait Controls {
    /// What was done in the site so far, as contracts see it.
    ghost State: { Type 0 };

    /// What was done so far.
    ghost state: { Self → State };

    /// What is declared.
    ghost config: { Self → Config };

    /// That this became of a publication of a template's content: from what was done before to what was
    /// done then.
    ghost publishes: { State → ℕ → List ℕ → Publishing → State → Type 0 };

    /// That this became of a relaunch of a service: from what was done before to what was done then.
    ghost relaunches: { State → ℕ → Relaunching → State → Type 0 };

    /// That this was told of the site: from what was done before to what was done then.
    ghost surveys: { State → Status → State → Type 0 };

    /// Publishes an edition of a template.
    fn publish(&mut self, template: u16, content: Items<u8>) -> Publishing
        requires template { template < length (config self.old).templates }
        requires short { length content ≤ LONGEST_TEMPLATE }
        ensures publishes { publishes (state self.old) template content result (state self.new) }
        ensures config { config self.new ≡ config self.old };

    /// Relaunches a service, also one that was given up.
    fn relaunch(&mut self, service: u16) -> Relaunching
        requires { service < length (config self.old).services }
        ensures relaunches { relaunches (state self.old) service result (state self.new) }
        ensures config { config self.new ≡ config self.old };

    /// Counts what was done, and how the services stand. Takes no memory.
    fn status(&mut self) -> Status
        ensures surveys { surveys (state self.old) result (state self.new) }
        ensures config { config self.new ≡ config self.old };
}
