//! The states of a launch. Each owns the launcher, and the next step consumes it; a step that is refused
//! hands back the state from which what was installed is revoked.

ghost use Rattle.std.specs.Prelude.{◌≡◌, ℕ, Bool};
ghost use Rattle.okws_plan.specs.declared.event.LauncherEvent.TheVariants as event;
ghost use Rattle.launch_journal.specs.Launches.{entered};
ghost use Rattle.okld_launch.specs.Acts.{ComesUpSo, InstallsSo};
ghost use Rattle.okld_launch.specs.Launchers.{IsOut, MayFail, up_in};
ghost use Rattle.okld_launch.specs.Pieces.{BreaksOff, HasBegun, HasCleared, HasInstalled, IsClosed};
ghost use Rattle.okld_launch.specs.States.{GoesOn};

use crate::launcher::Launcher;
use crate::named::Staffed;
use okws_outer::children::Children;
use okws_outer::keeper::Keeper;
use okws_outer::stream::Sink;
use site_cells::lock_names::CellNames;
use site_cells::locks::CellLocks;
use site_locks::locks::Locks;
use site_locks::named::Site;
use site_locks::noted_link::Noted;
use std::marker::Model;
use std::sync::Wait;

/// An incarnation was begun, and nothing of it was installed or booted.
pub(crate) struct Quiet<N: Staffed, J: Site, C: CellNames, K: Keeper, S: Sink, F: Children> {
    pub(crate) launcher: Launcher<N, J, C, K, S, F>,
    pub(crate) service: u16,
    pub(crate) incarnation: u32,
}

impl<N: Staffed, J: Site, C: CellNames, K: Keeper, S: Sink, F: Children> Model
    for Quiet<N, J, C, K, S, F> {
    ghost use Rattle.okld_launch.specs.States.{LaunchIs, IsStill};

    ghost Value = { LaunchIs };

    ghost view = { λ a. record { launcher = a.launcher; service = a.service; incarnation = a.incarnation } };

    ghost invariant = { λ a. IsStill N.site N.children (record { launcher = a.launcher; service = a.service; incarnation = a.incarnation }) };
}

/// What was there before the incarnation is ended everywhere.
pub(crate) struct Revoked<N: Staffed, J: Site, C: CellNames, K: Keeper, S: Sink, F: Children> {
    pub(crate) launcher: Launcher<N, J, C, K, S, F>,
    pub(crate) service: u16,
    pub(crate) incarnation: u32,
}

impl<N: Staffed, J: Site, C: CellNames, K: Keeper, S: Sink, F: Children> Model
    for Revoked<N, J, C, K, S, F> {
    ghost use Rattle.okld_launch.specs.States.{LaunchIs, IsRevoked};

    ghost Value = { LaunchIs };

    ghost view = { λ a. record { launcher = a.launcher; service = a.service; incarnation = a.incarnation } };

    ghost invariant = { λ a. IsRevoked N.site N.children (record { launcher = a.launcher; service = a.service; incarnation = a.incarnation }) };
}

/// The incarnation stands at each column of the service.
pub(crate) struct Installed<N: Staffed, J: Site, C: CellNames, K: Keeper, S: Sink, F: Children> {
    pub(crate) launcher: Launcher<N, J, C, K, S, F>,
    pub(crate) service: u16,
    pub(crate) incarnation: u32,
}

impl<N: Staffed, J: Site, C: CellNames, K: Keeper, S: Sink, F: Children> Model
    for Installed<N, J, C, K, S, F> {
    ghost use Rattle.okld_launch.specs.States.{LaunchIs, IsInstalled};

    ghost Value = { LaunchIs };

    ghost view = { λ a. record { launcher = a.launcher; service = a.service; incarnation = a.incarnation } };

    ghost invariant = { λ a. IsInstalled N.site N.children (record { launcher = a.launcher; service = a.service; incarnation = a.incarnation }) };
}

/// The child of the incarnation was started, and its cell was booted.
pub(crate) struct Booted<N: Staffed, J: Site, C: CellNames, K: Keeper, S: Sink, F: Children> {
    pub(crate) launcher: Launcher<N, J, C, K, S, F>,
    pub(crate) service: u16,
    pub(crate) incarnation: u32,
}

impl<N: Staffed, J: Site, C: CellNames, K: Keeper, S: Sink, F: Children> Model
    for Booted<N, J, C, K, S, F> {
    ghost use Rattle.okld_launch.specs.States.{LaunchIs, IsBooted};

    ghost Value = { LaunchIs };

    ghost view = { λ a. record { launcher = a.launcher; service = a.service; incarnation = a.incarnation } };

    ghost invariant = { λ a. IsBooted N.site (record { launcher = a.launcher; service = a.service; incarnation = a.incarnation }) };
}

/// A step was refused. What was installed of the incarnation may stand.
pub(crate) struct Broken<N: Staffed, J: Site, C: CellNames, K: Keeper, S: Sink, F: Children> {
    pub(crate) launcher: Launcher<N, J, C, K, S, F>,
    pub(crate) service: u16,
    pub(crate) incarnation: u32,
}

impl<N: Staffed, J: Site, C: CellNames, K: Keeper, S: Sink, F: Children> Model
    for Broken<N, J, C, K, S, F> {
    ghost use Rattle.okld_launch.specs.States.{LaunchIs, IsBroken};

    ghost Value = { LaunchIs };

    ghost view = { λ a. record { launcher = a.launcher; service = a.service; incarnation = a.incarnation } };

    ghost invariant = { λ a. IsBroken N.site (record { launcher = a.launcher; service = a.service; incarnation = a.incarnation }) };
}

impl<N: Staffed, J: Site, C: CellNames, K: Keeper, S: Sink, F: Children> Quiet<N, J, C, K, S, F> {
    /// Ends what was there before the incarnation.
    pub(crate) fn revoke<R: Wait>(
        self,
        rt: &R,
        locks: &Locks<N, J, K, S>,
        cells: &CellLocks<N, C, Noted<N, J, K, S, F>>,
    ) -> Revoked<N, J, C, K, S, F>
        ensures on { GoesOn self result }
        ensures way { (up ended : ℕ → ℕ → Bool) → HasBegun N.site N.run_seed N.children up ended self → HasCleared N.site N.run_seed N.children up ended result }
    {
        let Quiet {
            mut launcher,
            service,
            incarnation,
        } = self;
        launcher.clear(rt, locks, cells, service);
        Revoked {
            launcher,
            service,
            incarnation,
        }
    }
}

impl<N: Staffed, J: Site, C: CellNames, K: Keeper, S: Sink, F: Children> Revoked<N, J, C, K, S, F> {
    /// Installs the incarnation at each column of the service.
    pub(crate) fn install<R: Wait>(
        self,
        rt: &R,
        locks: &Locks<N, J, K, S>,
    ) -> Result<Installed<N, J, C, K, S, F>, Broken<N, J, C, K, S, F>>
        ensures { InstallsSo N.site N.run_seed N.children self result }
    {
        let Revoked {
            mut launcher,
            service,
            incarnation,
        } = self;
        match launcher.install(rt, locks, service, incarnation) {
            Ok(()) => Ok(Installed {
                launcher,
                service,
                incarnation,
            }),
            Err(_) => Err(Broken {
                launcher,
                service,
                incarnation,
            }),
        }
    }
}

impl<N: Staffed, J: Site, C: CellNames, K: Keeper, S: Sink, F: Children> Booted<N, J, C, K, S, F> {
    /// Has the incarnation be up.
    pub(crate) fn up<R: Wait>(
        self,
        rt: &R,
        locks: &Locks<N, J, K, S>,
    ) -> Result<Launcher<N, J, C, K, S, F>, Broken<N, J, C, K, S, F>>
        ensures { ComesUpSo N.site N.run_seed N.children self result }
    {
        let Booted {
            mut launcher,
            service,
            incarnation,
        } = self;
        match launcher.up(rt, locks, service, incarnation) {
            Ok(()) => Ok(launcher),
            Err(_) => Err(Broken {
                launcher,
                service,
                incarnation,
            }),
        }
    }
}

impl<N: Staffed, J: Site, C: CellNames, K: Keeper, S: Sink, F: Children> Broken<N, J, C, K, S, F> {
    /// Enters that the incarnation failed, for which a fault was told. What was installed of it is revoked at
    /// the next launch.
    pub(crate) fn fail(self) -> Launcher<N, J, C, K, S, F>
        requires { MayFail N.children self.service self.incarnation self.launcher }
        ensures journal { result.journal ≡ entered self.launcher.journal (event.Failed self.service self.incarnation) }
        ensures family { result.crew.family ≡ self.launcher.crew.family }
        ensures down { up_in result self.service ≡ 0 }
        ensures whole { (up ended : ℕ → ℕ → Bool) → HasInstalled N.site N.run_seed N.children up ended self → IsClosed N.site N.run_seed N.children up ended result }
    {
        let Broken {
            mut launcher,
            service,
            incarnation,
        } = self;
        launcher.fail(service, incarnation);
        launcher
    }

    /// Revokes what was installed of the incarnation.
    pub(crate) fn revoke<R: Wait>(
        self,
        rt: &R,
        locks: &Locks<N, J, K, S>,
    ) -> Launcher<N, J, C, K, S, F>
        ensures journal { result.journal ≡ self.launcher.journal }
        ensures out { IsOut N.site self.service result }
        ensures whole { (up ended : ℕ → ℕ → Bool) → BreaksOff N.site N.run_seed N.children up ended self → IsClosed N.site N.run_seed N.children up ended result }
    {
        let Broken {
            mut launcher,
            service,
            incarnation: _,
        } = self;
        launcher.revoke(rt, locks, service);
        launcher
    }
}
