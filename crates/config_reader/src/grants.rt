//! The grants that were declared.

ghost use Rattle.std.specs.Prelude.{◌≡◌, ◌∷◌, ◌++◌, [], IfOk, OnErr, IsTrue, not, false};
ghost use Rattle.config_reader.specs.Broken.{has_grant};

use okws_plan::configuration::Granted;
use std::alloc::{AllocError, Global};
use std::collections::HashSet;
use std::marker::Model;

/// A grant as it is looked up.
#[derive(Clone, Copy, PartialEq, Eq, Hash)]
pub struct Grant {
    service: u16,
    proxy: u16,
    query: u16,
}

/// Grants, seen as their list. A set of them is kept beside it, so that no line looks through the
/// grants above it.
#[derive(Drop)]
pub struct Grants {
    list: Vec<Granted>,
    set: HashSet<Grant>,
}

impl Model for Grants {
    ghost use Rattle.std.specs.Prelude.{List};
    ghost use Rattle.okws_plan.specs.declared.configuration.Granted.{Granted};
    ghost use Rattle.config_reader.specs.Kept.{HoldsGrants};

    ghost Value = { List Granted };

    ghost view = { λ a. a.list.items };

    ghost invariant = { λ a. HoldsGrants a.set a.list.items };
}

impl Grants {
    /// No grants.
    pub fn new(alloc: Global) -> Grants
        ensures { result ≡ [] }
    {
        Grants {
            list: Vec::new(alloc),
            set: HashSet::new(alloc),
        }
    }

    /// Adds a grant where it isn't there yet, and tells whether it wasn't. The grants stay as they
    /// were where it is there, or memory is refused.
    pub fn add(&mut self, service: u16, proxy: u16, query: u16) -> Result<bool, AllocError>
        ensures free { IfOk result (λ free. free ≡ not (has_grant self.old service proxy query)) }
        ensures added { IfOk result (λ free. IsTrue free → self.new ≡ self.old ++ record { service = service; proxy = proxy; query = query } ∷ []) }
        ensures taken { IfOk result (λ free. free ≡ false → self.new ≡ self.old) }
        ensures err { OnErr result (self.new ≡ self.old) }
    {
        let grant = Grant {
            service,
            proxy,
            query,
        };
        self.list.reserve(1)?;
        if !self.set.insert(grant)? {
            return Ok(false);
        }
        self.list.push(Granted {
            service,
            proxy,
            query,
        })?;
        Ok(true)
    }

    /// The grants in the order of their lines.
    pub fn into_list(self) -> Vec<Granted>
        ensures { result.items ≡ self }
    {
        self.list
    }
}
