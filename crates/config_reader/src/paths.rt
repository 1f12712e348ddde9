//! The paths that services own.

ghost use Rattle.std.specs.Prelude.{◌≡◌, ◌∷◌, ◌++◌, [], OnOk, OnErr};
ghost use Rattle.std.specs.List.{list_any};
ghost use Rattle.okws_base.specs.Value.{same_bytes};

use config_syntax::byte_set::{ByteSet, add_bytes, has_bytes};
use okws_base::name::Path;
use okws_plan::configuration::Owned;
use std::alloc::{AllocError, Global};
use std::collections::HashSet;
use std::marker::Model;

/// Owned paths, seen as their list. A set of them is kept beside it, so that no line looks through
/// the paths above it.
#[derive(Drop)]
pub struct Paths {
    list: Vec<Owned>,
    set: ByteSet,
}

impl Model for Paths {
    ghost use Rattle.std.specs.Prelude.{List};
    ghost use Rattle.okws_plan.specs.declared.configuration.Owned.{Owned};
    ghost use Rattle.config_reader.specs.Kept.{HoldsPaths};

    ghost Value = { List Owned };

    ghost view = { λ a. a.list.items };

    ghost invariant = { λ a. HoldsPaths a.set a.list.items };
}

impl Paths {
    /// No paths.
    pub fn new(alloc: Global) -> Paths
        ensures { result ≡ [] }
    {
        Paths {
            list: Vec::new(alloc),
            set: HashSet::new(alloc),
        }
    }

    /// Whether a service owns exactly this path.
    pub fn has(&self, path: &[u8]) -> bool
        ensures { result ≡ list_any (λ o. same_bytes o.path path.now) self.now }
    {
        has_bytes(&self.set, path)
    }

    /// Adds a path and its owner; leaves the paths as they were where memory is refused.
    pub fn add(&mut self, alloc: Global, path: Path, service: u16) -> Result<(), AllocError>
        ensures ok { OnOk result (self.new ≡ self.old ++ record { path = path; service = service } ∷ []) }
        ensures err { OnErr result (self.new ≡ self.old) }
    {
        self.list.reserve(1)?;
        add_bytes(&mut self.set, alloc, path.as_slice())?;
        self.list.push(Owned { path, service })?;
        Ok(())
    }

    /// The paths in the order of their lines.
    pub fn into_list(self) -> Vec<Owned>
        ensures { result.items ≡ self }
    {
        self.list
    }
}
