//! What the text of a configuration changes where another one is in force.

ghost use Rattle.std.specs.Prelude.{◌≡◌, IfOk, IsTrue};
ghost use Rattle.okws_plan.specs.Sound.{IsSound};
ghost use Rattle.config_diff.specs.Access.{declares};
ghost use Rattle.config_diff.specs.Changes.{change_of, changed, GivesChange, regranted};
ghost use Rattle.config_diff.specs.declared.change.ChangeError.TheVariants as change;

use crate::access::Access;
use crate::comparing::{Difference, Regranted, regrant};
use config_reader::{ConfigError, Refusal, read};
use okws_plan::configuration::Config;
use std::alloc::{AllocError, Global};

/// Why a text changes nothing of what services may do.
#[derive(Drop)]
pub enum ChangeError {
    /// It isn't the text of a configuration.
    Refused(Refusal),
    /// It declares another site; this is the first part that differs.
    Differs(Difference),
    /// Memory was refused.
    NoMemory,
}

impl From<AllocError> for ChangeError {
    ghost from_gives = { λ _ e. e ≡ change.NoMemory };

    fn from(_e: AllocError) -> ChangeError {
        ChangeError::NoMemory
    }
}

/// What services may do by the new configuration, where it declares the same site.
fn change_to(alloc: Global, old: &Config, new: &Config) -> Result<Access, ChangeError>
    requires { IsSound new.now }
    ensures is { GivesChange result (change_of (regranted old.now new.now)) }
    ensures declared { IfOk result (λ a. IsTrue (declares old.now a)) }
{
    match regrant(alloc, old, new)? {
        Regranted::Grants(access) => Ok(access),
        Regranted::Differs(what) => Err(ChangeError::Differs(what)),
    }
}

/// What services may do from now on by this text, where `old` is in force. It is refused where it
/// isn't the text of a configuration, or declares another site than `old`.
pub fn read_change(alloc: Global, old: &Config, text: &[u8]) -> Result<Access, ChangeError>
    ensures is { GivesChange result (changed old.now text.now) }
    ensures declared { IfOk result (λ a. IsTrue (declares old.now a)) }
{
    match read(alloc, text) {
        Ok(new) => change_to(alloc, old, &new),
        Err(ConfigError::Refused(refusal)) => Err(ChangeError::Refused(refusal)),
        Err(ConfigError::NoMemory) => Err(ChangeError::NoMemory),
    }
}
