//! The names of a run, which types behind locks cite: each lock's value is known by its type alone.

ghost use Rattle.std.specs.Prelude.{ℕ, List, []};
ghost use Rattle.okws_plan.specs.declared.configuration.Config.{Config};

use std::marker::Brand;

/// A run as the types behind its locks know it. Nothing of it is there when the program runs.
pub trait Numbered {
    /// The number under which the launcher enters.
    ghost launcher: { ℕ };

    /// The site's configuration.
    ghost site: { Config };

    /// The seed of the tokens.
    ghost run_seed: { List ℕ };
}

impl Numbered for Brand {
    ghost launcher = { 0 };

    ghost site = { record { proxies = []; services = []; templates = []; retry = 0; paths = []; grants = []; readables = []; loggers = [] } };

    ghost run_seed = { [] };
}
