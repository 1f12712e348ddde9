//! The files of a run, read and judged before anything of them is done.

ghost use Rattle.std.specs.Prelude.{◌≡◌, [], ◌∷◌, IfOk, IsErrOf, Some};
ghost use Rattle.okws_plan.specs.Sound.{IsSound};
ghost use Rattle.okws_outer.specs.Shelf.{Reads};
ghost use Rattle.config_reader.specs.Ruled.{AreRuled};
ghost use Rattle.okws_server.specs.Ran.{stop_of, ReadsConfig, IsPrepared};

use config_reader::{ConfigError, Refusal, read};
use okws_base::limit::{LONGEST_CONFIGURATION, LONGEST_SCRIPT};
use okws_outer::files::Files;
use okws_outer::reading::{ReadError, read_file};
use okws_plan::configuration::Config;
use std::alloc::Global;

/// Why a file gave no configuration.
#[derive(Drop)]
pub enum ConfigStop {
    /// The file could not be read.
    ReadFault,
    /// The file is no configuration.
    Refused(Refusal),
    /// Memory was refused.
    NoMemory,
}

/// Why a file that was read gave no configuration.
fn stop_of(error: ConfigError) -> ConfigStop
    ensures { result ≡ stop_of error }
{
    match error {
        ConfigError::Refused(refusal) => ConfigStop::Refused(refusal),
        ConfigError::NoMemory => ConfigStop::NoMemory,
    }
}

/// The configuration that bytes give.
fn config_of(alloc: Global, bytes: &[u8]) -> Result<Config, ConfigStop>
    ensures is { ReadsConfig (Some bytes.now) result }
    ensures judged { IsErrOf result ConfigStop.ReadFault → ⊥ }
    ensures sound { IfOk result IsSound }
    ensures rules { IfOk result AreRuled }
{
    match read(alloc, bytes) {
        Ok(config) => Ok(config),
        Err(error) => Err(stop_of(error)),
    }
}

/// Reads the file at a path whole, and the configuration that it gives.
pub fn read_config<F: Files>(alloc: Global, files: &mut F, path: &str) -> Result<Config, ConfigStop>
    ensures is { ReadsConfig ((F.shelf files.old).held path.now) result }
    ensures sound { IfOk result IsSound }
    ensures rules { IfOk result AreRuled }
    ensures reads { Reads (F.shelf files.old) (F.shelf files.new) (path.now ∷ []) (IsErrOf result ConfigStop.ReadFault) }
{
    match read_file(alloc, files, path, LONGEST_CONFIGURATION) {
        Err(ReadError::NoMemory) => Err(ConfigStop::NoMemory),
        Err(ReadError::Failed) => Err(ConfigStop::ReadFault),
        Ok(bytes) => config_of(alloc, &bytes),
    }
}

/// A configuration, and the bytes of a script, to one byte above the limit.
#[derive(Drop)]
pub struct Prepared {
    pub config: Config,
    pub script: Vec<u8>,
}

/// Why a script isn't played.
#[derive(Drop)]
pub enum Stop {
    /// A file could not be read.
    ReadFault,
    /// The first file is no configuration.
    Refused(Refusal),
    /// Memory was refused.
    NoMemory,
}

/// Reads a configuration, judges it, and then reads a script, whose file isn't opened before.
pub fn prepare<F: Files>(
    alloc: Global,
    files: &mut F,
    config: &str,
    script: &str,
) -> Result<Prepared, Stop>
    ensures prepared { IsPrepared (F.shelf files.old) (F.shelf files.new) config.now script.now result }
    ensures sound { IfOk result (λ both. IsSound both.config) }
    ensures rules { IfOk result (λ both. AreRuled both.config) }
{
    let config = match read_config(alloc, files, config) {
        Ok(config) => config,
        Err(ConfigStop::ReadFault) => return Err(Stop::ReadFault),
        Err(ConfigStop::Refused(refusal)) => return Err(Stop::Refused(refusal)),
        Err(ConfigStop::NoMemory) => return Err(Stop::NoMemory),
    };
    match read_file(alloc, files, script, LONGEST_SCRIPT) {
        Ok(script) => Ok(Prepared { config, script }),
        Err(ReadError::Failed) => Err(Stop::ReadFault),
        Err(ReadError::NoMemory) => Err(Stop::NoMemory),
    }
}
