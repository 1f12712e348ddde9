//! The lines of a script, played one after another.

ghost use Rattle.std.specs.Prelude.{◌≡◌, ◌≤◌, length};
ghost use Rattle.okws_base.specs.declared.limit.TheConstants.{MOST_SERVICES, MOST_PROXIES, MOST_TEMPLATES};
ghost use Rattle.okws_outer.specs.Printing.{printer};
ghost use Rattle.monitor_model.specs.Stage.{first_stage};
ghost use Rattle.play_script.specs.Reading.{ReadFits, ReadKeeps};
ghost use Rattle.okws_server.specs.Script.{IsShortRead, PlayedRead, PlayedLines};

use okws_outer::stream::Sink;
use okws_plan::configuration::Config;
use okws_play::Play;
use play_script::reading::{LineRead, read_first};
use play_script::rule::ScriptRule;
use std::alloc::{AllocError, Global};

/// Where a script is broken: the line, counted from 1, or 0 for the file as a whole, and the rule.
#[derive(Clone, Copy)]
pub struct Broken {
    pub line: usize,
    pub rule: ScriptRule,
}

/// Plays a line that was read, or tells the rule that it breaks; then nothing is printed, and the run
/// is as before.
fn play_read<O: Sink>(
    play: &mut Play,
    out: &mut O,
    stopped: &mut bool,
    read: LineRead,
) -> Result<Option<ScriptRule>, AllocError>
    requires fits { ReadFits play.old.config read }
    requires keeps { ReadKeeps read }
    requires short { IsShortRead read }
    ensures { PlayedRead play.old read (printer O.given O.faults out.old stopped.old) (printer O.given O.faults out.new stopped.new) result play.new }
{
    match read {
        LineRead::Skipped => Ok(None),
        LineRead::Broken(rule) => Ok(Some(rule)),
        LineRead::Says(line) => play.run_line(out, stopped, line),
    }
}

/// Plays the lines of a script, up to the first that is broken. Where memory is refused, a front of
/// what they print was printed.
pub fn play_lines<O: Sink>(
    alloc: Global,
    play: &mut Play,
    out: &mut O,
    stopped: &mut bool,
    config: &Config,
    text: &[u8],
) -> Result<Option<Broken>, AllocError>
    requires config { play.old.config ≡ config.now }
    requires services { length config.now.services ≤ MOST_SERVICES }
    requires proxies { length config.now.proxies ≤ MOST_PROXIES }
    requires templates { length config.now.templates ≤ MOST_TEMPLATES }
    requires first { play.old.stage ≡ first_stage config.now }
    ensures { PlayedLines play.old text.now (printer O.given O.faults out.old stopped.old) (printer O.given O.faults out.new stopped.new) result play.new }
{
    let mut rest = text;
    let mut number = 0;
    while !rest.is_empty() {
        let (read, behind) = read_first(alloc, config, rest)?;
        number += 1;
        let broken = play_read(play, out, stopped, read)?;
        match broken {
            None => rest = behind,
            Some(rule) => return Ok(Some(Broken { line: number, rule })),
        }
    }
    Ok(None)
}
