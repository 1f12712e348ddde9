//! A run of a script, from its bytes to its record.

ghost use Rattle.std.specs.Prelude.{◌≡◌, ◌≤◌, length};
ghost use Rattle.std.specs.Arc.{arc_value};
ghost use Rattle.okws_plan.specs.Sound.{IsSound};
ghost use Rattle.okws_outer.specs.Printing.{printer};
ghost use Rattle.config_reader.specs.Ruled.{AreRuled};
ghost use Rattle.okws_server.specs.Ending.{RoseWhere};
ghost use Rattle.okws_server.specs.Headline.{IsEmptyRecord};
ghost use Rattle.okws_server.specs.Ran.{Plays, PlaysText, Ends};

use crate::ending::{NO_MEMORY, out_status, print_script_refusal};
use crate::preparing::Prepared;
use crate::script::{Broken, play_lines};
use crate::status::Status;
use monitor_model::laws::{
    script_runs_answer_once, script_runs_are_answered, script_runs_are_lawful,
    script_runs_enter_all, script_runs_take_all, script_runs_tell_all,
};
use monitor_model::record::Record;
use okws_base::items::Items;
use okws_base::journal::Past;
use okws_base::limit::LONGEST_SCRIPT;
use okws_outer::printing::print;
use okws_outer::stream::Sink;
use okws_plan::configuration::Config;
use okws_play::Play;
use play_script::rule::ScriptRule;
use std::alloc::{AllocError, Global};
use std::sync::Arc;

/// The seed of the tokens of a script's run.
const SEED: [u8; 32] = [0; 32];

/// The record of a run that ended before it began.
pub fn empty_record(alloc: Global) -> Record
    ensures { IsEmptyRecord result }
{
    Record {
        okd: Past::of(Vec::new(alloc)),
        proxies: Items::of(Vec::new(alloc)),
        pubd: Past::of(Vec::new(alloc)),
        oklogd: Past::of(Vec::new(alloc)),
        launcher: Past::of(Vec::new(alloc)),
        cells: Items::of(Vec::new(alloc)),
        sents: Items::of(Vec::new(alloc)),
        doors: Items::of(Vec::new(alloc)),
        workers: Items::of(Vec::new(alloc)),
        launches: Past::of(Vec::new(alloc)),
    }
}

/// What a script's run leaves: where it was broken, if anywhere, and its record.
pub struct Outcome {
    pub broken: Option<Broken>,
    pub record: Record,
}

/// Plays a script that is no longer than the limit, up to its first line that is broken.
fn play_fitting<O: Sink>(
    alloc: Global,
    config: Arc<Config, Global>,
    text: &[u8],
    out: &mut O,
    stopped: &mut bool,
) -> Result<Outcome, AllocError>
    requires sound { IsSound (arc_value config) }
    requires rules { AreRuled (arc_value config) }
    requires fits { length text.now ≤ LONGEST_SCRIPT }
    ensures { PlaysText (arc_value config) text.now (printer O.given O.faults out.old stopped.old) (printer O.given O.faults out.new stopped.new) result }
{
    let shared = Arc::try_clone(&config)?;
    let mut play = Play::new(alloc, config, SEED)?;
    let broken = play_lines(alloc, &mut play, out, stopped, &shared, text)?;
    script_runs_are_lawful();
    script_runs_are_answered();
    script_runs_enter_all();
    script_runs_take_all();
    script_runs_tell_all();
    script_runs_answer_once();
    let record = play.into_record()?;
    Ok(Outcome { broken, record })
}

/// Plays a script, up to its first line that is broken; nothing of one that is too long.
fn play_text<O: Sink>(
    alloc: Global,
    config: Config,
    text: &[u8],
    out: &mut O,
    stopped: &mut bool,
) -> Result<Outcome, AllocError>
    requires sound { IsSound config }
    requires rules { AreRuled config }
    ensures { PlaysText config text.now (printer O.given O.faults out.old stopped.old) (printer O.given O.faults out.new stopped.new) result }
{
    if text.len() > LONGEST_SCRIPT {
        return Ok(Outcome {
            broken: Some(Broken {
                line: 0,
                rule: ScriptRule::TooLong,
            }),
            record: empty_record(alloc),
        });
    }
    play_fitting(alloc, Arc::new(alloc, config)?, text, out, stopped)
}

/// How a run ends whose script was played, or is refused where `broken` says.
fn ending_of<O: Sink>(
    alloc: Global,
    out: &mut O,
    stopped: &mut bool,
    broken: Option<Broken>,
) -> Status
    ensures { Ends broken (printer O.given O.faults out.old stopped.old) (printer O.given O.faults out.new stopped.new) result }
{
    match broken {
        None => out_status(*stopped),
        Some(found) => match print_script_refusal(alloc, out, stopped, found) {
            Ok(()) => Status::ScriptRefused,
            Err(_) => {
                print(out, stopped, NO_MEMORY);
                Status::NoMemory
            }
        },
    }
}

/// The record that is given with a status: where memory was refused, the empty one.
fn record_with(alloc: Global, status: Status, left: Record) -> Record
    ensures given { (status ≡ Status.NoMemory → ⊥) → result ≡ left }
    ensures empty { status ≡ Status.NoMemory → IsEmptyRecord result }
{
    match status {
        Status::NoMemory => empty_record(alloc),
        _ => left,
    }
}

/// Plays a script and prints what it prints, and the last line of one that is refused. Where memory
/// is refused, a front of what is due was printed, the last line says so, and the record is empty.
fn play_to_end<O: Sink>(alloc: Global, config: Config, text: &[u8], out: &mut O) -> (Status, Record)
    requires sound { IsSound config }
    requires rules { AreRuled config }
    ensures { Plays config text.now (O.given out.old) (O.given out.new) (RoseWhere (O.faults out.old) (O.faults out.new)) result.1 result.0 }
{
    let mut stopped = false;
    match play_text(alloc, config, text, out, &mut stopped) {
        Ok(outcome) => {
            let Outcome { broken, record } = outcome;
            let status = ending_of(alloc, out, &mut stopped, broken);
            (status, record_with(alloc, status, record))
        }
        Err(_) => {
            print(out, &mut stopped, NO_MEMORY);
            (Status::NoMemory, empty_record(alloc))
        }
    }
}

/// Plays a script that was read.
pub fn play_prepared<O: Sink>(alloc: Global, prepared: Prepared, out: &mut O) -> (Status, Record)
    requires sound { IsSound prepared.config }
    requires rules { AreRuled prepared.config }
    ensures { Plays prepared.config prepared.script.items (O.given out.old) (O.given out.new) (RoseWhere (O.faults out.old) (O.faults out.new)) result.1 result.0 }
{
    let Prepared { config, script } = prepared;
    play_to_end(alloc, config, &script, out)
}
