//! A drill: a generated script over a site of the program's own, and the summary of what its run heard.

ghost use Rattle.std.specs.Prelude.{◌≡◌, ◌≤◌, true, IfOk, Ok, OnOk};
ghost use Rattle.okws_plan.specs.Sound.{IsSound};
ghost use Rattle.config_reader.specs.Meaning.{meaning};
ghost use Rattle.config_reader.specs.Ruled.{AreRuled};
ghost use Rattle.okws_base.specs.Runs.{Each};
ghost use Rattle.monitor_model.specs.Stage.{first_stage};
ghost use Rattle.play_script.specs.Script.{drill_script, token_seed};
ghost use Rattle.play_script.specs.Site.{is_drilled_site};
ghost use Rattle.play_script.specs.declared.site.TheConstants.{SITE};
ghost use Rattle.play_script.specs.declared.words.TheConstants.{MOST_EVENTS};
ghost use Rattle.okws_server.specs.Ending.{RoseWhere};
ghost use Rattle.okws_server.specs.Drill.{CanBePlayed, Drilled, GoesThrough, IsDrilled, Leads};

use crate::ending::{out_status, print_no_memory};
use crate::script_run::empty_record;
use crate::status::Status;
use config_reader::{ConfigError, read};
use monitor_model::laws::{
    script_runs_answer_once, script_runs_are_answered, script_runs_are_lawful,
    script_runs_enter_all, script_runs_take_all, script_runs_tell_all,
};
use monitor_model::record::Record;
use okws_outer::printing::print;
use okws_outer::stream::Sink;
use okws_plan::configuration::Config;
use okws_plan::script::Line;
use okws_play::Play;
use play_script::drill_laws::{drills_are_never_refused, tallies_count};
use play_script::frames::TOKEN_SEED;
use play_script::script::{Drill, first_lines};
use play_script::site::SITE;
use play_script::summary::summary;
use play_script::tally::Tally;
use std::alloc::{AllocError, Global};
use std::sync::Arc;

/// The configuration of a drill's site.
fn site(alloc: Global) -> Result<Config, AllocError>
    ensures means { IfOk result (λ C. meaning SITE.now ≡ Ok C) }
    ensures drilled { IfOk result (λ C. is_drilled_site C ≡ true) }
    ensures sound { IfOk result IsSound }
    ensures rules { IfOk result AreRuled }
{
    match read(alloc, SITE) {
        Ok(config) => Ok(config),
        Err(ConfigError::NoMemory) => Err(AllocError),
        Err(ConfigError::Refused(_)) => unreachable!(),
    }
}

/// Plays lines of a drill.
fn play_lines(play: &mut Play, tally: &mut Tally, lines: Vec<Line>) -> Result<(), AllocError>
    requires can { Each (CanBePlayed play.old.config) lines.items }
    requires unbroken { GoesThrough play.old lines.items }
    ensures { OnOk result (Leads play.old lines.items tally.old tally.new play.new) }
{
    let mut stopped = false;
    for line in lines {
        match play.run_line(tally, &mut stopped, line)? {
            None => {}
            Some(_) => unreachable!(),
        }
    }
    Ok(())
}

/// Plays the lines of a drill, a word's at a time.
fn play_drill(
    alloc: Global,
    play: &mut Play,
    tally: &mut Tally,
    number: u64,
    events: u32,
) -> Result<(), AllocError>
    requires few { events ≤ MOST_EVENTS }
    requires site { is_drilled_site play.old.config ≡ true }
    requires seed { play.old.seed ≡ token_seed }
    requires first { play.old.stage ≡ first_stage play.old.config }
    ensures { OnOk result (Leads play.old (drill_script number events) tally.old tally.new play.new) }
{
    drills_are_never_refused();
    play_lines(play, tally, first_lines(alloc)?)?;
    let mut drill = Drill::new(number);
    for _place in 0..events {
        let lines = drill.next_lines(alloc)?;
        play_lines(play, tally, lines)?;
    }
    Ok(())
}

/// What a drill leaves: its record, and the summary of what was heard.
struct Outcome {
    record: Record,
    text: Vec<u8>,
}

/// Plays a drill of so many events.
fn run_drill(alloc: Global, number: u64, events: u32) -> Result<Outcome, AllocError>
    requires { events ≤ MOST_EVENTS }
    ensures { IfOk result (λ left. IsDrilled number events left.record left.text.items) }
{
    let config = Arc::new(alloc, site(alloc)?)?;
    let mut play = Play::new(alloc, config, TOKEN_SEED)?;
    let mut tally = Tally::new(alloc)?;
    play_drill(alloc, &mut play, &mut tally, number, events)?;
    let text = summary(alloc, &tally)?;
    script_runs_are_lawful();
    script_runs_are_answered();
    script_runs_enter_all();
    script_runs_take_all();
    script_runs_tell_all();
    script_runs_answer_once();
    tallies_count();
    let record = play.into_record()?;
    Ok(Outcome { record, text })
}

/// Plays a drill of so many events, and prints the summary of what its run heard.
pub fn drill<O: Sink>(alloc: Global, out: &mut O, number: u64, events: u32) -> (Status, Record)
    requires { events ≤ MOST_EVENTS }
    ensures { Drilled number events (O.given out.old) (O.given out.new) (RoseWhere (O.faults out.old) (O.faults out.new)) result.1 result.0 }
{
    match run_drill(alloc, number, events) {
        Ok(outcome) => {
            let Outcome { record, text } = outcome;
            let mut stopped = false;
            print(out, &mut stopped, &text);
            (out_status(stopped), record)
        }
        Err(_) => {
            print_no_memory(out);
            (Status::NoMemory, empty_record(alloc))
        }
    }
}
