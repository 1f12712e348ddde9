//! What a line of a script does.

ghost use Rattle.std.specs.Prelude.{◌≡◌, None};
ghost use Rattle.okws_plan.specs.Lines.{LineFits};
ghost use Rattle.play_script.specs.Reading.{LineKeeps};
ghost use Rattle.monitor_model.specs.Script.{refusal};
ghost use Rattle.okws_outer.specs.Printing.{printer};
ghost use Rattle.okws_play.specs.Played.{PlayedLine};
ghost use Rattle.okws_play.specs.Printed.{DoesAs};
ghost use Rattle.okws_play.specs.Run.{IsShortLine};

use crate::play::run::Play;
use okws_outer::stream::Sink;
use okws_plan::script::Line;
use play_script::rule::ScriptRule;
use std::alloc::AllocError;

impl Play {
    fn do_line<O: Sink>(
        &mut self,
        out: &mut O,
        stopped: &mut bool,
        line: Line,
    ) -> Result<(), AllocError>
        requires fits { LineFits self.old.config line }
        requires keeps { LineKeeps line }
        requires short { IsShortLine line }
        requires allowed { refusal line self.old.stage ≡ None }
        ensures { DoesAs line self.old (printer O.given O.faults out.old stopped.old) (printer O.given O.faults out.new stopped.new) result self.new }
    {
        match line {
            Line::Begin(service) => self.begin(service),
            Line::Install { service, place } => self.install(service, place),
            Line::Revoke { service, place } => self.revoke(service, place),
            Line::Boot(service) => self.boot(out, stopped, service),
            Line::Up(service) => self.up(service),
            Line::Down(service) => self.down(service),
            Line::Launch(service) => self.launch(out, stopped, service),
            Line::Relaunch(service) => self.relaunch(out, stopped, service),
            Line::Accept {
                method,
                target,
                content,
            } => self.accept(out, stopped, method, target, content),
            Line::Dialog(request) => self.dialog(out, stopped, request),
            Line::Bytes { service, bytes } => self.bytes(out, stopped, service, bytes.as_slice()),
            Line::End(service) => self.end(out, stopped, service),
            Line::Publish { template, content } => self.publish(template, content),
        }
    }

    /// Plays a line: does what it says, and prints what that prints; or names the lowest rule that the
    /// line breaks where the run stands, and then all is as before.
    pub fn run_line<O: Sink>(
        &mut self,
        out: &mut O,
        stopped: &mut bool,
        line: Line,
    ) -> Result<Option<ScriptRule>, AllocError>
        requires fits { LineFits self.old.config line }
        requires keeps { LineKeeps line }
        requires short { IsShortLine line }
        ensures played { PlayedLine self.old line (printer O.given O.faults out.old stopped.old) (printer O.given O.faults out.new stopped.new) result self.new }
    {
        match self.judge(&line) {
            Some(rule) => Ok(Some(rule)),
            None => {
                self.do_line(out, stopped, line)?;
                Ok(None)
            }
        }
    }
}
