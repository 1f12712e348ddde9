//! The rules that a line of a script may break where it stands.

ghost use Rattle.std.specs.Prelude.{◌≡◌, ◌<◌, ◌==◌, ◌&&◌, ◌||◌, None, length, not, nat_le, nat_lt, option_map, slice_get};
ghost use Rattle.okws_base.specs.Past.{is_just};
ghost use Rattle.okws_base.specs.declared.limit.TheConstants.{MOST_INCARNATIONS, MOST_EDITIONS, LONGEST_TEMPLATE};
ghost use Rattle.okws_plan.specs.Lines.{LineFits, PlaceFits};
ghost use Rattle.play_script.specs.Rule.{script_rule_number};
ghost use Rattle.monitor_model.specs.Cell.{incarnation, last_booted};
ghost use Rattle.monitor_model.specs.Pubd.{edition};
ghost use Rattle.monitor_model.specs.Standing.{up_at_okd};
ghost use Rattle.monitor_model.specs.Stage.{stand};
ghost use Rattle.monitor_model.specs.Script.{greatest, last_at, broken, no_cell, is_pending, is_busy_request, refusal};

use crate::play::run::Play;
use okws_base::limit::{LONGEST_TEMPLATE, MOST_EDITIONS, MOST_INCARNATIONS};
use okws_plan::script::{Line, Place};
use play_script::rule::ScriptRule;

impl Play {
    // `begin`, `launch`, `relaunch`: all incarnations of the service are spent.
    fn rule_of_begin(&self, service: u16) -> Option<ScriptRule>
        ensures { option_map script_rule_number result ≡ broken (nat_le MOST_INCARNATIONS (greatest self.now.stage service)) 8 None }
    {
        if MOST_INCARNATIONS <= self.columns.greatest(service) {
            return Some(ScriptRule::Spent);
        }
        None
    }

    // `install`: no incarnation has begun, or the greatest was installed at the column.
    fn rule_of_install(&self, service: u16, place: Place) -> Option<ScriptRule>
        requires service { service < length self.now.config.services }
        requires place { PlaceFits self.now.config place }
        ensures { option_map script_rule_number result ≡ broken (greatest self.now.stage service == 0) 3 (broken (nat_le (greatest self.now.stage service) (last_at service place self.now.stage.seen)) 4 None) }
    {
        let greatest = self.columns.greatest(service);
        if greatest == 0 {
            return Some(ScriptRule::NotBegun);
        }
        if greatest <= self.columns.last(service, place) {
            return Some(ScriptRule::AlreadyDone);
        }
        None
    }

    // `boot`: no incarnation has begun, or the greatest was booted.
    fn rule_of_boot(&self, service: u16) -> Option<ScriptRule>
        requires { service < length self.now.config.services }
        ensures { option_map script_rule_number result ≡ broken (greatest self.now.stage service == 0) 3 (broken (nat_le (greatest self.now.stage service) (last_booted (stand self.now.stage service).past)) 4 None) }
    {
        let greatest = self.columns.greatest(service);
        if greatest == 0 {
            return Some(ScriptRule::NotBegun);
        }
        if greatest <= self.cell(service).last_booted() {
            return Some(ScriptRule::AlreadyDone);
        }
        None
    }

    // `up`: the cell's incarnation is up already, or the cell is empty.
    fn rule_of_up(&self, service: u16) -> Option<ScriptRule>
        requires { service < length self.now.config.services }
        ensures { option_map script_rule_number result ≡ broken (not (no_cell self.now.stage service) && is_just (incarnation (stand self.now.stage service).past) (up_at_okd self.now.stage.seen.okd service)) 4 (broken (no_cell self.now.stage service) 7 None) }
    {
        let incarnation = self.cell(service).incarnation();
        if incarnation == 0 {
            return Some(ScriptRule::NoCell);
        }
        if self.columns.standing_at_okd(service) == Some(incarnation) {
            return Some(ScriptRule::AlreadyDone);
        }
        None
    }

    // `bytes`, `end`: the cell is empty, or the service's bytes have ended.
    fn rule_of_bytes(&self, service: u16) -> Option<ScriptRule>
        requires { service < length self.now.config.services }
        ensures { option_map script_rule_number result ≡ broken (no_cell self.now.stage service || (stand self.now.stage service).has_ended) 7 None }
    {
        let cell = self.cell(service);
        if cell.incarnation() == 0 || cell.has_ended() {
            return Some(ScriptRule::NoCell);
        }
        None
    }

    // Whether the request goes to an incarnation and its dialog was not begun.
    fn is_pending(&self, request: u32) -> bool
        ensures { result ≡ is_pending (slice_get self.now.stage.requests request) }
    {
        match self.requests.get(request as usize) {
            None => false,
            Some(asked) => asked.is_pending(),
        }
    }

    // Whether a dialog is open at the cell of the request.
    fn is_busy(&self, request: u32) -> bool
        ensures { result ≡ is_busy_request (slice_get self.now.stage.requests request) self.now.stage }
    {
        match self.requests.get(request as usize) {
            None => false,
            Some(asked) => match asked.goes() {
                None => false,
                Some((service, _)) => self.cell(service).open_request().is_some(),
            },
        }
    }

    // `dialog`: there is no such request to begin, or a dialog is open at its cell.
    fn rule_of_dialog(&self, request: u32) -> Option<ScriptRule>
        ensures { option_map script_rule_number result ≡ broken (not (is_pending (slice_get self.now.stage.requests request))) 5 (broken (is_busy_request (slice_get self.now.stage.requests request) self.now.stage) 6 None) }
    {
        if !self.is_pending(request) {
            return Some(ScriptRule::NoSuchRequest);
        }
        if self.is_busy(request) {
            return Some(ScriptRule::CellBusy);
        }
        None
    }

    // `publish`: all editions of the template are spent, or the content is too long.
    fn rule_of_publish(&self, template: u16, content: &[u8]) -> Option<ScriptRule>
        requires { template < length self.now.config.templates }
        ensures { option_map script_rule_number result ≡ broken (nat_le MOST_EDITIONS (edition self.now.stage.seen.pubd template)) 8 (broken (nat_lt LONGEST_TEMPLATE (length content.now)) 9 None) }
    {
        if MOST_EDITIONS <= self.columns.edition(template) {
            return Some(ScriptRule::Spent);
        }
        if LONGEST_TEMPLATE < content.len() {
            return Some(ScriptRule::TooLong);
        }
        None
    }

    /// The lowest rule, from the third on, that a line breaks where the run stands.
    pub fn judge(&self, line: &Line) -> Option<ScriptRule>
        requires { LineFits self.now.config line.now }
        ensures { option_map script_rule_number result ≡ refusal line.now self.now.stage }
    {
        match line {
            Line::Begin(service) => self.rule_of_begin(*service),
            Line::Install { service, place } => self.rule_of_install(*service, *place),
            Line::Revoke { .. } => None,
            Line::Boot(service) => self.rule_of_boot(*service),
            Line::Up(service) => self.rule_of_up(*service),
            Line::Down(_) => None,
            Line::Launch(service) => self.rule_of_begin(*service),
            Line::Relaunch(service) => self.rule_of_begin(*service),
            Line::Accept { .. } => None,
            Line::Dialog(request) => self.rule_of_dialog(*request),
            Line::Bytes { service, .. } => self.rule_of_bytes(*service),
            Line::End(service) => self.rule_of_bytes(*service),
            Line::Publish { template, content } => {
                self.rule_of_publish(*template, content.as_slice())
            }
        }
    }
}
