//! A call up to its entry, within the turn.

ghost use Rattle.std.specs.Prelude.{◌≡◌, true, IfOk, IfErr, IsErrOf, Ok};
ghost use Rattle.okws_plan.specs.Fits.{fits};
ghost use Rattle.okws_plan.specs.Rules.{keeps_rules};
ghost use Rattle.okws_plan.specs.declared.statement.Answer.{Answer as Answered};
ghost use Rattle.okws_plan.specs.declared.statement.Answer.TheVariants.{Rows};
ghost use Rattle.okws_outer.specs.Keeping.{Runs, is_select};
ghost use Rattle.okws_outer.specs.Streams.{Counts};
ghost use Rattle.monitor_model.specs.Proxy.{within_frame};
ghost use Rattle.started_call.specs.Starting.{verdict_of, LeavesLength};

use okws_base::value::Value;
use okws_outer::keeper::{Keeper, RunError};
use okws_outer::pinned::Pinned;
use okws_plan::statement::{Action, Answer, Statement};
use started_call::Started;
use std::alloc::Global;

fn lists_rows(action: &Action) -> bool
    ensures { result ≡ is_select action.now }
{
    match action {
        Action::Select(_) => true,
        Action::Insert { values: _ }
        | Action::Update {
            assignments: _,
            conditions: _,
        }
        | Action::Delete { conditions: _ } => false,
    }
}

// Runs a statement; the answer of a SELECT is pinned.
pub fn begin<K: Keeper>(
    keeper: &mut K,
    alloc: Global,
    statement: &Statement,
    args: &[Value],
) -> Result<Started<K::Pin>, RunError>
    requires fits { fits statement.now.parameters args.now ≡ true }
    requires rules { keeps_rules (K.tables keeper.old) statement.now ≡ true }
    ensures ok { IfOk result (λ s. (answer : Answered) × (verdict_of (λ p. Rows (K.Pin.width p) (K.Pin.rows p)) s ≡ within_frame answer) × Runs (K.tables keeper.old) statement.now args.now (K.told keeper.old) (K.told keeper.new) (Ok answer)) }
    ensures length { IfOk result (λ s. LeavesLength s) }
    ensures err { IfErr result (λ _. K.told keeper.new ≡ K.told keeper.old) }
    ensures tables { K.tables keeper.new ≡ K.tables keeper.old }
    ensures faults { Counts (K.faults keeper.old) (K.faults keeper.new) (IsErrOf result RunError.Failed) }
    ensures spared { IsErrOf result RunError.NoMemory → K.faults keeper.new ≡ K.faults keeper.old }
    ensures still { IfOk result (λ _. K.faults keeper.new ≡ K.faults keeper.old) }
    ensures sure { K.steady keeper.old ≡ true → IsErrOf result RunError.Failed → ⊥ }
    ensures steady { K.steady keeper.new ≡ K.steady keeper.old }
{
    if lists_rows(&statement.action) {
        return Ok(Started::Ready(keeper.pin(alloc, statement, args)?));
    }
    match keeper.run(alloc, statement, args)? {
        Answer::Changed(count) => Ok(Started::Changed(count)),
        Answer::Duplicate => Ok(Started::Duplicate),
        Answer::Rows {
            columns: _,
            rows: _,
        } => unreachable!(),
    }
}
