//! What the database's errors mean.

ghost use Rattle.std.specs.Prelude.{◌≡◌, ◌&&◌, is_some, Err, Ok};
ghost use Rattle.okws_plan.specs.Meaning.{key_place};
ghost use Rattle.sqlite_keeper.specs.Asking.{reason, tells_taken, insert_answer, count_answer, answer_to};
ghost use Rattle.sqlite_keeper.specs.Making.{make_reason};

use okws_outer::error::MakeError;
use okws_outer::keeper::RunError;
use okws_plan::configuration::Column;
use okws_plan::statement::{Action, Answer};
use sqlite::{Constraint, Error, ErrorCode};

/// Why the error leaves a statement without an answer.
pub(crate) fn reason(error: Error) -> RunError
    ensures { result ≡ reason error }
{
    match error {
        Error::SqliteFailure(ErrorCode::OutOfMemory) => RunError::NoMemory,
        _ => RunError::Failed,
    }
}

/// Why the error leaves no keeper.
pub(crate) fn make_reason(error: Error) -> MakeError
    ensures { result ≡ make_reason error }
{
    match error {
        Error::SqliteFailure(ErrorCode::OutOfMemory) => MakeError::NoMemory,
        _ => MakeError::Failed,
    }
}

fn tells_taken(error: Error) -> bool
    ensures { result ≡ tells_taken error }
{
    matches!(
        error,
        Error::SqliteFailure(ErrorCode::ConstraintViolation(Constraint::Unique))
    )
}

fn key_place(columns: &[Column]) -> Option<usize>
    ensures { result ≡ key_place columns.now }
{
    columns.iter().position(|column| column.key)
}

fn insert_answer(columns: &[Column], told: Result<usize, Error>) -> Result<Answer, RunError>
    ensures { result ≡ insert_answer (is_some (key_place columns.now)) told }
{
    match told {
        Ok(_) => Ok(Answer::Changed(1)),
        Err(error) => if key_place(columns).is_some() && tells_taken(error) {
            Ok(Answer::Duplicate)
        } else {
            Err(reason(error))
        },
    }
}

fn count_answer(told: Result<usize, Error>) -> Result<Answer, RunError>
    ensures { result ≡ count_answer told }
{
    match told {
        Ok(count) => Ok(Answer::Changed(count as u64)),
        Err(error) => Err(reason(error)),
    }
}

/// What is answered of what the database told of a write at a table of these columns.
pub(crate) fn answer_to(
    columns: &[Column],
    action: &Action,
    told: Result<usize, Error>,
) -> Result<Answer, RunError>
    ensures { result ≡ answer_to columns.now action.now told }
{
    match action {
        Action::Select(_) => Err(RunError::Failed),
        Action::Insert { values: _ } => insert_answer(columns, told),
        Action::Update {
            assignments: _,
            conditions: _,
        }
        | Action::Delete { conditions: _ } => count_answer(told),
    }
}
