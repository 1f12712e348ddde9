//! The keeper.

ghost use Rattle.std.specs.Prelude.{◌≡◌, ◌⊎◌, true, false, Ok, Err, IfOk, IfErr, IsErrOf};
ghost use Rattle.sqlite.specs.State.{HasCleanDisk};
ghost use Rattle.sqlite.specs.Held.{state};
ghost use Rattle.okws_outer.specs.Streams.{Counts};
ghost use Rattle.okws_outer.specs.Keeping.{Runs, Pins, is_select};
ghost use Rattle.okws_plan.specs.Rules.{join_of};
ghost use Rattle.sqlite_keeper.specs.Asking.{RunsAs, KeepsRows, others_of};
ghost use Rattle.sqlite_keeper.specs.Making.{IsMade, IsUnmade};
ghost use Rattle.sqlite_keeper.specs.Pinning.{untold, pinned_answer};

use crate::asking::{act, pinned};
use crate::making::prepare;
use okws_base::items::copies;
use okws_base::value::Value;
use okws_outer::error::MakeError;
use okws_outer::keeper::{Keeper, RunError};
use okws_outer::pinned::Listed;
use okws_plan::configuration::{Column, Table};
use okws_plan::meaning::columns_at;
use okws_plan::statement::{Action, Answer, Statement};
use sqlite::{Alter, Connection};
use std::alloc::Global;

/// The rows of some tables in a database, each statement a transaction of its own. A refusal of the
/// database for another cause than memory is counted as a fault. It tells no rows.
pub struct SqliteKeeper<S: Alter> {
    conn: Connection<S>,
    tables: Vec<Table>,
    faults: u64,
}

impl<S: Alter + Drop> Drop for SqliteKeeper<S> {
    fn drop(self) {
        let SqliteKeeper {
            conn,
            tables,
            faults: _,
        } = self;
        drop(conn);
        drop(tables);
    }
}

impl<S: Alter + Drop> SqliteKeeper<S> {
    /// A keeper for these tables over a database. A table that is not there is made and has its first
    /// rows; one that is there is kept, where its name and its columns are the declared ones, in their order. All of this is one
    /// transaction. An error comes with the database, whose rows are as they were.
    pub fn new(
        alloc: Global,
        mut conn: Connection<S>,
        tables: &[Table],
    ) -> Result<SqliteKeeper<S>, (MakeError, Connection<S>)>
        ensures tables { IfOk result (λ k. k.tables.items ≡ tables.now) }
        ensures faults { IfOk result (λ k. k.faults ≡ 0) }
        ensures limit { IfOk result (λ k. k.conn.step_limit ≡ conn.step_limit) }
        ensures made { IfOk result (λ k. HasCleanDisk (state S.Store k.conn) → IsMade S.Store tables.now conn k.conn) }
        ensures unmade { IfErr result (λ e. HasCleanDisk (state S.Store e.1) → ((e.0 ≡ MakeError.NoMemory) × (e.1 ≡ conn)) ⊎ IsUnmade S.Store tables.now conn e.1 e.0) }
        ensures kept { IfErr result (λ e. HasCleanDisk (state S.Store e.1) → KeepsRows (state S.Store conn) (state S.Store e.1)) }
    {
        let Ok(copied) = copies(alloc, tables) else {
            return Err((MakeError::NoMemory, conn));
        };
        match prepare(alloc, &mut conn, tables) {
            Ok(()) => Ok(SqliteKeeper {
                conn,
                tables: copied,
                faults: 0,
            }),
            Err(why) => Err((why, conn)),
        }
    }

    /// The database, as the keeper left it.
    pub fn into_connection(self) -> Connection<S>
        ensures { result ≡ self.conn }
    {
        let SqliteKeeper {
            conn,
            tables,
            faults: _,
        } = self;
        drop(tables);
        conn
    }
}

impl<S: Alter> SqliteKeeper<S> {
    /// How many calls have failed.
    pub fn faults(&self) -> u64
        ensures { result ≡ self.now.faults }
    {
        self.faults
    }
}

/// The columns of the table that an action joins; none where it joins none.
fn other_columns<'a>(tables: &'a [Table], action: &Action) -> &'a [Column]
    ensures { result.now ≡ others_of tables.now (join_of action.now) }
{
    match action {
        Action::Select(selection) => match &selection.join {
            None => &[],
            Some(join) => columns_at(tables, join.table as usize),
        },
        Action::Insert { values: _ } => &[],
        Action::Update {
            assignments: _,
            conditions: _,
        } => &[],
        Action::Delete { conditions: _ } => &[],
    }
}

/// The count of faults after a call; it stays at 2^64 - 1.
fn counted<T>(faults: u64, answer: &Result<T, RunError>) -> u64
    ensures counts { Counts faults result (IsErrOf answer.now RunError.Failed) }
    ensures spared { IsErrOf answer.now RunError.NoMemory → result ≡ faults }
    ensures still { IfOk answer.now (λ _. result ≡ faults) }
{
    match answer {
        Err(RunError::Failed) => faults.saturating_add(1),
        Err(RunError::NoMemory) | Ok(_) => faults,
    }
}

impl<S: Alter> Keeper for SqliteKeeper<S> {
    type Pin = Listed;

    ghost tables = { λ k. k.tables.items };

    ghost told = { λ _. untold };

    ghost faults = { λ k. k.faults };

    ghost steady = { λ _. false };

    ghost parted = { λ _. false };

    fn has_parted(&self) -> bool {
        false
    }

    fn run(
        &mut self,
        alloc: Global,
        statement: &Statement,
        args: &[Value],
    ) -> Result<Answer, RunError>
        ensures rows { Runs self.old.tables.items statement.now args.now untold untold result }
        ensures tables { self.new.tables.items ≡ self.old.tables.items }
        ensures faults { Counts self.old.faults self.new.faults (IsErrOf result RunError.Failed) }
        ensures spared { IsErrOf result RunError.NoMemory → self.new.faults ≡ self.old.faults }
        ensures sure { false ≡ true → IsErrOf result RunError.Failed → ⊥ }
        ensures steady { false ≡ false }
        ensures still { IfOk result (λ _. self.new.faults ≡ self.old.faults) }
        ensures handed { HasCleanDisk (state S.Store self.new.conn) → RunsAs S.Store self.old.tables.items statement.now args.now self.old.conn self.new.conn result }
        ensures limit { self.new.conn.step_limit ≡ self.old.conn.step_limit }
    {
        let columns = columns_at(&self.tables, statement.table as usize);
        let others = other_columns(&self.tables, &statement.action);
        let answer = act(
            alloc,
            &mut self.conn,
            columns,
            others,
            statement.table,
            &statement.action,
            args,
        );
        self.faults = counted(self.faults, &answer);
        answer
    }

    fn pin(
        &mut self,
        alloc: Global,
        statement: &Statement,
        args: &[Value],
    ) -> Result<Listed, RunError>
        requires select { is_select statement.now.action ≡ true }
        ensures answer { IfOk result (λ p. Pins self.old.tables.items statement.now args.now untold (pinned_answer p)) }
        ensures told { untold ≡ untold }
        ensures tables { self.new.tables.items ≡ self.old.tables.items }
        ensures faults { Counts self.old.faults self.new.faults (IsErrOf result RunError.Failed) }
        ensures spared { IsErrOf result RunError.NoMemory → self.new.faults ≡ self.old.faults }
        ensures sure { false ≡ true → IsErrOf result RunError.Failed → ⊥ }
        ensures steady { false ≡ false }
        ensures still { IfOk result (λ _. self.new.faults ≡ self.old.faults) }
        ensures pinned { HasCleanDisk (state S.Store self.new.conn) → IfOk result (λ p. RunsAs S.Store self.old.tables.items statement.now args.now self.old.conn self.new.conn (Ok (pinned_answer p))) }
        ensures unpinned { HasCleanDisk (state S.Store self.new.conn) → IfErr result (λ why. RunsAs S.Store self.old.tables.items statement.now args.now self.old.conn self.new.conn (Err why)) }
        ensures limit { self.new.conn.step_limit ≡ self.old.conn.step_limit }
    {
        let columns = columns_at(&self.tables, statement.table as usize);
        let others = other_columns(&self.tables, &statement.action);
        let found = pinned(
            alloc,
            &mut self.conn,
            columns,
            others,
            statement.table,
            &statement.action,
            args,
        );
        self.faults = counted(self.faults, &found);
        found
    }
}
