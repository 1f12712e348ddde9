//! Stores of rows in files of SQLite, one for each proxy.

ghost use Rattle.std.specs.Prelude.{◌≡◌, [], ◌++◌, None, IfOk, codes, decimal, string_bytes};
ghost use Rattle.sqlite.specs.State.{HasCleanDisk};
ghost use Rattle.sqlite.specs.Files.{file_state, IsOpened};
ghost use Rattle.okws_outer.specs.Depots.{IsNewKeeper};
ghost use Rattle.real_stores.specs.Filed.{IsFiled};

use crate::pause::pause;
use okws_base::told::{Says, Told};
use okws_base::value::Value;
use okws_outer::error::MakeError;
use okws_outer::keeper::{Keeper, RunError};
use okws_outer::pinned::Listed;
use okws_outer::stores::{KeeperEnd, KeeperStart, Stores};
use okws_plan::configuration::Table;
use okws_plan::statement::{Answer, Statement};
use sqlite::{Connection, Error, ErrorCode, File, FileStore};
use sqlite_keeper::SqliteKeeper;
use std::alloc::{AllocError, Global};
use std::fs;

/// A keeper whose rows stand in a file. It hides of what the keeper is made: a program that holds stores
/// is proved without comparing the parts of a database.
pub struct FileKeeper {
    keeper: SqliteKeeper<FileStore<File>>,
}

impl Drop for FileKeeper {
    fn drop(self) {
        let FileKeeper { keeper } = self;
        drop(keeper);
    }
}

impl FileKeeper {
    ghost use Rattle.std.specs.Prelude.{◌≡◌, ◌⊎◌, IfOk, IfErr};
    ghost use Rattle.sqlite.specs.State.{HasCleanDisk};
    ghost use Rattle.sqlite.specs.Files.{file_state, over_files};
    ghost use Rattle.sqlite_keeper.specs.Asking.{KeepsRows};
    ghost use Rattle.sqlite_keeper.specs.Making.{IsMade, IsUnmade};

    /// A keeper for these tables over the database of a file, which comes back with an error.
    fn new(
        alloc: Global,
        conn: Connection<FileStore<File>>,
        tables: &[Table],
    ) -> Result<FileKeeper, (MakeError, Connection<FileStore<File>>)>
        ensures tables { IfOk result (λ k. k.keeper.tables.items ≡ tables.now) }
        ensures faults { IfOk result (λ k. k.keeper.faults ≡ 0) }
        ensures limit { IfOk result (λ k. k.keeper.conn.step_limit ≡ conn.step_limit) }
        ensures made { IfOk result (λ k. HasCleanDisk (file_state k.keeper.conn) → IsMade over_files tables.now conn k.keeper.conn) }
        ensures unmade { IfErr result (λ e. HasCleanDisk (file_state e.1) → ((e.0 ≡ MakeError.NoMemory) × (e.1 ≡ conn)) ⊎ IsUnmade over_files tables.now conn e.1 e.0) }
        ensures kept { IfErr result (λ e. HasCleanDisk (file_state e.1) → KeepsRows (file_state conn) (file_state e.1)) }
    {
        match SqliteKeeper::new(alloc, conn, tables) {
            Ok(keeper) => Ok(FileKeeper { keeper }),
            Err(refused) => Err(refused),
        }
    }

    /// Closes the file, into which all writes are copied before; where that fails they stay beside it.
    fn close(self) {
        let FileKeeper { keeper } = self;
        let _ = keeper.into_connection().close();
    }
}

impl Keeper for FileKeeper {
    type Pin = Listed;

    ghost use Rattle.std.specs.Prelude.{◌≡◌, None, Ok, Err, false, true, IfOk, IfErr, IsErrOf};
    ghost use Rattle.sqlite.specs.State.{HasCleanDisk};
    ghost use Rattle.sqlite.specs.Files.{file_state, over_files};
    ghost use Rattle.okws_outer.specs.Streams.{Counts};
    ghost use Rattle.okws_outer.specs.Keeping.{Runs, Pins, is_select};
    ghost use Rattle.sqlite_keeper.specs.Asking.{RunsAs};
    ghost use Rattle.sqlite_keeper.specs.Pinning.{pinned_answer, untold};

    ghost tables = { λ k. k.keeper.tables.items };

    ghost told = { λ _. untold };

    ghost faults = { λ k. k.keeper.faults };

    ghost steady = { λ _. false };

    ghost parted = { λ _. false };

    fn has_parted(&self) -> bool {
        false
    }

    fn run(
        &mut self,
        alloc: Global,
        statement: &Statement,
        args: &[Value],
    ) -> Result<Answer, RunError>
        ensures rows { Runs self.old.keeper.tables.items statement.now args.now untold untold result }
        ensures tables { self.new.keeper.tables.items ≡ self.old.keeper.tables.items }
        ensures faults { Counts self.old.keeper.faults self.new.keeper.faults (IsErrOf result RunError.Failed) }
        ensures spared { IsErrOf result RunError.NoMemory → self.new.keeper.faults ≡ self.old.keeper.faults }
        ensures still { IfOk result (λ _. self.new.keeper.faults ≡ self.old.keeper.faults) }
        ensures sure { false ≡ true → IsErrOf result RunError.Failed → ⊥ }
        ensures steady { false ≡ false }
        ensures handed { HasCleanDisk (file_state self.new.keeper.conn) → RunsAs over_files self.old.keeper.tables.items statement.now args.now self.old.keeper.conn self.new.keeper.conn result }
        ensures limit { self.new.keeper.conn.step_limit ≡ self.old.keeper.conn.step_limit }
    {
        self.keeper.run(alloc, statement, args)
    }

    fn pin(
        &mut self,
        alloc: Global,
        statement: &Statement,
        args: &[Value],
    ) -> Result<Listed, RunError>
        requires select { is_select statement.now.action ≡ true }
        ensures answer { IfOk result (λ p. Pins self.old.keeper.tables.items statement.now args.now untold (pinned_answer p)) }
        ensures told { untold ≡ untold }
        ensures tables { self.new.keeper.tables.items ≡ self.old.keeper.tables.items }
        ensures faults { Counts self.old.keeper.faults self.new.keeper.faults (IsErrOf result RunError.Failed) }
        ensures spared { IsErrOf result RunError.NoMemory → self.new.keeper.faults ≡ self.old.keeper.faults }
        ensures still { IfOk result (λ _. self.new.keeper.faults ≡ self.old.keeper.faults) }
        ensures sure { false ≡ true → IsErrOf result RunError.Failed → ⊥ }
        ensures steady { false ≡ false }
        ensures pinned { HasCleanDisk (file_state self.new.keeper.conn) → IfOk result (λ p. RunsAs over_files self.old.keeper.tables.items statement.now args.now self.old.keeper.conn self.new.keeper.conn (Ok (pinned_answer p))) }
        ensures unpinned { HasCleanDisk (file_state self.new.keeper.conn) → IfErr result (λ why. RunsAs over_files self.old.keeper.tables.items statement.now args.now self.old.keeper.conn self.new.keeper.conn (Err why)) }
        ensures limit { self.new.keeper.conn.step_limit ≡ self.old.keeper.conn.step_limit }
    {
        self.keeper.pin(alloc, statement, args)
    }
}

/// The name of the file of a proxy's rows.
fn file_of(alloc: Global, file: &str, proxy: u16) -> Result<String, AllocError>
    ensures { IfOk result (λ name. string_bytes name ≡ file.now ++ codes "." ++ decimal proxy) }
{
    format!(in alloc; "{file}.{proxy}")
}

/// How often a file is tried that others have, each time a pause later.
const TRIES: u16 = 300;

/// The database of a file, which is made where it is not there. Who has the file has some seconds to let it go.
fn open(rt: &HostRuntime, name: &str) -> Result<Connection<FileStore<File>>, MakeError>
    ensures opened { IfOk result (λ c. HasCleanDisk (file_state c) → IsOpened c) }
    ensures unlimited { IfOk result (λ c. c.step_limit ≡ None) }
{
    for _ in 0..TRIES {
        match Connection::open(rt, name) {
            Ok(conn) => return Ok(conn),
            Err(Error::SqliteFailure(ErrorCode::DatabaseBusy)) => pause(),
            Err(Error::SqliteFailure(ErrorCode::OutOfMemory)) => return Err(MakeError::NoMemory),
            Err(_) => return Err(MakeError::Failed),
        }
    }
    Err(MakeError::Failed)
}

/// Makes the tables of a file that isn't there yet, and copies them into it, so that it has them also after a run that was
/// killed.
fn make_file(
    rt: &HostRuntime,
    alloc: Global,
    name: &str,
    tables: &[Table],
) -> Result<(), MakeError> {
    if fs::metadata(rt, name).is_ok() {
        return Ok(());
    }
    match FileKeeper::new(alloc, open(rt, name)?, tables) {
        Ok(keeper) => {
            keeper.close();
            Ok(())
        }
        Err((why, _)) => Err(why),
    }
}

/// A keeper for tables over the database of a file.
fn keeper_over(
    rt: &HostRuntime,
    alloc: Global,
    name: &str,
    tables: &[Table],
) -> Result<FileKeeper, MakeError>
    ensures tables { IfOk result (λ k. ⟦<FileKeeper as Keeper>⟧.tables k ≡ tables.now) }
    ensures keeper { IfOk result (λ k. IsNewKeeper tables.now (⟦<FileKeeper as Keeper>⟧.told k) (⟦<FileKeeper as Keeper>⟧.faults k)) }
    ensures filed { IfOk result (λ k. IsFiled tables.now k.keeper.conn) }
    ensures unlimited { IfOk result (λ k. k.keeper.conn.step_limit ≡ None) }
{
    make_file(rt, alloc, name, tables)?;
    match FileKeeper::new(alloc, open(rt, name)?, tables) {
        Ok(keeper) => Ok(keeper),
        Err((why, _)) => Err(why),
    }
}

/// A keeper that was made.
#[derive(Clone, Copy)]
struct Made<'c> {
    file: &'c str,
    proxy: u16,
    tables: &'c [Table],
}

impl<'c> Says for Made<'c> {
    type Item = KeeperStart;

    ghost item = { λ m. record { file = m.file.now; proxy = m.proxy; tables = m.tables.now } };
}

/// A keeper that is given back.
#[derive(Clone, Copy)]
struct Finished<'c> {
    proxy: u16,
    keeper: &'c FileKeeper,
}

impl<'c> Says for Finished<'c> {
    type Item = KeeperEnd;

    ghost item = { λ f. record { proxy = f.proxy; rows = ⟦<FileKeeper as Keeper>⟧.told f.keeper.now; faults = ⟦<FileKeeper as Keeper>⟧.faults f.keeper.now } };
}

/// Stores in files: the rows of proxy P stand in the database FILE.P, which is made where it is not
/// there, and is the server's alone until the keeper is given back.
pub struct RealStores<'r> {
    rt: &'r HostRuntime,
    made: Told<KeeperStart>,
    finished: Told<KeeperEnd>,
    faults: u64,
}

impl<'r> Drop for RealStores<'r> {
    fn drop(self) {
        let RealStores {
            rt: _,
            made: _,
            finished: _,
            faults: _,
        } = self;
    }
}

impl<'r> RealStores<'r> {
    /// The stores, with no keeper made yet and no fault counted.
    pub fn new(rt: &'r HostRuntime) -> Self
        ensures { ⟦<RealStores<'r> as Stores>⟧.depot result ≡ record { made = []; finished = []; faults = 0 } }
    {
        RealStores {
            rt,
            made: Told::new(),
            finished: Told::new(),
            faults: 0,
        }
    }

    /// How many makings have failed.
    pub fn faults(&self) -> u64
        ensures { result ≡ (⟦<RealStores<'r> as Stores>⟧.depot self.now).faults }
    {
        self.faults
    }

    fn keeper(
        &self,
        alloc: Global,
        file: &str,
        proxy: u16,
        tables: &[Table],
    ) -> Result<FileKeeper, MakeError>
        ensures tables { IfOk result (λ k. ⟦<FileKeeper as Keeper>⟧.tables k ≡ tables.now) }
        ensures keeper { IfOk result (λ k. IsNewKeeper tables.now (⟦<FileKeeper as Keeper>⟧.told k) (⟦<FileKeeper as Keeper>⟧.faults k)) }
        ensures filed { IfOk result (λ k. IsFiled tables.now k.keeper.conn) }
        ensures unlimited { IfOk result (λ k. k.keeper.conn.step_limit ≡ None) }
    {
        let name = file_of(alloc, file, proxy)?;
        keeper_over(self.rt, alloc, &name, tables)
    }
}

impl<'r> Stores for RealStores<'r> {
    type Keeper = FileKeeper;

    ghost use Rattle.std.specs.Prelude.{◌≡◌, None, IfOk, OnErr};
    ghost use Rattle.okws_outer.specs.Depots.{IsNewKeeper, with_made};
    ghost use Rattle.okws_outer.specs.Making.{CountsMade};
    ghost use Rattle.real_stores.specs.Filed.{IsFiled};

    ghost depot = { λ s. record { made = s.made.past; finished = s.finished.past; faults = s.faults } };

    fn make(
        &mut self,
        alloc: Global,
        file: &str,
        proxy: u16,
        tables: &[Table],
    ) -> Result<FileKeeper, MakeError>
        ensures tables { IfOk result (λ k. ⟦<FileKeeper as Keeper>⟧.tables k ≡ tables.now) }
        ensures keeper { IfOk result (λ k. IsNewKeeper tables.now (⟦<FileKeeper as Keeper>⟧.told k) (⟦<FileKeeper as Keeper>⟧.faults k)) }
        ensures made { IfOk result (λ k. ⟦<RealStores<'r> as Stores>⟧.depot self.new ≡ with_made file.now proxy tables.now (⟦<RealStores<'r> as Stores>⟧.depot self.old)) }
        ensures refused { OnErr result (⟦<RealStores<'r> as Stores>⟧.depot self.new ≡ record (⟦<RealStores<'r> as Stores>⟧.depot self.old) { faults = (⟦<RealStores<'r> as Stores>⟧.depot self.new).faults }) }
        ensures faults { CountsMade (⟦<RealStores<'r> as Stores>⟧.depot self.old).faults (⟦<RealStores<'r> as Stores>⟧.depot self.new).faults result }
        ensures filed { IfOk result (λ k. IsFiled tables.now k.keeper.conn) }
        ensures unlimited { IfOk result (λ k. k.keeper.conn.step_limit ≡ None) }
    {
        let made = self.keeper(alloc, file, proxy, tables);
        match &made {
            Ok(_) => {
                let start = Made {
                    file,
                    proxy,
                    tables,
                };
                self.made = self.made.and(&start);
            }
            Err(MakeError::Failed) => self.faults = self.faults.saturating_add(1),
            Err(MakeError::NoMemory) => {}
        }
        made
    }

    fn finish(&mut self, proxy: u16, keeper: FileKeeper) {
        let finished = Finished {
            proxy,
            keeper: &keeper,
        };
        self.finished = self.finished.and(&finished);
        keeper.close();
    }
}
