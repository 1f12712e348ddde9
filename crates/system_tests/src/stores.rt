//! Stores in real files.

ghost use Rattle.std.specs.Prelude.{◌≡◌, [], ◌∷◌};
ghost use Rattle.system_tests.specs.Example.{tables, IsInsertion};

use crate::holding::{MEMORY, has_failed, holds};
use okws_base::items::{Items, copies};
use okws_base::name::Identifier;
use okws_base::value::{Kind, Value};
use okws_outer::keeper::Keeper;
use okws_outer::stores::Stores;
use okws_plan::configuration::{Column, Table};
use okws_plan::statement::{Action, Answer, Operand, Statement};
use real_stores::stores::{FileKeeper, RealStores};
use std::alloc::Global;
use std::process::Abort;
use std::{fs, process};

fn identifier(rt: &impl Abort, alloc: Global, text: &[u8]) -> Identifier
    ensures { result ≡ text.now }
{
    let bytes = copies(alloc, text).expect(rt, MEMORY);
    match Identifier::new(Items::of(bytes)) {
        Some(name) => name,
        None => panic!(rt; "not an identifier"),
    }
}

fn column(rt: &impl Abort, alloc: Global, text: &[u8], key: bool) -> Column
    ensures { result ≡ record { name = text.now; kind = Kind.Int; key = key } }
{
    Column {
        name: identifier(rt, alloc, text),
        kind: Kind::Int,
        key,
    }
}

fn two<T: Drop>(rt: &impl Abort, alloc: Global, first: T, second: T) -> Items<T>
    ensures { result ≡ first ∷ second ∷ [] }
{
    let mut items = Vec::new(alloc);
    items.push(first).expect(rt, MEMORY);
    items.push(second).expect(rt, MEMORY);
    Items::of(items)
}

fn one_table(rt: &impl Abort, alloc: Global) -> Vec<Table>
    ensures { result.items ≡ tables }
{
    let id = column(rt, alloc, b"id", true);
    let n = column(rt, alloc, b"n", false);
    let table = Table {
        name: identifier(rt, alloc, b"t"),
        columns: two(rt, alloc, id, n),
        first: Items::of(Vec::new(alloc)),
    };
    let mut tables = Vec::new(alloc);
    tables.push(table).expect(rt, MEMORY);
    tables
}

fn insertion(rt: &impl Abort, alloc: Global) -> Statement
    ensures { IsInsertion result }
{
    let values = two(rt, alloc, Operand::Parameter(2), Operand::Parameter(1));
    Statement {
        table: 0,
        parameters: two(rt, alloc, Kind::Int, Kind::Int),
        action: Action::Insert { values },
    }
}

#[tactic(auto, using(crate::proofs::Lawful::lawful, crate::proofs::Lawful::fitting))]
fn insert(rt: &impl Abort, alloc: Global, keeper: &mut FileKeeper, id: i64) -> Option<Answer>
    requires { ⟦<FileKeeper as Keeper>⟧.tables keeper.old ≡ tables }
{
    let statement = insertion(rt, alloc);
    let args = two(rt, alloc, Value::Int(5), Value::Int(id));
    keeper.run(alloc, &statement, args.as_slice()).ok()
}

/// Inserts a row into the rows of proxy 7, in a time of the store's own.
fn inserted(
    rt: &impl Abort,
    alloc: Global,
    stores: &mut RealStores<'_>,
    path: &str,
    id: i64,
) -> Option<Answer> {
    let tables = one_table(rt, alloc);
    let Ok(mut keeper) = stores.make(alloc, path, 7, &tables) else {
        return None;
    };
    let answer = insert(rt, alloc, &mut keeper, id);
    // While the keeper is out nobody else has the file.
    let is_alone = has_failed(stores.make(alloc, path, 7, &tables));
    stores.finish(7, keeper);
    if is_alone { answer } else { None }
}

/// Removes a file of rows, where it is.
fn remove(rt: &HostRuntime, path: &str, ending: &str) {
    if let Ok(file) = format!(in rt.alloc(); "{path}.{ending}") {
        let _ = fs::remove_file(rt, file.as_str());
    }
}

/// Removes the files of proxy 7, where they are.
fn clear(rt: &HostRuntime, path: &str) {
    remove(rt, path, "7");
    remove(rt, path, "7-wal");
}

#[test]
fn rows_stay_in_their_file(rt: HostRuntime) {
    let number = process::id(rt.process());
    let path = format!(in rt.alloc(); "/tmp/okws-rows-{number}");
    let path = path.expect(&rt, MEMORY);
    clear(&rt, &path);
    let mut stores = RealStores::new(&rt);
    let all = [
        (1, Answer::Changed(1)),
        (1, Answer::Duplicate),
        (2, Answer::Changed(1)),
    ];
    for (id, answer) in all {
        let found = inserted(&rt, rt.alloc(), &mut stores, &path, id);
        holds(&rt, found == Some(answer), "an answer");
        // All that was written stands in the one file.
        remove(&rt, &path, "7-wal");
    }
    clear(&rt, &path);
    holds(&rt, stores.faults() == 3, "faults");
}

#[test]
fn what_is_no_place_for_a_store_is_a_fault(rt: HostRuntime) {
    let mut stores = RealStores::new(&rt);
    let refused = stores.make(rt.alloc(), "/nowhere/rows", 0, &[]);
    holds(&rt, has_failed(refused), "nowhere");
    holds(&rt, stores.faults() == 1, "faults");
}
