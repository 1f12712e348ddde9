//! The same statements, drawn at random, over the keeper with a database and over the one with indexes.

ghost use Rattle.std.specs.Prelude.{◌≡◌};
ghost use Rattle.okws_plan.specs.Configuration.{tables};
ghost use Rattle.config_reader.specs.Ruled.{AreRuled};

use crate::draws::{Pool, arguments, next};
use crate::holding::{MEMORY, holds};
use crate::site::{call, config, indexed, tables_at};
use index_keeper::IndexKeeper;
use okws_outer::keeper::Keeper;
use okws_plan::configuration::Config;
use sqlite::{Alter, Connection};
use sqlite_keeper::SqliteKeeper;
use std::alloc::Global;
use std::process::Abort;
use std::{fs, process};

const SITE: &str = "okws 1
proxy main
table main t id INT KEY kind TEXT n INT data BYTES
table main u name TEXT KEY n INT
table main v data BYTES KEY name TEXT
row main t 7 'first' 9223372036854775807 X''
row main t -7 '' -9223372036854775808 X'00'
row main u 'first' 0
query main 1 INSERT INTO t (id, kind, n, data) VALUES (?1, ?2, ?3, ?4)
query main 2 SELECT id, kind, n, data FROM t
query main 3 SELECT id, n FROM t WHERE kind = ?1 ORDER BY n
query main 4 SELECT id FROM t WHERE kind <> ?1 AND n <= ?2 ORDER BY data LIMIT 3
query main 5 UPDATE t SET kind = ?1 WHERE n >= ?2
query main 6 UPDATE t SET n = ?1, kind = ?2 WHERE id = ?3
query main 7 UPDATE t SET n = ?1, data = ?2 WHERE kind < ?3 AND n > ?4
query main 8 DELETE FROM t WHERE id = ?1
query main 9 DELETE FROM t WHERE n = ?1 AND kind >= ?2
query main 10 SELECT kind, id FROM t WHERE data > ?1 ORDER BY kind
query main 11 SELECT id FROM t WHERE n >= ?1 ORDER BY id LIMIT 5
query main 12 SELECT id, data FROM t WHERE data = ?1 ORDER BY kind LIMIT 2
query main 13 INSERT INTO t (id, kind, n, data) VALUES (?1, 'it''s', ?2, X'00')
query main 14 INSERT INTO u (name, n) VALUES (?1, ?2)
query main 15 SELECT name, n FROM u ORDER BY name
query main 16 SELECT n FROM u WHERE name <= ?1
query main 17 UPDATE u SET n = ?1 WHERE name = ?2
query main 18 DELETE FROM u WHERE name > ?1 AND n < ?2
query main 19 INSERT INTO v (data, name) VALUES (?1, ?2)
query main 20 SELECT data, name FROM v ORDER BY data
query main 21 SELECT name FROM v WHERE data < ?1 ORDER BY name LIMIT 0
query main 22 DELETE FROM v WHERE data = ?1
query main 23 SELECT id FROM t WHERE n = 0 AND kind = 'a' ORDER BY data
query main 24 SELECT t.id, u.name FROM t JOIN u ON t.kind = u.name ORDER BY u.name
query main 25 SELECT u.n, t.n, t.id FROM u JOIN t ON t.n = u.n WHERE t.id > ?1 LIMIT 4
query main 26 SELECT t.id, v.name FROM t JOIN v ON v.data = t.data WHERE v.name <> ?1 AND t.kind = ?2 ORDER BY t.n
query main 27 SELECT v.data, u.n FROM v JOIN u ON v.name = u.name
";

// Whether both keepers answer so many statements alike, the first of which is drawn by this number.
fn answer_alike<R: Abort, K: Keeper>(
    rt: &R,
    alloc: Global,
    config: &Config,
    one: &mut K,
    other: &mut IndexKeeper,
    mut number: u64,
    calls: u64,
) -> bool
    requires one { K.tables one.old ≡ tables config.now 0 }
    requires other { ⟦<IndexKeeper as Keeper>⟧.tables other.old ≡ tables config.now 0 }
    requires ruled { AreRuled config.now }
    ensures one { K.tables one.new ≡ tables config.now 0 }
    ensures other { ⟦<IndexKeeper as Keeper>⟧.tables other.new ≡ tables config.now 0 }
{
    for _ in 0..calls {
        number = next(number);
        let query = (number / 4_294_967_296 % 28) as u16;
        let args = arguments(rt, alloc, config, query, Pool::Ends, number);
        let found = call(rt, alloc, one, config, query, &args);
        if found != call(rt, alloc, other, config, query, &args) {
            return false;
        }
    }
    true
}

// The same over a database.
fn database_answers_alike<R: Abort, S: Alter + Drop>(
    rt: &R,
    alloc: Global,
    conn: Connection<S>,
    config: &Config,
    other: &mut IndexKeeper,
    number: u64,
    calls: u64,
) -> bool
    requires other { ⟦<IndexKeeper as Keeper>⟧.tables other.old ≡ tables config.now 0 }
    requires ruled { AreRuled config.now }
    ensures other { ⟦<IndexKeeper as Keeper>⟧.tables other.new ≡ tables config.now 0 }
{
    let Ok(mut one) = SqliteKeeper::new(alloc, conn, tables_at(config)) else {
        panic!(rt; "no keeper");
    };
    answer_alike(rt, alloc, config, &mut one, other, number, calls)
}

// The same of 2,000 statements over a new database in memory.
fn new_answers_alike(
    rt: &impl Abort,
    alloc: Global,
    config: &Config,
    other: &mut IndexKeeper,
    number: u64,
) -> bool
    requires other { ⟦<IndexKeeper as Keeper>⟧.tables other.old ≡ tables config.now 0 }
    requires ruled { AreRuled config.now }
{
    let conn = Connection::open_in_memory(alloc).expect(rt, MEMORY);
    database_answers_alike(rt, alloc, conn, config, other, number, 2_000)
}

// Whether a database in memory answers 2,000 statements as indexes do, the first of which is drawn by this number.
fn memory_answers_alike(rt: &impl Abort, alloc: Global, number: u64) -> bool {
    let config = config(rt, alloc, SITE);
    let mut other = indexed(rt, alloc, &config);
    new_answers_alike(rt, alloc, &config, &mut other, number)
}

#[test]
fn a_database_answers_as_indexes_do_one(rt: HostRuntime) {
    holds(&rt, memory_answers_alike(&rt, rt.alloc(), 1), "alike");
}

#[test]
fn a_database_answers_as_indexes_do_two(rt: HostRuntime) {
    holds(&rt, memory_answers_alike(&rt, rt.alloc(), 2), "alike");
}

#[test]
fn a_database_answers_as_indexes_do_three(rt: HostRuntime) {
    holds(&rt, memory_answers_alike(&rt, rt.alloc(), 3), "alike");
}

#[test]
fn a_database_answers_as_indexes_do_four(rt: HostRuntime) {
    holds(&rt, memory_answers_alike(&rt, rt.alloc(), 4), "alike");
}

#[test]
fn a_database_answers_as_indexes_do_five(rt: HostRuntime) {
    holds(&rt, memory_answers_alike(&rt, rt.alloc(), 5), "alike");
}

#[test]
fn a_database_answers_as_indexes_do_six(rt: HostRuntime) {
    holds(&rt, memory_answers_alike(&rt, rt.alloc(), 6), "alike");
}

// The same of 60 statements over the rows that a file has, which is closed again.
fn file_answers_alike(
    rt: &impl Abort,
    host: &HostRuntime,
    config: &Config,
    path: &str,
    other: &mut IndexKeeper,
    number: u64,
) -> bool
    requires other { ⟦<IndexKeeper as Keeper>⟧.tables other.old ≡ tables config.now 0 }
    requires ruled { AreRuled config.now }
    ensures other { ⟦<IndexKeeper as Keeper>⟧.tables other.new ≡ tables config.now 0 }
{
    let Ok(conn) = Connection::open(host, path) else {
        panic!(rt; "no database");
    };
    database_answers_alike(rt, host.alloc(), conn, config, other, number, 60)
}

fn clear(rt: &impl Abort, host: &HostRuntime, path: &str) {
    let log = format!(in host.alloc(); "{path}-wal");
    let log = log.expect(rt, MEMORY);
    let _ = fs::remove_file(host, path);
    let _ = fs::remove_file(host, log.as_str());
}

// Whether a file that is opened twice, for 60 statements each, answers as indexes do.
fn path_answers_alike(rt: &impl Abort, host: &HostRuntime, path: &str, first: u64) -> bool {
    let config = config(rt, host.alloc(), SITE);
    let mut other = indexed(rt, host.alloc(), &config);
    for turn in 0..2 {
        let number = first.wrapping_add(turn);
        if !file_answers_alike(rt, host, &config, path, &mut other, number) {
            return false;
        }
    }
    true
}

// The same of a new file, which is removed when they were asked.
fn opened_again_answers_alike(rt: &impl Abort, host: &HostRuntime, first: u64) -> bool {
    let id = process::id(host.process());
    let path = format!(in host.alloc(); "/tmp/okws-drawn-{id}-{first}");
    let path = path.expect(rt, MEMORY);
    clear(rt, host, &path);
    let alike = path_answers_alike(rt, host, &path, first);
    clear(rt, host, &path);
    alike
}

#[test]
fn a_file_that_is_opened_again_answers_as_indexes_do_one(rt: HostRuntime) {
    holds(&rt, opened_again_answers_alike(&rt, &rt, 10), "alike");
}

#[test]
fn a_file_that_is_opened_again_answers_as_indexes_do_two(rt: HostRuntime) {
    holds(&rt, opened_again_answers_alike(&rt, &rt, 20), "alike");
}

#[test]
fn a_file_that_is_opened_again_answers_as_indexes_do_three(rt: HostRuntime) {
    holds(&rt, opened_again_answers_alike(&rt, &rt, 30), "alike");
}

#[test]
fn a_file_that_is_opened_again_answers_as_indexes_do_four(rt: HostRuntime) {
    holds(&rt, opened_again_answers_alike(&rt, &rt, 40), "alike");
}
