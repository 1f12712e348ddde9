//! What each statement answers over the keeper with indexes. How many rows are tested isn't seen here: it is
//! known to proofs alone.

ghost use Rattle.std.specs.Prelude.{◌≡◌, true};
ghost use Rattle.okws_plan.specs.Configuration.{tables};
ghost use Rattle.okws_plan.specs.Fits.{fits};
ghost use Rattle.okws_plan.specs.Rules.{keeps_rules};
ghost use Rattle.config_reader.specs.Ruled.{AreRuled};

use crate::holding::{MEMORY, holds};
use crate::site::{bytes, call, config, found, indexed, pin, query_at, rows, text};
use index_keeper::{IndexKeeper, Steps};
use okws_base::items::Items;
use okws_base::value::{Row, Value};
use okws_outer::keeper::Keeper;
use okws_plan::configuration::Config;
use okws_plan::meaning::fit;
use okws_plan::statement::{Answer, Statement};
use std::alloc::{AllocError, Global};
use std::marker::Brand;
use std::process::Abort;
use std::sync::ledger::{Blank, Ledger};

const MESSAGES: &str = "okws 1
proxy main
table main msgs id INT KEY who TEXT note TEXT
row main msgs 1 'ann' 'hi'
row main msgs 2 'bob' 'yo'
query main 1 SELECT id, who FROM msgs ORDER BY id
query main 2 INSERT INTO msgs (id, who, note) VALUES (?1, ?2, ?3)
query main 3 DELETE FROM msgs WHERE id = ?1
query main 4 UPDATE msgs SET note = ?1 WHERE note = 'hi'
query main 5 SELECT id FROM msgs WHERE note = 'hi'
";

fn list(rt: &impl Abort, alloc: Global, first: Value) -> Vec<Value> {
    let mut values = Vec::new(alloc);
    values.push(first).expect(rt, MEMORY);
    values
}

fn message(rt: &impl Abort, alloc: Global, id: i64, who: &str, note: &str) -> Vec<Value> {
    let mut values = list(rt, alloc, Value::Int(id));
    for field in [who, note] {
        let value = text(rt, alloc, field);
        values.push(value).expect(rt, MEMORY);
    }
    values
}

fn entry(rt: &impl Abort, alloc: Global, id: i64, who: &str) -> Row {
    let mut values = list(rt, alloc, Value::Int(id));
    let value = text(rt, alloc, who);
    values.push(value).expect(rt, MEMORY);
    Items::of(values)
}

// The rows of two entries.
fn entries(rt: &impl Abort, alloc: Global, first: &str, second: &str) -> Vec<Row> {
    let mut all = Vec::new(alloc);
    for (id, who) in [(1, first), (2, second)] {
        let row = entry(rt, alloc, id, who);
        all.push(row).expect(rt, MEMORY);
    }
    all
}

// The places of a query's hits, where nobody asks how many rows are tested; nothing where there is none of this
// number, its arguments are wrong, or memory is refused.
fn hits(
    alloc: Global,
    keeper: &IndexKeeper,
    config: &Config,
    number: u16,
    args: &[Value],
) -> Option<Vec<u64>>
    requires tables { ⟦<IndexKeeper as Keeper>⟧.tables keeper.now ≡ tables config.now 0 }
    requires ruled { AreRuled config.now }
{
    let query = query_at(config, number)?;
    if !fit(query.statement.parameters.as_slice(), args) {
        return None;
    }
    hits_of::<Brand>(alloc, keeper, &query.statement, args, Blank::new(1)).ok()
}

fn hits_of<L: Ledger>(
    alloc: Global,
    keeper: &IndexKeeper,
    statement: &Statement,
    args: &[Value],
    blank: Blank,
) -> Result<Vec<u64>, AllocError>
    requires fits { fits statement.now.parameters args.now ≡ true }
    requires rules { keeps_rules (⟦<IndexKeeper as Keeper>⟧.tables keeper.now) statement.now ≡ true }
    requires name { blank.name ≡ L.name }
    requires parts { blank.parts ≡ L.parts }
    requires one { blank.parts ≡ 1 }
{
    let mut steps = Steps::<L>::new(blank);
    keeper.hits(alloc, statement, args, &mut steps)
}

// A query changes so many rows.
fn changes<R: Abort>(
    rt: &R,
    alloc: Global,
    keeper: &mut IndexKeeper,
    config: &Config,
    number: u16,
    args: &[Value],
    count: u64,
)
    requires tables { ⟦<IndexKeeper as Keeper>⟧.tables keeper.old ≡ tables config.now 0 }
    requires ruled { AreRuled config.now }
    ensures { ⟦<IndexKeeper as Keeper>⟧.tables keeper.new ≡ tables config.now 0 }
{
    let answer = call(rt, alloc, keeper, config, number, args);
    holds(rt, answer == Some(Answer::Changed(count)), "another count");
}

// Whether a query has just these hits.
fn are_hits(
    alloc: Global,
    keeper: &IndexKeeper,
    config: &Config,
    number: u16,
    args: &[Value],
    places: &[u64],
) -> bool
    requires tables { ⟦<IndexKeeper as Keeper>⟧.tables keeper.now ≡ tables config.now 0 }
    requires ruled { AreRuled config.now }
{
    match hits(alloc, keeper, config, number, args) {
        Some(hits) => hits.as_slice() == places,
        None => false,
    }
}

#[test]
fn keys_are_taken_and_freed(rt: HostRuntime) {
    let alloc = rt.alloc();
    let config = config(&rt, alloc, MESSAGES);
    let mut keeper = indexed(&rt, alloc, &config);
    let cy = message(&rt, alloc, 1, "cy", "");
    let one = list(&rt, alloc, Value::Int(1));
    let refused = call(&rt, alloc, &mut keeper, &config, 2, &cy);
    holds(&rt, refused == Some(Answer::Duplicate), "taken");
    changes(&rt, alloc, &mut keeper, &config, 3, &one, 1);
    changes(&rt, alloc, &mut keeper, &config, 2, &cy, 1);
    let all = entries(&rt, alloc, "cy", "bob");
    let answer = call(&rt, alloc, &mut keeper, &config, 1, &[]);
    holds(&rt, answer == Some(rows(2, all)), "all");
}

#[test]
fn an_update_counts_its_hits(rt: HostRuntime) {
    let alloc = rt.alloc();
    let config = config(&rt, alloc, MESSAGES);
    let mut keeper = indexed(&rt, alloc, &config);
    let note = list(&rt, alloc, text(&rt, alloc, "x"));
    changes(&rt, alloc, &mut keeper, &config, 4, &note, 1);
    changes(&rt, alloc, &mut keeper, &config, 4, &note, 0);
    let answer = call(&rt, alloc, &mut keeper, &config, 5, &[]);
    holds(&rt, answer == Some(rows(1, Vec::new(alloc))), "none");
}

const NUMBERS: &str = "okws 1
proxy main
table main t id INT KEY n INT
query main 1 INSERT INTO t (id, n) VALUES (?1, ?1)
query main 2 DELETE FROM t WHERE id = ?1
query main 3 SELECT id FROM t
";

#[test]
fn a_key_leads_to_its_row(rt: HostRuntime) {
    let alloc = rt.alloc();
    let config = config(&rt, alloc, NUMBERS);
    let mut keeper = indexed(&rt, alloc, &config);
    for id in 1..1_001 {
        let args = list(&rt, alloc, Value::Int(id));
        changes(&rt, alloc, &mut keeper, &config, 1, &args, 1);
    }
    let args = list(&rt, alloc, Value::Int(500));
    holds(
        &rt,
        are_hits(alloc, &keeper, &config, 2, &args, &[499]),
        "hits",
    );
    changes(&rt, alloc, &mut keeper, &config, 2, &args, 1);
    holds(
        &rt,
        are_hits(alloc, &keeper, &config, 2, &args, &[]),
        "hits",
    );
    changes(&rt, alloc, &mut keeper, &config, 2, &args, 0);
}

#[test]
fn a_pin_is_of_the_rows_before_a_delete(rt: HostRuntime) {
    let alloc = rt.alloc();
    let config = config(&rt, alloc, MESSAGES);
    let mut keeper = indexed(&rt, alloc, &config);
    let pin = pin(&rt, alloc, &mut keeper, &config, 1, &[]);
    let mut pin = pin.expect(&rt, "no pin");
    let one = list(&rt, alloc, Value::Int(1));
    changes(&rt, alloc, &mut keeper, &config, 3, &one, 1);
    let all = entries(&rt, alloc, "ann", "bob");
    holds(&rt, found(&rt, alloc, &mut pin) == rows(2, all), "the pin");
}

// A copy has its rows at places from 0 on, so the place of a row tells whether they were copied.
#[test]
fn a_write_copies_only_what_is_pinned(rt: HostRuntime) {
    let alloc = rt.alloc();
    let config = config(&rt, alloc, NUMBERS);
    let mut keeper = indexed(&rt, alloc, &config);
    for id in 1..6 {
        let args = list(&rt, alloc, Value::Int(id));
        changes(&rt, alloc, &mut keeper, &config, 1, &args, 1);
    }
    let one = list(&rt, alloc, Value::Int(1));
    let two = list(&rt, alloc, Value::Int(2));
    let three = list(&rt, alloc, Value::Int(3));
    let last = list(&rt, alloc, Value::Int(5));
    changes(&rt, alloc, &mut keeper, &config, 2, &one, 1);
    holds(
        &rt,
        are_hits(alloc, &keeper, &config, 2, &last, &[4]),
        "hits",
    );
    let pinned = pin(&rt, alloc, &mut keeper, &config, 3, &[]);
    changes(&rt, alloc, &mut keeper, &config, 2, &two, 1);
    holds(
        &rt,
        are_hits(alloc, &keeper, &config, 2, &last, &[3]),
        "hits",
    );
    changes(&rt, alloc, &mut keeper, &config, 2, &three, 1);
    holds(
        &rt,
        are_hits(alloc, &keeper, &config, 2, &last, &[3]),
        "hits",
    );
    drop(pinned);
}

const BLOBS: &str = "okws 1
proxy big
table big blobs b BYTES
query big 1 INSERT INTO blobs (b) VALUES (?1)
query big 2 SELECT b FROM blobs
";

#[test]
fn long_values_are_kept(rt: HostRuntime) {
    let alloc = rt.alloc();
    let config = config(&rt, alloc, BLOBS);
    let mut keeper = indexed(&rt, alloc, &config);
    let long = vec![in alloc; 7u8; 524_280].expect(&rt, MEMORY);
    let args = list(&rt, alloc, bytes(&rt, alloc, &long));
    let mut all = Vec::new(alloc);
    for _ in 0..2 {
        changes(&rt, alloc, &mut keeper, &config, 1, &args, 1);
        let row = Items::of(list(&rt, alloc, bytes(&rt, alloc, &long)));
        all.push(row).expect(&rt, MEMORY);
    }
    let answer = call(&rt, alloc, &mut keeper, &config, 2, &[]);
    holds(&rt, answer == Some(rows(1, all)), "all");
}
