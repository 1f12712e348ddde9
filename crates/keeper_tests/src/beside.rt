//! The same statements, drawn at random, over the keeper with indexes and over a plain list; and pins of the
//! keeper, whose answers are found after later statements.

use crate::draws::{Pool, arguments, next};
use crate::holding::holds;
use crate::plain::Plain;
use crate::site::{call, config, found, indexed, pin};
use index_keeper::IndexPin;
use okws_plan::statement::Answer;
use std::alloc::Global;
use std::process::Abort;

const SITE: &str = "okws 1
proxy main
table main t id INT KEY kind TEXT n INT data BYTES
query main 1 INSERT INTO t (id, kind, n, data) VALUES (?1, ?2, ?3, ?4)
query main 2 SELECT id, kind, n, data FROM t
query main 3 SELECT id, n FROM t WHERE kind = ?1 ORDER BY n
query main 4 SELECT id FROM t WHERE kind = ?1 AND n = ?2 ORDER BY data LIMIT 3
query main 5 UPDATE t SET kind = ?1 WHERE n = ?2
query main 6 UPDATE t SET n = ?1, kind = ?2 WHERE id = ?3
query main 7 UPDATE t SET n = ?1 WHERE kind <> ?2 AND n > ?3
query main 8 DELETE FROM t WHERE id = ?1
query main 9 DELETE FROM t WHERE n = ?1 AND kind = ?2
query main 10 DELETE FROM t WHERE n > ?1
query main 11 SELECT id FROM t WHERE n >= ?1 ORDER BY n LIMIT 5
query main 12 SELECT id, data FROM t WHERE data = ?1
query main 13 INSERT INTO t (id, kind, n, data) VALUES (?1, 'b', ?2, X'00')
";

// What was pinned is what the list answered then.
fn outlasts(rt: &impl Abort, alloc: Global, held: Option<(IndexPin, Option<Answer>)>) {
    if let Some((mut mine, theirs)) = held {
        let mine = found(rt, alloc, &mut mine);
        holds(rt, Some(mine) == theirs, "another pin");
    }
}

#[test]
fn the_answers_are_the_same(rt: HostRuntime) {
    let alloc = rt.alloc();
    let config = config(&rt, alloc, SITE);
    let mut one = indexed(&rt, alloc, &config);
    let mut other = Plain::new(alloc);
    let mut number = 1;
    for _ in 0..4_000 {
        number = next(number);
        let query = (number / 4_294_967_296 % 16) as u16;
        let args = arguments(&rt, alloc, &config, query, Pool::Few, number);
        let found = call(&rt, alloc, &mut one, &config, query, &args);
        let want = other.call(&rt, alloc, &config, query, &args);
        holds(&rt, found == want, "another answer");
    }
}

#[test]
fn the_pins_outlast_later_statements(rt: HostRuntime) {
    let alloc = rt.alloc();
    let config = config(&rt, alloc, SITE);
    let mut one = indexed(&rt, alloc, &config);
    let mut other = Plain::new(alloc);
    let mut number = 1;
    let mut held = None;
    for _ in 0..2_000 {
        number = next(number);
        let query = (number / 4_294_967_296 % 16) as u16;
        let args = arguments(&rt, alloc, &config, query, Pool::Few, number);
        let mine = pin(&rt, alloc, &mut one, &config, query, &args);
        let want = other.call(&rt, alloc, &config, query, &args);
        if let Some(mine) = mine {
            outlasts(&rt, alloc, held);
            held = Some((mine, want));
        } else {
            let answer = call(&rt, alloc, &mut one, &config, query, &args);
            holds(&rt, answer == want, "another answer");
        }
    }
}
