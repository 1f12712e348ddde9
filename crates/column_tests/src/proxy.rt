//! The rules that a proxy denies by, but the one on long answers, a keeper that fails, and an answer that is
//! found after its turn. Not tested here: long answers, and what statements find, which the keeper's tests have.

ghost use Rattle.std.specs.Prelude.{◌≡◌, Some};
ghost use Rattle.okws_plan.specs.Configuration.{tables, first_rows};

use crate::holding::{MEMORY, holds};
use crate::shaky::Shaky;
use crate::site::{bytes, config, entries, first_value, shared};
use db_proxy::Proxy;
use index_keeper::IndexPin;
use monitor_model::verdict::Verdict;
use okws_base::denial::Rule;
use okws_base::items::Items;
use okws_base::limit::{MOST_INCARNATIONS, MOST_SESSIONS};
use okws_base::value::{Token, Value};
use okws_outer::keeper::Keeper;
use okws_plan::configuration::Config;
use okws_plan::event::Call;
use site_columns::opening::{queries_at, tables_at};
use started_call::{Finished, Started, finish};
use std::alloc::Global;
use std::marker::Model;
use std::process::Abort;
use token_core::{Seed, token};

const GUEST: u16 = 0;

const OTHER: u16 = 1;

// Guest may call all queries, and other the second.
const SITE: &str = "okws 1
proxy main
table main t b BYTES KEY
query main 1 INSERT INTO t (b) VALUES (?1)
query main 2 SELECT b FROM t
query main 4 DELETE FROM t WHERE b = ?1
service guest ./svc_guest
service other ./svc_probe
grant guest main 1 2 4
grant other main 2
";

// The seed of the tokens.
const SEED: Seed = [7; 32];

// A token that is issued to nobody.
const UNKNOWN: Token = Token { bytes: [2; 20] };

// What the proxy answers, without its rows.
#[derive(Clone, Copy, PartialEq, Eq)]
enum Said {
    Opened(u32),
    Rows,
    Changed(u64),
    Duplicate,
    Denied(Rule),
    Failed,
}

// What is answered to an Open.
fn open_said(verdict: &Verdict) -> Said {
    match verdict {
        Verdict::Opened(number) => Said::Opened(*number),
        Verdict::Rows { .. } => Said::Rows,
        Verdict::Changed(count) => Said::Changed(*count),
        Verdict::Duplicate => Said::Duplicate,
        Verdict::Denied(rule) => Said::Denied(*rule),
        Verdict::Failed => Said::Failed,
    }
}

// What is answered to a Call.
fn call_said<P>(started: &Started<P>) -> Said {
    match started {
        Started::Ready(_) => Said::Rows,
        Started::Changed(count) => Said::Changed(*count),
        Started::Duplicate => Said::Duplicate,
        Started::Denied(rule) => Said::Denied(*rule),
        Started::Failed => Said::Failed,
    }
}

// It is this answer.
fn says(rt: &impl Abort, said: Said, want: Said) {
    holds(rt, said == want, "another answer");
}

// It is a denial by this rule.
fn denied(rt: &impl Abort, said: Said, rule: Rule) {
    says(rt, said, Said::Denied(rule));
}

// The column of the first proxy of a site with two services.
#[derive(Drop)]
struct Column<'a> {
    proxy: Proxy<Shaky<'a>>,
}

impl<'a> Model for Column<'a> {
    ghost use Rattle.column_tests.specs.declared.proxy.TheConstants.{SEED};
    ghost use Rattle.db_proxy.specs.Seen.{Seen};
    ghost use Rattle.std.specs.Prelude.{◌≡◌, length};

    ghost Value = { Seen };

    ghost view = { λ a. a.proxy };

    ghost invariant = { λ a. (length a.proxy.config.services ≡ 2) × ((a.proxy.seed ≡ SEED) × (a.proxy.number ≡ 0)) };
}

impl<'a> Column<'a> {
    // Over a keeper whose calls of these numbers fail, without an incarnation.
    fn new(rt: &impl Abort, alloc: Global, failing: &'a [u64]) -> Self {
        let config = config(rt, alloc, SITE);
        assert!(rt; config.services.as_slice().len() == 2);
        assert!(rt; config.proxies.as_slice().len() == 1);
        let keeper = keeper(rt, alloc, &config, failing);
        match Proxy::new(alloc, shared(rt, alloc, config), 0, &SEED, keeper, true) {
            Ok(proxy) => Column { proxy },
            Err(_) => panic!(rt; "memory was refused"),
        }
    }

    fn install(&mut self, rt: &impl Abort, service: u16, incarnation: u32) {
        assert!(rt; service <= OTHER && incarnation <= MOST_INCARNATIONS);
        assert!(rt; self.proxy.last(service) < incarnation);
        let token = token(&SEED, service, incarnation, 0);
        self.proxy
            .install(service, incarnation, token)
            .expect(rt, MEMORY);
    }

    // A session of guest.
    fn open(&mut self, rt: &impl Abort, incarnation: u32, shown: Token) -> Said {
        let verdict = self.proxy.open_session(GUEST, incarnation, shown);
        open_said(&verdict.expect(rt, MEMORY))
    }

    // A session of other's first incarnation.
    fn open_other(&mut self, rt: &impl Abort) {
        let verdict = self.proxy.open_session(OTHER, 1, first(OTHER));
        open_said(&verdict.expect(rt, MEMORY));
    }

    // As many sessions of guest's first incarnation.
    fn open_many(&mut self, rt: &impl Abort, count: u32) {
        for _ in 0..count {
            self.open(rt, 1, first(GUEST));
        }
    }

    // The first incarnation of guest.
    fn revoke(&mut self) {
        self.proxy.revoke(GUEST, 1);
    }

    // A call of guest's first incarnation.
    fn call(&mut self, rt: &impl Abort, session: u32, query: u16, args: Items<Value>) -> Said {
        let call = Call {
            service: GUEST,
            incarnation: 1,
            session,
            query,
            args,
        };
        let started = self.proxy.start(call);
        call_said(&started.expect(rt, MEMORY))
    }

    // A call of guest's first incarnation without arguments.
    fn ask(&mut self, rt: &impl Abort, alloc: Global, session: u32, query: u16) -> Said {
        self.call(rt, session, query, Items::of(Vec::new(alloc)))
    }

    // A call of guest's first incarnation with one argument.
    fn tell(&mut self, rt: &impl Abort, alloc: Global, query: u16, value: &[u8]) -> Said {
        let mut args = Vec::new(alloc);
        args.push(Value::Bytes(bytes(rt, alloc, value)))
            .expect(rt, MEMORY);
        self.call(rt, 0, query, Items::of(args))
    }

    // A call of other's first incarnation that lists all rows, and is finished later.
    fn list(&mut self, rt: &impl Abort, alloc: Global) -> IndexPin {
        let call = Call {
            service: OTHER,
            incarnation: 1,
            session: 0,
            query: 2,
            args: Items::of(Vec::new(alloc)),
        };
        match self.proxy.start(call) {
            Ok(Started::Ready(pin)) => pin,
            _ => panic!(rt; "no rows"),
        }
    }
}

// A keeper of the first proxy, whose calls of these numbers fail.
fn keeper<'a>(rt: &impl Abort, alloc: Global, config: &Config, failing: &'a [u64]) -> Shaky<'a>
    ensures tables { ⟦<Shaky<'a> as Keeper>⟧.tables result ≡ tables config.now 0 }
    ensures told { ⟦<Shaky<'a> as Keeper>⟧.told result ≡ Some (first_rows config.now 0) }
{
    let keeper = Shaky::new(alloc, tables_at(config, 0), queries_at(config, 0), failing);
    keeper.expect(rt, MEMORY)
}

// The token of the first incarnation of a service.
fn first(service: u16) -> Token {
    token(&SEED, service, 1, 0)
}

// The column with guest's first incarnation, which has opened a session, and with other's.
fn opened<'a>(rt: &impl Abort, alloc: Global, failing: &'a [u64]) -> Column<'a> {
    let mut column = Column::new(rt, alloc, failing);
    column.install(rt, GUEST, 1);
    column.install(rt, OTHER, 1);
    column.open(rt, 1, first(GUEST));
    column
}

#[test]
fn opens_are_denied(rt: HostRuntime) {
    let mut column = opened(&rt, rt.alloc(), &[]);
    says(&rt, column.open(&rt, 1, first(GUEST)), Said::Opened(1));
    denied(&rt, column.open(&rt, 1, UNKNOWN), Rule::UnknownToken);
    denied(&rt, column.open(&rt, 1, first(OTHER)), Rule::UnknownToken);
    denied(&rt, column.open(&rt, 2, first(GUEST)), Rule::StaleToken);
}

#[test]
fn a_revoked_incarnation_opens_none(rt: HostRuntime) {
    let mut column = opened(&rt, rt.alloc(), &[]);
    holds(&rt, column.proxy.standing(GUEST) == Some(1), "stands");
    holds(&rt, column.proxy.last(GUEST) == 1, "last");
    column.revoke();
    denied(&rt, column.open(&rt, 1, first(GUEST)), Rule::StaleToken);
}

#[test]
fn sessions_are_limited(rt: HostRuntime) {
    let mut column = opened(&rt, rt.alloc(), &[]);
    column.open_many(&rt, MOST_SESSIONS - 1);
    denied(
        &rt,
        column.open(&rt, 1, first(GUEST)),
        Rule::TooManySessions,
    );
}

#[test]
fn calls_are_denied(rt: HostRuntime) {
    let alloc = rt.alloc();
    let mut column = opened(&rt, alloc, &[]);
    denied(&rt, column.ask(&rt, alloc, 1, 2), Rule::NoSession);
    denied(&rt, column.ask(&rt, alloc, 0, 3), Rule::QueryNotGranted);
    denied(&rt, column.ask(&rt, alloc, 0, 1), Rule::BadArguments);
    column.revoke();
    denied(&rt, column.ask(&rt, alloc, 0, 2), Rule::StaleToken);
    denied(&rt, column.ask(&rt, alloc, 1, 2), Rule::NoSession);
}

#[test]
fn a_call_that_failed_may_be_made_again(rt: HostRuntime) {
    let alloc = rt.alloc();
    let mut column = opened(&rt, alloc, &[1]);
    says(&rt, column.tell(&rt, alloc, 1, b"a"), Said::Changed(1));
    says(&rt, column.tell(&rt, alloc, 1, b"b"), Said::Failed);
    says(&rt, column.tell(&rt, alloc, 1, b"b"), Said::Changed(1));
    let (past, keeper) = column.proxy.close();
    holds(&rt, entries(&past) == Some(6), "entries");
    holds(&rt, keeper.faults() == 1, "faults");
}

// The column with a session of other too, and with the rows a and b.
fn filled(rt: &impl Abort, alloc: Global) -> Column<'static> {
    let mut column = opened(rt, alloc, &[]);
    column.open_other(rt);
    says(rt, column.tell(rt, alloc, 1, b"a"), Said::Changed(1));
    says(rt, column.tell(rt, alloc, 1, b"b"), Said::Changed(1));
    column
}

#[test]
fn rows_that_are_ready_outlast_a_delete(rt: HostRuntime) {
    let alloc = rt.alloc();
    let mut column = filled(&rt, alloc);
    let mut pin = column.list(&rt, alloc);
    says(&rt, column.tell(&rt, alloc, 4, b"a"), Said::Changed(1));
    holds(&rt, finish(&mut pin) == Finished::Rows(2), "a and b");
    let value = Value::Bytes(bytes(&rt, alloc, b"a"));
    holds(&rt, first_value(&mut pin) == Some(&value), "a is first");
    let mut pin = column.list(&rt, alloc);
    holds(&rt, finish(&mut pin) == Finished::Rows(1), "b alone");
}
