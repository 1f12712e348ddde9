//! Rows that a call of a service leaves to be found, over the columns of a site: what another service
//! enters meanwhile doesn't change them.

ghost use Rattle.std.specs.Prelude.{◌≡◌, ◌<◌, length};

use crate::holding::{MEMORY, holds};
use crate::site::{config, first_value, shared};
use index_keeper::IndexPin;
use monitor_model::verdict::Verdict;
use okws_base::items::Items;
use okws_base::limit::MOST_INCARNATIONS;
use okws_base::value::Value;
use okws_plan::event::Call;
use okws_plan::script::Place;
use service_cell::columns::Columns;
use site_columns::columns::SiteColumns;
use started_call::{Finished, Started, finish};
use std::alloc::Global;
use std::process::Abort;
use token_core::{Seed, token};

const GUEST: u16 = 0;

const OTHER: u16 = 1;

// Guest may call all queries, and other the first.
const SITE: &str = "okws 1
proxy main
table main msgs id INT KEY who TEXT note TEXT
row main msgs 1 'ann' 'hi'
row main msgs 2 'bob' 'yo'
query main 1 SELECT id, who FROM msgs ORDER BY id
query main 3 DELETE FROM msgs WHERE id = ?1
service guest ./svc_guest
service other ./svc_probe
grant guest main 1 3
grant other main 1
";

// The seed of the tokens.
const SEED: Seed = [0; 32];

// The columns of the site, at which nothing happened.
fn columns(rt: &impl Abort, alloc: Global) -> SiteColumns
    ensures services { length result.config.services ≡ 2 }
    ensures proxies { length result.config.proxies ≡ 1 }
{
    let config = config(rt, alloc, SITE);
    assert!(rt; config.services.as_slice().len() == 2);
    assert!(rt; config.proxies.as_slice().len() == 1);
    let config = shared(rt, alloc, config);
    SiteColumns::new(alloc, &config, SEED, true).expect(rt, MEMORY)
}

// The next incarnation of a service stands at the proxy.
fn install(rt: &impl Abort, columns: &mut SiteColumns, service: u16)
    requires service { service < length columns.old.config.services }
    requires proxy { 0 < length columns.old.config.proxies }
    ensures { columns.new.config ≡ columns.old.config }
{
    assert!(rt; columns.greatest(service) < MOST_INCARNATIONS);
    columns.begin(service).expect(rt, MEMORY);
    let begun = columns.greatest(service);
    assert!(rt; begun != 0 && columns.last(service, Place::Proxy(0)) < begun);
    columns.install(service, Place::Proxy(0)).expect(rt, MEMORY);
}

// The first incarnation of a service opens a session.
fn open(rt: &impl Abort, columns: &mut SiteColumns, service: u16)
    requires service { service < length columns.old.config.services }
    requires proxy { 0 < length columns.old.config.proxies }
    ensures { columns.new.config ≡ columns.old.config }
{
    let shown = token(&SEED, service, 1, 0);
    match columns.open_session(0, service, 1, shown) {
        Ok(Verdict::Opened(0)) => {}
        _ => panic!(rt; "no session"),
    }
}

// A call on the first session of a service.
fn call(
    rt: &impl Abort,
    columns: &mut SiteColumns,
    service: u16,
    query: u16,
    args: Vec<Value>,
) -> Started<IndexPin>
    requires service { service < length columns.old.config.services }
    requires proxy { 0 < length columns.old.config.proxies }
    ensures { columns.new.config ≡ columns.old.config }
{
    let call = Call {
        service,
        incarnation: 1,
        session: 0,
        query,
        args: Items::of(args),
    };
    columns.call(0, call).expect(rt, MEMORY)
}

// A call of other's that lists all rows, which are not found yet.
fn list(rt: &impl Abort, alloc: Global, columns: &mut SiteColumns) -> IndexPin
    requires service { 1 < length columns.old.config.services }
    requires proxy { 0 < length columns.old.config.proxies }
    ensures { columns.new.config ≡ columns.old.config }
{
    match call(rt, columns, OTHER, 1, Vec::new(alloc)) {
        Started::Ready(pin) => pin,
        _ => panic!(rt; "no rows"),
    }
}

// Guest deletes the row with this id.
fn delete(rt: &impl Abort, alloc: Global, columns: &mut SiteColumns, id: i64)
    requires service { 0 < length columns.old.config.services }
    requires proxy { 0 < length columns.old.config.proxies }
    ensures { columns.new.config ≡ columns.old.config }
{
    let mut args = Vec::new(alloc);
    args.push(Value::Int(id)).expect(rt, MEMORY);
    match call(rt, columns, GUEST, 3, args) {
        Started::Changed(1) => {}
        _ => panic!(rt; "not deleted"),
    }
}

// What other finds that asked before guest deleted a row, and after it.
fn found(rt: &impl Abort, alloc: Global, columns: &mut SiteColumns) -> (IndexPin, IndexPin)
    requires service { 1 < length columns.old.config.services }
    requires proxy { 0 < length columns.old.config.proxies }
{
    open(rt, columns, GUEST);
    open(rt, columns, OTHER);
    let before = list(rt, alloc, columns);
    delete(rt, alloc, columns, 1);
    let after = list(rt, alloc, columns);
    (before, after)
}

#[test]
fn rows_that_are_ready_outlast_a_delete_of_another(rt: HostRuntime) {
    let alloc = rt.alloc();
    let mut columns = columns(&rt, alloc);
    install(&rt, &mut columns, GUEST);
    install(&rt, &mut columns, OTHER);
    let (mut before, mut after) = found(&rt, alloc, &mut columns);
    holds(&rt, finish(&mut before) == Finished::Rows(2), "before");
    holds(&rt, finish(&mut after) == Finished::Rows(1), "after");
    holds(
        &rt,
        first_value(&mut before) == Some(&Value::Int(1)),
        "the first before",
    );
    holds(
        &rt,
        first_value(&mut after) == Some(&Value::Int(2)),
        "the first after",
    );
}
