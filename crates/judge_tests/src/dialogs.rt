//! The dialogs of a small run: in one a page is pushed, a session opened, a query called and the request replied to; in the
//! next one the service ends.

use frame_codec::frame::{ServerFrame, ServiceFrame};
use monitor_model::record::Item;
use okws_base::items::Items;
use okws_base::value::{Token, Value};
use std::alloc::Global;
use std::process::Abort;
use token_core::{Seed, token};

/// The seed of the small runs.
pub const SEED: Seed = [5; 32];

/// A request for `/guest`.
pub const REQUEST: &[u8] = b"GET /guest HTTP/1.0\r\n\r\n";

/// What a small run's lines are made of.
pub struct Stuff {
    /// The tokens of the first two incarnations.
    pub tokens: [Token; 2],
    /// The arguments of the call.
    pub args: Vec<Value>,
    /// What was heard and said in the first dialog.
    pub first: Vec<Item>,
    /// And in the second.
    pub second: Vec<Item>,
}

impl Drop for Stuff {
    fn drop(self) {
        let Stuff {
            tokens: _,
            args,
            first,
            second,
        } = self;
        drop(args);
        drop(first);
        drop(second);
    }
}

fn bytes(rt: &impl Abort, alloc: Global, text: &[u8]) -> Items<u8> {
    Items::of(Vec::from_slice(alloc, text).expect(rt, "memory was refused"))
}

/// The argument of the call, the number 1.
fn one(rt: &impl Abort, alloc: Global) -> Vec<Value> {
    let mut args = Vec::new(alloc);
    args.push(Value::Int(1)).expect(rt, "memory was refused");
    args
}

fn request_item(rt: &impl Abort, alloc: Global) -> Item {
    let (head, content) = (bytes(rt, alloc, REQUEST), bytes(rt, alloc, b""));
    Item::Heard(ServerFrame::Request { head, content })
}

fn push(rt: &impl Abort, alloc: Global) -> Item {
    Item::Heard(ServerFrame::Push {
        template: bytes(rt, alloc, b"page"),
        edition: 1,
        content: bytes(rt, alloc, b"hi"),
    })
}

fn call(rt: &impl Abort, alloc: Global) -> Item {
    Item::Said(ServiceFrame::Call {
        proxy: 0,
        session: 0,
        query: 3,
        args: Items::of(one(rt, alloc)),
    })
}

fn reply(rt: &impl Abort, alloc: Global) -> Item {
    Item::Said(ServiceFrame::Reply {
        status: 200,
        content_type: bytes(rt, alloc, b"text/plain"),
        location: bytes(rt, alloc, b""),
        content: bytes(rt, alloc, b"ok"),
    })
}

/// Puts an item at the end.
fn add(rt: &impl Abort, items: &mut Vec<Item>, item: Item) {
    items.push(item).expect(rt, "memory was refused");
}

/// The first dialog, where the service hears this of its session's number.
fn first(rt: &impl Abort, alloc: Global, shown: Token, session: u32) -> Vec<Item> {
    let mut items = Vec::new(alloc);
    add(rt, &mut items, push(rt, alloc));
    add(rt, &mut items, request_item(rt, alloc));
    let open = ServiceFrame::Open { proxy: 0, shown };
    add(rt, &mut items, Item::Said(open));
    add(rt, &mut items, Item::Heard(ServerFrame::Opened(session)));
    add(rt, &mut items, call(rt, alloc));
    add(rt, &mut items, Item::Heard(ServerFrame::Changed(1)));
    add(rt, &mut items, reply(rt, alloc));
    items
}

/// The stuff of a run in which the service hears this of its session's number.
pub fn stuff_of(rt: &impl Abort, alloc: Global, session: u32) -> Stuff {
    let tokens = [token(&SEED, 0, 1, 0), token(&SEED, 0, 2, 0)];
    let mut second = Vec::new(alloc);
    add(rt, &mut second, request_item(rt, alloc));
    Stuff {
        tokens,
        args: one(rt, alloc),
        first: first(rt, alloc, tokens[0], session),
        second,
    }
}
