//! Which editions are kept. That nothing changes where memory is refused isn't tested here.

use crate::holding::{MEMORY, holds};
use frame_codec::frame::ServerFrame;
use okws_base::items::Items;
use std::alloc::Global;
use std::process::Abort;
use svc_kit::pages::Pages;

fn items(rt: &impl Abort, alloc: Global, bytes: &[u8]) -> Items<u8> {
    Items::of(Vec::from_slice(alloc, bytes).expect(rt, MEMORY))
}

/// The pages hear of an edition that is pushed.
fn push(
    rt: &impl Abort,
    alloc: Global,
    pages: &mut Pages,
    (name, edition, text): (&[u8], u32, &[u8]),
) {
    let push = ServerFrame::Push {
        template: items(rt, alloc, name),
        edition,
        content: items(rt, alloc, text),
    };
    pages.heard(alloc, &push).expect(rt, MEMORY);
}

/// The pages hear of a Template, which is of what was asked for.
fn hear(rt: &impl Abort, alloc: Global, pages: &mut Pages, edition: u32, text: &[u8]) {
    let template = ServerFrame::Template {
        edition,
        content: items(rt, alloc, text),
    };
    pages.heard(alloc, &template).expect(rt, MEMORY);
}

fn ask(rt: &impl Abort, alloc: Global, pages: &mut Pages, name: &[u8]) {
    pages.said(alloc, name).expect(rt, MEMORY);
}

/// The page with this name is this edition.
fn shows(rt: &impl Abort, pages: &Pages, name: &[u8], edition: u32, text: &[u8]) {
    match pages.page(name) {
        Some((number, content)) => {
            holds(rt, number == edition, "edition");
            holds(rt, content == text, "content");
        }
        None => panic!(rt; "no page"),
    }
}

#[test]
fn the_last_edition_is_kept(rt: HostRuntime) {
    let alloc = rt.alloc();
    let mut pages = Pages::new(alloc);
    holds(&rt, pages.page(b"page").is_none(), "a page");
    push(&rt, alloc, &mut pages, (b"page", 1, b"a"));
    push(&rt, alloc, &mut pages, (b"other", 1, b"o"));
    push(&rt, alloc, &mut pages, (b"page", 2, b"bb"));
    let logged = pages.heard(alloc, &ServerFrame::Logged);
    logged.expect(&rt, MEMORY);
    shows(&rt, &pages, b"page", 2, b"bb");
    shows(&rt, &pages, b"other", 1, b"o");
    hear(&rt, alloc, &mut pages, 9, b"nobody's");
    ask(&rt, alloc, &mut pages, b"third");
    hear(&rt, alloc, &mut pages, 3, b"ccc");
    shows(&rt, &pages, b"third", 3, b"ccc");
    ask(&rt, alloc, &mut pages, b"page");
    hear(&rt, alloc, &mut pages, 4, b"");
    shows(&rt, &pages, b"page", 4, b"");
    holds(&rt, pages.page(b"nobody").is_none(), "nobody's page");
}
