//! The template column. Not tested here: the greatest sizes and counts of editions.

use crate::holding::{MEMORY, holds};
use crate::site::{bytes, config, entries, shared};
use monitor_model::verdict::{Got, Push};
use okws_base::denial::Rule;
use okws_base::limit::{LONGEST_TEMPLATE, MOST_EDITIONS};
use pubd_core::Pubd;
use std::alloc::Global;
use std::marker::Model;
use std::process::Abort;
use turn_lock::Journaled;

const GUEST: u16 = 0;

const PAGE: u16 = 0;

// The service may read the templates page and blank, and not secret.
const SITE: &str = "okws 1
service guest ./svc_guest
template page
template secret
template blank
read guest page
read guest blank
";

// The column of a site with one service and three templates.
#[derive(Drop)]
struct Column {
    pubd: Pubd,
}

impl Model for Column {
    ghost use Rattle.pubd_core.specs.Seen.{Seen};
    ghost use Rattle.std.specs.Prelude.{◌≡◌, length};

    ghost Value = { Seen };

    ghost view = { λ a. a.pubd };

    ghost invariant = { λ a. (length a.pubd.config.services ≡ 1) × (length a.pubd.config.templates ≡ 3) };
}

impl Column {
    // Its entries are kept or not.
    fn new(rt: &impl Abort, alloc: Global, keeps: bool) -> Self {
        let config = config(rt, alloc, SITE);
        assert!(rt; config.services.as_slice().len() == 1);
        assert!(rt; config.templates.as_slice().len() == 3);
        let pubd = Pubd::new(alloc, shared(rt, alloc, config), keeps).expect(rt, MEMORY);
        Column { pubd }
    }

    fn publish_at(&mut self, rt: &impl Abort, alloc: Global, template: u16, content: &[u8]) {
        assert!(rt; template <= 2 && content.len() <= LONGEST_TEMPLATE);
        assert!(rt; self.pubd.edition(template) < MOST_EDITIONS);
        let content = bytes(rt, alloc, content);
        self.pubd.publish_at(template, content).expect(rt, MEMORY);
    }

    fn install(&mut self, rt: &impl Abort, incarnation: u32) {
        assert!(rt; self.pubd.last(GUEST) < incarnation);
        self.pubd.install(GUEST, incarnation).expect(rt, MEMORY);
    }

    fn revoke(&mut self, incarnation: u32) {
        self.pubd.revoke(GUEST, incarnation);
    }

    // A Drain gives these editions of page.
    fn hears(&mut self, rt: &impl Abort, incarnation: u32, editions: &[(u32, &[u8])]) {
        let pushes = self.pubd.drain(GUEST, incarnation).expect(rt, MEMORY);
        holds(rt, are_editions(&pushes, editions), "other editions");
    }

    fn get(&mut self, rt: &impl Abort, alloc: Global, incarnation: u32, name: &[u8]) -> Got {
        let name = bytes(rt, alloc, name);
        self.pubd.get(GUEST, incarnation, name).expect(rt, MEMORY)
    }

    // A Get is denied by this rule.
    fn denies(
        &mut self,
        rt: &impl Abort,
        alloc: Global,
        incarnation: u32,
        name: &[u8],
        rule: Rule,
    ) {
        let got = self.get(rt, alloc, incarnation, name);
        holds(rt, matches!(&got, Got::Denied(by) if *by == rule), "denied");
    }

    fn hold(&mut self, number: u16) {
        self.pubd.hold(number);
    }
}

// Whether it is a push of this edition of page.
fn is_edition(push: &Push, edition: u32, content: &[u8]) -> bool {
    push.template.as_slice() == b"page".as_slice()
        && push.edition == edition
        && push.content.as_slice() == content
}

// Whether these are pushes of these editions of page.
fn are_editions(pushes: &[Push], editions: &[(u32, &[u8])]) -> bool {
    let mut same = pushes.len() == editions.len();
    for (found, (edition, content)) in pushes.iter().zip(editions) {
        same = same && is_edition(found, *edition, content);
    }
    same
}

// The column with two editions of page.
fn published(rt: &impl Abort, alloc: Global) -> Column {
    let mut column = Column::new(rt, alloc, true);
    column.publish_at(rt, alloc, PAGE, b"a");
    column.publish_at(rt, alloc, PAGE, b"bb");
    column
}

#[test]
fn editions_reach_running_incarnations(rt: HostRuntime) {
    let alloc = rt.alloc();
    let mut column = Column::new(&rt, alloc, false);
    column.install(&rt, 1);
    column.hears(&rt, 1, &[]);
    column.publish_at(&rt, alloc, PAGE, b"a");
    column.publish_at(&rt, alloc, PAGE, b"bb");
    column.hears(&rt, 1, &[(1, b"a"), (2, b"bb")]);
    column.hears(&rt, 1, &[]);
}

// A second incarnation of the guest stands in the place of the first, which is then revoked.
#[test]
fn a_new_incarnation_hears_what_is_current(rt: HostRuntime) {
    let alloc = rt.alloc();
    let mut column = published(&rt, alloc);
    holds(&rt, column.pubd.edition(PAGE) == 2, "edition");
    column.install(&rt, 1);
    column.install(&rt, 2);
    column.revoke(1);
    holds(&rt, column.pubd.standing(GUEST) == Some(2), "stands");
    holds(&rt, column.pubd.last(GUEST) == 2, "last");
    column.hears(&rt, 1, &[]);
    column.hears(&rt, 2, &[(2, b"bb")]);
}

#[test]
fn gets_are_denied(rt: HostRuntime) {
    let alloc = rt.alloc();
    let mut column = published(&rt, alloc);
    column.install(&rt, 2);
    column.denies(&rt, alloc, 1, b"page", Rule::StaleAtPubd);
    column.denies(&rt, alloc, 2, b"secret", Rule::TemplateNotGranted);
    column.denies(&rt, alloc, 2, b"blank", Rule::TemplateUnpublished);
}

#[test]
fn gets_are_answered_and_entered(rt: HostRuntime) {
    let alloc = rt.alloc();
    let mut column = published(&rt, alloc);
    column.install(&rt, 2);
    column.hold(7);
    column.get(&rt, alloc, 1, b"page");
    let want = Got::Template {
        edition: 2,
        content: bytes(&rt, alloc, b"bb"),
    };
    holds(&rt, column.get(&rt, alloc, 2, b"page") == want, "got");
    holds(&rt, column.pubd.holder() == 7, "holder");
    let past = column.pubd.close();
    holds(&rt, entries(&past) == Some(5), "entries");
}
