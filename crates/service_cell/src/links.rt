//! The links that a cell gives up, and what they were given.

ghost use Rattle.std.specs.Prelude.{◌≡◌, option_map};
ghost use Rattle.service_cell.specs.Standing.{all_sent};

use monitor_model::sent::{Sent, Sents};
use okws_base::told::Says;
use okws_outer::stream::Link;

/// A link that goes, with its incarnation.
#[derive(Drop)]
struct Gone<L: Link> {
    incarnation: u32,
    link: L,
}

impl<L: Link> Says for Gone<L> {
    ghost use Rattle.monitor_model.specs.declared.sent.Sent.{Sent};

    type Item = Sent;

    ghost item = { λ g. record { incarnation = g.incarnation; given = (L.wire g.link).given } };
}

/// A link that is handed out, with its incarnation.
#[derive(Drop)]
struct Going<'a, L: Link> {
    incarnation: u32,
    link: &'a L,
}

impl<'a, L: Link> Says for Going<'a, L> {
    ghost use Rattle.monitor_model.specs.declared.sent.Sent.{Sent};

    type Item = Sent;

    ghost item = { λ g. record { incarnation = g.incarnation; given = (L.wire g.link.now).given } };
}

/// What was sent, once the link of this incarnation, if it is there, is handed out.
pub(crate) fn hand_out<L: Link>(sent: &Sents, incarnation: u32, link: &Option<L>) -> Sents
    ensures { result ≡ all_sent incarnation (option_map L.wire link.now) sent.now }
{
    match link {
        Some(link) => sent.with(&Going { incarnation, link }),
        None => sent.again(),
    }
}

/// What was sent, once the link of this incarnation, if it is there, went too.
pub(crate) fn let_go<L: Link + Drop>(sent: &Sents, incarnation: u32, link: Option<L>) -> Sents
    ensures { result ≡ all_sent incarnation (option_map L.wire link) sent.now }
{
    match link {
        Some(link) => sent.and(Gone { incarnation, link }),
        None => sent.again(),
    }
}
