//! A link to a server that answers at once.

ghost use Rattle.std.specs.Prelude.{◌≡◌, IfOk};
ghost use Rattle.svc_kit.specs.Ends.{wire_of};

use crate::link::{Buffered, Ends};
use awaited_pipe::{Patience, look_for};
use frame_codec::kind::REPLY;
use okws_outer::stream::{Link, Pull, Put, Sink, Source};
use std::alloc::{AllocError, Global};
use std::os::fd::RawFd;

/// How often an answer is looked for before it is waited for asleep: it comes sooner than what a service says.
const LOOKS_FOR_ANSWER: u64 = 24;

/// How often the next request is looked for behind a Reply: where several wait for a service, it comes at once.
const LOOKS_FOR_REQUEST: u64 = 16;

/// What was said since bytes were taken.
#[derive(Clone, Copy, PartialEq, Eq)]
enum Said {
    Nothing,
    /// A Reply, which has no answer.
    Reply,
    /// What has an answer.
    Other,
}

/// What is said by a frame with these bytes at its front.
fn said_by(front: &[u8]) -> Said {
    match front {
        [_, _, _, _, REPLY, ..] => Said::Reply,
        _ => Said::Other,
    }
}

/// A link whose bytes come at a descriptor. A pull behind a frame that was said looks a while for what comes
/// then, before it sleeps.
#[derive(Drop)]
pub struct Answering<L> {
    link: L,
    input: RawFd,
    said: Said,
    answers: Patience,
    requests: Patience,
}

impl<L: Link> Link for Answering<L> {
    ghost wire = { λ a. L.wire a.link };

    fn pull(&mut self, into: &mut [u8]) -> Pull {
        match self.said {
            Said::Nothing => {}
            Said::Reply => look_for(self.input, &self.requests),
            Said::Other => look_for(self.input, &self.answers),
        }
        self.said = Said::Nothing;
        self.link.pull(into)
    }

    fn put(&mut self, bytes: &[u8]) -> Put {
        if self.said == Said::Nothing {
            self.said = said_by(bytes);
        }
        self.link.put(bytes)
    }

    fn make_room(&mut self, n: usize) -> Result<(), AllocError> {
        self.link.make_room(n)
    }
}

/// The link of a service over a source, whose bytes come at this descriptor, and a sink.
pub fn over_answering<I: Source + Drop, O: Sink + Drop>(
    alloc: Global,
    input: RawFd,
    source: I,
    sink: O,
) -> Result<Buffered<Answering<Ends<I, O>>>, AllocError>
    ensures { IfOk result (λ b. ⟦<Buffered<Answering<Ends<I, O>>> as Link>⟧.wire b ≡ wire_of (I.left source) (O.given sink) (I.faults source) (O.faults sink)) }
{
    let link = Answering {
        link: Ends { source, sink },
        input,
        said: Said::Nothing,
        answers: Patience::new(LOOKS_FOR_ANSWER),
        requests: Patience::new(LOOKS_FOR_REQUEST),
    };
    Buffered::new(alloc, link)
}
