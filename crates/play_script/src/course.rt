//! How far a drill has come.

ghost use Rattle.std.specs.Prelude.{◌≡◌, ◌≤◌};
ghost use Rattle.play_script.specs.Course.{after, first_course, incarnation_of};
ghost use Rattle.play_script.specs.declared.words.TheConstants.{MOST_EVENTS};

use crate::site::GUEST;
use crate::words::{Act, act_of, service_of};

/// What the words so far have made: the present incarnation of each service, from 1, and how many
/// requests there are.
#[derive(Clone, Copy)]
pub struct Course {
    pub guest: u32,
    pub other: u32,
    pub requests: u32,
}

impl Course {
    /// Both services were launched once.
    pub fn first() -> Course
        ensures { result ≡ first_course }
    {
        Course {
            guest: 1,
            other: 1,
            requests: 0,
        }
    }

    /// The present incarnation of a service.
    pub fn incarnation(self, service: u16) -> u32
        ensures { result ≡ incarnation_of self service }
    {
        if service == GUEST {
            self.guest
        } else {
            self.other
        }
    }

    /// What a word more makes of it, where there were fewer than 100,000.
    pub fn after(self, word: u32) -> Course
        requires guest { self.guest ≤ MOST_EVENTS }
        requires other { self.other ≤ MOST_EVENTS }
        requires requests { self.requests ≤ MOST_EVENTS }
        ensures { result ≡ after self word }
    {
        match act_of(word) {
            Act::Publish => self,
            Act::Relaunch if service_of(word) == GUEST => Course {
                guest: self.guest + 1,
                ..self
            },
            Act::Relaunch => Course {
                other: self.other + 1,
                ..self
            },
            _ => Course {
                requests: self.requests + 1,
                ..self
            },
        }
    }
}
