//! What an operator's console is answered.

ghost use Rattle.std.specs.Prelude.{◌≡◌};

use crate::holding::{MEMORY, holds, same};
use crate::status::SHOWN;
use admin_console::answer::Answer;
use admin_console::controls::{Controls, Publishing, Relaunching, Status};
use admin_console::reader::Reader;
use admin_console::rule::Rule;
use admin_console::step::{Stepped, step, tell};
use okws_base::items::Items;
use okws_base::limit::{MOST_SERVICES, MOST_TEMPLATES};
use okws_base::name::Name;
use okws_outer::memory::conn::MemoryConn;
use okws_plan::configuration::{Config, ServicePlan};
use std::alloc::Global;
use std::process::Abort;
use std::sync::Wait;

/// The site that is steered: what publications and relaunches come to, what is told of it, and what was asked last.
#[derive(Drop)]
pub(crate) struct Site<'a> {
    config: &'a Config,
    publishing: Publishing,
    relaunching: Relaunching,
    pub(crate) status: Status,
    content: Option<Items<u8>>,
    template: u16,
    service: u16,
    published: u8,
    pub(crate) relaunched: u8,
    pub(crate) surveyed: u8,
}

impl<'a> Controls for Site<'a> {
    ghost use Rattle.std.specs.Prelude.{⊤};

    ghost State = { ⊤ };

    ghost state = { λ _. tt };

    ghost config = { λ s. s.config.now };

    ghost publishes = { λ _ _ _ _ _. ⊤ };

    ghost relaunches = { λ _ _ _ _. ⊤ };

    ghost surveys = { λ _ _ _. ⊤ };

    fn publish(&mut self, template: u16, content: Items<u8>) -> Publishing {
        self.template = template;
        self.content = Some(content);
        self.published = self.published.saturating_add(1);
        self.publishing
    }

    fn relaunch(&mut self, service: u16) -> Relaunching {
        self.service = service;
        self.relaunched = self.relaunched.saturating_add(1);
        self.relaunching
    }

    fn status(&mut self) -> Status {
        self.surveyed = self.surveyed.saturating_add(1);
        self.status
    }
}

fn none<T>(alloc: Global) -> Items<T> {
    Items::of(Vec::new(alloc))
}

fn name(rt: &impl Abort, alloc: Global, text: &[u8]) -> Name {
    let text = Vec::from_slice(alloc, text).expect(rt, MEMORY);
    Name::new(Items::of(text)).expect(rt, "no name")
}

fn names(rt: &impl Abort, alloc: Global, texts: [&[u8]; 2]) -> Items<Name> {
    let mut names = Vec::new(alloc);
    for text in texts {
        let name = name(rt, alloc, text);
        names.push(name).expect(rt, MEMORY);
    }
    Items::of(names)
}

fn services(rt: &impl Abort, alloc: Global, texts: [&[u8]; 2]) -> Items<ServicePlan> {
    let mut services = Vec::new(alloc);
    for text in texts {
        let service = ServicePlan {
            name: name(rt, alloc, text),
            words: none(alloc),
        };
        services.push(service).expect(rt, MEMORY);
    }
    Items::of(services)
}

/// A site with the services guest and other, and the templates page and secret.
pub(crate) fn declared(rt: &impl Abort, alloc: Global) -> Config {
    Config {
        proxies: none(alloc),
        services: services(rt, alloc, [b"guest", b"other"]),
        templates: names(rt, alloc, [b"page", b"secret"]),
        retry: 3,
        paths: none(alloc),
        grants: none(alloc),
        readables: none(alloc),
        loggers: none(alloc),
    }
}

pub(crate) fn site_of(config: &Config) -> Site<'_> {
    Site {
        config,
        publishing: Publishing::Edition(1),
        relaunching: Relaunching::Up(2),
        status: SHOWN,
        content: None,
        template: 9,
        service: 9,
        published: 0,
        relaunched: 0,
        surveyed: 0,
    }
}

/// One step.
pub(crate) fn next<R: Wait>(
    rt: &R,
    alloc: Global,
    console: &mut MemoryConn<'_>,
    reader: &mut Reader,
    site: &mut Site<'_>,
) -> Stepped {
    let config = site.config;
    if config.services.as_slice().len() > MOST_SERVICES {
        return Stepped::Finished;
    }
    if config.templates.as_slice().len() > MOST_TEMPLATES {
        return Stepped::Finished;
    }
    step(rt, alloc, console, reader, config, site)
}

/// A console of these bytes, with room for so many that are given to it, whose calls of these numbers fail.
pub(crate) fn conn<'a>(
    rt: &impl Abort,
    alloc: Global,
    bytes: &'a [u8],
    room: usize,
    failing: &'a [u64],
) -> MemoryConn<'a> {
    MemoryConn::new(alloc, bytes, &[], room, failing).expect(rt, MEMORY)
}

/// What a console of these bytes is given in at most twelve steps, and whether it then finished.
fn answers<R: Abort + Wait>(
    rt: &R,
    alloc: Global,
    bytes: &[u8],
    site: &mut Site<'_>,
) -> (Vec<u8>, bool) {
    let mut console = conn(rt, alloc, bytes, 400, &[]);
    let mut reader = Reader::new(alloc).expect(rt, MEMORY);
    let mut finished = false;
    for _ in 0..12 {
        if !finished {
            finished = next(rt, alloc, &mut console, &mut reader, site) == Stepped::Finished;
        }
    }
    let given = Vec::from_slice(alloc, console.given());
    (given.expect(rt, MEMORY), finished)
}

#[test]
fn commands_are_answered(rt: HostRuntime) {
    let alloc = rt.alloc();
    let config = declared(&rt, alloc);
    let rows = [
        (
            b"publish page 1\na\nrelaunch nobody\nrelaunch guest\nend\nrelaunch guest\n".as_slice(),
            b"published 1\nrefused 3 2\nrelaunched 2\n".as_slice(),
        ),
        (
            b"publish x 3\na\nb\r\n \t\nend\n",
            b"refused 1 2\nrefused 3 1\n",
        ),
        (b"\r\n\n\tpublish  page\t0 \r\nend\r\n", b"published 1\n"),
        (
            b"publish page\npublish page +1\npublish page 1 1\nend 1\nPublish page 1\n",
            b"refused 1 1\nrefused 2 1\nrefused 3 1\nrefused 4 1\nrefused 5 1\n",
        ),
        (
            b"publish page 0123456789\nrelaunch\nrelaunch guest other\nend\n",
            b"refused 1 1\nrefused 2 1\nrefused 3 1\n",
        ),
        (b"publish page 262145\nabc", b"refused 1 3\n"),
        (b"publish page 4\nabc", b"refused 1 4\n"),
        (b"publish x 4\nabc", b"refused 1 2\n"),
        (b"relaunch guest", b""),
        (b"", b""),
    ];
    for (bytes, wanted) in rows {
        let (given, finished) = answers(&rt, alloc, bytes, &mut site_of(&config));
        same(&rt, &given, wanted);
        holds(&rt, finished, "finished");
    }
}

#[test]
fn the_site_is_told(rt: HostRuntime) {
    let alloc = rt.alloc();
    let config = declared(&rt, alloc);
    let mut steered = site_of(&config);
    let bytes = b"publish secret 5\na\n\r\nbrelaunch other\nend\n";
    let (_, finished) = answers(&rt, alloc, bytes, &mut steered);
    holds(&rt, finished, "finished");
    holds(
        &rt,
        (steered.template, steered.service) == (1, 1),
        "told of",
    );
    holds(
        &rt,
        (steered.published, steered.relaunched) == (1, 1),
        "told",
    );
    let Some(content) = steered.content else {
        panic!(rt; "not as planned");
    };
    same(&rt, content.as_slice(), b"a\n\r\nb");
}

#[test]
fn what_they_come_to_is_answered(rt: HostRuntime) {
    let alloc = rt.alloc();
    let config = declared(&rt, alloc);
    let bytes = b"relaunch guest\npublish page 1\naend\n";
    let rows = [
        (
            Relaunching::Up(7),
            Publishing::Edition(4),
            b"relaunched 7\npublished 4\n".as_slice(),
        ),
        (
            Relaunching::Dead(3),
            Publishing::EditionsSpent,
            b"dead 3\nrefused 2 5\n",
        ),
        (
            Relaunching::Spent,
            Publishing::NoMemory,
            b"refused 1 6\nno memory\n",
        ),
        (
            Relaunching::NoMemory,
            Publishing::Edition(1),
            b"no memory\npublished 1\n",
        ),
    ];
    for (relaunching, publishing, wanted) in rows {
        let mut steered = site_of(&config);
        steered.relaunching = relaunching;
        steered.publishing = publishing;
        let (given, _) = answers(&rt, alloc, bytes, &mut steered);
        same(&rt, &given, wanted);
    }
}

/// A line of so many bytes that is a relaunch of guest, and its end.
fn padded(rt: &impl Abort, alloc: Global, len: usize, end: &[u8]) -> Vec<u8> {
    let mut line = Vec::from_slice(alloc, b"relaunch ").expect(rt, MEMORY);
    for _ in 14..len {
        line.push(b' ').expect(rt, MEMORY);
    }
    for part in [b"guest".as_slice(), end] {
        line.extend_from_slice(part).expect(rt, MEMORY);
    }
    line
}

#[test]
fn lines_have_a_greatest_length(rt: HostRuntime) {
    let alloc = rt.alloc();
    let config = declared(&rt, alloc);
    let rows = [
        (256, b"\n".as_slice(), b"relaunched 2\n".as_slice()),
        (256, b"\r\n", b"relaunched 2\n"),
        (257, b"\n", b"refused 1 1\n"),
        (257, b"\r\n", b"refused 1 1\n"),
        (1_000, b"\nend\n", b"refused 1 1\n"),
    ];
    for (len, end, wanted) in rows {
        let line = padded(&rt, alloc, len, end);
        let (given, finished) = answers(&rt, alloc, &line, &mut site_of(&config));
        same(&rt, &given, wanted);
        holds(&rt, finished, "finished");
    }
}

#[test]
fn faults_of_a_console_are_told(rt: HostRuntime) {
    let alloc = rt.alloc();
    let config = declared(&rt, alloc);
    let mut steered = site_of(&config);
    let mut reader = Reader::new(alloc).expect(&rt, MEMORY);
    let mut deaf = conn(&rt, alloc, b"relaunch guest\n", 9, &[3]);
    let unread = next(&rt, alloc, &mut deaf, &mut reader, &mut steered);
    holds(&rt, unread == Stepped::ConsoleFault(None), "unread");
    holds(
        &rt,
        (steered.relaunched, deaf.faults()) == (0, 1),
        "counts of the deaf",
    );
    let mut mute = conn(&rt, alloc, b"relaunch guest\n", 9, &[]);
    let untold = next(&rt, alloc, &mut mute, &mut reader, &mut steered);
    holds(
        &rt,
        untold == Stepped::ConsoleFault(Some(Answer::Relaunched(2))),
        "untold",
    );
    same(&rt, mute.given(), b"relaunche");
    holds(
        &rt,
        (steered.relaunched, mute.faults()) == (1, 1),
        "counts of the mute",
    );
}

#[test]
fn nothing_behind_the_end_is_taken(rt: HostRuntime) {
    let alloc = rt.alloc();
    let config = declared(&rt, alloc);
    let mut steered = site_of(&config);
    let mut reader = Reader::new(alloc).expect(&rt, MEMORY);
    let mut console = conn(&rt, alloc, b"\npublish page 2\nabcd\nend\nmore", 99, &[]);
    let first = next(&rt, alloc, &mut console, &mut reader, &mut steered);
    holds(
        &rt,
        first == Stepped::Answered(Answer::Published(1)),
        "the first step",
    );
    same(&rt, console.left(), b"cd\nend\nmore");
    let second = next(&rt, alloc, &mut console, &mut reader, &mut steered);
    let refused = Answer::Refused {
        line: 3,
        rule: Rule::NoCommand,
    };
    holds(&rt, second == Stepped::Answered(refused), "the second step");
    let last = next(&rt, alloc, &mut console, &mut reader, &mut steered);
    holds(&rt, last == Stepped::Finished, "the last step");
    same(&rt, console.left(), b"more");
    holds(&rt, Rule::NoCommand.number() == 1, "the rule's number");
}

#[test]
fn a_stop_is_left_to_the_caller(rt: HostRuntime) {
    let alloc = rt.alloc();
    let config = declared(&rt, alloc);
    let mut steered = site_of(&config);
    let mut reader = Reader::new(alloc).expect(&rt, MEMORY);
    let mut console = conn(&rt, alloc, b"stop now\n\t stop \nrelaunch guest\n", 99, &[]);
    let refused = Answer::Refused {
        line: 1,
        rule: Rule::NoCommand,
    };
    let first = next(&rt, alloc, &mut console, &mut reader, &mut steered);
    holds(&rt, first == Stepped::Answered(refused), "the first step");
    let second = next(&rt, alloc, &mut console, &mut reader, &mut steered);
    holds(&rt, second == Stepped::Stop, "the second step");
    same(&rt, console.given(), b"refused 1 1\n");
    let answer = Answer::Stopping(1_234_567_890_123);
    let told = tell(&mut console, &mut reader, answer);
    holds(&rt, told == Stepped::Answered(answer), "told");
    same(
        &rt,
        console.given(),
        b"refused 1 1\nstopping 1234567890123\n",
    );
    same(&rt, console.left(), b"relaunch guest\n");
    holds(&rt, steered.relaunched == 0, "nothing was done");
    let mut mute = conn(&rt, alloc, b"stop\n", 5, &[]);
    let step = next(&rt, alloc, &mut mute, &mut reader, &mut steered);
    holds(&rt, step == Stepped::Stop, "the mute's step");
    let untold = tell(&mut mute, &mut reader, Answer::Stopping(0));
    holds(
        &rt,
        untold == Stepped::ConsoleFault(Some(Answer::Stopping(0))),
        "untold",
    );
    same(&rt, mute.given(), b"stopp");
}
