//! A console and a link over streams that fail as a system does: signals interrupt their calls, they
//! take and give little at a time, and they fail in mid-stream.

use crate::holding::holds;
use okws_outer::conn::Conn;
use okws_outer::stream::{Link, Pull, Put, Sink};
use okws_system::console::RealConsole;
use okws_system::link::PipeLink;
use okws_system::output::Writing;
use std::io;
use std::io::{ErrorKind, Read, Write};

/// What one call of a stream does.
#[derive(Clone, Copy)]
enum Step {
    /// So many bytes go, at most.
    Goes(usize),
    /// It fails in this way.
    Fails(ErrorKind),
}

/// The next step; once there is none, nothing goes.
fn next_step(steps: &mut &[Step]) -> Step {
    match *steps {
        [] => Step::Goes(0),
        [first, rest @ ..] => {
            *steps = rest;
            *first
        }
    }
}

/// A reader that gives the letter a.
#[derive(Drop)]
struct Steady<'a> {
    steps: &'a [Step],
}

impl<'a> Read for Steady<'a> {
    fn read(&mut self, buf: &mut [u8]) -> io::Result<usize> {
        match next_step(&mut self.steps) {
            Step::Goes(most) => {
                let count = most.min(buf.len());
                buf[..count].fill(b'a');
                Ok(count)
            }
            Step::Fails(kind) => Err(io::Error::from(kind)),
        }
    }
}

/// A writer that drops what it takes.
#[derive(Drop)]
struct Dropping<'a> {
    steps: &'a [Step],
}

impl<'a> Write for Dropping<'a> {
    fn write(&mut self, buf: &[u8]) -> io::Result<usize> {
        match next_step(&mut self.steps) {
            Step::Goes(most) => Ok(most.min(buf.len())),
            Step::Fails(kind) => Err(io::Error::from(kind)),
        }
    }

    fn flush(&mut self) -> io::Result<()> {
        Ok(())
    }
}

const READS: [Step; 5] = [
    Step::Fails(ErrorKind::Interrupted),
    Step::Goes(5),
    Step::Fails(ErrorKind::Interrupted),
    Step::Fails(ErrorKind::ConnectionReset),
    Step::Goes(1),
];

const WRITES: [Step; 6] = [
    Step::Goes(2),
    Step::Fails(ErrorKind::Interrupted),
    Step::Goes(1),
    Step::Goes(2),
    Step::Fails(ErrorKind::BrokenPipe),
    Step::Goes(0),
];

#[test]
fn console_goes_on_after_signals(rt: HostRuntime) {
    let input = Steady { steps: &READS };
    let output = Dropping { steps: &WRITES };
    let Ok(mut console) = RealConsole::new(rt.alloc(), input, output) else {
        panic!(rt; "not as planned");
    };
    let mut piece = [0u8; 3];
    for pull in [
        Pull::Took(3),
        Pull::Took(2),
        Pull::Failed,
        Pull::Took(1),
        Pull::End,
    ] {
        holds(&rt, console.pull(&mut piece) == pull, "pull");
    }
    for put in [Put::Done, Put::Stopped(2), Put::Stopped(0), Put::Stopped(0)] {
        holds(&rt, console.put(b"abc") == put, "put");
    }
    holds(&rt, console.put(b"") == Put::Done, "nothing put");
    holds(&rt, console.faults() == 4, "faults");
}

#[test]
fn link_goes_on_after_signals(rt: HostRuntime) {
    let input = Steady { steps: &READS };
    let output = Dropping { steps: &WRITES };
    let Ok(mut link) = PipeLink::new(rt.alloc(), input, output) else {
        panic!(rt; "not as planned");
    };
    let mut piece = [0u8; 4];
    for pull in [
        Pull::Took(4),
        Pull::Took(1),
        Pull::Failed,
        Pull::Took(1),
        Pull::End,
    ] {
        holds(&rt, link.pull(&mut piece) == pull, "pull");
    }
    for put in [Put::Done, Put::Stopped(2), Put::Stopped(0)] {
        holds(&rt, link.put(b"abc") == put, "put");
    }
    holds(&rt, link.faults() == 3, "faults");
}

#[test]
fn output_stops_where_nothing_is_taken(rt: HostRuntime) {
    let mut out = Writing::new(Dropping { steps: &WRITES });
    for put in [Put::Done, Put::Stopped(2), Put::Stopped(0)] {
        holds(&rt, out.put(b"abc") == put, "put");
    }
    holds(&rt, out.faults() == 2, "faults");
}
