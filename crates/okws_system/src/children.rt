//! Children of the system.

ghost use Rattle.std.specs.Prelude.{◌≡◌, [], None, IfOk};
ghost use Rattle.okws_outer.specs.Lives.{new_life};
ghost use Rattle.okws_outer.specs.Families.{IsNewLink};

use crate::command::{command_of, search_path, with_path};
use crate::link::PipeLink;
use crate::notice;
use crate::pipes::{ChildInput, ChildOutput};
use crate::process::Shared;
use okws_base::items::{Exact, Items};
use okws_base::name::Name;
use okws_base::told::{Says, Told};
use okws_outer::child::{Child, Ended};
use okws_outer::children::{ChildEnd, ChildName, ChildStart, Children, Started};
use okws_outer::error::MakeError;
use okws_outer::stream::{Link, Pull, Put};
use real_network::trying::{count, refusal};
use std::alloc::{AllocError, Global};
use std::fs::Files;
use std::io;
use std::io::{ErrorKind, PipeWriter, Stderr};
use std::process::{Child as Spawned, ChildStdout, Command, Processes, Stdio, SystemProcess};
use std::rt::Env;

/// The link of a child: its standard output, and the pipe that is its standard input.
pub struct ChildLink {
    whose: ChildName,
    pipes: PipeLink<ChildOutput, ChildInput>,
}

impl Drop for ChildLink {
    fn drop(self) {
        let ChildLink { whose: _, pipes } = self;
        drop(pipes);
    }
}

impl ChildLink {
    /// How many calls have failed.
    pub fn faults(&self) -> u64
        ensures { result ≡ (⟦<ChildLink as Link>⟧.wire self.now).faults }
    {
        self.pipes.faults()
    }
}

impl Link for ChildLink {
    ghost use Rattle.std.specs.Prelude.{Some};

    ghost wire = { λ s. record (⟦<PipeLink<ChildOutput, ChildInput> as Link>⟧.wire s.pipes) { whose = Some s.whose } };

    fn pull(&mut self, into: &mut [u8]) -> Pull {
        self.pipes.pull(into)
    }

    fn put(&mut self, bytes: &[u8]) -> Put {
        self.pipes.put(bytes)
    }

    fn make_room(&mut self, n: usize) -> Result<(), AllocError> {
        self.pipes.make_room(n)
    }
}

/// A child of the system.
pub struct RealChild {
    name: Name,
    service: u16,
    incarnation: u32,
    process: Shared,
    asked: u64,
    last: Option<Ended>,
    ended: bool,
    faults: u64,
    stopped: bool,
}

impl Drop for RealChild {
    fn drop(self) {
        let RealChild {
            name,
            service: _,
            incarnation: _,
            process,
            asked: _,
            last: _,
            ended: _,
            faults: _,
            stopped: _,
        } = self;
        drop(name);
        drop(process);
    }
}

impl RealChild {
    fn new(name: Name, whose: ChildName, process: Shared) -> Self
        ensures { ⟦<RealChild as Child>⟧.life result ≡ new_life whose.service whose.incarnation }
    {
        let ChildName {
            service,
            incarnation,
        } = whose;
        RealChild {
            name,
            service,
            incarnation,
            process,
            asked: 0,
            last: None,
            ended: false,
            faults: 0,
            stopped: false,
        }
    }
}

impl Child for RealChild {
    ghost life = { λ c. record {
      service = c.service;
      incarnation = c.incarnation;
      asked = c.asked;
      last = c.last;
      ended = c.ended;
      faults = c.faults;
      stopped = c.stopped;
    } };

    fn ended(&mut self) -> Ended {
        let answer = self.process.ended();
        self.asked = self.asked.saturating_add(1);
        self.last = Some(answer);
        match answer {
            Ended::Yes => self.ended = !self.stopped || self.ended,
            Ended::No => {}
            Ended::Failed => count(&mut self.faults),
        }
        answer
    }

    fn stop(&mut self) {
        self.stopped = true;
        self.process.stop();
    }
}

/// The children of the system. It tells on standard error which could not be started, which ended by themselves, and which
/// services were given up.
pub struct RealChildren<'r, R> {
    rt: &'r R,
    errors: Stderr,
    started: Told<ChildStart>,
    finished: Told<ChildEnd>,
    faults: u64,
}

impl<'r, R> Drop for RealChildren<'r, R> {
    fn drop(self) {
        let RealChildren {
            rt: _,
            errors: _,
            started: _,
            finished: _,
            faults: _,
        } = self;
    }
}

impl<'r, R: Processes<Started = SystemProcess> + Files + Env + AllocGlobal> RealChildren<'r, R> {
    /// The children, none of them started yet and no fault counted.
    pub fn new(rt: &'r R, errors: Stderr) -> Self
        ensures { ⟦<RealChildren<'r, R> as Children>⟧.family result ≡ record { started = []; finished = []; faults = 0 } }
    {
        RealChildren {
            rt,
            errors,
            started: Told::new(),
            finished: Told::new(),
            faults: 0,
        }
    }

    /// How many starts have failed.
    pub fn faults(&self) -> u64
        ensures { result ≡ (⟦<RealChildren<'r, R> as Children>⟧.family self.now).faults }
    {
        self.faults
    }
}

/// A process whose standard output is a pipe, and the end of the pipe that is its standard input. The
/// other ends are closed here, so that a pipe ends with the child.
fn spawn<R: Processes<Started = SystemProcess> + Files>(
    rt: &R,
    errors: Stderr,
    mut command: Command,
) -> io::Result<(Spawned<SystemProcess>, PipeWriter)> {
    let (reader, writer) = io::pipe(rt)?;
    command.stdin(reader);
    command.stdout(Stdio::piped());
    command.stderr(errors);
    let child = command.spawn(rt)?;
    Ok((child, writer))
}

/// The link of a process that was spawned so, by its standard output and the end that is written.
fn link_of(
    alloc: Global,
    whose: ChildName,
    process: &Shared,
    output: ChildStdout,
    writer: PipeWriter,
) -> io::Result<ChildLink>
    ensures { IfOk result (λ l. IsNewLink whose.service whose.incarnation (⟦<ChildLink as Link>⟧.wire l) × ((⟦<ChildLink as Link>⟧.wire l).left ≡ None)) }
{
    let input = ChildInput::new(writer, process.share()?);
    let output = ChildOutput::new(output, process.share()?);
    let pipes = PipeLink::new(alloc, output, input)?;
    Ok(ChildLink { whose, pipes })
}

/// A process that was spawned so, and its link; a process that gets no link is ended.
fn linked(
    alloc: Global,
    whose: ChildName,
    mut child: Spawned<SystemProcess>,
    writer: PipeWriter,
) -> io::Result<(Shared, ChildLink)>
    ensures { IfOk result (λ s. IsNewLink whose.service whose.incarnation (⟦<ChildLink as Link>⟧.wire s.1) × ((⟦<ChildLink as Link>⟧.wire s.1).left ≡ None)) }
{
    let output = child.stdout.take();
    let process = Shared::new(alloc, child)?;
    let link = match output {
        Some(output) => link_of(alloc, whose, &process, output, writer),
        None => Err(io::Error::from(ErrorKind::InvalidData)),
    };
    match link {
        Ok(link) => Ok((process, link)),
        Err(error) => {
            let _ = process.end();
            Err(error)
        }
    }
}

/// Starts a program.
fn start<R: Processes<Started = SystemProcess> + Files + Env + AllocGlobal>(
    rt: &R,
    errors: Stderr,
    alloc: Global,
    whose: ChildName,
    words: &[Items<u8>],
) -> io::Result<(Shared, ChildLink)>
    ensures { IfOk result (λ s. IsNewLink whose.service whose.incarnation (⟦<ChildLink as Link>⟧.wire s.1) × ((⟦<ChildLink as Link>⟧.wire s.1).left ≡ None)) }
{
    let path = search_path(rt)?;
    let command = command_of(alloc, words)?;
    let command = with_path(command, path.as_ref().map(|path| path.as_str()))?;
    let (child, writer) = spawn(rt, errors, command)?;
    linked(alloc, whose, child, writer)
}

/// A child that was started, and those that were finished before.
#[derive(Clone, Copy)]
struct Starting<'c> {
    service: u16,
    incarnation: u32,
    words: &'c [Items<u8>],
    finished: &'c Told<ChildEnd>,
}

impl<'c> Says for Starting<'c> {
    type Item = ChildStart;

    ghost use Rattle.std.specs.Prelude.{None, length};

    ghost item = { λ s. record { service = s.service; incarnation = s.incarnation; words = s.words.now; says = None; after = length s.finished.now.past } };
}

/// A child that is finished, and its link.
#[derive(Clone, Copy)]
struct Finished<'c> {
    child: &'c RealChild,
    link: &'c ChildLink,
}

impl<'c> Says for Finished<'c> {
    type Item = ChildEnd;

    ghost item = { λ f. record {
      service = f.child.now.service;
      incarnation = f.child.now.incarnation;
      ended = f.child.now.ended;
      whose = (⟦<ChildLink as Link>⟧.wire f.link.now).whose;
      came = (⟦<ChildLink as Link>⟧.wire f.link.now).came;
      left = (⟦<ChildLink as Link>⟧.wire f.link.now).left;
      given = (⟦<ChildLink as Link>⟧.wire f.link.now).given;
      faults = (⟦<ChildLink as Link>⟧.wire f.link.now).faults;
    } };
}

impl<'r, R: Processes<Started = SystemProcess> + Files + Env + AllocGlobal> Children
    for RealChildren<'r, R> {
    type Child = RealChild;

    type Link = ChildLink;

    ghost family = { λ c. record { started = c.started.past; finished = c.finished.past; faults = c.faults } };

    fn start(
        &mut self,
        alloc: Global,
        service: u16,
        name: &Name,
        incarnation: u32,
        words: &[Items<u8>],
    ) -> Result<Started<RealChild, ChildLink>, MakeError> {
        let whose = ChildName {
            service,
            incarnation,
        };
        let own = name.copy(alloc)?;
        match start(self.rt, self.errors, alloc, whose, words) {
            Ok((process, link)) => {
                let starting = Starting {
                    service,
                    incarnation,
                    words,
                    finished: &self.finished,
                };
                self.started = self.started.and(&starting);
                let child = RealChild::new(own, whose, process);
                Ok(Started { child, link })
            }
            Err(error) => {
                notice::not_started(self.errors, name, incarnation, &error);
                let why = refusal(&error);
                if why == MakeError::Failed {
                    count(&mut self.faults);
                }
                Err(why)
            }
        }
    }

    fn finish(&mut self, service: u16, incarnation: u32, child: RealChild, link: ChildLink) {
        let finished = Finished {
            child: &child,
            link: &link,
        };
        self.finished = self.finished.and(&finished);
        drop(link);
        if let Some(status) = child.process.end() {
            notice::ended(self.errors, &child.name, incarnation, status);
        }
    }

    fn give_up(&mut self, name: &Name, tries: u32) {
        notice::given_up(self.errors, name, tries);
    }
}
