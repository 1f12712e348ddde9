//! What the first word of a line asks for.

ghost use Rattle.std.specs.Prelude.{◌≡◌};
ghost use Rattle.play_script.specs.Directive.{step_named, change_named, other_named, directive_named, step_line, change_line, method_named};

use okws_plan::script::{Line, Method, Place};

/// A directive that the name of a service alone follows.
#[derive(Clone, Copy)]
pub enum Step {
    Begin,
    Boot,
    Up,
    Down,
    Launch,
    Relaunch,
    End,
}

/// A directive that the names of a service and a column follow.
#[derive(Clone, Copy)]
pub enum Change {
    Install,
    Revoke,
}

/// What a line asks for.
#[derive(Clone, Copy)]
pub enum Directive {
    Step(Step),
    Change(Change),
    /// A method, a target and, if wanted, content follow.
    Accept,
    /// The number of a request follows.
    Dialog,
    /// The name of a service and bytes follow.
    Bytes,
    /// The name of a template and content follow.
    Publish,
}

impl Step {
    /// The line that asks for the step at a service.
    pub fn line(self, service: u16) -> Line
        ensures { result ≡ step_line self service }
    {
        match self {
            Step::Begin => Line::Begin(service),
            Step::Boot => Line::Boot(service),
            Step::Up => Line::Up(service),
            Step::Down => Line::Down(service),
            Step::Launch => Line::Launch(service),
            Step::Relaunch => Line::Relaunch(service),
            Step::End => Line::End(service),
        }
    }
}

impl Change {
    /// The line that asks for the change of a service at a column.
    pub fn line(self, service: u16, place: Place) -> Line
        ensures { result ≡ change_line self service place }
    {
        match self {
            Change::Install => Line::Install { service, place },
            Change::Revoke => Line::Revoke { service, place },
        }
    }
}

fn step_of(word: &[u8]) -> Option<Step>
    ensures { result ≡ step_named word.now }
{
    if word == b"begin".as_slice() {
        Some(Step::Begin)
    } else if word == b"boot".as_slice() {
        Some(Step::Boot)
    } else if word == b"up".as_slice() {
        Some(Step::Up)
    } else if word == b"down".as_slice() {
        Some(Step::Down)
    } else if word == b"launch".as_slice() {
        Some(Step::Launch)
    } else if word == b"relaunch".as_slice() {
        Some(Step::Relaunch)
    } else if word == b"end".as_slice() {
        Some(Step::End)
    } else {
        None
    }
}

fn change_of(word: &[u8]) -> Option<Change>
    ensures { result ≡ change_named word.now }
{
    if word == b"install".as_slice() {
        Some(Change::Install)
    } else if word == b"revoke".as_slice() {
        Some(Change::Revoke)
    } else {
        None
    }
}

fn other_of(word: &[u8]) -> Option<Directive>
    ensures { result ≡ other_named word.now }
{
    if word == b"accept".as_slice() {
        Some(Directive::Accept)
    } else if word == b"dialog".as_slice() {
        Some(Directive::Dialog)
    } else if word == b"bytes".as_slice() {
        Some(Directive::Bytes)
    } else if word == b"publish".as_slice() {
        Some(Directive::Publish)
    } else {
        None
    }
}

/// The directive that a word is, byte by byte.
#[tactic(auto, unfolding(crate::specs::Directive::directive_named))]
pub fn directive_of(word: &[u8]) -> Option<Directive>
    ensures { result ≡ directive_named word.now }
{
    if let Some(step) = step_of(word) {
        return Some(Directive::Step(step));
    }
    if let Some(change) = change_of(word) {
        return Some(Directive::Change(change));
    }
    other_of(word)
}

/// The method that a word is, byte by byte.
pub fn method_of(word: &[u8]) -> Option<Method>
    ensures { result ≡ method_named word.now }
{
    if word == b"GET".as_slice() {
        Some(Method::Get)
    } else if word == b"HEAD".as_slice() {
        Some(Method::Head)
    } else if word == b"POST".as_slice() {
        Some(Method::Post)
    } else {
        None
    }
}
