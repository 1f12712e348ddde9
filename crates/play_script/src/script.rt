//! The script of a drill, a word's lines at a time.

ghost use Rattle.std.specs.Prelude.{◌≡◌, ◌<◌, ◌≤◌, ◌+◌, ◌∷◌, [], IfOk, OnOk};
ghost use Rattle.std.specs.Int.{w32, to_be_bytes};
ghost use Rattle.play_script.specs.Course.{course, incarnation_of};
ghost use Rattle.play_script.specs.Script.{dialog_lines, asks, first_lines, group, path_of};
ghost use Rattle.play_script.specs.Words.{drill_word};
ghost use Rattle.play_script.specs.declared.words.TheConstants.{MOST_EVENTS};

use crate::course::Course;
use crate::frames::{say_asked, say_reply};
use crate::site::{GUEST, OTHER, PAGE};
use crate::words::{Act, act_of, drill_seed, number_of, service_of, word_at};
use okws_base::items::Items;
use okws_plan::script::{Line, Method};
use std::alloc::{AllocError, Global};
use std::marker::Model;
use token_core::Seed;

fn path_of(alloc: Global, service: u16) -> Result<Items<u8>, AllocError>
    ensures { IfOk result (λ v. v ≡ path_of service) }
{
    let path: &[u8] = if service == GUEST {
        b"/guest"
    } else {
        b"/other"
    };
    Ok(Items::of(Vec::from_slice(alloc, path)?))
}

fn publish(alloc: Global, word: u32) -> Result<Vec<Line>, AllocError>
    ensures { IfOk result (λ v. v.items ≡ Line.Publish 0 (to_be_bytes w32 word) ∷ []) }
{
    let mut lines = Vec::new(alloc);
    lines.push(Line::Publish {
        template: PAGE,
        content: Items::of(Vec::from_slice(alloc, &word.to_be_bytes())?),
    })?;
    Ok(lines)
}

fn relaunch(alloc: Global, service: u16) -> Result<Vec<Line>, AllocError>
    ensures { IfOk result (λ v. v.items ≡ Line.Relaunch service ∷ []) }
{
    let mut lines = Vec::new(alloc);
    lines.push(Line::Relaunch(service))?;
    Ok(lines)
}

/// The lines of a request and of its dialog.
fn dialog(
    alloc: Global,
    act: Act,
    service: u16,
    course: Course,
    id: u32,
) -> Result<Vec<Line>, AllocError>
    requires guest_first { 1 ≤ course.guest }
    requires other_first { 1 ≤ course.other }
    requires guest { course.guest ≤ MOST_EVENTS }
    requires other { course.other ≤ MOST_EVENTS }
    ensures { IfOk result (λ v. v.items ≡ dialog_lines service course.requests (asks act service (incarnation_of course service) id)) }
{
    let mut lines = Vec::new(alloc);
    lines.push(Line::Accept {
        method: Method::Get,
        target: path_of(alloc, service)?,
        content: Items::of(Vec::new(alloc)),
    })?;
    lines.push(Line::Dialog(course.requests))?;
    let incarnation = course.incarnation(service);
    say_asked(alloc, &mut lines, act, service, incarnation, id)?;
    say_reply(alloc, &mut lines, service)?;
    Ok(lines)
}

/// The lines of a word, where the words before it have made this.
fn lines_of(alloc: Global, course: Course, word: u32) -> Result<Vec<Line>, AllocError>
    requires guest_first { 1 ≤ course.guest }
    requires other_first { 1 ≤ course.other }
    requires guest { course.guest ≤ MOST_EVENTS }
    requires other { course.other ≤ MOST_EVENTS }
    ensures { IfOk result (λ v. v.items ≡ group course word) }
{
    let service = service_of(word);
    match act_of(word) {
        Act::Publish => publish(alloc, word),
        Act::Relaunch => relaunch(alloc, service),
        act => dialog(alloc, act, service, course, number_of(word)),
    }
}

/// The lines before those of the first word: both services are launched.
pub fn first_lines(alloc: Global) -> Result<Vec<Line>, AllocError>
    ensures { IfOk result (λ v. v.items ≡ first_lines) }
{
    let mut lines = Vec::new(alloc);
    lines.push(Line::Launch(GUEST))?;
    lines.push(Line::Launch(OTHER))?;
    Ok(lines)
}

/// A drill, as far as its lines were given. Contracts see its number, and how many words were taken.
#[derive(Drop)]
pub struct Drill {
    number: u64,
    seed: Seed,
    taken: u32,
    course: Course,
}

impl Model for Drill {
    ghost use Rattle.play_script.specs.Course.{Taken, IsTaken};

    ghost Value = { Taken };

    ghost view = { λ a. record { number = a.number; taken = a.taken } };

    ghost invariant = { λ a. IsTaken a.number a.seed a.taken a.course };
}

impl Drill {
    /// The drill of this number, of which no word was taken.
    pub fn new(number: u64) -> Drill
        ensures { result ≡ record { number = number; taken = 0 } }
    {
        Drill {
            number,
            seed: drill_seed(number),
            taken: 0,
            course: Course::first(),
        }
    }

    /// The lines of the next word, which is one of the first 100,000.
    pub fn next_lines(&mut self, alloc: Global) -> Result<Vec<Line>, AllocError>
        requires { self.old.taken < MOST_EVENTS }
        ensures lines { IfOk result (λ v. v.items ≡ group (course self.old.number self.old.taken) (drill_word self.old.number self.old.taken)) }
        ensures taken { OnOk result (self.new ≡ record { number = self.old.number; taken = self.old.taken + 1 }) }
    {
        let word = word_at(&self.seed, self.taken);
        let lines = lines_of(alloc, self.course, word)?;
        self.course = self.course.after(word);
        self.taken += 1;
        Ok(lines)
    }
}
