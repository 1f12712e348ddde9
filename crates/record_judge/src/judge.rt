//! Whether a run's record is legal, and which parts of it are not.

use crate::caused::have_causes;
use crate::first::come_first;
use crate::launched::are_launched;
use crate::lawful::are_lawful;
use crate::made::are_made;
use crate::missed::are_missed;
use crate::pieced::are_pieces;
use crate::served::are_served;
use record_lines::case::Case;
use std::alloc::AllocError;

/// A part of what makes a record legal.
#[derive(Clone, Copy, Debug, PartialEq, Eq)]
pub enum Part {
    /// Each journal's entries of a number are the items of the number's list.
    Made,
    /// The workers' lists are whole pieces, and the console's orders were carried out.
    Pieced,
    /// Each Missed and Superseded was so.
    Missed,
    /// Each journal keeps its law, and each dialog is answered by its entries' verdicts.
    Lawful,
    /// Each client was answered by what became of its request.
    Served,
    /// The launcher's list has one piece for each Begun.
    Launched,
    /// Each launch and crash has its cause and its consequence.
    Caused,
    /// The first launches come before all else.
    First,
}

/// All parts.
const PARTS: [Part; 8] = [
    Part::Made,
    Part::Pieced,
    Part::Missed,
    Part::Lawful,
    Part::Served,
    Part::Launched,
    Part::Caused,
    Part::First,
];

/// Whether a part of legality holds.
fn holds(case: &Case<'_, '_>, part: Part) -> bool {
    match part {
        Part::Made => are_made(case),
        Part::Pieced => are_pieces(case),
        Part::Missed => are_missed(case),
        Part::Lawful => are_lawful(case),
        Part::Served => are_served(case),
        Part::Launched => are_launched(case),
        Part::Caused => have_causes(case),
        Part::First => come_first(case),
    }
}

/// The parts of a record that are not legal.
pub fn broken(case: &Case<'_, '_>) -> Result<Vec<Part>, AllocError> {
    let mut parts = Vec::new(case.alloc);
    for part in PARTS {
        if !holds(case, part) {
            parts.push(part)?;
        }
    }
    Ok(parts)
}
