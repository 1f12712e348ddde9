//! Laws by which a turn at a cell is what became of an Accept.

ghost use Rattle.worker_lives.specs.Talking.{DialogsAreOutcomes, VisitsArePieces, OutcomesCarryRequests};

/// A whole dialog at a cell, or what came in its place, is what became of an Accept.
pub fn dialogs_are_outcomes()
    ensures { DialogsAreOutcomes }
{}

/// An Accept and what the worker then had of the cell are a piece.
pub fn visits_are_pieces()
    ensures { VisitsArePieces }
{}

/// The Request of the dialog that became of an Accept carries what was asked.
pub fn outcomes_carry_requests()
    ensures { OutcomesCarryRequests }
{}
