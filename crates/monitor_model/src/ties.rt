//! Laws by which what is known beside a worker's seats becomes a fact of the record that is left.

ghost use Rattle.monitor_model.specs.Tied.{DialogsKeepEntries, SeenIsPlaced, EndsAreOwn, LivesArePieces, LivesAreVisits, DialogsCarryRequests, CellLawsArePart};

/// In a dialog a worker's own entries and its own items stay one another's.
pub fn dialogs_keep_entries()
    ensures { DialogsKeepEntries }
{}

/// What a number had seen once, up to its own last entries, is found in the record that went on from there.
pub fn what_was_seen_is_placed()
    ensures { SeenIsPlaced }
{}

/// Whose entries are its items in what it had seen at last, its entries in the record are its items.
pub fn ends_are_own()
    ensures { EndsAreOwn }
{}

/// A cell's law is what a legal record needs of its Misseds, and of all else.
pub fn cell_laws_are_parts()
    ensures { CellLawsArePart }
{}

/// A worker that lived piece by piece has a list of whole pieces, and each of its dialogs fits the entries that follow it.
pub fn lives_are_pieces()
    ensures { LivesArePieces }
{}

/// The visits of a worker's list are those of the pieces by which it lived.
pub fn lives_are_visits()
    ensures { LivesAreVisits }
{}

/// The Request of a dialog carries the head and the content with which it was begun.
pub fn dialogs_carry_requests()
    ensures { DialogsCarryRequests }
{}
