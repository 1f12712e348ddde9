//! Laws by which what a worker entered at the launcher leads on in the record.

ghost use Rattle.worker_lives.specs.Waiting.{PiecesLead, WorkersLead};

/// Where the first items of a worker's pieces lead on, its list does in the record.
pub fn pieces_lead()
    ensures { PiecesLead }
{}

/// Where what each worker entered leads on, all entries of the launcher's journal do.
pub fn workers_lead()
    ensures { WorkersLead }
{}
