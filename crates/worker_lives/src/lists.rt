//! Laws by which the pieces of a worker's list say what stands in it.

ghost use Rattle.worker_lives.specs.Listing.{OrdersAreOfPieces, ItemsAreOfPieces, CrashesAreTold, TellingsJoin, VisitsJoin, TurnsAreNoVisits};

/// What a worker's list carried out for an operator, its pieces did.
pub fn orders_are_of_pieces()
    ensures { OrdersAreOfPieces }
{}

/// Orders and Accepts stand in a worker's list only where a piece begins with them.
pub fn items_are_of_pieces()
    ensures { ItemsAreOfPieces }
{}

/// Where the pieces tell of each crash, the list does.
pub fn crashes_are_told()
    ensures { CrashesAreTold }
{}

/// Pieces that go on behind others are told of where both are.
pub fn tellings_join()
    ensures { TellingsJoin }
{}

/// What connections had of some pieces and of those behind them, they had of all.
pub fn visits_join()
    ensures { VisitsJoin }
{}

/// What was entered at the launcher is no visit.
pub fn turns_are_no_visits()
    ensures { TurnsAreNoVisits }
{}
