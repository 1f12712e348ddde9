//! Laws by which a worker's steps are pieces of its list, whatever others enter meanwhile.

ghost use Rattle.worker_lives.specs.Beginning.{TurnsAloneAreLives};
ghost use Rattle.worker_lives.specs.Laws.{LivesAreFound, OthersLeaveDialogs, GoingsJoin, RestsAreNoPieces, WantsArePieces, PublicationsArePieces, AcceptsArePieces, TurnsArePieces, GoingsAreLives, LivesEndInRecords};

/// Who lived by pieces that tell their dialogs lived by the record that has these dialogs.
pub fn lives_are_found()
    ensures { LivesAreFound }
{}

/// Others' events at a cell leave a worker's dialogs there.
pub fn others_leave_dialogs()
    ensures { OthersLeaveDialogs }
{}

/// What goes on by some pieces and then by others goes on by all of them.
pub fn goings_join()
    ensures { GoingsJoin }
{}

/// Where a worker made nothing, there is no piece.
pub fn rests_are_no_pieces()
    ensures { RestsAreNoPieces }
{}

/// Want of memory that is noted is a piece.
pub fn wants_are_pieces()
    ensures { WantsArePieces }
{}

/// A publication is a piece.
pub fn publications_are_pieces()
    ensures { PublicationsArePieces }
{}

/// An Accept and what became of it are a piece.
pub fn accepts_are_pieces()
    ensures { AcceptsArePieces }
{}

/// What a turn at the launcher entered is a piece an event.
pub fn turns_are_pieces()
    ensures { TurnsArePieces }
{}

/// Who had seen and done nothing at first lived by the pieces since.
pub fn goings_are_lives()
    ensures { GoingsAreLives }
{}

/// Who lived by pieces until the record was left, its list there is made of them.
pub fn lives_end_in_records()
    ensures { LivesEndInRecords }
{}

/// Who noted just what it entered at the launcher before it did anything else lived by that.
pub fn turns_alone_are_lives()
    ensures { TurnsAloneAreLives }
{}
