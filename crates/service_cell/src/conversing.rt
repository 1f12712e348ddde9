//! Whole dialogs: begun, and gone on with until they end. The link waits for each frame.

ghost use Rattle.std.specs.Prelude.{◌≡◌, ◌≤◌, ◌<◌, ◌+◌, ℕ, List, length, Some, ◌≢◌};
ghost use Rattle.okws_base.specs.declared.limit.TheConstants.{LONGEST_FRAME};
ghost use Rattle.okws_outer.specs.Families.{child_named};
ghost use Rattle.okws_outer.specs.Wire.{Wire};
ghost use Rattle.monitor_model.specs.Cell.{incarnation};
ghost use Rattle.monitor_model.specs.Seen.{Seen};
ghost use Rattle.service_cell.specs.Asking.{KeepsBoard};
ghost use Rattle.service_cell.specs.Standing.{Standing};
ghost use Rattle.service_cell.specs.Steps.{IsSpeaking};
ghost use Rattle.service_cell.specs.Dialogs.{Dialogs, EndsAs, Talks};

use crate::answer::{Advanced, Begun, Spoken};
use crate::cell::Cell;
use crate::columns::{Columns, Hears};
use okws_base::items::Items;
use okws_outer::stream::Link;

/// What `dialog` calls its request.
const REQUEST: u32 = 0;

impl<L: Link> Cell<L> {
    /// Lends the link to the columns, whose worker may then ask in the name of the incarnation to whose
    /// child it leads.
    pub fn lend<H: Hears<L>>(&mut self, columns: &mut H)
        requires there { incarnation self.old.past ≢ 0 }
        ensures cell { self.new ≡ self.old }
        ensures may { (wire : Wire) × (self.old.link ≡ Some wire) × ((s k : ℕ) → wire.whose ≡ Some (child_named s k) → H.may_ask columns.new s k) }
        ensures seen { H.seen columns.new ≡ H.seen columns.old }
        ensures board { KeepsBoard H.asker H.shows H.token_seed H.spare H.may_ask columns.old columns.new }
    {
        match &mut self.wire {
            Some(link) => columns.hear(link),
            None => unreachable!(),
        }
    }

    /// A whole dialog with the wanted incarnation: begins it, says to the columns that its Request was
    /// put, and answers each frame until the dialog ends, which is after 4,097 frames at most. Waits
    /// where its link does.
    pub fn dialog<C: Columns>(
        &mut self,
        head: Items<u8>,
        content: Items<u8>,
        wanted: u32,
        columns: &mut C,
    ) -> Spoken
        requires closed { self.old.open_dialog ≡ None }
        requires wanted { 0 < wanted }
        requires declared { self.old.service < length (C.asker columns.old).config.services }
        requires short { length head + length content + 9 ≤ LONGEST_FRAME }
        requires may { wanted ≡ incarnation self.old.past → C.may_ask columns.old self.old.service wanted }
        ensures dialogs { Dialogs (C.asker columns.old) (C.shows columns.new self.old.service) head content wanted self.old (C.seen columns.old) result self.new (C.seen columns.new) }
        ensures board { KeepsBoard C.asker C.shows C.token_seed C.spare C.may_ask columns.old columns.new }
    {
        match self.begin(REQUEST, head, content, wanted, columns) {
            Begun::Started => self.converse(columns),
            Begun::Missed { wanted, is } => Spoken::Missed { wanted, is },
            Begun::Superseded { incarnation, shown } => Spoken::Superseded { incarnation, shown },
            Begun::Crashed(cause) => Spoken::Crashed(cause),
            Begun::NoMemory => Spoken::NoMemory,
        }
    }

    /// Goes on with the open dialog, whose Request was just put, until it ends.
    fn converse<C: Columns>(&mut self, columns: &mut C) -> Spoken
        requires speaking { IsSpeaking (C.asker columns.old).worker self.old.open_dialog }
        requires declared { self.old.service < length (C.asker columns.old).config.services }
        requires may { C.may_ask columns.old self.old.service (incarnation self.old.past) }
        ensures ends { (n : ℕ) (head content : List ℕ) (c : Standing) (J : Seen) → Talks (C.asker columns.old) n head content c J self.old (C.seen columns.old) → EndsAs (C.asker columns.old) (C.shows columns.new self.old.service) head content c J result self.new (C.seen columns.new) }
        ensures board { KeepsBoard C.asker C.shows C.token_seed C.spare C.may_ask columns.old columns.new }
    {
        columns.requested(self.service);
        'frames: loop {
            match self.advance(columns) {
                Advanced::Goes => {}
                Advanced::Reply => return Spoken::Reply,
                Advanced::Superseded { incarnation, shown } => {
                    return Spoken::Superseded { incarnation, shown };
                }
                Advanced::Crashed(cause) => return Spoken::Crashed(cause),
            }
        }
    }
}
