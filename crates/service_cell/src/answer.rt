//! What the calls of a cell answer.

use okws_base::crash::Cause;

/// What `boot` answers; one that isn't Booted hands the link back.
pub enum Booting<L> {
    /// The Boot frame was put, and the cell has the incarnation.
    Booted,
    /// The link failed.
    LinkFault(L),
    /// Memory was refused; nothing was put.
    NoMemory(L),
}

/// What `begin` answers.
#[derive(Clone, Copy, PartialEq, Eq)]
pub enum Begun {
    /// The pushes and the Request were put; a dialog is open.
    Started,
    /// Another incarnation is there than was wanted, or none, which is 0.
    Missed { wanted: u32, is: u32 },
    /// A greater incarnation was begun. No Drain was entered, and nothing was put.
    Superseded { incarnation: u32, shown: u32 },
    /// The dialog began and ended the incarnation.
    Crashed(Cause),
    /// Memory was refused; all is as before.
    NoMemory,
}

/// What `dialog` answers.
#[derive(Clone, Copy, PartialEq, Eq)]
pub enum Spoken {
    /// The service replied, which ended the dialog; its Reply is at hand (`last_dialog`).
    Reply,
    /// The dialog ended, and its incarnation with it.
    Crashed(Cause),
    /// Another incarnation is there than was wanted, or none, which is 0.
    Missed { wanted: u32, is: u32 },
    /// A greater incarnation was begun, before the dialog's Drain or later, which ended it.
    Superseded { incarnation: u32, shown: u32 },
    /// Memory was refused; all is as before.
    NoMemory,
}

/// What `advance` answers.
#[derive(Clone, Copy, PartialEq, Eq)]
pub enum Advanced {
    /// One frame was answered; the dialog is open.
    Goes,
    /// The service replied, which ended the dialog.
    Reply,
    /// A greater incarnation was begun, which ended the dialog.
    Superseded { incarnation: u32, shown: u32 },
    /// The dialog ended, and its incarnation with it.
    Crashed(Cause),
}
