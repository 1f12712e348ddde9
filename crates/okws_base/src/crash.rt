//! The causes by which a dialog ends its incarnation.

ghost use Rattle.std.specs.Prelude.{◌≡◌};
ghost use Rattle.okws_base.specs.Crash.{cause_number};

/// Why an incarnation was ended in a dialog.
#[derive(Clone, Copy, PartialEq, Eq)]
pub enum Cause {
    /// The service's bytes were no frame that a service sends.
    BadFrame,
    /// The service's bytes ended between frames.
    Ended,
    /// The link failed.
    LinkFault,
    /// The service sent more frames in one dialog than are answered.
    FrameLimit,
    /// Memory was refused after the dialog had begun.
    Starved,
}

impl Cause {
    /// The cause's number, from 1.
    pub fn number(self) -> u8
        ensures { result ≡ cause_number self }
    {
        match self {
            Cause::BadFrame => 1,
            Cause::Ended => 2,
            Cause::LinkFault => 3,
            Cause::FrameLimit => 4,
            Cause::Starved => 5,
        }
    }
}
