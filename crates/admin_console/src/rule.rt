//! Why commands are refused.

ghost use Rattle.std.specs.Prelude.{◌≡◌};
ghost use Rattle.admin_console.specs.Orders.{rule_number};

/// The rules that a command may break, the lowest first.
#[derive(Clone, Copy, PartialEq, Eq)]
pub enum Rule {
    /// The line is no command, or longer than 256 bytes.
    NoCommand,
    /// The template or the service isn't declared.
    Undeclared,
    /// More than 262,144 bytes are to be published.
    TooLong,
    /// The input ended inside the bytes that are to be published.
    CutShort,
    /// The template has 1,000,000 editions.
    EditionsSpent,
    /// The service had 1,000,000 incarnations, and none is up.
    IncarnationsSpent,
}

impl Rule {
    /// The rule's number, from 1.
    pub fn number(self) -> u8
        ensures { result ≡ rule_number self }
    {
        match self {
            Rule::NoCommand => 1,
            Rule::Undeclared => 2,
            Rule::TooLong => 3,
            Rule::CutShort => 4,
            Rule::EditionsSpent => 5,
            Rule::IncarnationsSpent => 6,
        }
    }
}
