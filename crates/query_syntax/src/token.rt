//! Tokens of query texts.

ghost use Rattle.std.specs.Prelude.{◌≡◌};
ghost use Rattle.query_syntax.specs.Tokens.{same_fixed};

use okws_base::items::Items;
use okws_base::value::Value;

/// A token that has one spelling: a keyword, or a sign. `End` stands behind the last token.
#[derive(Clone, Copy)]
pub enum Fixed {
    Select,
    From,
    Where,
    And,
    Order,
    By,
    Limit,
    Insert,
    Into,
    Values,
    Update,
    Set,
    Delete,
    Int,
    Text,
    Bytes,
    Key,
    Open,
    Close,
    Comma,
    Dot,
    Equal,
    Differs,
    Below,
    AtMost,
    Above,
    AtLeast,
    End,
}

impl Fixed {
    pub fn is(self, other: Fixed) -> bool
        ensures { result ≡ same_fixed self other }
    {
        self == other
    }
}

/// A token. A parameter's number that 64 bits can't hold is the greatest that they can.
#[derive(Drop)]
pub enum Token {
    Fixed(Fixed),
    Word(Items<u8>),
    Parameter(u64),
    Literal(Value),
}

/// A token, and the place of its first byte in the text.
#[derive(Drop)]
pub struct Placed {
    pub at: usize,
    pub token: Token,
}
