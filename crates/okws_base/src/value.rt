//! Values, their kinds, and tokens.

ghost use Rattle.std.specs.Prelude.{◌≡◌, List, IfOk, string_bytes};
ghost use Rattle.okws_base.specs.Value.{value_eq, value_cmp, kind_of, same_token};

use crate::items::{Exact, Items};
use std::alloc::{AllocError, Global};
use std::cmp::Ordering;
use std::marker::Model;

/// A text of UTF-8, seen as its bytes.
pub struct Text {
    text: String,
}

impl Drop for Text {
    fn drop(self) {
        let Text { text } = self;
        drop(text);
    }
}

impl Model for Text {
    ghost use Rattle.std.specs.Prelude.{List, ℕ, string_bytes};

    ghost Value = { List ℕ };

    ghost view = { λ a. string_bytes a.text };
}

impl Text {
    pub fn of(text: String) -> Text
        ensures { result ≡ string_bytes text }
    {
        Text { text }
    }

    /// The text's bytes, which are UTF-8.
    pub fn as_bytes(&self) -> &[u8]
        ensures { result.now ≡ self.now }
    {
        self.text.as_bytes()
    }

    pub fn as_str(&self) -> &str
        ensures { result.now ≡ self.now }
    {
        self.text.as_str()
    }
}

impl Exact for Text {
    fn copy(&self, alloc: Global) -> Result<Text, AllocError> {
        Ok(Text {
            text: String::from_str(alloc, self.text.as_str())?,
        })
    }
}

impl PartialEq for Text {
    ghost use Rattle.std.specs.Cmp.Lexicographic.{pointwise};
    ghost use Rattle.std.specs.Prelude.{nat_eq};
    ghost use Rattle.std.specs.Cmp.Lexicographic.{lists_per};
    ghost use Rattle.std.specs.Cmp.{nat_eq_equiv, partial_equiv_from_equiv};

    ghost eq = { λ x y. pointwise nat_eq x y };

    ghost laws = { lists_per (partial_equiv_from_equiv nat_eq_equiv) };

    fn eq(&self, other: &Self) -> bool {
        self.text.as_str() == other.text.as_str()
    }
}

impl Eq for Text {
    ghost use Rattle.std.specs.Cmp.Lexicographic.{lists_equiv};
    ghost use Rattle.std.specs.Cmp.{nat_eq_equiv};

    ghost laws = { lists_equiv nat_eq_equiv };
}

/// A value of a row, or an argument of a query.
#[derive(PartialEq, Eq, Drop)]
pub enum Value {
    Int(i64),
    Text(Text),
    Bytes(Items<u8>),
}

/// The values of a row, in the order of the columns.
pub type Row = Items<Value>;

impl Exact for Value {
    fn copy(&self, alloc: Global) -> Result<Value, AllocError> {
        Ok(match self {
            Value::Int(n) => Value::Int(*n),
            Value::Text(text) => Value::Text(text.copy(alloc)?),
            Value::Bytes(bytes) => Value::Bytes(bytes.copy(alloc)?),
        })
    }
}

/// The type of a column or of a parameter.
#[derive(Clone, Copy)]
pub enum Kind {
    Int,
    Text,
    Bytes,
}

impl Exact for Kind {
    fn copy(&self, _alloc: Global) -> Result<Kind, AllocError> {
        Ok(*self)
    }
}

/// Twenty bytes that a service shows a proxy: 8 that name the service, the proxy and the
/// incarnation, and 12 that are drawn.
#[derive(Clone, Copy, PartialEq, Eq)]
pub struct Token {
    pub bytes: [u8; 20],
}

impl Token {
    /// Whether the tokens have the same bytes.
    pub fn same(&self, other: &Token) -> bool
        ensures { result ≡ same_token self.now other.now }
    {
        self.bytes == other.bytes
    }
}

impl Exact for Token {
    fn copy(&self, _alloc: Global) -> Result<Token, AllocError> {
        Ok(*self)
    }
}

impl Value {
    /// Whether the values have one kind and one content.
    pub fn same(&self, other: &Value) -> bool
        ensures { result ≡ value_eq self.now other.now }
    {
        *self == *other
    }

    pub fn kind(&self) -> Kind
        ensures { result ≡ kind_of self.now }
    {
        match self {
            Value::Int(_) => Kind::Int,
            Value::Text(_) => Kind::Text,
            Value::Bytes(_) => Kind::Bytes,
        }
    }

    /// How two values are ordered: INT as numbers, TEXT and BYTES by their bytes; values of two
    /// kinds, which no statement compares, by their kinds.
    pub fn compare(&self, other: &Value) -> Ordering
        ensures { result ≡ value_cmp self.now other.now }
    {
        match self {
            Value::Int(a) => match other {
                Value::Int(b) => a.cmp(b),
                Value::Text(_) => Ordering::Less,
                Value::Bytes(_) => Ordering::Less,
            },
            Value::Text(a) => match other {
                Value::Int(_) => Ordering::Greater,
                Value::Text(b) => a.as_bytes().cmp(b.as_bytes()),
                Value::Bytes(_) => Ordering::Less,
            },
            Value::Bytes(a) => match other {
                Value::Int(_) => Ordering::Greater,
                Value::Text(_) => Ordering::Greater,
                Value::Bytes(b) => a.as_slice().cmp(b.as_slice()),
            },
        }
    }
}
