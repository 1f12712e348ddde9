//! Why a text is refused.

ghost use Rattle.std.specs.Prelude.{◌≡◌};
ghost use Rattle.query_syntax.specs.RuleNumber.{rule_number};
ghost use Rattle.query_syntax.specs.declared.error.CompileError.TheVariants.{NoMemory};

use std::alloc::{AllocError, AllocFailed};

/// The rules of query texts, numbered from 1 in this order.
#[derive(Clone, Copy, Debug)]
pub enum TextRule {
    /// No token begins here, or a text, bytes or an integer is malformed or out of range.
    BadToken,
    /// The grammar allows no such token here, a LIMIT is out of range, or the text ends too early.
    Expected,
    /// The table isn't declared, or a column's is neither of the two that are joined.
    NoSuchTable,
    /// The table has no such column.
    NoSuchColumn,
    /// A literal's kind isn't its column's.
    KindMismatch,
    /// A parameter meets a second kind.
    ParameterKind,
    /// A parameter's number isn't 1 to 16, or one below the greatest doesn't stand in the text.
    ParameterGap,
    /// UPDATE sets a KEY column.
    KeySet,
    /// UPDATE sets a column twice.
    ColumnTwice,
    /// A 17th item of a SELECT list, or a 17th condition.
    TooManyParts,
    /// An INSERT's columns aren't the table's in their order, or its values are more or fewer.
    InsertColumns,
    /// The two columns of ON are of different kinds.
    JoinKinds,
    /// A table is joined to itself.
    SelfJoin,
    /// The two columns of ON are of one table.
    JoinSides,
}

impl TextRule {
    /// The rule's number, 1 to 14.
    pub fn number(self) -> u8
        ensures { result ≡ rule_number self }
    {
        match self {
            TextRule::BadToken => 1,
            TextRule::Expected => 2,
            TextRule::NoSuchTable => 3,
            TextRule::NoSuchColumn => 4,
            TextRule::KindMismatch => 5,
            TextRule::ParameterKind => 6,
            TextRule::ParameterGap => 7,
            TextRule::KeySet => 8,
            TextRule::ColumnTwice => 9,
            TextRule::TooManyParts => 10,
            TextRule::InsertColumns => 11,
            TextRule::JoinKinds => 12,
            TextRule::SelfJoin => 13,
            TextRule::JoinSides => 14,
        }
    }
}

/// A rule that a text breaks, and the byte, counted from 0, at which it does.
#[derive(Clone, Copy)]
pub struct Refusal {
    pub at: usize,
    pub rule: TextRule,
}

/// Why a text gave no statement.
#[derive(Drop)]
pub enum CompileError {
    TextRefused(Refusal),
    NoMemory,
}

impl From<AllocError> for CompileError {
    ghost from_gives = { λ _ e. e ≡ NoMemory };

    fn from(_e: AllocError) -> CompileError {
        CompileError::NoMemory
    }
}

impl<T: Drop> From<AllocFailed<T>> for CompileError {
    ghost from_gives = { λ _ e. e ≡ NoMemory };

    fn from(_e: AllocFailed<T>) -> CompileError {
        CompileError::NoMemory
    }
}
