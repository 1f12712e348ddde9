//! Why a configuration is refused.

ghost use Rattle.std.specs.Prelude.{◌≡◌};
ghost use Rattle.config_reader.specs.RuleNumber.{rule_number};
ghost use Rattle.config_reader.specs.declared.error.ConfigError.TheVariants as config;
ghost use Rattle.config_reader.specs.declared.error.LineError.TheVariants as line;

use std::alloc::{AllocError, AllocFailed};

/// The rules of configurations, numbered from 1 in this order. Each presupposes that no lower one
/// is broken.
#[derive(Clone, Copy)]
pub enum ConfigRule {
    /// Line 1 isn't the words `okws` and `1`.
    FirstLine,
    /// The line has over 65,536 bytes.
    LineTooLong,
    /// The line isn't UTF-8, or has a byte below 32 other than tab, or 127.
    BadBytes,
    /// The first word is no directive.
    UnknownDirective,
    /// There are too few or too many words; in `table`, no column or a column without its TYPE.
    WordCount,
    /// A word in the place of a name or an identifier isn't one.
    BadName,
    /// A word in the place of a number isn't one, or is above its limit.
    BadNumber,
    /// A word in the place of a TYPE is none.
    BadKind,
    /// A word in the place of a path isn't one.
    BadPath,
    /// The rest of a `row` isn't a list of literals.
    BadLiteral,
    /// A name, the table of a `row` or a granted query isn't declared above.
    Undeclared,
    /// What the line declares stands above, or twice in the line.
    Taken,
    /// KEY stands at two columns.
    TwoKeys,
    /// The values of a `row` don't fit the columns, or the KEY value is taken.
    RowMismatch,
    /// The text of a `query` doesn't compile.
    QueryRefused,
    /// A limit is passed.
    TooMany,
}

impl ConfigRule {
    /// The rule's number, 1 to 16.
    pub fn number(self) -> u8
        ensures { result ≡ rule_number self }
    {
        match self {
            ConfigRule::FirstLine => 1,
            ConfigRule::LineTooLong => 2,
            ConfigRule::BadBytes => 3,
            ConfigRule::UnknownDirective => 4,
            ConfigRule::WordCount => 5,
            ConfigRule::BadName => 6,
            ConfigRule::BadNumber => 7,
            ConfigRule::BadKind => 8,
            ConfigRule::BadPath => 9,
            ConfigRule::BadLiteral => 10,
            ConfigRule::Undeclared => 11,
            ConfigRule::Taken => 12,
            ConfigRule::TwoKeys => 13,
            ConfigRule::RowMismatch => 14,
            ConfigRule::QueryRefused => 15,
            ConfigRule::TooMany => 16,
        }
    }
}

/// The first broken line, counted from 1, and the lowest rule that it breaks. A file that is too
/// long is refused as line 0.
#[derive(Clone, Copy)]
pub struct Refusal {
    pub line: u32,
    pub rule: ConfigRule,
}

/// Why a file gave no configuration.
#[derive(Drop)]
pub enum ConfigError {
    Refused(Refusal),
    /// Memory was refused.
    NoMemory,
}

impl From<AllocError> for ConfigError {
    ghost from_gives = { λ _ e. e ≡ config.NoMemory };

    fn from(_e: AllocError) -> ConfigError {
        ConfigError::NoMemory
    }
}

impl<T: Drop> From<AllocFailed<T>> for ConfigError {
    ghost from_gives = { λ _ e. e ≡ config.NoMemory };

    fn from(_e: AllocFailed<T>) -> ConfigError {
        ConfigError::NoMemory
    }
}

/// Why a line declared nothing.
#[derive(Drop)]
pub enum LineError {
    /// The lowest rule that the line breaks.
    Broken(ConfigRule),
    /// Memory was refused.
    NoMemory,
}

impl From<AllocError> for LineError {
    ghost from_gives = { λ _ e. e ≡ line.NoMemory };

    fn from(_e: AllocError) -> LineError {
        LineError::NoMemory
    }
}

impl<T: Drop> From<AllocFailed<T>> for LineError {
    ghost from_gives = { λ _ e. e ≡ line.NoMemory };

    fn from(_e: AllocFailed<T>) -> LineError {
        LineError::NoMemory
    }
}

impl From<ConfigRule> for LineError {
    ghost from_gives = { λ rule e. e ≡ line.Broken rule };

    fn from(rule: ConfigRule) -> LineError {
        LineError::Broken(rule)
    }
}
