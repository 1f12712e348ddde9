//! The rules of scripts.

ghost use Rattle.std.specs.Prelude.{◌≡◌};
ghost use Rattle.play_script.specs.Rule.{script_rule_number};

/// The rule that a script breaks, the lowest one at its first broken line.
#[derive(Clone, Copy)]
pub enum ScriptRule {
    /// The line isn't in the grammar.
    BadLine,
    /// A name isn't declared.
    Undeclared,
    /// `install`, `boot`: no incarnation has begun.
    NotBegun,
    /// `install`, `boot`, `up`: the incarnation, or a later one, was installed, was booted or is up.
    AlreadyDone,
    /// `dialog`: there is no such request, it goes to nobody, or its dialog began before.
    NoSuchRequest,
    /// `dialog`: one is open at the cell.
    CellBusy,
    /// `up`, `bytes`, `end`: the cell is empty, or the service's bytes have ended.
    NoCell,
    /// All incarnations or editions are spent.
    Spent,
    /// `publish`: the content is longer than an edition may be. Line 0: so is the script.
    TooLong,
}

impl ScriptRule {
    /// The number by which a refusal names the rule, 1 to 9.
    pub fn number(self) -> u8
        ensures { result ≡ script_rule_number self }
    {
        match self {
            ScriptRule::BadLine => 1,
            ScriptRule::Undeclared => 2,
            ScriptRule::NotBegun => 3,
            ScriptRule::AlreadyDone => 4,
            ScriptRule::NoSuchRequest => 5,
            ScriptRule::CellBusy => 6,
            ScriptRule::NoCell => 7,
            ScriptRule::Spent => 8,
            ScriptRule::TooLong => 9,
        }
    }
}
