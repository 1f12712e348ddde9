//! What holds of the canonical texts of all statements.

ghost use Rattle.statement_core.specs.Recompiled.{StatementsCompileAgain};

/// Each statement that keeps the rules is compiled from its canonical text.
pub fn statements_compile_again()
    ensures { StatementsCompileAgain }
{}
