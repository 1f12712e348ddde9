//! What holds of all statements.

ghost use Rattle.statement_core.specs.Recompiled.{CompiledKeepsRules};

/// What is compiled keeps the rules.
pub fn compiled_statements_keep_rules()
    ensures { CompiledKeepsRules }
{}
