//! From texts to statements.

ghost use Rattle.std.specs.Prelude.{IfOk, IsTrue};
ghost use Rattle.okws_plan.specs.Rules.{keeps_rules};
ghost use Rattle.query_syntax.specs.Answers.{Gives};
ghost use Rattle.statement_core.specs.Compiled.{compiled};

use crate::resolver::resolve;
use okws_plan::configuration::Table;
use okws_plan::statement::Statement;
use query_syntax::error::CompileError;
use query_syntax::lexer::tokens_of;
use query_syntax::parser::parse;
use std::alloc::Global;

/// The statement that a text of the query language stands for at these tables of a proxy, or the
/// first rule that it breaks, and where. The statement keeps the rules for these tables. Takes
/// memory in line with the text's length.
pub fn compile(alloc: Global, tables: &[Table], text: &[u8]) -> Result<Statement, CompileError>
    ensures is { Gives (λ statement. statement) result (compiled tables.now text.now) }
    ensures kept { IfOk result (λ statement. IsTrue (keeps_rules tables.now statement)) }
{
    let tokens = tokens_of(alloc, text)?;
    let query = parse(alloc, &tokens)?;
    resolve(alloc, tables, text.len(), &query)
}
