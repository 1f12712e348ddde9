//! The literals of a `row` line.

ghost use Rattle.std.specs.Prelude.{◌≡◌, IfOk, option_map};
ghost use Rattle.config_syntax.specs.Literals.{is_apart, values_of, literals};

use okws_base::items::Exact;
use okws_base::value::Value;
use plain_text::words::is_blank_byte;
use statement_core::{CompileError, Fixed, Placed, Token, tokens_of};
use std::alloc::{AllocError, Global};

/// Whether a place is the text's start, or stands behind a blank.
fn stands_apart(text: &[u8], at: usize) -> bool
    ensures { result ≡ is_apart text.now at }
{
    if at == 0 {
        return true;
    }
    match text.get(at - 1) {
        None => false,
        Some(byte) => is_blank_byte(*byte),
    }
}

/// The values of tokens that are literals and stand apart.
fn values_in(
    alloc: Global,
    text: &[u8],
    tokens: &[Placed],
) -> Result<Option<Vec<Value>>, AllocError>
    ensures { IfOk result (λ found. option_map (λ v. v.items) found ≡ values_of text.now tokens.now) }
{
    let mut out = Vec::new(alloc);
    for placed in tokens {
        match &placed.token {
            Token::Literal(value) => {
                if !stands_apart(text, placed.at) {
                    return Ok(None);
                }
                out.push(value.copy(alloc)?)?;
            }
            Token::Fixed(fixed) => {
                if !fixed.is(Fixed::End) {
                    return Ok(None);
                }
            }
            Token::Word(_) => return Ok(None),
            Token::Parameter(_) => return Ok(None),
        }
    }
    Ok(Some(out))
}

/// The literals that a text lists, separated by blanks; None where it is no such list.
#[tactic(auto, unfolding(crate::specs::Literals::literals))]
pub fn literals_of(alloc: Global, text: &[u8]) -> Result<Option<Vec<Value>>, AllocError>
    ensures { IfOk result (λ found. option_map (λ v. v.items) found ≡ literals text.now) }
{
    match tokens_of(alloc, text) {
        Err(CompileError::NoMemory) => Err(AllocError),
        Err(CompileError::TextRefused(_)) => Ok(None),
        Ok(tokens) => values_in(alloc, text, &tokens),
    }
}
