//! What stands at the front of tokens.

ghost use Rattle.std.specs.Prelude.{◌≡◌, Option, Some, None};
ghost use Rattle.query_syntax.specs.Answers.{Gives};
ghost use Rattle.query_syntax.specs.Grammar.{is_token, begins, rest_of, unexpected, place_of, fixed_at, is_word_of, says, said_at, name_at, value_at, comparison_of, comparison_in, comparison_at, limit_of, limit_in, number_at};

use crate::error::{CompileError, Refusal, TextRule};
use crate::syntax::{Given, Named, Written};
use crate::token::{Fixed, Placed, Token};
use okws_base::items::Exact;
use okws_base::limit::GREATEST_LIMIT;
use okws_base::name::are_same_word;
use okws_base::value::Value;
use okws_plan::statement::Comparison;
use std::alloc::Global;

/// What was read from the front of the tokens, and the tokens after it.
pub type Read<'a, T> = Result<(T, &'a [Placed]), CompileError>;

pub fn refuse(at: usize) -> CompileError
    ensures { result ≡ CompileError.TextRefused (unexpected at) }
{
    CompileError::TextRefused(Refusal {
        at,
        rule: TextRule::Expected,
    })
}

fn is_fixed(fixed: Fixed, token: &Token) -> bool
    ensures { result ≡ is_token fixed token.now }
{
    match token {
        Token::Fixed(found) => found.is(fixed),
        Token::Word(_) => false,
        Token::Parameter(_) => false,
        Token::Literal(_) => false,
    }
}

pub fn starts(fixed: Fixed, tokens: &[Placed]) -> bool
    ensures { result ≡ begins fixed tokens.now }
{
    match tokens {
        [] => false,
        [first, ..] => is_fixed(fixed, &first.token),
    }
}

pub fn after_first(tokens: &[Placed]) -> &[Placed]
    ensures { result.now ≡ rest_of tokens.now }
{
    match tokens {
        [] => tokens,
        [_, more @ ..] => more,
    }
}

pub fn first_place(tokens: &[Placed]) -> usize
    ensures { result ≡ place_of tokens.now }
{
    match tokens {
        [] => 0,
        [first, ..] => first.at,
    }
}

pub fn fixed_of<'a>(fixed: Fixed, tokens: &'a [Placed]) -> Read<'a, usize>
    ensures { Gives (λ x. (x.0, x.1.now)) result (fixed_at fixed tokens.now) }
{
    if starts(fixed, tokens) {
        Ok((first_place(tokens), after_first(tokens)))
    } else {
        Err(refuse(first_place(tokens)))
    }
}

fn is_said(word: &[u8], token: &Token) -> bool
    ensures { result ≡ is_word_of word.now token.now }
{
    match token {
        Token::Word(found) => are_same_word(found.as_slice(), word),
        Token::Fixed(_) => false,
        Token::Parameter(_) => false,
        Token::Literal(_) => false,
    }
}

fn first_says(word: &[u8], tokens: &[Placed]) -> bool
    ensures { result ≡ says word.now tokens.now }
{
    match tokens {
        [] => false,
        [first, ..] => is_said(word, &first.token),
    }
}

pub fn said_of<'a>(word: &[u8], tokens: &'a [Placed]) -> Read<'a, usize>
    ensures { Gives (λ x. (x.0, x.1.now)) result (said_at word.now tokens.now) }
{
    if first_says(word, tokens) {
        Ok((first_place(tokens), after_first(tokens)))
    } else {
        Err(refuse(first_place(tokens)))
    }
}

pub fn name_of<'a>(alloc: Global, tokens: &'a [Placed]) -> Read<'a, Named>
    ensures { Gives (λ x. (x.0, x.1.now)) result (name_at tokens.now) }
{
    match tokens {
        [] => Err(refuse(0)),
        [first, more @ ..] => match &first.token {
            Token::Word(name) => {
                let name = name.copy(alloc)?;
                Ok((Named { at: first.at, name }, more))
            }
            Token::Fixed(_) => Err(refuse(first.at)),
            Token::Parameter(_) => Err(refuse(first.at)),
            Token::Literal(_) => Err(refuse(first.at)),
        },
    }
}

pub fn value_of<'a>(alloc: Global, tokens: &'a [Placed]) -> Read<'a, Given>
    ensures { Gives (λ x. (x.0, x.1.now)) result (value_at tokens.now) }
{
    match tokens {
        [] => Err(refuse(0)),
        [first, more @ ..] => {
            let at = first.at;
            match &first.token {
                Token::Parameter(number) => {
                    let value = Written::Parameter(*number);
                    Ok((Given { at, value }, more))
                }
                Token::Literal(literal) => {
                    let value = Written::Literal(literal.copy(alloc)?);
                    Ok((Given { at, value }, more))
                }
                Token::Fixed(_) => Err(refuse(at)),
                Token::Word(_) => Err(refuse(at)),
            }
        }
    }
}

fn comparison_by(fixed: Fixed) -> Option<Comparison>
    ensures { result ≡ comparison_of fixed }
{
    match fixed {
        Fixed::Equal => Some(Comparison::Equal),
        Fixed::Differs => Some(Comparison::Differs),
        Fixed::Below => Some(Comparison::Below),
        Fixed::AtMost => Some(Comparison::AtMost),
        Fixed::Above => Some(Comparison::Above),
        Fixed::AtLeast => Some(Comparison::AtLeast),
        _ => None,
    }
}

fn comparison_token(token: &Token) -> Option<Comparison>
    ensures { result ≡ comparison_in token.now }
{
    match token {
        Token::Fixed(fixed) => comparison_by(*fixed),
        Token::Word(_) => None,
        Token::Parameter(_) => None,
        Token::Literal(_) => None,
    }
}

pub fn comparison_read<'a>(tokens: &'a [Placed]) -> Read<'a, Comparison>
    ensures { Gives (λ x. (x.0, x.1.now)) result (comparison_at tokens.now) }
{
    match tokens {
        [] => Err(refuse(0)),
        [first, more @ ..] => match comparison_token(&first.token) {
            Some(comparison) => Ok((comparison, more)),
            None => Err(refuse(first.at)),
        },
    }
}

fn limit_value(value: &Value) -> Option<u32>
    ensures { result ≡ limit_of value.now }
{
    match value {
        Value::Int(n) => limit_number(*n),
        Value::Text(_) => None,
        Value::Bytes(_) => None,
    }
}

fn limit_number(n: i64) -> Option<u32>
    ensures { result ≡ limit_of (Value.Int n) }
{
    if n >= 0 && n <= i64::from(GREATEST_LIMIT) {
        Some(n as u32)
    } else {
        None
    }
}

fn limit_token(token: &Token) -> Option<u32>
    ensures { result ≡ limit_in token.now }
{
    match token {
        Token::Literal(value) => limit_value(value),
        Token::Fixed(_) => None,
        Token::Word(_) => None,
        Token::Parameter(_) => None,
    }
}

pub fn number_of<'a>(tokens: &'a [Placed]) -> Read<'a, u32>
    ensures { Gives (λ x. (x.0, x.1.now)) result (number_at tokens.now) }
{
    match tokens {
        [] => Err(refuse(0)),
        [first, more @ ..] => match limit_token(&first.token) {
            Some(n) => Ok((n, more)),
            None => Err(refuse(first.at)),
        },
    }
}
