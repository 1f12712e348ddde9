//! The canonical spelling of tokens.

ghost use Rattle.std.specs.Prelude.{◌≡◌, ◌++◌, IfOk, OnOk, true};
ghost use Rattle.query_syntax.specs.Spelling.{fixed_text, doubled, value_text, token_text, opens, closes, joined};

use crate::token::{Fixed, Token};
use okws_base::value::Value;
use plain_text::hexadecimal::push_hex;
use std::alloc::{AllocError, Global};

#[tactic(auto, unfolding(crate::specs::Spelling::fixed_text))]
fn fixed_bytes(fixed: Fixed) -> &'static [u8]
    ensures { result.now ≡ fixed_text fixed }
{
    match fixed {
        Fixed::Select => b"SELECT",
        Fixed::From => b"FROM",
        Fixed::Where => b"WHERE",
        Fixed::And => b"AND",
        Fixed::Order => b"ORDER",
        Fixed::By => b"BY",
        Fixed::Limit => b"LIMIT",
        Fixed::Insert => b"INSERT",
        Fixed::Into => b"INTO",
        Fixed::Values => b"VALUES",
        Fixed::Update => b"UPDATE",
        Fixed::Set => b"SET",
        Fixed::Delete => b"DELETE",
        Fixed::Int => b"INT",
        Fixed::Text => b"TEXT",
        Fixed::Bytes => b"BYTES",
        Fixed::Key => b"KEY",
        Fixed::Open => b"(",
        Fixed::Close => b")",
        Fixed::Comma => b",",
        Fixed::Dot => b".",
        Fixed::Equal => b"=",
        Fixed::Differs => b"<>",
        Fixed::Below => b"<",
        Fixed::AtMost => b"<=",
        Fixed::Above => b">",
        Fixed::AtLeast => b">=",
        Fixed::End => b"",
    }
}

fn put_doubled(out: &mut Vec<u8>, text: &[u8]) -> Result<(), AllocError>
    ensures { OnOk result (out.new.items ≡ out.old.items ++ doubled text.now) }
{
    for i in 0..text.len() {
        if text[i] == b'\'' {
            out.push(b'\'')?;
        }
        out.push(text[i])?;
    }
    Ok(())
}

fn put_value(alloc: Global, out: &mut Vec<u8>, value: &Value) -> Result<(), AllocError>
    ensures { OnOk result (out.new.items ≡ out.old.items ++ value_text value.now) }
{
    match value {
        Value::Int(n) => {
            let digits = format!(in alloc; "{n}")?;
            out.extend_from_slice(digits.as_bytes())?;
        }
        Value::Text(text) => {
            out.push(b'\'')?;
            put_doubled(out, text.as_bytes())?;
            out.push(b'\'')?;
        }
        Value::Bytes(bytes) => {
            out.extend_from_slice(b"x'")?;
            push_hex(out, bytes.as_slice())?;
            out.push(b'\'')?;
        }
    }
    Ok(())
}

fn put_token(alloc: Global, out: &mut Vec<u8>, token: &Token) -> Result<(), AllocError>
    ensures { OnOk result (out.new.items ≡ out.old.items ++ token_text token.now) }
{
    match token {
        Token::Fixed(fixed) => out.extend_from_slice(fixed_bytes(*fixed))?,
        Token::Word(word) => out.extend_from_slice(word.as_slice())?,
        Token::Parameter(number) => {
            let digits = format!(in alloc; "{number}")?;
            out.push(b'?')?;
            out.extend_from_slice(digits.as_bytes())?;
        }
        Token::Literal(value) => put_value(alloc, out, value)?,
    }
    Ok(())
}

fn is_open(token: &Token) -> bool
    ensures { result ≡ opens token.now }
{
    match token {
        Token::Fixed(fixed) => fixed.is(Fixed::Open) || fixed.is(Fixed::Dot),
        Token::Word(_) => false,
        Token::Parameter(_) => false,
        Token::Literal(_) => false,
    }
}

fn is_close(token: &Token) -> bool
    ensures { result ≡ closes token.now }
{
    match token {
        Token::Fixed(fixed) => {
            fixed.is(Fixed::Close) || (fixed.is(Fixed::Comma) || fixed.is(Fixed::Dot))
        }
        Token::Word(_) => false,
        Token::Parameter(_) => false,
        Token::Literal(_) => false,
    }
}

/// The canonical text of tokens.
pub fn spelled(alloc: Global, tokens: &[Token]) -> Result<Vec<u8>, AllocError>
    ensures { IfOk result (λ text. text.items ≡ joined true tokens.now) }
{
    let mut out = Vec::new(alloc);
    let mut is_tight = true;
    for i in 0..tokens.len() {
        if !(is_tight || is_close(&tokens[i])) {
            out.push(b' ')?;
        }
        put_token(alloc, &mut out, &tokens[i])?;
        is_tight = is_open(&tokens[i]);
    }
    Ok(out)
}
