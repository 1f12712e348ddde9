//! From a text to its tokens.

ghost use Rattle.std.specs.Prelude.{◌≡◌, ◌≤◌, ◌<◌, ℕ, List, ◌∷◌, option_map, if◌then◌else◌, ◌-◌, ◌^◌, min, length, IfOk, IfSome, IsTrue, MatchOption, Some, None, Option, OnOk};
ghost use Rattle.std.specs.List.{prefix_len};
ghost use Rattle.std.specs.Str.{is_utf8};
ghost use Rattle.okws_base.specs.Names.{is_first_byte, is_word_byte};
ghost use Rattle.query_syntax.specs.Answers.{Gives};
ghost use Rattle.query_syntax.specs.Tokens.{keyword, clause_keyword, action_keyword, column_keyword, word_at, positive_at, negative_at, parameter_at, quoted, text_at, hexadecimal, bytes_at, begins_bytes, word_or_bytes_at, negated, sign_at, below_at, above_at, token_at, tokens, is_x};

use crate::error::{CompileError, Refusal, TextRule};
use crate::token::{Fixed, Placed, Token};
use okws_base::items::Items;
use okws_base::name::are_same_word;
use okws_base::value::{Text, Value};
use plain_text::decimals::{capped_decimal, leading_digits};
use plain_text::hexadecimal::hex_value_of;
use plain_text::words::is_blank_byte;
use std::alloc::{AllocError, Global};

fn is_word_part(byte: u8) -> bool
    ensures { result ≡ is_word_byte byte }
{
    byte.is_ascii_alphanumeric() || byte == b'_'
}

fn begins_word(byte: u8) -> bool
    ensures { result ≡ is_first_byte byte }
{
    byte.is_ascii_alphabetic() || byte == b'_'
}

/// How many bytes of the front are letters, digits or `_`.
fn word_len(bytes: &[u8]) -> usize
    ensures is { result ≡ prefix_len is_word_byte bytes.now }
    ensures within { result ≤ length bytes.now }
{
    for i in 0..bytes.len() {
        if !is_word_part(bytes[i]) {
            return i;
        }
    }
    bytes.len()
}

fn clause_keyword_of(word: &[u8]) -> Option<Fixed>
    ensures { result ≡ clause_keyword word.now }
{
    if are_same_word(word, b"FROM") {
        Some(Fixed::From)
    } else if are_same_word(word, b"WHERE") {
        Some(Fixed::Where)
    } else if are_same_word(word, b"AND") {
        Some(Fixed::And)
    } else if are_same_word(word, b"ORDER") {
        Some(Fixed::Order)
    } else if are_same_word(word, b"BY") {
        Some(Fixed::By)
    } else if are_same_word(word, b"LIMIT") {
        Some(Fixed::Limit)
    } else if are_same_word(word, b"INTO") {
        Some(Fixed::Into)
    } else if are_same_word(word, b"VALUES") {
        Some(Fixed::Values)
    } else if are_same_word(word, b"SET") {
        Some(Fixed::Set)
    } else {
        None
    }
}

fn action_keyword_of(word: &[u8]) -> Option<Fixed>
    ensures { result ≡ action_keyword word.now }
{
    if are_same_word(word, b"SELECT") {
        Some(Fixed::Select)
    } else if are_same_word(word, b"INSERT") {
        Some(Fixed::Insert)
    } else if are_same_word(word, b"UPDATE") {
        Some(Fixed::Update)
    } else if are_same_word(word, b"DELETE") {
        Some(Fixed::Delete)
    } else {
        None
    }
}

fn column_keyword_of(word: &[u8]) -> Option<Fixed>
    ensures { result ≡ column_keyword word.now }
{
    if are_same_word(word, b"INT") {
        Some(Fixed::Int)
    } else if are_same_word(word, b"TEXT") {
        Some(Fixed::Text)
    } else if are_same_word(word, b"BYTES") {
        Some(Fixed::Bytes)
    } else if are_same_word(word, b"KEY") {
        Some(Fixed::Key)
    } else {
        None
    }
}

/// The keyword that the word is, in any ASCII case.
#[tactic(auto, unfolding(crate::specs::Tokens::keyword))]
fn keyword_of(word: &[u8]) -> Option<Fixed>
    ensures { result ≡ keyword word.now }
{
    if let Some(found) = clause_keyword_of(word) {
        return Some(found);
    }
    if let Some(found) = action_keyword_of(word) {
        return Some(found);
    }
    column_keyword_of(word)
}

/// A token and its length in bytes; None where a token is malformed.
type Found = Option<(Token, usize)>;

fn word_of(alloc: Global, bytes: &[u8]) -> Result<Found, AllocError>
    ensures { IfOk result (λ found. found ≡ word_at bytes.now) }
{
    let len = word_len(bytes);
    let word = &bytes[..len];
    match keyword_of(word) {
        Some(keyword) => Ok(Some((Token::Fixed(keyword), len))),
        None => {
            let word = Items::of(Vec::from_slice(alloc, word)?);
            Ok(Some((Token::Word(word), len)))
        }
    }
}

fn int_token(number: i64) -> Token
    ensures { result ≡ Token.Literal (Value.Int number) }
{
    Token::Literal(Value::Int(number))
}

fn positive_of(bytes: &[u8]) -> Found
    ensures { result ≡ positive_at bytes.now }
{
    let digits = leading_digits(bytes);
    let number = capped_decimal(digits);
    if number <= i64::MAX as u64 {
        Some((int_token(number as i64), digits.len()))
    } else {
        None
    }
}

/// The number below 0 that is so far from it.
fn negated_number(number: u64) -> i64
    requires { number ≤ 2 ^ 63 }
    ensures { result ≡ negated number }
{
    if number == 0 {
        0
    } else {
        -1 - (number - 1) as i64
    }
}

fn negative_of(bytes: &[u8]) -> Found
    ensures { result ≡ negative_at bytes.now }
{
    let digits = leading_digits(bytes);
    let number = capped_decimal(digits);
    if digits.len() == 0 || number > 1 << 63 {
        return None;
    }
    Some((int_token(negated_number(number)), 1 + digits.len()))
}

fn parameter_of(bytes: &[u8]) -> Found
    ensures { result ≡ parameter_at bytes.now }
{
    let digits = leading_digits(bytes);
    if digits.len() == 0 {
        return None;
    }
    let number = capped_decimal(digits);
    Some((Token::Parameter(number), 1 + digits.len()))
}

/// The content of a text behind its first quote, and how many bytes it takes with its last one.
fn quoted_of(alloc: Global, bytes: &[u8]) -> Result<Option<(Vec<u8>, usize)>, AllocError>
    ensures is { IfOk result (λ found. option_map (λ x. (x.0.items, x.1)) found ≡ quoted bytes.now) }
    ensures within { IfOk result (λ found. IfSome found (λ x. x.1 ≤ length bytes.now)) }
{
    let mut content = Vec::new(alloc);
    let mut is_odd = false;
    for i in 0..bytes.len() {
        if bytes[i] == b'\'' {
            if is_odd {
                content.push(b'\'')?;
            }
            is_odd = !is_odd;
        } else if is_odd {
            return Ok(Some((content, i)));
        } else {
            content.push(bytes[i])?;
        }
    }
    if is_odd {
        return Ok(Some((content, bytes.len())));
    }
    Ok(None)
}

/// The text of this content, where it is UTF-8.
fn text_token(content: Vec<u8>) -> Option<Token>
    ensures { result ≡ (if is_utf8 content.items then Some (Token.Literal (Value.Text content.items)) else None) }
{
    match String::from_utf8(content) {
        Err(_) => None,
        Ok(text) => Some(Token::Literal(Value::Text(Text::of(text)))),
    }
}

fn text_of(alloc: Global, bytes: &[u8]) -> Result<Found, AllocError>
    ensures { IfOk result (λ found. found ≡ text_at bytes.now) }
{
    match quoted_of(alloc, bytes)? {
        None => Ok(None),
        Some((content, taken)) => match text_token(content) {
            None => Ok(None),
            Some(token) => Ok(Some((token, 1 + taken))),
        },
    }
}

/// The bytes behind an `x'`, and how many bytes of the text they take with their quote.
fn hexadecimal_of(alloc: Global, bytes: &[u8]) -> Result<Option<(Vec<u8>, usize)>, AllocError>
    ensures is { IfOk result (λ found. option_map (λ x. (x.0.items, x.1)) found ≡ hexadecimal bytes.now) }
    ensures within { IfOk result (λ found. IfSome found (λ x. x.1 ≤ length bytes.now)) }
{
    let mut content = Vec::new(alloc);
    let mut first = None;
    for i in 0..bytes.len() {
        if first.is_none() && bytes[i] == b'\'' {
            return Ok(Some((content, i + 1)));
        }
        let Some(digit) = hex_value_of(bytes[i]) else {
            return Ok(None);
        };
        match first {
            None => first = Some(digit),
            Some(high) => {
                content.push(high * 16 + digit)?;
                first = None;
            }
        }
    }
    Ok(None)
}

fn bytes_of(alloc: Global, bytes: &[u8]) -> Result<Found, AllocError>
    ensures { IfOk result (λ found. found ≡ bytes_at bytes.now) }
{
    match hexadecimal_of(alloc, bytes)? {
        None => Ok(None),
        Some((content, taken)) => Ok(Some((
            Token::Literal(Value::Bytes(Items::of(content))),
            2 + taken,
        ))),
    }
}

fn sign(fixed: Fixed, len: usize) -> Found
    ensures { result ≡ Some (Token.Fixed fixed, len) }
{
    Some((Token::Fixed(fixed), len))
}

fn below_of(more: &[u8]) -> Found
    ensures { result ≡ below_at more.now }
{
    match more {
        [b'>', ..] => sign(Fixed::Differs, 2),
        [b'=', ..] => sign(Fixed::AtMost, 2),
        _ => sign(Fixed::Below, 1),
    }
}

fn above_of(more: &[u8]) -> Found
    ensures { result ≡ above_at more.now }
{
    match more {
        [b'=', ..] => sign(Fixed::AtLeast, 2),
        _ => sign(Fixed::Above, 1),
    }
}

fn sign_of(first: u8, more: &[u8]) -> Found
    ensures { result ≡ sign_at first more.now }
{
    match first {
        b'(' => sign(Fixed::Open, 1),
        b')' => sign(Fixed::Close, 1),
        b',' => sign(Fixed::Comma, 1),
        b'.' => sign(Fixed::Dot, 1),
        b'=' => sign(Fixed::Equal, 1),
        b'<' => below_of(more),
        b'>' => above_of(more),
        _ => None,
    }
}

fn begins_bytes_literal(bytes: &[u8]) -> bool
    ensures is { result ≡ begins_bytes bytes.now }
    ensures long { IsTrue result → 2 ≤ length bytes.now }
{
    bytes.len() >= 2 && (bytes[0] == b'x' || bytes[0] == b'X') && bytes[1] == b'\''
}

fn word_or_bytes_of(alloc: Global, bytes: &[u8]) -> Result<Found, AllocError>
    ensures { IfOk result (λ found. found ≡ word_or_bytes_at bytes.now) }
{
    if begins_bytes_literal(bytes) {
        bytes_of(alloc, &bytes[2..])
    } else {
        word_of(alloc, bytes)
    }
}

/// The token that begins the bytes, with its length.
#[tactic(auto, unfolding(crate::specs::Tokens::token_at))]
fn token_of(alloc: Global, bytes: &[u8]) -> Result<Found, AllocError>
    ensures { IfOk result (λ found. found ≡ token_at bytes.now) }
{
    match bytes {
        [] => Ok(None),
        [first, rest @ ..] => {
            if begins_word(*first) {
                word_or_bytes_of(alloc, bytes)
            } else if first.is_ascii_digit() {
                Ok(positive_of(bytes))
            } else if *first == b'-' {
                Ok(negative_of(rest))
            } else if *first == b'?' {
                Ok(parameter_of(rest))
            } else if *first == b'\'' {
                text_of(alloc, rest)
            } else {
                Ok(sign_of(*first, rest))
            }
        }
    }
}

fn refused(at: usize) -> CompileError
    ensures { result ≡ CompileError.TextRefused (record { at = at; rule = TextRule.BadToken }) }
{
    CompileError::TextRefused(Refusal {
        at,
        rule: TextRule::BadToken,
    })
}

/// The tokens of a text with the end behind them, or its first place where no token begins.
pub fn tokens_of(alloc: Global, text: &[u8]) -> Result<Vec<Placed>, CompileError>
    ensures { Gives (λ v. v.items) result (tokens text.now) }
{
    let mut out = Vec::new(alloc);
    // bytes that are left of the last token
    let mut left = 0;
    for at in 0..text.len() {
        if left > 0 {
            left -= 1;
            continue;
        }
        if is_blank_byte(text[at]) {
            continue;
        }
        match token_of(alloc, &text[at..])? {
            None => return Err(refused(at)),
            Some((token, len)) => {
                out.push(Placed { at, token })?;
                left = len.saturating_sub(1);
            }
        }
    }
    let at = text.len();
    let token = Token::Fixed(Fixed::End);
    out.push(Placed { at, token })?;
    Ok(out)
}
