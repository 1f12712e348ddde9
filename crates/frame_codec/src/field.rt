//! The fields of frames, read from the front of bytes.

ghost use Rattle.std.specs.Prelude.{◌≡◌, ◌==◌, ℕ, List, length, option_map, if◌then◌else◌, IfOk, IfErr, Some, None, true, false};
ghost use Rattle.std.specs.Int.{w16, w32, w64, cast_signed};
ghost use Rattle.std.specs.Str.{is_utf8};
ghost use Rattle.okws_base.specs.declared.value.Value.{Value};
ghost use Rattle.frame_codec.specs.declared.field.ReadError.TheVariants.{Bad, Memory};
ghost use Rattle.frame_codec.specs.Reading.{Finds, Gives, checked, fixed_at, byte_at, number_at, string_at, name_at, mapped, tagged_at, value_at};
ghost use Rattle.frame_codec.specs.Spelling.{is_reply_status, is_content_type, is_location};

use crate::kind::{BYTES, INT, TEXT};
use crate::reply::{is_content_type_of_reply, is_location_of_reply, is_status_of_reply};
use okws_base::items::Items;
use okws_base::value::{Text, Token, Value};
use std::alloc::{AllocError, AllocFailed, Global};

/// No such value stands there.
#[derive(Clone, Copy)]
pub(crate) struct Misread;

/// Why nothing could be read and kept.
#[derive(Clone, Copy)]
pub enum ReadError {
    /// No such value stands there.
    Bad,
    /// It stands there, but memory was refused.
    Memory,
}

impl From<Misread> for ReadError {
    ghost from_gives = { λ _ e. e ≡ Bad };

    fn from(_e: Misread) -> ReadError {
        ReadError::Bad
    }
}

impl From<AllocError> for ReadError {
    ghost from_gives = { λ _ e. e ≡ Memory };

    fn from(_e: AllocError) -> ReadError {
        ReadError::Memory
    }
}

impl<T: Drop> From<AllocFailed<T>> for ReadError {
    ghost from_gives = { λ _ e. e ≡ Memory };

    fn from(_e: AllocFailed<T>) -> ReadError {
        ReadError::Memory
    }
}

/// Nothing stands behind the fields.
pub(crate) fn ended(rest: &[u8]) -> Result<(), Misread>
    ensures { Finds (λ x. x) result (if length rest.now == 0 then Some tt else None) }
{
    if rest.is_empty() {
        Ok(())
    } else {
        Err(Misread)
    }
}

#[tactic(auto, unfolding(crate::specs::Reading::fixed_at))]
fn split_at(bytes: &[u8], n: usize) -> Result<(&[u8], &[u8]), Misread>
    ensures { Finds (λ x. (x.0.now, x.1.now)) result (fixed_at n bytes.now) }
{
    if bytes.len() < n {
        return Err(Misread);
    }
    Ok(bytes.split_at(n))
}

#[tactic(auto, unfolding(crate::specs::Reading::byte_at))]
pub(crate) fn u8_at(bytes: &[u8]) -> Result<(u8, &[u8]), Misread>
    ensures { Finds (λ x. (x.0, x.1.now)) result (byte_at bytes.now) }
{
    match bytes {
        [] => Err(Misread),
        [first, rest @ ..] => Ok((*first, rest)),
    }
}

#[tactic(auto, unfolding(crate::specs::Reading::number_at, crate::specs::Reading::fixed_at))]
pub(crate) fn u16_at(bytes: &[u8]) -> Result<(u16, &[u8]), Misread>
    ensures { Finds (λ x. (x.0, x.1.now)) result (number_at w16 bytes.now) }
{
    if bytes.len() < 2 {
        return Err(Misread);
    }
    let (front, rest) = bytes.split_at(2);
    Ok((u16::from_be_bytes([front[0], front[1]]), rest))
}

#[tactic(auto, unfolding(crate::specs::Reading::number_at, crate::specs::Reading::fixed_at))]
pub(crate) fn u32_at(bytes: &[u8]) -> Result<(u32, &[u8]), Misread>
    ensures { Finds (λ x. (x.0, x.1.now)) result (number_at w32 bytes.now) }
{
    if bytes.len() < 4 {
        return Err(Misread);
    }
    let (front, rest) = bytes.split_at(4);
    let number = u32::from_be_bytes([front[0], front[1], front[2], front[3]]);
    Ok((number, rest))
}

#[tactic(auto, unfolding(crate::specs::Reading::number_at, crate::specs::Reading::fixed_at))]
pub(crate) fn u64_at(bytes: &[u8]) -> Result<(u64, &[u8]), Misread>
    ensures { Finds (λ x. (x.0, x.1.now)) result (number_at w64 bytes.now) }
{
    if bytes.len() < 8 {
        return Err(Misread);
    }
    let (front, rest) = bytes.split_at(8);
    let number = u64::from_be_bytes([
        front[0], front[1], front[2], front[3], front[4], front[5], front[6], front[7],
    ]);
    Ok((number, rest))
}

#[tactic(auto, unfolding(crate::specs::Reading::number_at, crate::specs::Reading::fixed_at))]
fn i64_at(bytes: &[u8]) -> Result<(i64, &[u8]), Misread>
    ensures { Finds (λ x. (x.0, x.1.now)) result (mapped (cast_signed w64) (number_at w64) bytes.now) }
{
    if bytes.len() < 8 {
        return Err(Misread);
    }
    let (front, rest) = bytes.split_at(8);
    let number = i64::from_be_bytes([
        front[0], front[1], front[2], front[3], front[4], front[5], front[6], front[7],
    ]);
    Ok((number, rest))
}

#[tactic(auto, unfolding(crate::specs::Reading::string_at))]
pub(crate) fn string_slice(bytes: &[u8]) -> Result<(&[u8], &[u8]), Misread>
    ensures { Finds (λ x. (x.0.now, x.1.now)) result (string_at bytes.now) }
{
    let (len, rest) = u32_at(bytes)?;
    split_at(rest, len as usize)
}

#[tactic(auto, unfolding(crate::specs::Reading::name_at))]
pub(crate) fn name_slice(bytes: &[u8]) -> Result<(&[u8], &[u8]), Misread>
    ensures { Finds (λ x. (x.0.now, x.1.now)) result (name_at bytes.now) }
{
    let (len, rest) = u8_at(bytes)?;
    split_at(rest, len as usize)
}

/// The twenty bytes of a token.
#[tactic(auto, unfolding(crate::specs::Reading::fixed_at))]
pub(crate) fn token_at(bytes: &[u8]) -> Result<(Token, &[u8]), Misread>
    ensures { Finds (λ x. (x.0.bytes, x.1.now)) result (fixed_at 20 bytes.now) }
{
    if bytes.len() < 20 {
        return Err(Misread);
    }
    let (front, rest) = bytes.split_at(20);
    let mut shown = [0; 20];
    shown.copy_from_slice(front);
    Ok((Token { bytes: shown }, rest))
}

/// The text that the bytes are, where they are UTF-8.
#[tactic(auto, using(crate::proofs::Texts::utf8_tests))]
fn utf8(bytes: &[u8]) -> Result<&str, Misread>
    ensures text { IfOk result (λ text. (text.now ≡ bytes.now) × (is_utf8 bytes.now ≡ true)) }
    ensures bad { IfErr result (λ e. is_utf8 bytes.now ≡ false) }
{
    match str::from_utf8(bytes) {
        Ok(text) => Ok(text),
        Err(_) => Err(Misread),
    }
}

/// A text of UTF-8.
fn text_slice(bytes: &[u8]) -> Result<(&str, &[u8]), Misread>
    ensures { Finds (λ x. (x.0.now, x.1.now)) result (checked is_utf8 string_at bytes.now) }
{
    let (text, rest) = string_slice(bytes)?;
    Ok((utf8(text)?, rest))
}

/// A status that a Reply may have.
pub(crate) fn status_at(bytes: &[u8]) -> Result<(u16, &[u8]), Misread>
    ensures { Finds (λ x. (x.0, x.1.now)) result (checked is_reply_status (number_at w16) bytes.now) }
{
    let (status, rest) = u16_at(bytes)?;
    if is_status_of_reply(status) {
        Ok((status, rest))
    } else {
        Err(Misread)
    }
}

/// A content type that a Reply may have.
pub(crate) fn content_type_slice(bytes: &[u8]) -> Result<(&[u8], &[u8]), Misread>
    ensures { Finds (λ x. (x.0.now, x.1.now)) result (checked is_content_type name_at bytes.now) }
{
    let (name, rest) = name_slice(bytes)?;
    if is_content_type_of_reply(name) {
        Ok((name, rest))
    } else {
        Err(Misread)
    }
}

/// A Location that a Reply may have.
pub(crate) fn location_slice(bytes: &[u8]) -> Result<(&[u8], &[u8]), Misread>
    ensures { Finds (λ x. (x.0.now, x.1.now)) result (checked is_location name_at bytes.now) }
{
    let (name, rest) = name_slice(bytes)?;
    if is_location_of_reply(name) {
        Ok((name, rest))
    } else {
        Err(Misread)
    }
}

/// What stands behind a value whose tag this is.
#[tactic(auto, unfolding(crate::specs::Reading::tagged_at))]
fn after_tagged(tag: u8, bytes: &[u8]) -> Result<&[u8], Misread>
    ensures { Finds (λ rest. rest.now) result (option_map (λ (a : Value × List ℕ). a.1) (tagged_at tag bytes.now)) }
{
    if tag == INT {
        Ok(i64_at(bytes)?.1)
    } else if tag == TEXT {
        Ok(text_slice(bytes)?.1)
    } else if tag == BYTES {
        Ok(string_slice(bytes)?.1)
    } else {
        Err(Misread)
    }
}

/// What stands behind a value.
#[tactic(auto, unfolding(crate::specs::Reading::value_at))]
pub(crate) fn after_value(bytes: &[u8]) -> Result<&[u8], Misread>
    ensures { Finds (λ rest. rest.now) result (option_map (λ (a : Value × List ℕ). a.1) (value_at bytes.now)) }
{
    let (tag, rest) = u8_at(bytes)?;
    after_tagged(tag, rest)
}

/// The value behind its tag.
#[tactic(auto, unfolding(crate::specs::Reading::tagged_at))]
fn tagged_of(alloc: Global, tag: u8, bytes: &[u8]) -> Result<(Value, &[u8]), ReadError>
    ensures { Gives (λ x. (x.0, x.1.now)) result (tagged_at tag bytes.now) }
{
    if tag == INT {
        let (n, rest) = i64_at(bytes)?;
        Ok((Value::Int(n), rest))
    } else if tag == TEXT {
        let (text, rest) = text_slice(bytes)?;
        Ok((Value::Text(Text::of(String::from_str(alloc, text)?)), rest))
    } else if tag == BYTES {
        let (bytes, rest) = string_slice(bytes)?;
        Ok((Value::Bytes(copy_of(alloc, bytes)?), rest))
    } else {
        Err(ReadError::Bad)
    }
}

/// These bytes.
pub(crate) fn copy_of(alloc: Global, bytes: &[u8]) -> Result<Items<u8>, AllocError>
    ensures { IfOk result (λ items. items ≡ bytes.now) }
{
    Ok(Items::of(Vec::from_slice(alloc, bytes)?))
}

/// A value.
#[tactic(auto, unfolding(crate::specs::Reading::value_at))]
pub(crate) fn value_of(alloc: Global, bytes: &[u8]) -> Result<(Value, &[u8]), ReadError>
    ensures { Gives (λ x. (x.0, x.1.now)) result (value_at bytes.now) }
{
    let (tag, rest) = u8_at(bytes)?;
    tagged_of(alloc, tag, rest)
}
