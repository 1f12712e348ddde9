//! Templates, filled with values. In a template `@{NAME}` is the value of that name, escaped for HTML, and `@{raw:NAME}`
//! the value as it is. A name has 1 to 64 bytes of letters, digits, `_`, `-` and `.`. An `@` that no `{` follows is itself.

ghost use Rattle.std.specs.Prelude.{◌≡◌, ◌<◌, ◌≤◌, ◌+◌, ◌++◌, ◌∷◌, [], ℕ, List, length, map, option_map, OnOk, IfOk, position, MatchOption, MatchResult, Some, None};
ghost use Rattle.std.specs.List.{slice_split};
ghost use Rattle.plain_text.specs.Parts.{is_byte};
ghost use Rattle.svc_kit.specs.Bounded.{Holds};
ghost use Rattle.svc_kit.specs.declared.bounded.TheConstants.{LONGEST_FILLED};
ghost use Rattle.svc_kit.specs.Templates.{Part, raw_name, place, closed, behind_brace, begun, cut, parts};
ghost use Rattle.svc_kit.specs.Filled.{pair_of, value_of, filling, first_refusal, refusal, meaning, meanings, IsFilling, IsPut, rule_number};

use crate::bounded::Bounded;
use okws_base::items::Items;
use okws_base::name::is_a_name;
use std::alloc::{AllocError, Global};

/// A name, and its value.
#[derive(Clone, Copy)]
pub struct Pair<'a> {
    pub name: &'a [u8],
    pub value: &'a [u8],
}

/// The rule that a template breaks.
#[derive(Clone, Copy, Debug, PartialEq, Eq)]
pub enum FillRule {
    /// An `@{` begins neither `@{NAME}` nor `@{raw:NAME}`.
    BadPlace,
    /// No pair has the name.
    NoSuchPair,
    /// The filled text would have more than LONGEST_FILLED bytes.
    TooLong,
}

impl FillRule {
    /// The number of the rule, 1 to 3.
    pub fn number(self) -> u8
        ensures { result ≡ rule_number self }
    {
        match self {
            FillRule::BadPlace => 1,
            FillRule::NoSuchPair => 2,
            FillRule::TooLong => 3,
        }
    }
}

/// Why a template isn't filled.
#[derive(Clone, Copy, Debug, PartialEq, Eq)]
pub enum FillError {
    /// The template is refused, by this rule, at the byte at this place: its leftmost `@` that is refused, or its length
    /// where the filled text would be too long.
    Refused { at: usize, rule: FillRule },
    /// Memory was refused.
    NoMemory,
}

impl From<AllocError> for FillError {
    ghost use Rattle.svc_kit.specs.declared.fill.FillError.TheVariants.{NoMemory};

    ghost from_gives = { λ _ e. e ≡ NoMemory };

    fn from(_e: AllocError) -> FillError {
        FillError::NoMemory
    }
}

/// The value of the first pair that has the name.
fn find<'a>(pairs: &[Pair<'a>], name: &[u8]) -> Option<&'a [u8]>
    ensures { option_map (λ v. v.now) result ≡ value_of (map pair_of pairs.now) name.now }
{
    for pair in pairs {
        if pair.name == name {
            return Some(pair.value);
        }
    }
    None
}

/// The value of the first pair that has the name, for the `@` at this place.
fn value<'a>(pairs: &[Pair<'a>], at: usize, name: &[u8]) -> Result<&'a [u8], FillError>
    ensures { MatchResult result (λ v. value_of (map pair_of pairs.now) name.now ≡ Some v.now) (λ e. (value_of (map pair_of pairs.now) name.now ≡ None) × (e ≡ FillError.Refused at FillRule.NoSuchPair)) }
{
    match find(pairs, name) {
        Some(value) => Ok(value),
        None => Err(FillError::Refused {
            at,
            rule: FillRule::NoSuchPair,
        }),
    }
}

/// The name behind `raw:`.
fn name_behind_raw(inner: &[u8]) -> Option<&[u8]>
    ensures { option_map (λ name. name.now) result ≡ raw_name inner.now }
{
    if inner.len() < 4 || &inner[..4] != b"raw:".as_slice() || !is_a_name(&inner[4..]) {
        return None;
    }
    Some(&inner[4..])
}

/// Puts the value of the place that these bytes between `{` and `}` name.
fn put_place(text: &mut Bounded, at: usize, inner: &[u8], pairs: &[Pair]) -> Result<(), FillError>
    ensures { (before : List ℕ) → Holds text.old before → IsPut result (refusal (map pair_of pairs.now) (place at inner.now)) (Holds text.new (before ++ meaning (map pair_of pairs.now) (place at inner.now))) }
{
    if is_a_name(inner) {
        text.put_escaped(value(pairs, at, inner)?)?;
        return Ok(());
    }
    match name_behind_raw(inner) {
        Some(name) => {
            text.put(value(pairs, at, name)?)?;
            Ok(())
        }
        None => Err(FillError::Refused {
            at,
            rule: FillRule::BadPlace,
        }),
    }
}

/// Where such a byte is first.
fn place_of(byte: u8, text: &[u8]) -> Option<usize>
    ensures { result ≡ position (is_byte byte) text.now }
{
    text.iter().position(|other| *other == byte)
}

/// Puts the place that this text behind `@{` begins with, and what stands behind its `}`.
fn put_closed(text: &mut Bounded, at: usize, rest: &[u8], pairs: &[Pair]) -> Result<(), FillError>
    ensures { (before : List ℕ) → Holds text.old before → IsPut result (first_refusal (map pair_of pairs.now) (closed at rest.now (position (is_byte 125) rest.now))) (Holds text.new (before ++ meanings (map pair_of pairs.now) (closed at rest.now (position (is_byte 125) rest.now)))) }
{
    match place_of(b'}', rest) {
        Some(end) => {
            put_place(text, at, &rest[..end], pairs)?;
            text.put(&rest[end + 1..])?;
            Ok(())
        }
        None => Err(FillError::Refused {
            at,
            rule: FillRule::BadPlace,
        }),
    }
}

fn after_brace(piece: &[u8]) -> Option<&[u8]>
    ensures { option_map (λ rest. rest.now) result ≡ behind_brace piece.now }
{
    match piece {
        [b'{', rest @ ..] => Some(rest),
        _ => None,
    }
}

/// Puts what an `@` begins, of which this stands between it and the next one.
fn put_begun(text: &mut Bounded, at: usize, piece: &[u8], pairs: &[Pair]) -> Result<(), FillError>
    ensures { (before : List ℕ) → Holds text.old before → IsPut result (first_refusal (map pair_of pairs.now) (begun at piece.now)) (Holds text.new (before ++ meanings (map pair_of pairs.now) (begun at piece.now))) }
{
    match after_brace(piece) {
        Some(rest) => put_closed(text, at, rest, pairs),
        None => {
            text.put(b"@")?;
            text.put(piece)?;
            Ok(())
        }
    }
}

/// What stands before the next `@`, and what stands behind it if there is one.
fn to_next(text: &[u8]) -> (&[u8], Option<&[u8]>)
    ensures split { slice_split (is_byte 64) text.now ≡ result.0.now ∷ cut (option_map (λ rest. rest.now) result.1) }
    ensures len { MatchOption result.1 (length result.0.now ≡ length text.now) (λ rest. length result.0.now + 1 + length rest.now ≡ length text.now) }
{
    match place_of(b'@', text) {
        Some(end) => (&text[..end], Some(&text[end + 1..])),
        None => (text, None),
    }
}

/// Puts the parts of the template.
fn put_parts(text: &mut Bounded, template: &[u8], pairs: &[Pair]) -> Result<(), FillError>
    ensures { (before : List ℕ) → Holds text.old before → IsPut result (first_refusal (map pair_of pairs.now) (parts template.now)) (Holds text.new (before ++ meanings (map pair_of pairs.now) (parts template.now))) }
{
    let (front, mut behind) = to_next(template);
    text.put(front)?;
    let mut at = front.len();
    while let Some(rest) = behind {
        let (piece, more) = to_next(rest);
        put_begun(text, at, piece, pairs)?;
        at += 1 + piece.len();
        behind = more;
    }
    Ok(())
}

/// The template in which each place stands for its value. It takes memory for no more than LONGEST_FILLED bytes, of which
/// the text has at most so many.
pub fn fill(alloc: Global, template: &[u8], pairs: &[Pair]) -> Result<Items<u8>, FillError>
    ensures filling { IsFilling result (filling (map pair_of pairs.now) template.now) }
    ensures short { IfOk result (λ text. length text ≤ LONGEST_FILLED) }
{
    let mut text = Bounded::new(alloc);
    put_parts(&mut text, template, pairs)?;
    match text.into_text() {
        Some(text) => Ok(text),
        None => Err(FillError::Refused {
            at: template.len(),
            rule: FillRule::TooLong,
        }),
    }
}
