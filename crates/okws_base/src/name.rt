//! Names, identifiers and paths.

ghost use Rattle.std.specs.Prelude.{◌≡◌, ◌↔◌, IfSome, IsSome, IsTrue};
ghost use Rattle.std.specs.List.{list_all};
ghost use Rattle.okws_base.specs.Names.{is_name, is_name_byte, is_identifier, is_word, is_word_byte, is_first_byte, same_word, is_keyword, is_clause_word, is_action_word, is_column_word, is_path, is_path_byte};

use crate::items::{Exact, Items};
use crate::limit::{LONGEST_NAME, LONGEST_PATH};
use std::alloc::{AllocError, Global};
use std::marker::Model;

/// The name of a proxy, a service or a template: 1 to 64 bytes of letters, digits, `_`, `-` and
/// `.`. Names are compared byte by byte.
pub struct Name {
    bytes: Items<u8>,
}

impl Drop for Name {
    fn drop(self) {
        let Name { bytes } = self;
        drop(bytes);
    }
}

impl Model for Name {
    ghost use Rattle.std.specs.Prelude.{List, ℕ, IsTrue};
    ghost use Rattle.okws_base.specs.Names.{is_name};

    ghost Value = { List ℕ };

    ghost view = { λ a. a.bytes };

    ghost invariant = { λ a. IsTrue (is_name a.bytes) };
}

impl Name {
    /// The name of these bytes, or None where they are none.
    pub fn new(bytes: Items<u8>) -> Option<Name>
        ensures is { IsSome result ↔ IsTrue (is_name bytes) }
        ensures bytes { IfSome result (λ name. name ≡ bytes) }
    {
        if is_a_name(bytes.as_slice()) {
            Some(Name { bytes })
        } else {
            None
        }
    }

    pub fn as_slice(&self) -> &[u8]
        ensures bytes { result.now ≡ self.now }
        ensures is { IsTrue (is_name result.now) }
    {
        self.bytes.as_slice()
    }
}

impl Exact for Name {
    fn copy(&self, alloc: Global) -> Result<Name, AllocError> {
        Ok(Name {
            bytes: self.bytes.copy(alloc)?,
        })
    }
}

fn name_byte(byte: u8) -> bool
    ensures { result ≡ is_name_byte byte }
{
    byte.is_ascii_alphanumeric() || byte == b'_' || byte == b'-' || byte == b'.'
}

fn are_name_bytes(bytes: &[u8]) -> bool
    ensures { result ≡ list_all is_name_byte bytes.now }
{
    bytes.iter().all(|byte| name_byte(*byte))
}

/// Whether the bytes are a name of a proxy, a service or a template.
pub fn is_a_name(bytes: &[u8]) -> bool
    ensures { result ≡ is_name bytes.now }
{
    1 <= bytes.len() && bytes.len() <= LONGEST_NAME && are_name_bytes(bytes)
}

/// The name of a table or a column: 1 to 64 bytes, a letter or `_` first, then letters, digits and
/// `_`, and no keyword of the query language in any ASCII case. Identifiers are compared byte by byte.
pub struct Identifier {
    bytes: Items<u8>,
}

impl Drop for Identifier {
    fn drop(self) {
        let Identifier { bytes } = self;
        drop(bytes);
    }
}

impl Model for Identifier {
    ghost use Rattle.std.specs.Prelude.{List, ℕ, IsTrue};
    ghost use Rattle.okws_base.specs.Names.{is_identifier};

    ghost Value = { List ℕ };

    ghost view = { λ a. a.bytes };

    ghost invariant = { λ a. IsTrue (is_identifier a.bytes) };
}

impl Identifier {
    /// The identifier of these bytes, or None where they are none.
    pub fn new(bytes: Items<u8>) -> Option<Identifier>
        ensures is { IsSome result ↔ IsTrue (is_identifier bytes) }
        ensures bytes { IfSome result (λ name. name ≡ bytes) }
    {
        if is_an_identifier(bytes.as_slice()) {
            Some(Identifier { bytes })
        } else {
            None
        }
    }

    pub fn as_slice(&self) -> &[u8]
        ensures bytes { result.now ≡ self.now }
        ensures is { IsTrue (is_identifier result.now) }
    {
        self.bytes.as_slice()
    }
}

impl Exact for Identifier {
    fn copy(&self, alloc: Global) -> Result<Identifier, AllocError> {
        Ok(Identifier {
            bytes: self.bytes.copy(alloc)?,
        })
    }
}

/// Whether two words are the same but for the case of ASCII letters.
pub fn are_same_word(one: &[u8], other: &[u8]) -> bool
    ensures { result ≡ same_word one.now other.now }
{
    if one.len() != other.len() {
        return false;
    }
    for i in 0..one.len() {
        if !one[i].eq_ignore_ascii_case(&other[i]) {
            return false;
        }
    }
    true
}

/// Whether the bytes are a keyword of the query language, in any ASCII case.
pub fn is_a_keyword(bytes: &[u8]) -> bool
    ensures { result ≡ is_keyword bytes.now }
{
    is_clause_keyword(bytes) || is_action_keyword(bytes) || is_column_keyword(bytes)
}

fn is_clause_keyword(bytes: &[u8]) -> bool
    ensures { result ≡ is_clause_word bytes.now }
{
    are_same_word(bytes, b"FROM")
        || are_same_word(bytes, b"WHERE")
        || are_same_word(bytes, b"AND")
        || are_same_word(bytes, b"ORDER")
        || are_same_word(bytes, b"BY")
        || are_same_word(bytes, b"LIMIT")
        || are_same_word(bytes, b"INTO")
        || are_same_word(bytes, b"VALUES")
        || are_same_word(bytes, b"SET")
}

fn is_action_keyword(bytes: &[u8]) -> bool
    ensures { result ≡ is_action_word bytes.now }
{
    are_same_word(bytes, b"SELECT")
        || are_same_word(bytes, b"INSERT")
        || are_same_word(bytes, b"UPDATE")
        || are_same_word(bytes, b"DELETE")
}

fn is_column_keyword(bytes: &[u8]) -> bool
    ensures { result ≡ is_column_word bytes.now }
{
    are_same_word(bytes, b"INT")
        || are_same_word(bytes, b"TEXT")
        || are_same_word(bytes, b"BYTES")
        || are_same_word(bytes, b"KEY")
}

fn word_byte(byte: u8) -> bool
    ensures { result ≡ is_word_byte byte }
{
    byte.is_ascii_alphanumeric() || byte == b'_'
}

fn first_byte(byte: u8) -> bool
    ensures { result ≡ is_first_byte byte }
{
    byte.is_ascii_alphabetic() || byte == b'_'
}

fn are_word_bytes(bytes: &[u8]) -> bool
    ensures { result ≡ list_all is_word_byte bytes.now }
{
    bytes.iter().all(|byte| word_byte(*byte))
}

/// Whether the bytes are a word: a letter or `_` first, then letters, digits and `_`.
pub fn is_a_word(bytes: &[u8]) -> bool
    ensures { result ≡ is_word bytes.now }
{
    match bytes {
        [] => false,
        [first, rest @ ..] => first_byte(*first) && are_word_bytes(rest),
    }
}

/// Whether the bytes are an identifier.
pub fn is_an_identifier(bytes: &[u8]) -> bool
    ensures { result ≡ is_identifier bytes.now }
{
    bytes.len() <= LONGEST_NAME && is_a_word(bytes) && !is_a_keyword(bytes)
}

/// A path that a service owns: 1 to 1,024 bytes 33 to 126 without `?` and `#`, `/` first. Paths
/// are compared byte by byte, undecoded.
pub struct Path {
    bytes: Items<u8>,
}

impl Drop for Path {
    fn drop(self) {
        let Path { bytes } = self;
        drop(bytes);
    }
}

impl Model for Path {
    ghost use Rattle.std.specs.Prelude.{List, ℕ, IsTrue};
    ghost use Rattle.okws_base.specs.Names.{is_path};

    ghost Value = { List ℕ };

    ghost view = { λ a. a.bytes };

    ghost invariant = { λ a. IsTrue (is_path a.bytes) };
}

impl Path {
    /// The path of these bytes, or None where they are none.
    pub fn new(bytes: Items<u8>) -> Option<Path>
        ensures is { IsSome result ↔ IsTrue (is_path bytes) }
        ensures bytes { IfSome result (λ path. path ≡ bytes) }
    {
        if is_a_path(bytes.as_slice()) {
            Some(Path { bytes })
        } else {
            None
        }
    }

    pub fn as_slice(&self) -> &[u8]
        ensures bytes { result.now ≡ self.now }
        ensures is { IsTrue (is_path result.now) }
    {
        self.bytes.as_slice()
    }
}

impl Exact for Path {
    fn copy(&self, alloc: Global) -> Result<Path, AllocError> {
        Ok(Path {
            bytes: self.bytes.copy(alloc)?,
        })
    }
}

fn path_byte(byte: u8) -> bool
    ensures { result ≡ is_path_byte byte }
{
    byte >= 33 && byte <= 126 && byte != b'?' && byte != b'#'
}

fn are_path_bytes(bytes: &[u8]) -> bool
    ensures { result ≡ list_all is_path_byte bytes.now }
{
    bytes.iter().all(|byte| path_byte(*byte))
}

/// Whether the bytes are a path that a service may own.
pub fn is_a_path(bytes: &[u8]) -> bool
    ensures { result ≡ is_path bytes.now }
{
    match bytes {
        [] => false,
        [first, rest @ ..] => {
            *first == b'/' && bytes.len() <= LONGEST_PATH && are_path_bytes(rest)
        }
    }
}
