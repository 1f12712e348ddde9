//! The words of a drill, and what each asks for.

ghost use Rattle.std.specs.Prelude.{◌≡◌};
ghost use Rattle.play_script.specs.Words.{drill_seed, act_of, service_of, number_of};
ghost use Rattle.token_core.specs.Token.{word};

use token_core::{Seed, word};

/// Events that a drill may have.
pub const MOST_EVENTS: u32 = 100_000;

/// What a word asks for.
#[derive(Clone, Copy, PartialEq, Eq)]
pub enum Act {
    /// An edition of the template `page`.
    Publish,
    /// The service is launched again.
    Relaunch,
    /// A dialog in which the service opens a session and selects.
    Select,
    /// The same, and the service inserts a row.
    Insert,
    /// The same, and the service deletes a row.
    Delete,
    /// A dialog in which the service shows the token of its first incarnation.
    OpenAsFirst,
    /// A dialog in which the service asks for the template `page`.
    Get,
    /// A dialog in which the service logs a text.
    Log,
}

/// The seed of a drill's words: the number in 8 bytes, the high one first, and 24 bytes of zero.
pub fn drill_seed(number: u64) -> Seed
    ensures { result ≡ drill_seed number }
{
    let mut seed = [0; 32];
    seed[..8].copy_from_slice(&number.to_be_bytes());
    seed
}

/// The word at a place, counted from 0: that of stream 0 of ChaCha20 under the seed of a drill.
pub fn word_at(seed: &Seed, place: u32) -> u32
    ensures { result ≡ word seed.now 0 place }
{
    word(seed, 0, u128::from(place))
}

/// What a word asks for, by its lowest three bits.
pub fn act_of(word: u32) -> Act
    ensures { result ≡ act_of word }
{
    match word % 8 {
        0 => Act::Publish,
        1 => Act::Relaunch,
        2 => Act::Select,
        3 => Act::Insert,
        4 => Act::Delete,
        5 => Act::OpenAsFirst,
        6 => Act::Get,
        _ => Act::Log,
    }
}

/// The service that a word is about, by its fourth bit.
pub fn service_of(word: u32) -> u16
    ensures { result ≡ service_of word }
{
    (word / 8 % 2) as u16
}

/// The id of the row that a word is about, by its fifth to seventh bit.
pub fn number_of(word: u32) -> u32
    ensures { result ≡ number_of word }
{
    word / 16 % 8
}
