//! The tokens that a service shows proxies: 8 bytes that name the service, the proxy and the
//! incarnation, and 12 that are drawn from ChaCha20 under the run's seed.
#![tactic(auto)]

ghost use Rattle.std.specs.Prelude.{◌≡◌, ◌≤◌, ◌%◌, ◌^◌};
ghost use Rattle.rand_chacha.specs.ChaCha.{key_of};
ghost use Rattle.token_core.specs.Token.{word, token_of, shown_of};
ghost use Rattle.token_core.specs.Laws.{ShowsItsNumbers, DiffersByNumbers, HasTwentyBytes};

use okws_base::limit::{MOST_INCARNATIONS, MOST_PROXIES};
use okws_base::value::Token;
use rand_chacha::ChaCha20Rng;
use rand_core::SeedableRng;
use rand_core::utils::NextWord;

/// The seed of a run, the key of its ChaCha20.
pub type Seed = [u8; 32];

/// Bytes of a token.
pub const TOKEN_LENGTH: usize = 20;

// The words that a token draws from its service's stream, and those that an incarnation has there.
const TOKEN_WORDS: u64 = 3;

const INCARNATION_WORDS: u64 = TOKEN_WORDS * MOST_PROXIES as u64;

/// What the bytes of a token say that it is of. Any 20 bytes say something: whether such a token was
/// issued is another question.
#[derive(Clone, Copy, PartialEq, Eq)]
pub struct Claims {
    /// The service's number.
    pub service: u16,
    /// The proxy's number.
    pub proxy: u16,
    /// The incarnation of the service.
    pub incarnation: u32,
}

// The generator of a stream, at a place.
fn generator(seed: &Seed, stream: u64, place: u128) -> ChaCha20Rng
    ensures { result ≡ record { key = key_of seed.now; stream = stream; word_pos = place % 2 ^ 68 } }
{
    let mut generator = ChaCha20Rng::from_seed(*seed);
    generator.set_stream(stream);
    generator.set_word_pos(place);
    generator
}

/// The word at a place of a stream of ChaCha20 (RFC 8439, section 2.3) whose key is the seed.
///
/// A word is a number of 32 bits whose low byte comes first in the key stream, and the place counts
/// words from 0. The block's number fills the state's words 12 and 13 and the stream's number words
/// 14 and 15, low word first: of the RFC's nonce the stream is the last 8 bytes. A stream repeats
/// after 2^68 words.
#[tactic(auto, unfolding(crate::specs::Token::word))]
pub fn word(seed: &Seed, stream: u64, place: u128) -> u32
    ensures { result ≡ word seed.now stream (place % 2 ^ 68) }
{
    generator(seed, stream, place).next_word()
}

/// The token of an incarnation of a service at a proxy, under the run's seed: the service's number in
/// 2 bytes, the proxy's in 2, the incarnation's in 4 and three words in 4 each, all with the high byte
/// first. The words are those of the service's stream at `48 * (incarnation - 1) + 3 * proxy` and the
/// two places after it. Incarnations count from 1.
pub fn token(seed: &Seed, service: u16, incarnation: u32, proxy: u16) -> Token
    requires first { 1 ≤ incarnation }
    requires most { incarnation ≤ MOST_INCARNATIONS }
    ensures { result ≡ token_of seed.now service incarnation proxy }
{
    let place = INCARNATION_WORDS * u64::from(incarnation - 1) + TOKEN_WORDS * u64::from(proxy);
    let mut words = generator(seed, u64::from(service), u128::from(place));
    let mut bytes = [0; TOKEN_LENGTH];
    bytes[..2].copy_from_slice(&service.to_be_bytes());
    bytes[2..4].copy_from_slice(&proxy.to_be_bytes());
    bytes[4..8].copy_from_slice(&incarnation.to_be_bytes());
    bytes[8..12].copy_from_slice(&words.next_word().to_be_bytes());
    bytes[12..16].copy_from_slice(&words.next_word().to_be_bytes());
    bytes[16..].copy_from_slice(&words.next_word().to_be_bytes());
    Token { bytes }
}

/// What the bytes show if they are as many as a token has, and else `None`.
pub fn shown(bytes: &[u8]) -> Option<Claims>
    ensures { result ≡ shown_of bytes.now }
{
    if bytes.len() != TOKEN_LENGTH {
        return None;
    }
    Some(Claims {
        service: u16::from_be_bytes([bytes[0], bytes[1]]),
        proxy: u16::from_be_bytes([bytes[2], bytes[3]]),
        incarnation: u32::from_be_bytes([bytes[4], bytes[5], bytes[6], bytes[7]]),
    })
}

/// A token shows the service, the incarnation and the proxy that it is of, so that tokens of different
/// ones differ, under different seeds too. This rests on the first 8 bytes, and not on chance.
pub fn tokens_are_told_apart()
    ensures length { HasTwentyBytes }
    ensures shows { ShowsItsNumbers }
    ensures differs { DiffersByNumbers }
{}
