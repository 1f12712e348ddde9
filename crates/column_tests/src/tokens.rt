//! Words of ChaCha20 against RFC 8439, and worked tokens. Not tested here: seeds but zero and those of
//! the RFC.

use crate::holding::holds;
use token_core::{Claims, shown, token, word};

const ZERO: [u8; 32] = [0; 32];

// The key of RFC 8439, appendix A.1, test vector 4.
const SECOND_BYTE: [u8; 32] = [
    0, 255, 0, 0, 0, 0, 0, 0, 0, 0, 0, 0, 0, 0, 0, 0, 0, 0, 0, 0, 0, 0, 0, 0, 0, 0, 0, 0, 0, 0, 0,
    0,
];

// The key of RFC 8439, section 2.3.2.
const ASCENDING: [u8; 32] = [
    0, 1, 2, 3, 4, 5, 6, 7, 8, 9, 10, 11, 12, 13, 14, 15, 16, 17, 18, 19, 20, 21, 22, 23, 24, 25,
    26, 27, 28, 29, 30, 31,
];

#[test]
fn first_words_of_the_zero_seed(rt: HostRuntime) {
    let words = [0xade0b876, 0x903df1a0, 0xe56a5d40, 0x28bd8653, 0xb819d2bd];
    for (place, expected) in words.iter().enumerate() {
        holds(&rt, word(&ZERO, 0, place as u128) == *expected, "a word");
    }
}

// Bytes of the key streams in RFC 8439, appendix A.1: test vectors 1, 2, 4 and 5.
#[test]
fn key_streams_of_the_rfc(rt: HostRuntime) {
    let rows = [
        (ZERO, 0, 0, [0x76, 0xb8, 0xe0, 0xad]),
        (ZERO, 0, 1, [0xa0, 0xf1, 0x3d, 0x90]),
        (ZERO, 0, 16, [0x9f, 0x07, 0xe7, 0xbe]),
        (ZERO, 0, 17, [0x55, 0x51, 0x38, 0x7a]),
        (SECOND_BYTE, 0, 32, [0x72, 0xd5, 0x4d, 0xfb]),
        (SECOND_BYTE, 0, 33, [0xf1, 0x2e, 0xc4, 0x4b]),
        (ZERO, 2 << 56, 0, [0xc2, 0xc6, 0x4d, 0x37]),
        (ZERO, 2 << 56, 1, [0x8c, 0xd5, 0x36, 0x37]),
    ];
    for (seed, stream, place, expected) in rows {
        let bytes = word(&seed, stream, place).to_le_bytes();
        holds(&rt, bytes == expected, "bytes of a word");
    }
}

// The state of RFC 8439, section 2.3.2, after its block function: block 1, nonce 00:00:00:09
// 00:00:00:4a 00:00:00:00.
#[test]
fn block_of_the_rfc(rt: HostRuntime) {
    let words = [0xe4e7f110, 0x15593bd1, 0x1fdd0f50, 0xc47120a3];
    for (place, expected) in words.iter().enumerate() {
        let place = 0x0900_0000_0000_0001_0 + place as u128;
        let found = word(&ASCENDING, 0x4a00_0000, place);
        holds(&rt, found == *expected, "a word of the block");
    }
}

#[test]
fn worked_tokens(rt: HostRuntime) {
    let first = [
        0, 0, 0, 0, 0, 0, 0, 1, 0xad, 0xe0, 0xb8, 0x76, 0x90, 0x3d, 0xf1, 0xa0, 0xe5, 0x6a, 0x5d,
        0x40,
    ];
    let second = [
        0, 0, 0, 1, 0, 0, 0, 1, 0x28, 0xbd, 0x86, 0x53, 0xb8, 0x19, 0xd2, 0xbd, 0x1a, 0xed, 0x8d,
        0xa0,
    ];
    holds(&rt, token(&ZERO, 0, 1, 0).bytes == first, "first");
    holds(&rt, token(&ZERO, 0, 1, 1).bytes == second, "second");
}

// The words were made by OpenSSL 3.0's `enc -chacha20`: block 2,999,999, words 13 to 15.
#[test]
fn last_token_of_a_service(rt: HostRuntime) {
    let last = [
        0, 0x3f, 0, 0x0f, 0, 0x0f, 0x42, 0x40, 0x60, 0xe8, 0xc2, 0x0d, 0xa2, 0x8f, 0x4a, 0x60,
        0x32, 0x3e, 0xef, 0x65,
    ];
    holds(
        &rt,
        token(&ASCENDING, 63, 1_000_000, 15).bytes == last,
        "last",
    );
}

#[test]
fn shown_by_twenty_bytes_alone(rt: HostRuntime) {
    let bytes = [
        1, 2, 3, 4, 5, 6, 7, 8, 9, 10, 11, 12, 13, 14, 15, 16, 17, 18, 19, 20, 21,
    ];
    let claims = Claims {
        service: 0x0102,
        proxy: 0x0304,
        incarnation: 0x0506_0708,
    };
    holds(&rt, shown(&bytes[..19]) == None, "shown");
    holds(&rt, shown(&bytes[..20]) == Some(claims), "shown");
    holds(&rt, shown(&bytes) == None, "shown");
}
