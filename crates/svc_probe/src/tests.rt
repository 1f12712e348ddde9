//! What the probe says over a link in memory, byte by byte. How its status tells its end is not tried
//! here.

use crate::probe::{Early, probe};
use okws_outer::memory::link::{FedLink, MemoryLink};
use okws_outer::stream::Link;
use std::alloc::Global;
use std::process::Abort;
use svc_kit::stop::Stop;

/// The Boot of service 0, incarnation 1, with a token at proxy 0.
const BOOT: &str = "0000001e010000000000010100000000000000000001ade0b876903df1a0e56a5d40";

/// A Request of `GET /guest` without content.
const REQUEST: &str =
    "000000310200000028474554202f677565737420485454502f312e310d0a486f73743a206c6f63616c686f73740d0a0d0a00000000";

/// The token of that Boot.
const TOKEN: &str = "0000000000000001ade0b876903df1a0e56a5d40";

/// Why a test stops that was refused memory.
const MEMORY: &str = "memory was refused";

/// Stops the test, and says where, unless this holds.
fn holds(rt: &impl Abort, is: bool, at: &str) {
    assert!(rt; is, "{at}");
}

/// One letter for each end.
fn letter_of(end: &Result<(), Early>) -> char {
    match end {
        Ok(()) => '.',
        Err(Early::BadWord) => 'W',
        Err(Early::Stop(Stop::Ended)) => 'E',
        Err(Early::Stop(Stop::BadFrame)) => 'B',
        Err(Early::Stop(Stop::LinkFault)) => 'F',
        Err(Early::Stop(Stop::Unlooked(_))) => 'U',
        Err(Early::Stop(_)) => 'N',
    }
}

/// The bytes of these hexadecimal digits.
fn decoded(rt: &impl Abort, alloc: Global, digits: &str) -> Vec<u8> {
    match hex::decode(alloc, digits) {
        Ok(bytes) => bytes,
        Err(_) => panic!(rt; "no hexadecimal digits"),
    }
}

/// The hexadecimal digits of these bytes.
fn encoded(rt: &impl Abort, alloc: Global, bytes: &[u8]) -> String {
    hex::encode(alloc, bytes).expect(rt, MEMORY)
}

/// The probe with these words, which are parted by spaces, hears these frames and says these digits.
fn says(rt: &impl Abort, alloc: Global, words: &str, frames: &[&str], end: char, digits: &[&str]) {
    let mut link = MemoryLink::new(alloc, 7, &[]);
    link.make_room(100).expect(rt, MEMORY);
    for frame in frames {
        let bytes = decoded(rt, alloc, frame);
        link.feed(&bytes).expect(rt, MEMORY);
    }
    link.feed_end();
    let mut texts = Vec::new(alloc);
    for word in words.split_whitespace() {
        let text = String::from_str(alloc, word).expect(rt, MEMORY);
        texts.push(text).expect(rt, MEMORY);
    }
    let found = letter_of(&probe(alloc, &mut link, &texts));
    holds(rt, found == end, words);
    let mut want = String::new(alloc);
    for part in digits {
        want.push_str(part).expect(rt, MEMORY);
    }
    let said = encoded(rt, alloc, link.given());
    holds(rt, said.as_str() == want.as_str(), words);
}

#[test]
fn words_are_said(rt: HostRuntime) {
    let alloc = rt.alloc();
    let rt = &rt;
    says(rt, alloc, "0000", &[BOOT, REQUEST], 'E', &["0000"]);
    says(
        rt,
        alloc,
        "00000017410000t",
        &[BOOT, REQUEST],
        'E',
        &["00000017410000", TOKEN],
    );
    says(
        rt,
        alloc,
        "tABt",
        &[BOOT, REQUEST],
        'E',
        &[TOKEN, "ab", TOKEN],
    );
    // A word for each request, whatever comes between them; and then none, or `end`.
    let answered = [
        BOOT,
        REQUEST,
        "000000050400000000",
        "0000000108",
        REQUEST,
        REQUEST,
    ];
    says(rt, alloc, "01 02t", &answered, '.', &["0102", TOKEN]);
    says(rt, alloc, "01 end 03", &answered, '.', &["01"]);
    says(rt, alloc, "", &answered, '.', &[]);
}

#[test]
fn ends_without_a_word(rt: HostRuntime) {
    let alloc = rt.alloc();
    let rt = &rt;
    says(rt, alloc, "01", &[], 'E', &[]);
    says(rt, alloc, "01", &[BOOT], 'E', &[]);
    says(rt, alloc, "01", &[REQUEST], 'U', &[]);
    says(rt, alloc, "01", &[BOOT, "0000000141"], 'B', &[]);
    // No token in Boot.
    says(
        rt,
        alloc,
        "01t02",
        &["000000080100000000000100", REQUEST],
        'E',
        &["0102"],
    );
    // Words that spell nothing.
    says(rt, alloc, "01 0g", &[BOOT, REQUEST], 'W', &[]);
    says(rt, alloc, "0t1", &[BOOT, REQUEST], 'W', &[]);
}
