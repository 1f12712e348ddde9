//! The words and the first lines of a drill, and tallies of single lines. Not tested here: a drill that
//! is played, which the tests of runs do.

use crate::holding::{MEMORY, holds, same};
use okws_outer::stream::{Put, Sink};
use okws_plan::script::Line;
use play_script::script::Drill;
use play_script::summary::summary;
use play_script::tally::Tally;
use play_script::words::{Act, act_of, drill_seed, number_of, service_of, word_at};

// Five words of RFC 8439's first test vector, and what they ask for.
#[test]
fn first_words_of_drill_zero(rt: HostRuntime) {
    let rows = [
        (0xade0b876, Act::Get, 0, 7),
        (0x903df1a0, Act::Publish, 0, 2),
        (0xe56a5d40, Act::Publish, 0, 4),
        (0x28bd8653, Act::Insert, 0, 5),
        (0xb819d2bd, Act::OpenAsFirst, 1, 3),
    ];
    let seed = drill_seed(0);
    for (place, (word, act, service, number)) in rows.iter().enumerate() {
        holds(&rt, word_at(&seed, place as u32) == *word, "word");
        holds(&rt, act_of(*word) == *act, "act");
        holds(&rt, service_of(*word) == *service, "service");
        holds(&rt, number_of(*word) == *number, "number");
    }
}

// The seed is the number in the first eight bytes, the high one first.
#[test]
fn the_number_stands_first(rt: HostRuntime) {
    let seed = drill_seed(0x0102_0304_0506_0708);
    let want: [u8; 32] = [
        1, 2, 3, 4, 5, 6, 7, 8, 0, 0, 0, 0, 0, 0, 0, 0, 0, 0, 0, 0, 0, 0, 0, 0, 0, 0, 0, 0, 0, 0,
        0, 0,
    ];
    holds(&rt, seed.as_slice() == want.as_slice(), "seed");
}

/// Whether service 0 asks for the page.
fn is_asked(line: &Line) -> bool {
    match line {
        Line::Bytes { service, bytes } => {
            *service == 0 && bytes.as_slice() == b"\x00\x00\x00\x06\x43\x04page".as_slice()
        }
        _ => false,
    }
}

#[test]
fn a_word_has_its_lines(rt: HostRuntime) {
    let mut drill = Drill::new(0);
    let lines = drill.next_lines(rt.alloc()).expect(&rt, MEMORY);
    assert!(rt; lines.len() == 4);
    holds(&rt, matches!(&lines[1], Line::Dialog(0)), "a dialog");
    holds(&rt, is_asked(&lines[2]), "bytes");
    let lines = drill.next_lines(rt.alloc()).expect(&rt, MEMORY);
    holds(&rt, lines.len() == 1, "one line");
}

#[test]
fn lines_are_tallied(rt: HostRuntime) {
    let mut tally = Tally::new(rt.alloc()).expect(&rt, MEMORY);
    for text in [
        "heard guest 1 000000050400000000\n",
        "heard heard 12 0000000108\nheard other 1 00000002090b\n",
        "answer 0 heard guest 1 0000000108\nheard guest 1 000000",
        "020916\nheard guest 1 00000002090b\n",
    ] {
        holds(&rt, tally.put(text.as_bytes()) == Put::Done, "put");
    }
    let text = summary(rt.alloc(), &tally).expect(&rt, MEMORY);
    let want =
        b"boots 0\nrequests 0\npushes 0\nopened 1\nrows 0\nchanged 0\nduplicates 0\ntemplates 0\nlogged 1\nfailed 0\nnomemory 0\ndenied 11 2\ndenied 22 1\n";
    same(&rt, &text, want);
}
