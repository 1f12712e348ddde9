//! Whole runs over a world in memory: two worked scripts, what is refused, and each status. Not tested
//! here: the other worked scripts, which are run by the program, and want of memory.

use crate::holding::{MEMORY, holds, same};
use crate::memory::absent;
use crate::outside::owned;
use okws_outer::memory::files::{Entry, MemoryFiles};
use okws_outer::memory::sink::MemorySink;
use okws_outer::world::Outside;
use okws_server::okws;
use okws_server::status::Status;
use okws_world::equipped::Fitted;
use std::alloc::Global;
use std::process::Abort;
use std::sync::Wait;
use std::thread::Threads;

const SITE: &str = "okws 1\n\
    proxy main\n\
    table main msgs id INT KEY who TEXT note TEXT\n\
    row main msgs 1 'ann' 'hi'\n\
    row main msgs 2 'bob' 'yo'\n\
    query main 1 SELECT id, who FROM msgs ORDER BY id\n\
    service guest ./svc_guest\n\
    uri /guest guest\n\
    grant guest main 1\n";

const ONE_DIALOG: &str = "launch guest\n\
    accept GET /guest\n\
    dialog 0\n\
    bytes guest 000000174100000000000000000001ade0b876903df1a0e56a5d40\n\
    bytes guest 0000000a42000000000000000100\n\
    bytes guest 000000154500c80a746578742f706c61696e00000000026f6b\n";

const ONE_DIALOG_PRINTED: &str =
    "heard guest 1 0000001e010000000000010100000000000000000001ade0b876903df1a0e56a5d40\n\
    heard guest 1 000000310200000028474554202f677565737420485454502f312e310d0a486f73743a206c6f63616c686f73740d0a0d0a00000000\n\
    heard guest 1 000000050400000000\n\
    heard guest 1 000000280502000000020100000000000000010200000003616e6e0100000000000000020200000003626f62\n\
    answer 0 HTTP/1.1 200 OK\\x0d\\x0aContent-Type: text/plain\\x0d\\x0aContent-Length: 2\\x0d\\x0aConnection: close\\x0d\\x0a\\x0d\\x0aok\n";

const TWO_SESSIONS: &str = "launch guest\n\
    accept GET /guest\n\
    dialog 0\n\
    bytes guest 000000174100000000000000000001ade0b876903df1a0e56a5d40\n\
    bytes guest 000000174100000000000000000001ade0b876903df1a0e56a5d40\n";

const TWO_SESSIONS_PRINTED: &str =
    "heard guest 1 0000001e010000000000010100000000000000000001ade0b876903df1a0e56a5d40\n\
    heard guest 1 000000310200000028474554202f677565737420485454502f312e310d0a486f73743a206c6f63616c686f73740d0a0d0a00000000\n\
    heard guest 1 000000050400000000\n\
    heard guest 1 000000050400000001\n";

/// How a run ended, and what it printed.
#[derive(Drop)]
struct Ended {
    status: Status,
    printed: Vec<u8>,
}

/// A run ended with this status, and printed this.
fn ends(rt: &impl Abort, ended: &Ended, status: Status, printed: &[u8]) {
    holds(rt, ended.status == status, "status");
    same(rt, &ended.printed, printed);
}

/// Runs these words over files in memory, whose pulls of the numbers in `pulls` fail, and an out with
/// so much room, whose puts of the numbers in `puts` fail.
fn run<R: Abort + Wait + Threads + Sync>(
    rt: &R,
    alloc: Global,
    words: &[&str],
    entries: &[Entry<'_>],
    pulls: &[u64],
    room: usize,
    puts: &[u64],
) -> Ended {
    let words = owned(rt, alloc, words);
    let out = MemorySink::new(alloc, room, puts).expect(rt, MEMORY);
    let further = absent(alloc).expect(rt, MEMORY);
    let mut world = Fitted {
        outside: Some(Outside {
            files: MemoryFiles::new(entries, 4096, pulls),
            out,
            seed: [0; 32],
        }),
        further: Some(further),
    };
    let (status, record) = okws(rt, alloc, &words, &mut world);
    drop(record);
    match &world.outside {
        Some(all) => Ended {
            status,
            printed: Vec::from_slice(alloc, all.out.given()).expect(rt, MEMORY),
        },
        None => panic!(rt; "the objects are out"),
    }
}

/// A site and a script as files.
fn files<'a>(site: &'a str, script: &'a str) -> [Entry<'a>; 2] {
    [
        Entry {
            path: "site",
            bytes: site.as_bytes(),
        },
        Entry {
            path: "script",
            bytes: script.as_bytes(),
        },
    ]
}

const PLAY: [&str; 3] = ["play", "site", "script"];

#[test]
fn a_dialog_is_printed(rt: HostRuntime) {
    let entries = files(SITE, ONE_DIALOG);
    let ended = run(&rt, rt.alloc(), &PLAY, &entries, &[], 4096, &[]);
    ends(&rt, &ended, Status::Ok, ONE_DIALOG_PRINTED.as_bytes());
}

#[test]
fn two_sessions_are_opened(rt: HostRuntime) {
    let entries = files(SITE, TWO_SESSIONS);
    let ended = run(&rt, rt.alloc(), &PLAY, &entries, &[], 4096, &[]);
    ends(&rt, &ended, Status::Ok, TWO_SESSIONS_PRINTED.as_bytes());
}

#[test]
fn out_may_be_full_at_any_byte(rt: HostRuntime) {
    let whole = ONE_DIALOG_PRINTED.as_bytes();
    let entries = files(SITE, ONE_DIALOG);
    for room in 0..whole.len() {
        let ended = run(&rt, rt.alloc(), &PLAY, &entries, &[], room, &[]);
        holds(&rt, ended.status == Status::OutFault, "status");
        holds(&rt, ended.printed.len() <= room, "room");
        holds(&rt, whole.starts_with(&ended.printed), "a front");
    }
}

#[test]
fn a_put_that_fails_is_the_last(rt: HostRuntime) {
    let entries = files(SITE, ONE_DIALOG);
    for put in [0, 2, 4] {
        let ended = run(&rt, rt.alloc(), &PLAY, &entries, &[], 4096, &[put as u64]);
        holds(&rt, ended.status == Status::OutFault, "status");
        let lines = ended.printed.iter().filter(|byte| **byte == b'\n').count();
        holds(&rt, lines == put, "lines");
        let whole = ONE_DIALOG_PRINTED.as_bytes();
        holds(&rt, whole.starts_with(&ended.printed), "a front");
    }
}

#[test]
fn broken_files_are_told(rt: HostRuntime) {
    for (site, script, status, printed) in [
        (
            "",
            ONE_DIALOG,
            Status::ConfigRefused,
            "refused: config line 1 rule 1\n",
        ),
        (
            "okws 1\nproxy main\ngrant guest main 1\n",
            ONE_DIALOG,
            Status::ConfigRefused,
            "refused: config line 3 rule 11\n",
        ),
        (
            SITE,
            "bytes guest 00\n",
            Status::ScriptRefused,
            "refused: script line 1 rule 7\n",
        ),
        (
            SITE,
            "accept GET /none\nlaunch nobody\n",
            Status::ScriptRefused,
            "answer 0 HTTP/1.1 404 Not Found\\x0d\\x0aContent-Type: text/plain\\x0d\\x0aContent-Length: 14\\x0d\\x0aConnection: close\\x0d\\x0a\\x0d\\x0a404 Not Found\\x0a\nrefused: script line 2 rule 2\n",
        ),
    ] {
        let ended = run(&rt, rt.alloc(), &PLAY, &files(site, script), &[], 4096, &[]);
        ends(&rt, &ended, status, printed.as_bytes());
    }
}

#[test]
fn files_that_fail_are_told(rt: HostRuntime) {
    let entries = files(SITE, ONE_DIALOG);
    for (words, pulls) in [
        (["play", "site", "nowhere"].as_slice(), [].as_slice()),
        (&["play", "nowhere", "script"], &[]),
        (&["check", "nowhere"], &[]),
        (&["check", "site"], &[0]),
        (&["check", "site"], &[1]),
        (&["play", "site", "script"], &[2]),
    ] {
        let ended = run(&rt, rt.alloc(), words, &entries, pulls, 4096, &[]);
        ends(&rt, &ended, Status::ReadFault, b"read fault\n");
    }
}

#[test]
fn queries_are_listed(rt: HostRuntime) {
    let listing = b"main 1 SELECT id, who FROM msgs ORDER BY id\n".as_slice();
    for (puts, status, printed) in [
        ([].as_slice(), Status::Ok, listing),
        (&[0], Status::OutFault, b""),
    ] {
        let entries = files(SITE, "");
        let ended = run(
            &rt,
            rt.alloc(),
            &["check", "site"],
            &entries,
            &[],
            4096,
            puts,
        );
        ends(&rt, &ended, status, printed);
    }
}

// The text says how the program is called, or how to be told.
fn tells_how_to_call(printed: &[u8]) -> bool {
    printed
        .windows(11)
        .any(|part| part == b"Usage: okws".as_slice())
        || printed
            .windows(12)
            .any(|part| part == b"try '--help'".as_slice())
}

#[test]
fn other_words_are_told_how_to_call(rt: HostRuntime) {
    for words in [
        [].as_slice(),
        &["play", "site"],
        &["check"],
        &["check", "site", "script"],
        &["Check", "site"],
        &["serve", "site"],
        &["--help"],
        &["drill", "0"],
        &["drill", "0", "100001"],
        &["drill", "18446744073709551616", "0"],
        &["drill", "00", "0"],
        &["drill", "0", "+5"],
    ] {
        let ended = run(&rt, rt.alloc(), words, &[], &[], 4096, &[]);
        holds(&rt, ended.status == Status::Usage, "status");
        holds(&rt, tells_how_to_call(&ended.printed), "how to call");
    }
}

// The counts are those of a model of its own, which played the drills' scripts.
#[test]
fn drills_are_summed(rt: HostRuntime) {
    for (words, printed) in [
        (
            ["drill", "18446744073709551615", "0"].as_slice(),
            "boots 2\nrequests 0\npushes 0\nopened 0\nrows 0\nchanged 0\nduplicates 0\ntemplates 0\nlogged 0\nfailed 0\nnomemory 0\n",
        ),
        (
            &["drill", "0", "5"],
            "boots 2\nrequests 3\npushes 2\nopened 2\nrows 0\nchanged 1\nduplicates 0\ntemplates 0\nlogged 0\nfailed 0\nnomemory 0\ndenied 22 1\n",
        ),
        (
            &["drill", "7", "40"],
            "boots 8\nrequests 31\npushes 1\nopened 17\nrows 3\nchanged 5\nduplicates 1\ntemplates 0\nlogged 2\nfailed 0\nnomemory 0\ndenied 12 3\ndenied 14 4\ndenied 21 6\ndenied 22 1\ndenied 31 2\n",
        ),
    ] {
        let ended = run(&rt, rt.alloc(), words, &[], &[], 4096, &[]);
        ends(&rt, &ended, Status::Ok, printed.as_bytes());
    }
}

#[test]
fn a_drill_over_an_out_that_fails(rt: HostRuntime) {
    let ended = run(&rt, rt.alloc(), &["drill", "0", "5"], &[], &[], 4096, &[0]);
    ends(&rt, &ended, Status::OutFault, b"");
}
