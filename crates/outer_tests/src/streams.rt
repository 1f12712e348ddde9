//! Each object in memory on a plain way and on the ways that no clause tells: which calls fail, and
//! where the bytes are cut. Not tested here: real files, which the program's runs have.

use crate::holding::{MEMORY, holds};
use okws_outer::files::Files;
use okws_outer::memory::files::{Entry, MemoryFiles};
use okws_outer::memory::link::{FedLink, MemoryLink};
use okws_outer::memory::passing::PassingLink;
use okws_outer::memory::sink::MemorySink;
use okws_outer::memory::source::MemorySource;
use okws_outer::printing::print;
use okws_outer::reading::{ReadError, read_file, read_whole};
use okws_outer::stream::{Link, Pull, Put, Sink, Source};

const FILES: [Entry<'static>; 2] = [
    Entry {
        path: "site",
        bytes: b"okws 1\n",
    },
    Entry {
        path: "script",
        bytes: b"launch guest\n",
    },
];

fn is_read(read: &Result<Vec<u8>, ReadError>, want: Result<&[u8], ReadError>) -> bool {
    match (read, want) {
        (Ok(bytes), Ok(want)) => bytes.as_slice() == want,
        (Err(error), Err(want)) => *error == want,
        _ => false,
    }
}

#[test]
fn source_comes_in_pieces(rt: HostRuntime) {
    let mut source = MemorySource::new(b"hello", 2, &[1]);
    let mut piece = [0u8; 4];
    for (pull, bytes) in [
        (Pull::Took(2), b"he".as_slice()),
        (Pull::Failed, b"he"),
        (Pull::Took(2), b"ll"),
        (Pull::Took(1), b"ol"),
        (Pull::End, b"ol"),
    ] {
        holds(&rt, source.pull(&mut piece) == pull, "pull");
        holds(&rt, &piece[..2] == bytes, "piece");
    }
    holds(&rt, source.faults() == 1, "faults");
}

#[test]
fn whole_source_is_read_to_the_limit(rt: HostRuntime) {
    for (limit, want) in [
        (4, b"hello".as_slice()),
        (3, b"hell"),
        (9, b"hello"),
        (0, b"h"),
    ] {
        let mut source = MemorySource::new(b"hello", 2, &[]);
        let read = read_whole(rt.alloc(), &mut source, limit);
        holds(&rt, is_read(&read, Ok(want)), "read");
    }
}

#[test]
fn put_past_the_room_stops(rt: HostRuntime) {
    let mut sink = MemorySink::new(rt.alloc(), 5, &[1]).expect(&rt, MEMORY);
    for (put, bytes) in [
        (Put::Done, b"abc".as_slice()),
        (Put::Stopped(0), b"xyz"),
        (Put::Stopped(2), b"def"),
        (Put::Stopped(0), b"g"),
        (Put::Done, b""),
    ] {
        holds(&rt, sink.put(bytes) == put, "put");
    }
    holds(&rt, sink.given() == b"abcde".as_slice(), "given");
    holds(&rt, sink.faults() == 3, "faults");
}

#[test]
fn link_is_cut_in_single_bytes(rt: HostRuntime) {
    let mut link = MemoryLink::new(rt.alloc(), 1, &[2]);
    let mut piece = [0u8; 8];
    link.feed(b"ab").expect(&rt, MEMORY);
    holds(&rt, link.pull(&mut piece) == Pull::Took(1), "pull");
    link.feed(b"c").expect(&rt, MEMORY);
    link.feed_end();
    holds(&rt, link.left() == b"bc".as_slice(), "left");
    for pull in [Pull::Took(1), Pull::Failed, Pull::Took(1), Pull::End] {
        holds(&rt, link.pull(&mut piece) == pull, "pull");
    }
    holds(&rt, piece[0] == b'c', "piece");
    holds(&rt, link.is_ended(), "ended");
}

#[test]
fn link_takes_what_room_was_made_for(rt: HostRuntime) {
    let mut link = MemoryLink::new(rt.alloc(), 1, &[]);
    holds(&rt, link.put(b"a") == Put::Stopped(0), "put");
    link.make_room(2).expect(&rt, MEMORY);
    holds(&rt, link.put(b"ab") == Put::Done, "put");
    holds(&rt, link.given() == b"ab".as_slice(), "given");
    holds(&rt, link.faults() == 1, "faults");
}

#[test]
fn passing_link_takes_all_that_is_put(rt: HostRuntime) {
    let mut link = PassingLink::new(rt.alloc());
    let mut piece = [0u8; 2];
    link.feed(b"abc").expect(&rt, MEMORY);
    link.feed_end();
    for (pull, left) in [
        (Pull::Took(2), b"c".as_slice()),
        (Pull::Took(1), b""),
        (Pull::End, b""),
    ] {
        holds(&rt, link.put(b"abc") == Put::Done, "put");
        holds(&rt, link.pull(&mut piece) == pull, "pull");
        holds(&rt, link.left() == left, "left");
    }
    holds(&rt, link.is_ended(), "ended");
}

#[test]
fn files_are_read_by_their_paths(rt: HostRuntime) {
    let mut files = MemoryFiles::new(&FILES, 3, &[]);
    for (path, want) in [
        ("script", Ok(b"launch guest\n".as_slice())),
        ("nowhere", Err(ReadError::Failed)),
        ("site", Ok(b"okws 1\n")),
    ] {
        let read = read_file(rt.alloc(), &mut files, path, 99);
        holds(&rt, is_read(&read, want), path);
    }
}

#[test]
fn printing_goes_on_after_a_fault(rt: HostRuntime) {
    let mut out = MemorySink::new(rt.alloc(), 9, &[1]).expect(&rt, MEMORY);
    let mut stopped = false;
    for bytes in [b"ab".as_slice(), b"cd", b"ef"] {
        print(&mut out, &mut stopped, bytes);
    }
    holds(&rt, stopped, "stopped");
    holds(&rt, out.given() == b"ab".as_slice(), "given");
}
