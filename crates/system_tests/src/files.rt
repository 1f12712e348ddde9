//! Real files and sinks.

use crate::holding::{MEMORY, holds};
use okws_outer::reading::{ReadError, read_file};
use okws_outer::sinks::Sinks;
use okws_outer::stream::{Put, Sink};
use okws_system::files::RealFiles;
use okws_system::sinks::RealSinks;
use std::{fs, process};

#[test]
fn sink_goes_on_behind_what_stands_there(rt: HostRuntime) {
    let number = process::id(rt.process());
    let path = format!(in rt.alloc(); "/tmp/okws-sink-{number}");
    let path = path.expect(&rt, MEMORY);
    let mut sinks = RealSinks::new(&rt, rt.stderr());
    for bytes in [b"one\n".as_slice(), b"two\n"] {
        let Ok(mut sink) = sinks.open(path.as_str()) else {
            panic!(rt; "not as planned");
        };
        holds(&rt, sink.put(bytes) == Put::Done, "put");
        sinks.close(path.as_str(), sink);
    }
    holds(&rt, sinks.open("/nowhere/log").is_err(), "nowhere");
    holds(&rt, sinks.faults() == 1, "faults");
    let mut files = RealFiles::new(&rt);
    let read = read_file(rt.alloc(), &mut files, path.as_str(), 99);
    fs::remove_file(&rt, path.as_str()).expect(&rt, "no file");
    let Ok(bytes) = read else {
        panic!(rt; "not as planned");
    };
    holds(&rt, bytes.as_slice() == b"one\ntwo\n".as_slice(), "read");
}

#[test]
fn sink_at_a_full_device_counts_each_put(rt: HostRuntime) {
    let mut sinks = RealSinks::new(&rt, rt.stderr());
    let Ok(mut sink) = sinks.open("/dev/full") else {
        panic!(rt; "not as planned");
    };
    holds(&rt, sink.put(b"one\n") == Put::Stopped(0), "one");
    holds(&rt, sink.put(b"two\n") == Put::Stopped(0), "two");
    holds(&rt, sink.faults() == 2, "faults of a sink");
    sinks.close("/dev/full", sink);
    holds(&rt, sinks.faults() == 2, "faults");
}

#[test]
fn what_is_no_file_is_a_fault(rt: HostRuntime) {
    let mut files = RealFiles::new(&rt);
    for path in ["/nowhere", "/tmp"] {
        let read = read_file(rt.alloc(), &mut files, path, 99);
        holds(&rt, matches!(read, Err(ReadError::Failed)), path);
    }
}
