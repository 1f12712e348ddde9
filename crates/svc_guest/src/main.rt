//! The guestbook: a service that shows entries and takes new ones. It speaks frames over its standard input and output.
#![tactic(auto)]

use guestbook::guest::guest;
use std::io;
use std::os::fd::AsRawFd;
use std::process::ExitCode;
use svc_kit::answering::over_answering;
use svc_kit::standard::{Incoming, Outgoing};
use svc_kit::stop::Stop;

/// The status is 0 where the server ended it, and else 1.
fn main(rt: HostRuntime) -> ExitCode {
    let input = rt.stdin().as_raw_fd();
    let source = Incoming::new(rt.reader());
    let sink = Outgoing::new(io::writer(&rt));
    match over_answering(rt.alloc(), input, source, sink) {
        Ok(mut link) => match guest(&rt, rt.alloc(), &mut link) {
            Stop::Ended => ExitCode::from(0),
            _ => ExitCode::from(1),
        },
        Err(_) => ExitCode::from(1),
    }
}
