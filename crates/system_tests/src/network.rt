//! Real doors, whose clients come over the loopback address.

ghost use Rattle.std.specs.Prelude.{IsNone, IsSome, IfNone, IfSome};

use crate::holding::{MEMORY, has_failed, holds};
use okws_outer::conn::Conn;
use okws_outer::door::Door;
use okws_outer::network::Network;
use okws_outer::stream::{Pull, Put};
use real_network::conn::RealConn;
use real_network::network::{RealDoor, RealNetwork};
use std::io;
use std::io::{Read, Write};
use std::net::{Net, SocketAddr, TcpStream};

/// A client of a port, which has sent these bytes.
fn client<R: Net<Stream = TcpStream>>(rt: &R, port: u16, bytes: &[u8]) -> io::Result<TcpStream> {
    let mut stream = TcpStream::connect(rt, SocketAddr::from(([127, 0, 0, 1], port)))?;
    stream.write_all(bytes)?;
    Ok(stream)
}

/// The next connection of a door, which is asked again where none came so far.
fn next_conn(door: &mut RealDoor) -> Option<RealConn<TcpStream>>
    requires { IsNone (⟦<RealDoor as Door>⟧.entrance door.old).out }
    ensures some { IfSome result (λ _. IsSome (⟦<RealDoor as Door>⟧.entrance door.new).out) }
    ensures none { IfNone result (IsNone (⟦<RealDoor as Door>⟧.entrance door.new).out) }
{
    for _ in 0..100u8 {
        match door.accept() {
            Ok(Some(conn)) => return Some(conn),
            Ok(None) => {}
            Err(_) => return None,
        }
    }
    None
}

/// Accepts, takes one piece of at most 8 bytes, gives an answer and finishes; what was taken, and what
/// was given.
fn serve_one(door: &mut RealDoor, answer: &[u8]) -> Option<(Pull, Put)>
    requires { IsNone (⟦<RealDoor as Door>⟧.entrance door.old).out }
    ensures { IsNone (⟦<RealDoor as Door>⟧.entrance door.new).out }
{
    let mut conn = next_conn(door)?;
    let pull = conn.pull(&mut [0u8; 8]);
    let put = conn.put(answer);
    door.finish(conn);
    Some((pull, put))
}

#[test]
fn doors_share_one_port(rt: HostRuntime) {
    let mut network = RealNetwork::new(&rt, rt.stderr(), rt.alloc());
    let Ok(mut doors) = network.listen(rt.alloc(), 0, 2, None) else {
        panic!(rt; "not as planned");
    };
    let (Some(mut second), Some(mut first)) = (doors.pop(), doors.pop()) else {
        panic!(rt; "not as planned");
    };
    let Some(port) = first.port() else {
        panic!(rt; "not as planned");
    };
    holds(&rt, second.port() == Some(port), "one port");
    let taken = network.listen(rt.alloc(), port, 1, None);
    holds(&rt, has_failed(taken), "taken");
    let mut one = client(&rt, port, b"one").expect(&rt, "no connection");
    let mut other = client(&rt, port, b"other").expect(&rt, "no connection");
    holds(
        &rt,
        serve_one(&mut second, b"first") == Some((Pull::Took(3), Put::Done)),
        "the second door",
    );
    holds(
        &rt,
        serve_one(&mut first, b"second") == Some((Pull::Took(5), Put::Done)),
        "the first door",
    );
    let mut heard = Vec::new(rt.alloc());
    one.read_to_end(&mut heard).expect(&rt, "no answer");
    other.read_to_end(&mut heard).expect(&rt, "no answer");
    holds(&rt, heard.as_slice() == b"firstsecond".as_slice(), "heard");
    doors.push(first).expect(&rt, MEMORY);
    doors.push(second).expect(&rt, MEMORY);
    network.close(doors);
    holds(&rt, network.faults() == 1, "faults");
    let again = network.listen(rt.alloc(), port, 1, None);
    holds(&rt, again.is_ok(), "again");
}

#[test]
fn early_answer_is_seen(rt: HostRuntime) {
    let mut network = RealNetwork::new(&rt, rt.stderr(), rt.alloc());
    let Ok(mut doors) = network.listen(rt.alloc(), 0, 1, None) else {
        panic!(rt; "not as planned");
    };
    let Some(mut door) = doors.pop() else {
        panic!(rt; "not as planned");
    };
    let Some(port) = door.port() else {
        panic!(rt; "not as planned");
    };
    let mut one = client(&rt, port, &[b'a'; 40_000]).expect(&rt, "no connection");
    let answer = b"HTTP/1.1 413 Content Too Large\r\n";
    holds(
        &rt,
        serve_one(&mut door, answer) == Some((Pull::Took(8), Put::Done)),
        "an early answer",
    );
    let mut heard = Vec::new(rt.alloc());
    one.read_to_end(&mut heard).expect(&rt, "no answer");
    holds(&rt, heard.as_slice() == answer.as_slice(), "heard");
}

#[test]
fn client_that_says_nothing_has_ended(rt: HostRuntime) {
    let mut network = RealNetwork::new(&rt, rt.stderr(), rt.alloc());
    let Ok(mut doors) = network.listen(rt.alloc(), 0, 1, None) else {
        panic!(rt; "not as planned");
    };
    let Some(mut door) = doors.pop() else {
        panic!(rt; "not as planned");
    };
    let Some(port) = door.port() else {
        panic!(rt; "not as planned");
    };
    drop(client(&rt, port, b"").expect(&rt, "no connection"));
    let Some((pull, _)) = serve_one(&mut door, b"answer") else {
        panic!(rt; "not as planned");
    };
    holds(&rt, pull == Pull::End, "the end");
}

#[test]
fn client_that_says_nothing_is_late(rt: HostRuntime) {
    let mut network = RealNetwork::new(&rt, rt.stderr(), rt.alloc());
    let Ok(mut doors) = network.listen(rt.alloc(), 0, 2, Some(1)) else {
        panic!(rt; "not as planned");
    };
    let Some(mut door) = doors.pop() else {
        panic!(rt; "not as planned");
    };
    let Some(port) = door.port() else {
        panic!(rt; "not as planned");
    };
    let mut silent = client(&rt, port, b"").expect(&rt, "no connection");
    let _other = client(&rt, port, b"other").expect(&rt, "no connection");
    holds(
        &rt,
        serve_one(&mut door, b"answer") == Some((Pull::Took(5), Put::Done)),
        "who says something first",
    );
    let Some((pull, _)) = serve_one(&mut door, b"answer") else {
        panic!(rt; "not as planned");
    };
    holds(&rt, pull == Pull::Failed, "too late");
    let mut heard = Vec::new(rt.alloc());
    silent.read_to_end(&mut heard).expect(&rt, "no end");
    holds(&rt, heard.as_slice() == b"answer".as_slice(), "heard");
    holds(&rt, door.faults() == 1, "faults");
    doors.push(door).expect(&rt, MEMORY);
    network.close(doors);
}

#[test]
fn nobody_comes_to_a_door(rt: HostRuntime) {
    let mut network = RealNetwork::new(&rt, rt.stderr(), rt.alloc());
    for patience in [None, Some(5)] {
        let Ok(mut doors) = network.listen(rt.alloc(), 0, 2, patience) else {
            panic!(rt; "not as planned");
        };
        let (Some(mut second), Some(mut first)) = (doors.pop(), doors.pop()) else {
            panic!(rt; "not as planned");
        };
        let Some(port) = first.port() else {
            panic!(rt; "not as planned");
        };
        let none = first.accept();
        holds(&rt, matches!(&none, Ok(None)), "none came");
        first.shut();
        let _one = client(&rt, port, b"one").expect(&rt, "no connection");
        holds(
            &rt,
            serve_one(&mut second, b"second") == Some((Pull::Took(3), Put::Done)),
            "the other door",
        );
        second.shut();
        holds(&rt, client(&rt, port, b"two").is_err(), "refused");
        holds(&rt, first.faults() == 0 && second.faults() == 0, "faults");
        doors.push(first).expect(&rt, MEMORY);
        doors.push(second).expect(&rt, MEMORY);
        network.close(doors);
    }
}
