//! The service's end of the frames: reading what the server says, saying what a service says, and
//! what a service is written with: its link, its tokens by proxy, its calls with their answers, the
//! forms that requests carry, and templates that it fills with values.
//!
//! A whole service, which answers each request with a line for each row that query 1 of proxy 0
//! selects. It opens its session in its first dialog, and keeps it.
//!
//! ```text
//! fn main(rt: HostRuntime) -> ExitCode {
//!     let (source, sink) = (Incoming::new(rt.reader()), Outgoing::new(io::writer(&rt)));
//!     let Ok(link) = over(rt.alloc(), source, sink) else { return ExitCode::FAILURE };
//!     let Booting::Booted(mut service) = Service::boot(rt.alloc(), link) else { return ExitCode::FAILURE };
//!     match serve(&mut service) {
//!         Ok(()) | Err(Stop::Ended) => ExitCode::SUCCESS,
//!         Err(_) => ExitCode::FAILURE,
//!     }
//! }
//!
//! fn serve<L: Link>(service: &mut Service<L>) -> Result<(), Stop> {
//!     let mut session = None;
//!     for _ in 0..u64::MAX {
//!         if let Event::Push { .. } = service.wait()? { continue; }
//!         if session.is_none() {
//!             session = match service.open(0)? { Some(Answer::Given(session)) => Some(session), _ => None };
//!         }
//!         let lines = lines_of(service, session)?;
//!         let plain = Vec::from_slice(service.alloc, b"text/plain")?;
//!         let (status, content) = match lines {
//!             Some(lines) => (200, lines),
//!             None => (500, String::from_str(service.alloc, "refused\n")?),
//!         };
//!         let nowhere = Vec::new(service.alloc);
//!         service.reply(status, plain, nowhere, content.into_bytes())?;
//!     }
//!     Ok(())
//! }
//! ```
//!
//! The tests have it whole, with `lines_of`, over a link in memory (`kit_tests/src/kit/example.rt`).
#![tactic(auto)]

pub mod answer;
pub mod answering;
pub mod bounded;
pub mod calling;
pub mod escape;
pub mod fill;
pub mod form;
pub mod laws;
pub mod link;
pub mod pages;
pub mod reading;
pub mod receiving;
pub mod saying;
pub mod service;
pub mod standard;
pub mod stop;
