//! What a run is given, and what it leaves.

use monitor_model::record::Record;
use site_run::ended::Counts;

/// The connections that a run may begin at most: 2^62, which no run comes to.
pub const MOST_BEGUN: u64 = 4_611_686_018_427_387_904;

/// The objects of a run.
#[derive(Drop)]
pub struct Outfit<D, O, F, K, S, G> {
    /// The doors. Door w is served by number w.
    pub doors: Vec<D>,
    /// The operator's console.
    pub console: O,
    /// The programs that run beside the server.
    pub children: F,
    /// The keeper of each proxy's rows, by the proxies' numbers.
    pub keepers: Vec<K>,
    /// Where the log's text goes.
    pub log: S,
    /// The gate, which all workers pass.
    pub gate: G,
}

/// How far a run goes, and what it keeps.
#[derive(Clone, Copy)]
pub struct Limits {
    /// How many connections are begun.
    pub connections: u64,
    /// Whether what happens is kept in memory.
    pub keeps: bool,
}

/// How a console ended.
#[derive(Clone, Copy, Debug, PartialEq, Eq)]
pub struct Ending {
    /// How many connections are begun, where the console ended by a stop.
    pub stopped: Option<u64>,
    /// Whether a call of the console failed.
    pub failed: bool,
}

/// What a run did.
#[derive(Drop)]
pub struct Ran {
    /// What happened.
    pub record: Record,
    /// How often some of it did.
    pub counts: Counts,
    /// Whether the log lacks some of its text, since a put to its sink has failed.
    pub log_failed: bool,
    /// Whether the console was left since a call of it has failed.
    pub console_failed: bool,
    /// Whether memory was refused to a worker outside its connections, or to the run's end.
    pub starved: bool,
}

/// What a run leaves: its objects, and what it did. Where memory was refused before it began, it did
/// nothing, and the keepers and the log's sink, of which no call was made, may have been let go.
#[derive(Drop)]
pub struct Left<D, O, F, K, S, G> {
    /// The doors, in their order.
    pub doors: Vec<D>,
    /// The operator's console.
    pub console: O,
    /// The programs that ran beside the server.
    pub children: F,
    /// The keeper of each proxy's rows, by the proxies' numbers.
    pub keepers: Vec<K>,
    /// Where the log's text went.
    pub log: Option<S>,
    /// The gate.
    pub gate: G,
    /// What the run did, if it began.
    pub ran: Option<Ran>,
}
