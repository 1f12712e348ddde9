//! The further objects of a server, as one value.

use okws_outer::children::Children;
use okws_outer::conn::Conn;
use okws_outer::door::Door;
use okws_outer::gate::Gate;
use okws_outer::keeper::Keeper;
use okws_outer::network::Network;
use okws_outer::sinks::Sinks;
use okws_outer::stores::Stores;

/// Of which types the further objects of a server are. What threads take or share is Send or Sync.
pub trait Equipment {
    /// The network, which opens the doors.
    type Network: Network<Door: Door<Conn: Send>> + Drop;

    /// The children, which stand behind a lock.
    type Children: Children<Child: Send, Link: Send> + Send + Drop;

    /// The operator's console: lines come in, and answers go out.
    type Console: Conn + Send + Drop;

    /// The stores, which make keepers.
    type Stores: Stores<Keeper: Keeper<Pin: Send>> + Drop;

    /// The sinks by their paths.
    type Sinks: Sinks + Drop;

    /// The gate, which all threads pass.
    type Gate: Gate + Sync + Drop;
}

/// The further objects of a server. They are given by value, so that the run can use them at the same
/// time, put them behind locks and give them to threads.
#[derive(Drop)]
pub struct Objects<N, H, C, S, K, G> {
    /// The network, which opens the doors.
    pub network: N,
    /// The programs that run beside the server.
    pub children: H,
    /// The operator's console.
    pub console: C,
    /// The stores of rows.
    pub stores: S,
    /// The sinks by their paths.
    pub sinks: K,
    /// The gate, at which tests hold the run.
    pub gate: G,
}

/// The further objects of these types.
pub type ObjectsOf<E> = Objects<
    <E as Equipment>::Network,
    <E as Equipment>::Children,
    <E as Equipment>::Console,
    <E as Equipment>::Stores,
    <E as Equipment>::Sinks,
    <E as Equipment>::Gate,
>;

impl<
    N: Network<Door: Door<Conn: Send>> + Drop,
    H: Children<Child: Send, Link: Send> + Send + Drop,
    C: Conn + Send + Drop,
    S: Stores<Keeper: Keeper<Pin: Send>> + Drop,
    K: Sinks + Drop,
    G: Gate + Sync + Drop,
> Equipment for Objects<N, H, C, S, K, G> {
    type Network = N;

    type Children = H;

    type Console = C;

    type Stores = S;

    type Sinks = K;

    type Gate = G;
}
