//! Laws over what the contract of a run says.

ghost use Rattle.okws_server.specs.Isolation.{AgreeingRunsGiveTheSame, AgreeingServersGiveTheSame};

use two_worlds::laws::hears_the_same;

/// Where the records of two runs of `play` agree for a service, whatever else differs between the runs,
/// the links of its incarnations were given the same bytes in both.
pub fn agreeing_runs_give_the_same()
    ensures { AgreeingRunsGiveTheSame }
{
    hears_the_same();
}

/// Where the records of two servers' runs agree for a service, whatever else differs between the runs, each
/// incarnation of it heard the same bytes in both, and the same was due where its link failed.
pub fn agreeing_servers_give_the_same()
    ensures { AgreeingServersGiveTheSame }
{
    hears_the_same();
}
