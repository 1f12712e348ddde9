//! Laws over the definitions.

ghost use Rattle.two_worlds.specs.Laws.{RowsStaySound, AnswersByView, ViewsByView, OpensByOwn, ForeignIsUnseen, IsolatedAtProxy, IsolatedAtPubd, IsolatedAtLog, HearsTheSame, IsDueTheSame, TellsTheSame, HaveStories, RunsHaveStories, ServersHaveStories};

/// Along every journal of a lawful configuration no two rows of a table have one KEY value.
pub fn rows_stay_sound()
    ensures { RowsStaySound }
{}

/// What a granted query answers, and the view that it leaves, are told by the view before it.
pub fn queries_go_by_views()
    ensures answers { AnswersByView }
    ensures views { ViewsByView }
{}

/// Opens go by own events alone, and foreign entries aren't seen.
pub fn own_events_decide()
    ensures opens { OpensByOwn }
    ensures foreign { ForeignIsUnseen }
{}

/// Where the journals of two runs look the same to a service, its entries are answered the same in
/// both, whatever others entered between and however often they were launched.
pub fn services_are_isolated()
    ensures proxy { IsolatedAtProxy }
    ensures pubd { IsolatedAtPubd }
    ensures oklogd { IsolatedAtLog }
{}

/// In two lawful records that agree for a service each of its incarnations heard the same bytes, and the
/// same was due where its link failed; and where what is printed tells all that was heard, it tells the
/// same of each.
pub fn hears_the_same()
    ensures heard { HearsTheSame }
    ensures due { IsDueTheSame }
    ensures told { TellsTheSame }
{}

/// A record whose dialogs fit its journals has a story of each service, and so have each run of a script
/// and each record of a server's workers.
pub fn runs_have_stories()
    ensures records { HaveStories }
    ensures runs { RunsHaveStories }
    ensures servers { ServersHaveStories }
{}
