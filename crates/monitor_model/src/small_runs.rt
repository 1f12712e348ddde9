//! Records of small runs of a server: lawful ones, and for each part of legality one that fails by it alone.

ghost use Rattle.std.specs.Prelude.{ℕ, List};
ghost use Rattle.monitor_model.specs.Legality.{IsLegal, FailsBy, ListsMakeJournals};
ghost use Rattle.monitor_model.specs.ShortRun.{short_run, one_order, wrong_answer, private_copy, untrue_miss};
ghost use Rattle.monitor_model.specs.Legality as part;
ghost use Rattle.monitor_model.specs.SmallRuns.{one, quiet, silent_console, ended_child, idle, invented_call, unordered_publication, undeclared_publication, unasked_accept, skipped_column, forgotten_crash, late_launch};

/// A run in which no connection came is legal.
pub fn idle_run()
    ensures { (seed : List ℕ) → IsLegal one seed quiet (idle seed) }
{}

/// A run in which a session is opened, a query called and replied to, a page pushed, and a service that ends launched again, is legal.
pub fn short_run_of_one_service()
    ensures { (seed : List ℕ) → IsLegal one seed one_order (short_run seed) }
{}

/// A run whose worker answered from a copy of the proxy's column: its list isn't the journal's.
pub fn a_private_copy()
    ensures { (seed : List ℕ) → ListsMakeJournals (private_copy seed) → ⊥ }
{}

/// An answer that isn't the verdict of its entry.
pub fn a_wrong_answer()
    ensures { (seed : List ℕ) → FailsBy part.Lawful one seed one_order (wrong_answer seed) }
{}

/// A Missed that names another incarnation than the cell had.
pub fn a_miss_that_is_not_true()
    ensures { (seed : List ℕ) → FailsBy part.Missed one seed quiet (untrue_miss seed) }
{}

/// A call in a journal that its worker didn't make: the lists and journals aren't one another's.
pub fn a_call_that_nobody_made()
    ensures { (seed : List ℕ) → FailsBy part.Made one seed quiet (invented_call seed) }
{}

/// A publication by a door's worker: its list isn't made of the pieces that it may have.
pub fn a_publication_that_nobody_ordered()
    ensures { (seed : List ℕ) → FailsBy part.Pieced one seed quiet (unordered_publication seed) }
{}

/// A publication of a template that isn't declared: pubd's journal isn't lawful.
pub fn a_publication_of_nothing()
    ensures { (seed : List ℕ) → FailsBy part.Lawful one seed silent_console (undeclared_publication seed) }
{}

/// An Accept of a request that came on no connection.
pub fn an_accept_of_no_connection()
    ensures { (seed : List ℕ) → FailsBy part.Served one seed quiet (unasked_accept seed) }
{}

/// A launch that skips a column: its piece isn't whole.
pub fn a_launch_that_skips_a_column()
    ensures { (seed : List ℕ) → FailsBy part.Launched one seed quiet (skipped_column seed) }
{}

/// A crash that is entered and leads to nothing.
pub fn a_crash_that_leads_to_nothing()
    ensures { (seed : List ℕ) → FailsBy part.Caused one seed ended_child (forgotten_crash seed) }
{}

/// A first launch that isn't the first thing that is done.
pub fn a_launch_that_is_late()
    ensures { (seed : List ℕ) → FailsBy part.First one seed quiet (late_launch seed) }
{}
