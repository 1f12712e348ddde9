//! Laws over the definitions.

ghost use Rattle.std.specs.Prelude.{◌≡◌, ◌+◌, ◌<◌, ◌∷◌, ℕ, List, [], Option, None, length, Bool};
ghost use Rattle.okws_base.specs.declared.value.Token.{Token};
ghost use Rattle.okws_base.specs.declared.denial.Rule.TheVariants as rule;
ghost use Rattle.okws_plan.specs.declared.event.Mark.{Mark};
ghost use Rattle.okws_plan.specs.declared.configuration.Config.{Config};
ghost use Rattle.okws_plan.specs.declared.event.Call.{Call};
ghost use Rattle.okws_plan.specs.Configuration.{first_rows};
ghost use Rattle.monitor_model.specs.declared.verdict.Verdict.TheVariants as verdict;
ghost use Rattle.monitor_model.specs.declared.verdict.Got.TheVariants as got;
ghost use Rattle.monitor_model.specs.declared.verdict.Noted.TheVariants as noted;
ghost use Rattle.monitor_model.specs.Proxy.{open_verdict, call_verdict, rows};
ghost use Rattle.monitor_model.specs.Pubd.{drain_verdict, get_verdict, edition};
ghost use Rattle.monitor_model.specs.Logd.{log_verdict, log_text};
ghost use Rattle.monitor_model.specs.Okd.{accept_verdict};
ghost use Rattle.monitor_model.specs.Launcher.{LauncherLaw, tries, begun};
ghost use Rattle.monitor_model.specs.Seen.{Seen};
ghost use Rattle.monitor_model.specs.Course.{Speaker, IsDialog};
ghost use Rattle.monitor_model.specs.Cell.{CellLaw, heard, said, boot_frame};
ghost use Rattle.monitor_model.specs.declared.record.End.TheVariants as end;
ghost use Rattle.monitor_model.specs.declared.record.CellEvent.TheVariants as cell;
ghost use Rattle.frame_codec.specs.Spelling.{server_spelling};
ghost use Rattle.monitor_model.specs.Columns.{ProxyLaw, PubdLaw, LogLaw, OkdLaw, faults, WithinCount};
ghost use Rattle.monitor_model.specs.Worker.{Lives, nothing_seen};
ghost use Rattle.monitor_model.specs.Own.{OpenIsPrivate, RevokedIsNotAllowed, HeardGrows};
ghost use Rattle.monitor_model.specs.Complete.{LiveTokensAreOpened, LawfulCallsAreAnswered, FittingRowsAreTold, FailedIsMarked, WholeRunsAreNotRefused};
ghost use Rattle.monitor_model.specs.Booting.{LegalRunsBootFirst, TokensAreKnown, StaleCallsWereRevoked};
ghost use Rattle.monitor_model.specs.Stage.{first_stage};
ghost use Rattle.monitor_model.specs.Script.{PlaysAll};
ghost use Rattle.monitor_model.specs.Played.{IsPlayed, IsRefusedAt, IsStopped, record_of, RunsAreLawful, RunsArePlayed, RunsAreUnharmed, RunsTellAll, RunsAreAnswered, RunsTakeAll, RunsEnterAll, RunsAnswerOnce};
ghost use Rattle.okws_plan.specs.declared.script.Line.{Line};
ghost use Rattle.okws_plan.specs.declared.script.Line.TheVariants as line;
ghost use Rattle.monitor_model.specs.declared.record.Record.{Record};

/// Before anything happened every Open shows an unknown token, no session is there, nothing is pushed, and nobody is live.
pub fn nothing_at_first()
    ensures open { (s k : ℕ) (shown : Token) → open_verdict [] s k shown ≡ verdict.Denied rule.UnknownToken }
    ensures call { (C : Config) (p : ℕ) (call : Call) (mark : Mark) → call_verdict C p [] call mark ≡ verdict.Denied rule.NoSession }
    ensures rows { (C : Config) (p : ℕ) → rows C p [] ≡ first_rows C p }
    ensures drain { (C : Config) (s k : ℕ) → drain_verdict C [] s k ≡ [] }
    ensures get { (C : Config) (s k : ℕ) (name : List ℕ) → get_verdict C [] s k name ≡ got.Denied rule.StaleAtPubd }
    ensures publish { (t : ℕ) → edition [] t ≡ 0 }
    ensures log { (C : Config) (s k : ℕ) (text : List ℕ) → log_verdict C [] s k text ≡ noted.Denied rule.StaleAtLog }
    ensures text { (C : Config) → log_text C [] ≡ [] }
    ensures launcher { (C : Config) → LauncherLaw C [] }
    ensures begun { (s : ℕ) → begun [] s ≡ 0 }
    ensures tries { (s : ℕ) → tries [] s ≡ 0 }
{}

/// A dialog that is superseded before its Drain has no items, and its worker saw nothing new.
pub fn superseded_at_once()
    ensures { (C : Config) (w : Speaker) (since left due head content : List ℕ) (J : Seen) → w.incarnation < w.incarnation + 1 → IsDialog C w since left due head content J [] (end.Superseded (w.incarnation + 1)) J }
{}

/// After its Boot, and before it was retired or spoke, an incarnation heard its Boot frame, and said nothing.
pub fn a_boot_is_heard()
    ensures law { CellLaw (cell.Boot 1 ∷ []) }
    ensures heard { (C : Config) (seed : List ℕ) (s : ℕ) → heard C seed s 1 (cell.Boot 1 ∷ []) ≡ server_spelling (boot_frame C seed s 1) }
    ensures said { said 1 (cell.Boot 1 ∷ []) ≡ [] }
{}

/// A worker with no pieces has seen nothing, and empty journals keep every column's law.
pub fn nothing_is_lawful()
    ensures lives { (C : Config) (R : Record) (w : ℕ) → Lives C R w [] (nothing_seen (length R.proxies)) }
    ensures proxy { (C : Config) (seed : List ℕ) (p : ℕ) → ProxyLaw C seed p [] }
    ensures pubd { (C : Config) → PubdLaw C [] }
    ensures log { LogLaw [] }
    ensures okd { OkdLaw [] }
    ensures faults { (rose : Option ℕ) → WithinCount rose (faults []) }
{}

/// An empty script prints nothing, and a `boot` before any `begin` breaks rule 3.
pub fn empty_script()
    ensures plays { (C : Config) (seed : List ℕ) → PlaysAll C seed [] [] (first_stage C) }
    ensures played { (C : Config) (seed : List ℕ) (R : Record) (printed : List ℕ) → IsPlayed C seed [] R printed → R ≡ record_of (first_stage C) }
    ensures stopped { (C : Config) (seed : List ℕ) (s : ℕ) (R : Record) (printed : List ℕ) → IsStopped C seed [] (line.Boot s) 3 R printed → IsPlayed C seed [] R printed }
    ensures refused { (C : Config) (seed : List ℕ) (s : ℕ) → IsRefusedAt C seed [] (line.Boot s) 3 [] (first_stage C) }
{}

/// What an Open is answered depends on the service's own entries alone.
pub fn open_is_private()
    ensures { OpenIsPrivate }
{}

/// After its service was revoked, a Call isn't allowed.
pub fn revoked_is_not_allowed()
    ensures { RevokedIsNotAllowed }
{}

/// In a lawful journal an Open of a live incarnation with its own token is Opened below the limit.
pub fn live_tokens_are_opened()
    ensures { LiveTokensAreOpened }
{}

/// A Call that breaks no rule is answered by what its statement means, where this fits a frame; it is
/// Failed over the mark of a fault alone.
pub fn lawful_calls_are_answered()
    ensures answered { LawfulCallsAreAnswered }
    ensures told { FittingRowsAreTold }
    ensures failed { FailedIsMarked }
{}

/// What an incarnation heard grows, at each of its dialogs, by what the dialog heard.
pub fn heard_grows()
    ensures { HeardGrows }
{}

/// A script's run, whose lines name what is declared, is lawful where no Call is marked Fault, and no
/// dialog of it ends by a fault of its link or for want of memory.
pub fn script_runs_are_lawful()
    ensures lawful { RunsAreLawful }
    ensures played { RunsArePlayed }
    ensures unharmed { RunsAreUnharmed }
{}

/// What a script's run prints, whose lines name what is declared, is lines of frames and of answers, and by
/// them each incarnation heard just what its cell says that it heard.
pub fn script_runs_tell_all()
    ensures { RunsTellAll }
{}

/// Each frame that was heard in a dialog of a script's run, whose lines name what is declared, is what the
/// verdict of its entry in the run's journals says, and each dialog fits its end.
pub fn script_runs_are_answered()
    ensures { RunsAreAnswered }
{}

/// What the last incarnation that was booted of a service said in a script's run, whose lines name what is
/// declared, and what is left on its link, is all that came from it. Once the incarnation is gone nothing is
/// left, and all that came is what it said, and what its end left unread: nothing where the bytes ended
/// between frames, and after BadFrame some bytes that begin no frame.
pub fn script_runs_take_all()
    ensures { RunsTakeAll }
{}

/// In a script's run, whose lines name what is declared, what the entries of an incarnation at a column ask,
/// and what the monitor's verdicts on them are, is just what its dialogs said to the column and heard, but
/// for what was answered by NoMemory, in order.
pub fn script_runs_enter_all()
    ensures { RunsEnterAll }
{}

/// Each request of a script's run, whose lines name what is declared, is answered once in what it prints,
/// unless its dialog wasn't begun or is open.
pub fn script_runs_answer_once()
    ensures { RunsAnswerOnce }
{}

/// A script whose lines are a run isn't also refused, whichever frames were 0B.
pub fn whole_runs_are_not_refused()
    ensures { WholeRunsAreNotRefused }
{}

/// A token of an incarnation that was installed is known where it is shown behind its service's Install, and
/// stale only where its incarnation was revoked; so is a Call.
pub fn tokens_are_known()
    ensures tokens { TokensAreKnown }
    ensures calls { StaleCallsWereRevoked }
{}

/// In a legal record whose proxies' entries follow Installs, booted tokens are known.
pub fn legal_runs_boot_first()
    ensures { LegalRunsBootFirst }
{}
