//! Worked runs, computed by the definitions alone: each law states what a small run gives.

ghost use Rattle.std.specs.Prelude.{◌≡◌, ◌∷◌, ◌++◌, [], ℕ, List, Some, None, map, reverse, codes, true, false, replicate, length};
ghost use Rattle.okws_base.specs.declared.value.Value.TheVariants as value;
ghost use Rattle.okws_base.specs.declared.denial.Rule.TheVariants as rule;
ghost use Rattle.okws_plan.specs.declared.event.Mark.TheVariants.{Done};
ghost use Rattle.okws_plan.specs.declared.event.ProxyEvent.TheVariants as proxy;
ghost use Rattle.okws_plan.specs.declared.event.PubdEvent.TheVariants as pubd;
ghost use Rattle.okws_plan.specs.declared.event.LogEvent.TheVariants as oklogd;
ghost use Rattle.okws_plan.specs.declared.event.OkdEvent.TheVariants as okd;
ghost use Rattle.okws_plan.specs.Configuration.{owner};
ghost use Rattle.monitor_model.specs.declared.verdict.Verdict.TheVariants as verdict;
ghost use Rattle.monitor_model.specs.declared.verdict.Got.TheVariants as got;
ghost use Rattle.monitor_model.specs.declared.verdict.Noted.TheVariants as noted;
ghost use Rattle.monitor_model.specs.declared.verdict.Way.TheVariants as way;
ghost use Rattle.monitor_model.specs.Proxy.{open_verdict, call_verdict};
ghost use Rattle.monitor_model.specs.Pubd.{drain_verdict, get_verdict};
ghost use Rattle.monitor_model.specs.Logd.{log_verdict, log_text};
ghost use Rattle.monitor_model.specs.Okd.{accept_verdict};
ghost use Rattle.monitor_model.specs.Course.{is_declared};
ghost use Rattle.token_core.specs.Token.{token_of};
ghost use Rattle.okws_plan.specs.declared.event.LauncherEvent.TheVariants as launcher;
ghost use Rattle.okws_plan.specs.declared.script.Line.TheVariants as line;
ghost use Rattle.okws_plan.specs.declared.script.Place.TheVariants as place;
ghost use Rattle.okws_plan.specs.declared.script.Method.TheVariants as method;
ghost use Rattle.monitor_model.specs.declared.record.Own.TheVariants as own;
ghost use Rattle.monitor_model.specs.declared.record.CellEvent.TheVariants as cell;
ghost use Rattle.monitor_model.specs.Stage.{Stage, first_stage, request_head, stand};
ghost use Rattle.monitor_model.specs.Script.{launched, relaunched, refusal};
ghost use Rattle.monitor_model.specs.Launcher.{tries, may_enter};
ghost use Rattle.monitor_model.specs.Example.{A, with_side, int};
ghost use Rattle.monitor_model.specs.Journals.{past, first_token, invented_token, second_token, others_token, call, calls, session, tried_so_far};

/// Sessions count from 0.
pub fn two_sessions()
    ensures first { open_verdict (past (proxy.Install 0 1 first_token ∷ [])) 0 1 first_token ≡ verdict.Opened 0 }
    ensures second { open_verdict (past session) 0 1 first_token ≡ verdict.Opened 1 }
{}

/// Queries that aren't granted, arguments that don't fit, a proxy that isn't declared.
pub fn refused_calls()
    ensures not_granted { call_verdict A 0 (past session) (call 6 []) Done ≡ verdict.Denied rule.QueryNotGranted }
    ensures too_few { call_verdict A 0 (past session) (call 3 []) Done ≡ verdict.Denied rule.BadArguments }
    ensures wrong_and_not_granted { call_verdict A 0 (past session) (call 6 (int 1 ∷ [])) Done ≡ verdict.Denied rule.QueryNotGranted }
    ensures no_proxy { is_declared A 9 ≡ false }
{}

/// Tokens of an earlier incarnation, of nobody, and of another service.
pub fn refused_tokens()
    ensures stale { open_verdict (past (proxy.Install 0 1 first_token ∷ proxy.Revoke 0 1 ∷ proxy.Install 0 2 second_token ∷ [])) 0 2 first_token ≡ verdict.Denied rule.StaleToken }
    ensures unknown { open_verdict (past (proxy.Install 0 1 first_token ∷ proxy.Revoke 0 1 ∷ proxy.Install 0 2 second_token ∷ [])) 0 2 invented_token ≡ verdict.Denied rule.UnknownToken }
    ensures of_another { open_verdict (past (proxy.Install 0 1 first_token ∷ proxy.Install 1 1 others_token ∷ [])) 0 1 others_token ≡ verdict.Denied rule.UnknownToken }
{}

/// Without a session a call is NoSession, live or not; with one, and revoked, it is stale at this proxy and answered at another.
#[tactic(auto, unfolding(frame_codec::specs::Spelling::four, frame_codec::specs::Spelling::eight))]
pub fn sessions_and_revocations()
    ensures none { call_verdict A 0 (past (proxy.Install 0 1 first_token ∷ [])) (call 1 []) Done ≡ verdict.Denied rule.NoSession }
    ensures none_revoked { call_verdict A 0 (past (proxy.Install 0 1 first_token ∷ proxy.Revoke 0 1 ∷ [])) (call 1 []) Done ≡ verdict.Denied rule.NoSession }
    ensures revoked { call_verdict with_side 0 (past (session ++ proxy.Revoke 0 1 ∷ [])) (call 1 []) Done ≡ verdict.Denied rule.StaleToken }
    ensures elsewhere { call_verdict with_side 1 (past session) (call 1 []) Done ≡ verdict.Rows 1 [] }
{}

/// A first SELECT, and a taken key that is freed and taken again.
#[tactic(auto, unfolding(frame_codec::specs::Spelling::four, frame_codec::specs::Spelling::eight))]
pub fn keys()
    ensures select { call_verdict A 0 (past session) (call 1 []) Done ≡ verdict.Rows 2 ((int 1 ∷ value.Text (codes "ann") ∷ []) ∷ (int 2 ∷ value.Text (codes "bob") ∷ []) ∷ []) }
    ensures taken { call_verdict A 0 (past session) (call 2 (int 1 ∷ value.Text (codes "cy") ∷ value.Text [] ∷ [])) Done ≡ verdict.Duplicate }
    ensures deleted { call_verdict A 0 (past session) (call 3 (int 1 ∷ [])) Done ≡ verdict.Changed 1 }
    ensures again { call_verdict A 0 (past (session ++ calls 3 (int 1 ∷ []) ∷ [])) (call 2 (int 1 ∷ value.Text (codes "cy") ∷ value.Text [] ∷ [])) Done ≡ verdict.Changed 1 }
    ensures ordered { call_verdict A 0 (past (session ++ calls 3 (int 1 ∷ []) ∷ calls 2 (int 1 ∷ value.Text (codes "cy") ∷ value.Text [] ∷ []) ∷ [])) (call 1 []) Done
        ≡ verdict.Rows 2 ((int 1 ∷ value.Text (codes "cy") ∷ []) ∷ (int 2 ∷ value.Text (codes "bob") ∷ []) ∷ []) }
{}

/// An UPDATE counts the rows that met its condition.
#[tactic(auto, unfolding(frame_codec::specs::Spelling::four, frame_codec::specs::Spelling::eight))]
pub fn updates()
    ensures once { call_verdict A 0 (past session) (call 4 (value.Text (codes "x") ∷ [])) Done ≡ verdict.Changed 1 }
    ensures twice { call_verdict A 0 (past (session ++ calls 4 (value.Text (codes "x") ∷ []) ∷ [])) (call 4 (value.Text (codes "x") ∷ [])) Done ≡ verdict.Changed 0 }
    ensures select { call_verdict A 0 (past (session ++ calls 4 (value.Text (codes "x") ∷ []) ∷ [])) (call 5 []) Done ≡ verdict.Rows 1 [] }
{}

/// A later Drain gives each edition since, the first of an incarnation the current one; a Get gives the current one, or says why not.
pub fn templates()
    ensures later { drain_verdict A (past (pubd.Install 0 1 ∷ pubd.Drain 0 1 ∷ pubd.Publish 0 (0x61 ∷ []) ∷ pubd.Publish 0 (0x62 ∷ 0x62 ∷ []) ∷ [])) 0 1
        ≡ record { template = codes "page"; edition = 1; content = 0x61 ∷ [] } ∷ record { template = codes "page"; edition = 2; content = 0x62 ∷ 0x62 ∷ [] } ∷ [] }
    ensures first { drain_verdict A (past (pubd.Install 0 1 ∷ pubd.Drain 0 1 ∷ pubd.Publish 0 (0x61 ∷ []) ∷ pubd.Publish 0 (0x62 ∷ 0x62 ∷ []) ∷ pubd.Drain 0 1 ∷ pubd.Revoke 0 1 ∷ pubd.Install 0 2 ∷ [])) 0 2
        ≡ record { template = codes "page"; edition = 2; content = 0x62 ∷ 0x62 ∷ [] } ∷ [] }
    ensures revoked { drain_verdict A (past (pubd.Install 0 1 ∷ pubd.Publish 0 (0x61 ∷ []) ∷ pubd.Revoke 0 1 ∷ [])) 0 1 ≡ [] }
    ensures get { get_verdict A (past (pubd.Install 0 2 ∷ pubd.Publish 0 (0x61 ∷ []) ∷ pubd.Publish 0 (0x62 ∷ 0x62 ∷ []) ∷ [])) 0 2 (codes "page") ≡ got.Template 2 (0x62 ∷ 0x62 ∷ []) }
    ensures secret { get_verdict A (past (pubd.Install 0 1 ∷ [])) 0 1 (codes "secret") ≡ got.Denied rule.TemplateNotGranted }
    ensures unpublished { get_verdict A (past (pubd.Install 0 1 ∷ [])) 0 1 (codes "page") ≡ got.Denied rule.TemplateUnpublished }
{}

/// The log's lines, and what isn't logged.
#[tactic(auto, unfolding(crate::specs::Logd::log_line))]
pub fn logging()
    ensures logged { log_verdict A (past (oklogd.Install 0 1 ∷ [])) 0 1 (codes "hi") ≡ noted.Logged }
    ensures not_granted { log_verdict A (past (oklogd.Install 1 1 ∷ [])) 1 1 (codes "hi") ≡ noted.Denied rule.LogNotGranted }
    ensures too_long { log_verdict A (past (oklogd.Install 0 1 ∷ [])) 0 1 (replicate 1025 97) ≡ noted.Denied rule.LogTooLong }
    ensures text { log_text A (past (oklogd.Install 0 1 ∷ oklogd.Log 0 1 (codes "hi") ∷ oklogd.Log 0 1 (0x61 ∷ 0x0a ∷ 0x5c ∷ []) ∷ oklogd.Log 1 1 (codes "no") ∷ []))
        ≡ codes "guest 1 hi" ++ 10 ∷ codes "guest 1 a" ++ 92 ∷ codes "x0a" ++ 92 ∷ codes "x5c" ++ 10 ∷ [] }
{}

/// Who owns a path, and where a connection goes.
pub fn owners()
    ensures itself { owner A (codes "/guest") ≡ Some 0 }
    ensures below { owner A (codes "/guest/x") ≡ Some 0 }
    ensures beside { owner A (codes "/guestx") ≡ None }
    ensures encoded { owner A (codes "/%67uest") ≡ None }
    ensures down { accept_verdict A [] (codes "/guest") ≡ way.Down 0 }
    ensures to { accept_verdict A (past (okd.Up 0 1 ∷ okd.Down 0 1 ∷ okd.Up 0 2 ∷ [])) (codes "/guest") ≡ way.To 0 2 }
    ensures not_owned { accept_verdict A (past (okd.Up 0 1 ∷ [])) (codes "/x") ≡ way.NotOwned }
{}

/// What a launch and a relaunch make, in order, and when lines are refused.
pub fn launches()
    ensures launch { (seed : List ℕ) → (launched A seed 0 (first_stage A)).seen.own
        ≡ reverse (own.Launcher (launcher.Begun 0 1) ∷ own.Proxy 0 (proxy.Install 0 1 (token_of seed 0 1 0)) ∷ own.Pubd (pubd.Install 0 1) ∷ own.Oklogd (oklogd.Install 0 1)
        ∷ own.Boot 0 1 ∷ own.Okd (okd.Up 0 1) ∷ []) }
    ensures relaunch { (seed : List ℕ) → (relaunched A seed 0 (launched A seed 0 (first_stage A))).seen.own
        ≡ reverse (own.Launcher (launcher.Begun 0 1) ∷ own.Proxy 0 (proxy.Install 0 1 (token_of seed 0 1 0)) ∷ own.Pubd (pubd.Install 0 1) ∷ own.Oklogd (oklogd.Install 0 1)
        ∷ own.Boot 0 1 ∷ own.Okd (okd.Up 0 1)
        ∷ own.Launcher (launcher.Begun 0 2) ∷ own.Okd (okd.Down 0 1) ∷ own.Proxy 0 (proxy.Revoke 0 1) ∷ own.Pubd (pubd.Revoke 0 1) ∷ own.Oklogd (oklogd.Revoke 0 1)
        ∷ own.Retired 0 ∷ own.Proxy 0 (proxy.Install 0 2 (token_of seed 0 2 0)) ∷ own.Pubd (pubd.Install 0 2) ∷ own.Oklogd (oklogd.Install 0 2) ∷ own.Boot 0 2 ∷ own.Okd (okd.Up 0 2) ∷ []) }
    ensures cell { (seed : List ℕ) → (stand (relaunched A seed 0 (launched A seed 0 (first_stage A))) 0).past ≡ cell.Boot 2 ∷ cell.Retired ∷ cell.Boot 1 ∷ [] }
    ensures not_begun { refusal (line.Install 0 (place.Proxy 0)) (first_stage A) ≡ Some 3 }
    ensures no_cell { refusal (line.Bytes 0 (0 ∷ [])) (first_stage A) ≡ Some 7 }
    ensures no_request { refusal (line.Dialog 0) (first_stage A) ≡ Some 5 }
    ensures installed { (seed : List ℕ) → refusal (line.Install 0 (place.Proxy 0)) (launched A seed 0 (first_stage A)) ≡ Some 4 }
    ensures up { (seed : List ℕ) → refusal (line.Up 0) (launched A seed 0 (first_stage A)) ≡ Some 4 }
    ensures may_launch { (seed : List ℕ) → refusal (line.Launch 0) (launched A seed 0 (first_stage A)) ≡ None }
{}

/// An incarnation counts once as tried, by a Failed or by a Crashed while it is the greatest begun; at the
/// limit no more is begun, until it is asked for, and only then is the service given up. What was not begun
/// has neither.
pub fn tries_and_giving_up()
    ensures tried { map (λ n. tries (tried_so_far n) 0) (0 ∷ 1 ∷ 3 ∷ 5 ∷ 6 ∷ 8 ∷ 9 ∷ 10 ∷ []) ≡ 0 ∷ 0 ∷ 1 ∷ 1 ∷ 2 ∷ 3 ∷ 3 ∷ 0 ∷ [] }
    ensures first { map (λ k. may_enter A (tried_so_far 0) (launcher.Begun 0 k)) (1 ∷ 2 ∷ []) ≡ true ∷ false ∷ [] }
    ensures third { may_enter A (tried_so_far 6) (launcher.Begun 0 3) ≡ true }
    ensures at_the_limit { map (λ n. may_enter A (tried_so_far n) (launcher.Begun 0 4)) (8 ∷ 9 ∷ 10 ∷ []) ≡ false ∷ false ∷ true ∷ [] }
    ensures below_the_limit { may_enter A (tried_so_far 6) (launcher.Dead 0 2) ≡ false }
    ensures failed { map (λ k. may_enter A (tried_so_far 1) (launcher.Failed 0 k)) (0 ∷ 1 ∷ 2 ∷ []) ≡ false ∷ true ∷ false ∷ [] }
    ensures crashed { map (λ k. may_enter A (tried_so_far 1) (launcher.Crashed 0 k)) (0 ∷ 1 ∷ 2 ∷ []) ≡ false ∷ true ∷ false ∷ [] }
    ensures given_up { map (λ n. may_enter A (tried_so_far 8) (launcher.Dead 0 n)) (3 ∷ 4 ∷ []) ≡ true ∷ false ∷ [] }
{}

/// The head of a request.
pub fn printed()
    ensures { length (request_head method.Get (codes "/guest") []) ≡ 40 }
{}
