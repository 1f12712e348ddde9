//! One proxy's column.

ghost use Rattle.std.specs.Prelude.{◌≡◌, ◌≤◌, ◌<◌, ◌∷◌, [], IfOk, IfErr, IfSome, IsSome, OnOk, OnErr, None, true, if◌then◌else◌, length, option_map};
ghost use Rattle.std.specs.Arc.{arc_value};
ghost use Rattle.okws_base.specs.Past.{standing_by, last_by};
ghost use Rattle.okws_base.specs.declared.limit.TheConstants.{MOST_SERVICES};
ghost use Rattle.okws_plan.specs.Configuration.{tables, first_rows};
ghost use Rattle.okws_plan.specs.Rules.{QueriesKeepRules};
ghost use Rattle.okws_plan.specs.declared.event.Mark.{Mark};
ghost use Rattle.okws_plan.specs.declared.event.ProxyEvent.TheVariants as event;
ghost use Rattle.okws_plan.specs.declared.statement.Answer.{Answer};
ghost use Rattle.okws_plan.specs.declared.statement.Answer.TheVariants.{Rows};
ghost use Rattle.okws_outer.specs.Streams.{Rose};
ghost use Rattle.monitor_model.specs.Standing.{proxy_grant, live_at_proxy};
ghost use Rattle.monitor_model.specs.Columns.{ProxyLaw, faults};
ghost use Rattle.token_core.specs.Token.{token_of};
ghost use Rattle.monitor_model.specs.Proxy.{open_verdict, call_answer, call_verdict, call_denial, rows};
ghost use Rattle.monitor_model.specs.declared.verdict.Verdict.{Verdict};
ghost use Rattle.db_proxy.specs.Permit.{MayBeAnswered};
ghost use Rattle.db_proxy.specs.Seen.{entered};
ghost use Rattle.started_call.specs.Starting.{verdict_of, LeavesLength};

use crate::granting::{allowed, denial};
use crate::starting::begin;
use grant_column::{Granting, Head};
use monitor_model::verdict::Verdict;
use okws_base::journal::{Entry, Past};
use okws_base::told::{Told, Whole};
use okws_base::value::Token;
use okws_outer::keeper::{Keeper, RunError};
use okws_outer::pinned::Pinned;
use okws_plan::configuration::Config;
use okws_plan::event::{Call, Mark, ProxyEvent};
use started_call::Started;
use std::alloc::{AllocError, Global};
use std::marker::Model;
use std::sync::Arc;
use token_core::Seed;
use turn_lock::Journaled;

// A proxy's column, as one that grants.
#[derive(Drop)]
pub struct ProxyColumn;

impl Granting for ProxyColumn {
    type Event = ProxyEvent;

    ghost grant = { proxy_grant };
}

/// The column of a database proxy: a value that stands for its journal.
pub struct Proxy<K: Keeper> {
    alloc: Global,
    config: Arc<Config, Global>,
    number: u16,
    head: Head<ProxyColumn>,
    keeper: K,
    // The seed of the tokens that are issued, which proofs alone know.
    seed: Told<Seed>,
}

impl<K: Keeper + Drop> Drop for Proxy<K> {
    fn drop(self) {
        let Proxy {
            alloc: _,
            config,
            number: _,
            head,
            keeper,
            seed,
        } = self;
        drop(config);
        drop(head);
        drop(keeper);
        drop(seed);
    }
}

impl<K: Keeper> Model for Proxy<K> {
    ghost use Rattle.db_proxy.specs.Seen.{Seen, seed_in};
    ghost use Rattle.db_proxy.specs.Tied.{Tied};
    ghost use Rattle.std.specs.Arc.{arc_value};

    ghost Value = { Seen };

    ghost view = { λ a. record { config = arc_value a.config; number = a.number; seed = seed_in a.seed.past; past = a.head.past; keeps = a.head.keeps; told = K.told a.keeper; faults = K.faults a.keeper; steady = K.steady a.keeper; holder = a.head.holder } };

    ghost invariant = { λ a. Tied (arc_value a.config) a.number (seed_in a.seed.past) a.head.past a.head.granted (K.tables a.keeper) (K.told a.keeper) };
}

impl<K: Keeper> Proxy<K> {
    /// The column of the proxy of this number, with an empty journal, which keeps its entries in
    /// memory or not, over a keeper that was made for its tables. The tokens that are issued are those
    /// of the seed, which the column doesn't keep. New entries name number 0 until `hold`. Where memory
    /// is refused, the keeper is handed back.
    pub fn new(
        alloc: Global,
        config: Arc<Config, Global>,
        number: u16,
        seed: &Seed,
        keeper: K,
        keeps: bool,
    ) -> Result<Self, K>
        requires declared { number < length (arc_value config).proxies }
        requires services { length (arc_value config).services ≤ MOST_SERVICES }
        requires rules { QueriesKeepRules (arc_value config) number }
        requires tables { K.tables keeper ≡ tables (arc_value config) number }
        requires first { IfSome (K.told keeper) (λ T. T ≡ first_rows (arc_value config) number) }
        ensures ok { IfOk result (λ p. p ≡ record { config = arc_value config; number = number; seed = seed.now; past = []; keeps = keeps; told = K.told keeper; faults = K.faults keeper; steady = K.steady keeper; holder = 0 }) }
        ensures err { IfErr result (λ k. k ≡ keeper) }
    {
        let services = config.services.as_slice().len() as u16;
        match Head::new(alloc, services, keeps) {
            Err(_) => Err(keeper),
            Ok(head) => Ok(Proxy {
                alloc,
                config,
                number,
                head,
                keeper,
                seed: Told::new().and(&Whole { item: *seed }),
            }),
        }
    }

    /// What was entered, where each entry fits the entries before it, and the keeper, which is as the
    /// column showed it: where it tells its rows, they are those of what was entered.
    pub fn close(self) -> (Past<Entry<ProxyEvent>>, K)
        ensures past { result.0 ≡ self.past }
        ensures law { ProxyLaw self.config self.seed self.number result.0 }
        ensures told { K.told result.1 ≡ self.told }
        ensures rows { IfSome (K.told result.1) (λ T. T ≡ rows self.config self.number result.0) }
        ensures faults { K.faults result.1 ≡ self.faults }
        ensures steady { K.steady result.1 ≡ self.steady }
        ensures tables { K.tables result.1 ≡ tables self.config self.number }
    {
        let Proxy {
            alloc: _,
            config: _,
            number: _,
            head,
            keeper,
            seed: _,
        } = self;
        (head.close(), keeper)
    }

    /// The incarnation of the service that stands.
    pub fn standing(&self, service: u16) -> Option<u32>
        requires { service < length self.now.config.services }
        ensures { result ≡ standing_by proxy_grant self.now.past service }
    {
        self.head.standing(service)
    }

    /// The greatest incarnation of the service that was installed, 0 for none.
    pub fn last(&self, service: u16) -> u32
        requires { service < length self.now.config.services }
        ensures { result ≡ last_by proxy_grant self.now.past service }
    {
        self.head.last(service)
    }

    /// Has the incarnation stand with the token that is issued to it, which is the one of the seed for
    /// it here, and keeps the place of its revocation. Where memory is refused, all is as before.
    pub fn install(
        &mut self,
        service: u16,
        incarnation: u32,
        token: Token,
    ) -> Result<(), AllocError>
        requires service { service < length self.old.config.services }
        requires later { last_by proxy_grant self.old.past service < incarnation }
        requires token { token ≡ token_of self.old.seed service incarnation self.old.number }
        ensures ok { OnOk result (self.new ≡ entered self.old (event.Install service incarnation token)) }
        ensures err { OnErr result (self.new ≡ self.old) }
    {
        let event = ProxyEvent::Install {
            service,
            incarnation,
            token,
        };
        self.head.install(service, incarnation, Some(token), event)
    }

    /// Has the incarnation stand no longer. Where it doesn't stand, nothing changes. Takes no memory.
    pub fn revoke(&mut self, service: u16, incarnation: u32)
        requires { service < length self.old.config.services }
        ensures { self.new ≡ (if live_at_proxy self.old.past service incarnation then entered self.old (event.Revoke service incarnation) else self.old) }
    {
        let event = ProxyEvent::Revoke {
            service,
            incarnation,
        };
        self.head.revoke(service, incarnation, event);
    }

    /// Opens a session for the incarnation that shows this token, or says which rule that breaks.
    /// Where memory is refused, all is as before.
    pub fn open_session(
        &mut self,
        service: u16,
        incarnation: u32,
        shown: Token,
    ) -> Result<Verdict, AllocError>
        requires { service < length self.old.config.services }
        ensures verdict { IfOk result (λ v. v ≡ open_verdict self.old.past service incarnation shown) }
        ensures ok { OnOk result (self.new ≡ entered self.old (event.Open service incarnation shown)) }
        ensures err { OnErr result (self.new ≡ self.old) }
    {
        self.head.make_room()?;
        let issued = self.head.issued(service, &shown);
        let is_live = self.head.standing(service) == Some(incarnation);
        let opened = self.head.opened(service, incarnation);
        let verdict = match denial(issued, incarnation, is_live, opened) {
            Some(rule) => Verdict::Denied(rule),
            None => Verdict::Opened(self.head.admit(service, incarnation)),
        };
        self.head.enter(ProxyEvent::Open {
            service,
            incarnation,
            shown,
        });
        Ok(verdict)
    }

    /// Decides a call, has the keeper run its query where it is allowed, and enters it. Rows are left to
    /// be found by `finish` when the turn is given back: the answer of a SELECT is pinned before the entry.
    /// Whether the rows' frame is too long is left to `finish` too. The entry is marked as a fault where the
    /// keeper failed, which leaves the rows as they were. A call that isn't marked so leaves the count of
    /// faults, and so does one that breaks a rule. Over a keeper that tells no rows, what is answered is what
    /// the query may answer: Duplicate comes of an INSERT into a table with a KEY alone. Where memory is
    /// refused, all is as before.
    pub fn start(&mut self, call: Call) -> Result<Started<K::Pin>, AllocError>
        requires { call.service < length self.old.config.services }
        ensures entry { IfOk result (λ s. (mark : Mark) × (self.new.past ≡ record { worker = self.old.holder; event = event.Call call mark } ∷ self.old.past)
            × (mark ≡ Mark.Fault → (call_denial self.old.config self.old.number self.old.past call ≡ None) × Rose self.old.faults self.new.faults)
            × (self.old.steady ≡ true → mark ≡ Mark.Done)
            × ((answer : Answer) × (verdict_of (λ p. Rows (K.Pin.width p) (K.Pin.rows p)) s ≡ call_answer (call_denial self.old.config self.old.number self.old.past call) mark answer)
            × (call_denial self.old.config self.old.number self.old.past call ≡ None → mark ≡ Mark.Done → self.old.told ≡ None → MayBeAnswered self.old.config self.old.number call answer))
            × IfSome self.old.told (λ _. verdict_of (λ p. Rows (K.Pin.width p) (K.Pin.rows p)) s ≡ call_verdict self.old.config self.old.number self.old.past call mark)) }
        ensures length { IfOk result (λ s. LeavesLength s) }
        ensures rows { OnOk result (self.new.told ≡ option_map (λ _. rows self.new.config self.new.number self.new.past) self.old.told) }
        ensures same { self.new ≡ record self.old { past = self.new.past; told = self.new.told; faults = self.new.faults } }
        ensures later { self.old.faults ≤ self.new.faults }
        ensures denied { IsSome (call_denial self.old.config self.old.number self.old.past call) → self.new.faults ≡ self.old.faults }
        ensures still { OnOk result (faults self.new.past ≡ faults self.old.past → self.new.faults ≡ self.old.faults) }
        ensures err { OnErr result (self.new ≡ self.old) }
    {
        self.head.make_room()?;
        let standing = self.head.standing(call.service);
        let sessions = self.head.opened(call.service, call.incarnation);
        let is_live = standing == Some(call.incarnation);
        let (mark, started) = match allowed(&self.config, self.number, &call, is_live, sessions) {
            Err(rule) => (Mark::Done, Started::Denied(rule)),
            Ok(query) => match begin(
                &mut self.keeper,
                self.alloc,
                &query.statement,
                call.args.as_slice(),
            ) {
                Ok(started) => (Mark::Done, started),
                Err(RunError::Failed) => (Mark::Fault, Started::Failed),
                Err(RunError::NoMemory) => return Err(AllocError),
            },
        };
        self.head.enter(ProxyEvent::Call(call, mark));
        Ok(started)
    }
}

impl<K: Keeper> Journaled for Proxy<K> {
    type Entry = Entry<ProxyEvent>;

    ghost journal = { λ a. a.past };

    ghost by = { λ e. e.worker };

    ghost holder = { λ a. a.holder };

    ghost label = { λ a. a.number };

    ghost held = { λ a n. record a { holder = n } };

    fn hold(&mut self, number: u16)
        ensures same { self.new.past ≡ self.old.past }
        ensures label { self.new.number ≡ self.old.number }
        ensures holder { self.new.holder ≡ number }
        ensures all { self.new ≡ record self.old { holder = number } }
    {
        self.head.hold(number);
    }

    fn label(&self) -> u16 {
        self.number
    }

    fn holder(&self) -> u16 {
        self.head.holder()
    }
}
