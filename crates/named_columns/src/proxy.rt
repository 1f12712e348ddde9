//! One proxy's column behind its lock.

ghost use Rattle.std.specs.Prelude.{◌≡◌, ◌≤◌, ◌<◌, ◌∷◌, [], IfOk, IfSome, IsSome, OnOk, OnErr, None, true, if◌then◌else◌, length, option_map, is_some};
ghost use Rattle.okws_base.specs.Past.{standing_by, last_by};
ghost use Rattle.okws_base.specs.Turns.{AddsBy};
ghost use Rattle.okws_plan.specs.Configuration.{tables};
ghost use Rattle.okws_plan.specs.declared.event.Mark.{Mark};
ghost use Rattle.okws_plan.specs.declared.event.ProxyEvent.TheVariants as event;
ghost use Rattle.okws_plan.specs.declared.statement.Answer.{Answer};
ghost use Rattle.okws_plan.specs.declared.statement.Answer.TheVariants.{Rows};
ghost use Rattle.okws_outer.specs.Streams.{Rose, counted};
ghost use Rattle.monitor_model.specs.Standing.{proxy_grant, live_at_proxy};
ghost use Rattle.monitor_model.specs.Booting.{AllFollow};
ghost use Rattle.monitor_model.specs.Columns.{ProxyLaw, faults};
ghost use Rattle.service_cell.specs.Asking.{IsNarrow};
ghost use Rattle.site_columns.specs.Site.{KeepsRules};
ghost use Rattle.monitor_model.specs.Proxy.{open_verdict, call_answer, call_verdict, call_denial, rows};
ghost use Rattle.token_core.specs.Token.{token_of};
ghost use Rattle.db_proxy.specs.Permit.{MayBeAnswered};
ghost use Rattle.started_call.specs.Starting.{verdict_of, LeavesLength};
ghost use Rattle.named_columns.specs.Asked.{IsInstalledAt};
ghost use Rattle.named_columns.specs.Launched.{by_entry, LaunchedBy};
ghost use Rattle.named_columns.specs.Held.{proxy_entered};

use crate::named::Backed;
use db_proxy::Proxy;
use monitor_model::verdict::Verdict;
use okws_base::journal::{Entry, Past};
use okws_base::value::Token;
use okws_outer::keeper::Keeper;
use okws_plan::event::{Call, ProxyEvent};
use started_call::Started;
use std::alloc::AllocError;
use std::marker::{Model, PhantomData};
use turn_lock::Journaled;

/// The column of a database proxy of a run as it stands behind its lock. Each call enters at most one
/// event, under the holder's number; the launcher alone installs and revokes.
pub struct SiteProxy<N: Backed, K: Keeper> {
    proxy: Proxy<K>,
    of: PhantomData<N>,
}

impl<N: Backed, K: Keeper + Drop> Drop for SiteProxy<N, K> {
    fn drop(self) {
        let SiteProxy { proxy, of: _ } = self;
        drop(proxy);
    }
}

impl<N: Backed, K: Keeper> Model for SiteProxy<N, K> {
    ghost use Rattle.named_columns.specs.Held.{HeldProxy};
    ghost use Rattle.named_columns.specs.Kept.{IsProxy};

    ghost Value = { HeldProxy };

    ghost view = { λ a. record { number = a.proxy.number; past = a.proxy.past; keeps = a.proxy.keeps; told = a.proxy.told; faults = a.proxy.faults; steady = a.proxy.steady; holder = a.proxy.holder } };

    ghost invariant = { λ a. IsProxy N.site N.run_seed N.launcher N.tells N.steady N.keeper_faults a.proxy };
}

impl<N: Backed, K: Keeper> SiteProxy<N, K> {
    /// The column of a declared proxy of the run, at which nothing happened yet; takes no memory.
    pub fn new(proxy: Proxy<K>) -> Self
        requires site { proxy.config ≡ N.site }
        requires seed { proxy.seed ≡ N.run_seed }
        requires declared { proxy.number < length N.site.proxies }
        requires fresh { proxy.past ≡ [] }
        requires rules { KeepsRules N.site }
        requires told { N.tells ≡ true → is_some proxy.told ≡ true }
        requires steady { N.steady ≡ true → proxy.steady ≡ true }
        requires faults { N.keeper_faults proxy.number ≡ proxy.faults }
        ensures { result ≡ record { number = proxy.number; past = []; keeps = proxy.keeps; told = proxy.told; faults = proxy.faults; steady = proxy.steady; holder = proxy.holder } }
    {
        SiteProxy {
            proxy,
            of: PhantomData,
        }
    }

    /// What was installed or revoked names the launcher's number, and the proxy is declared; the keeper
    /// tells its rows, and none of its calls fails, where the run says so.
    pub fn launched(&self)
        ensures launched { LaunchedBy proxy_grant N.launcher self.now.past }
        ensures declared { self.now.number < length N.site.proxies }
        ensures told { N.tells ≡ true → is_some self.now.told ≡ true }
        ensures steady { N.steady ≡ true → self.now.steady ≡ true }
    {
        let _proxy = &self.proxy;
    }

    /// The incarnation of the service that stands.
    pub fn standing(&self, service: u16) -> Option<u32>
        requires { service < length N.site.services }
        ensures { result ≡ standing_by proxy_grant self.now.past service }
    {
        self.proxy.standing(service)
    }

    /// The greatest incarnation of the service that was installed, 0 for none.
    pub fn last(&self, service: u16) -> u32
        requires { service < length N.site.services }
        ensures { result ≡ last_by proxy_grant self.now.past service }
    {
        self.proxy.last(service)
    }

    /// Has the incarnation stand with the token that is issued to it, which is the one of the run's
    /// seed for it here, and keeps the place of its revocation. Nothing of the service stands before. Where
    /// memory is refused, all is as before.
    pub fn install(
        &mut self,
        service: u16,
        incarnation: u32,
        token: Token,
    ) -> Result<(), AllocError>
        requires launcher { self.old.holder ≡ N.launcher }
        requires service { service < length N.site.services }
        requires later { last_by proxy_grant self.old.past service < incarnation }
        requires vacant { standing_by proxy_grant self.old.past service ≡ None }
        requires token { token ≡ token_of N.run_seed service incarnation self.old.number }
        ensures ok { OnOk result (self.new ≡ proxy_entered self.old (event.Install service incarnation token)) }
        ensures err { OnErr result (self.new ≡ self.old) }
        ensures adds { AddsBy by_entry self.old.holder self.old.past self.new.past }
    {
        self.proxy.install(service, incarnation, token)
    }

    /// Has the incarnation stand no longer. Where it doesn't stand, nothing changes. Takes no memory.
    pub fn revoke(&mut self, service: u16, incarnation: u32)
        requires launcher { self.old.holder ≡ N.launcher }
        requires service { service < length N.site.services }
        ensures revoked { self.new ≡ (if live_at_proxy self.old.past service incarnation then proxy_entered self.old (event.Revoke service incarnation) else self.old) }
        ensures adds { AddsBy by_entry self.old.holder self.old.past self.new.past }
    {
        self.proxy.revoke(service, incarnation);
    }

    /// Opens a session for the incarnation that shows this token, or says which rule that breaks. Where its
    /// service has a grant here, the incarnation was installed. Where memory is refused, all is as before.
    pub fn open_session(
        &mut self,
        service: u16,
        incarnation: u32,
        shown: Token,
    ) -> Result<Verdict, AllocError>
        requires service { service < length N.site.services }
        requires installed { IsInstalledAt N.site self.old.number self.old.past service incarnation }
        ensures verdict { IfOk result (λ v. v ≡ open_verdict self.old.past service incarnation shown) }
        ensures ok { OnOk result (self.new ≡ proxy_entered self.old (event.Open service incarnation shown)) }
        ensures err { OnErr result (self.new ≡ self.old) }
        ensures adds { AddsBy by_entry self.old.holder self.old.past self.new.past }
    {
        self.proxy.open_session(service, incarnation, shown)
    }

    /// Decides a call and enters it, marked as a fault where the keeper failed, which leaves the rows as
    /// they were. Rows are left to be found by `finish` when the turn is given back: the answer of a
    /// SELECT is pinned before the entry. Whether the rows' frame is too long is left to `finish` too.
    /// A call that breaks a rule leaves the count of faults. Over a keeper that tells no rows, what is
    /// answered is what the query may answer: Duplicate comes of an INSERT into a table with a KEY alone.
    /// Rows have 1 to 255 columns. Where its service has a grant here, the incarnation was installed. Where
    /// memory is refused, all is as before.
    pub fn start(&mut self, call: Call) -> Result<Started<K::Pin>, AllocError>
        requires service { call.service < length N.site.services }
        requires installed { IsInstalledAt N.site self.old.number self.old.past call.service call.incarnation }
        ensures entry { IfOk result (λ s. (mark : Mark) × (self.new.past ≡ record { worker = self.old.holder; event = event.Call call mark } ∷ self.old.past)
            × (mark ≡ Mark.Fault → (call_denial N.site self.old.number self.old.past call ≡ None) × Rose self.old.faults self.new.faults)
            × (self.old.steady ≡ true → mark ≡ Mark.Done)
            × ((answer : Answer) × (verdict_of (λ p. Rows (K.Pin.width p) (K.Pin.rows p)) s ≡ call_answer (call_denial N.site self.old.number self.old.past call) mark answer)
            × (call_denial N.site self.old.number self.old.past call ≡ None → mark ≡ Mark.Done → self.old.told ≡ None → MayBeAnswered N.site self.old.number call answer))
            × IfSome self.old.told (λ _. verdict_of (λ p. Rows (K.Pin.width p) (K.Pin.rows p)) s ≡ call_verdict N.site self.old.number self.old.past call mark)) }
        ensures narrow { IfOk result (λ s. IsNarrow (verdict_of (λ p. Rows (K.Pin.width p) (K.Pin.rows p)) s)) }
        ensures length { IfOk result (λ s. LeavesLength s) }
        ensures rows { OnOk result (self.new.told ≡ option_map (λ _. rows N.site self.new.number self.new.past) self.old.told) }
        ensures same { self.new ≡ record self.old { past = self.new.past; told = self.new.told; faults = self.new.faults } }
        ensures later { self.old.faults ≤ self.new.faults }
        ensures denied { IsSome (call_denial N.site self.old.number self.old.past call) → self.new.faults ≡ self.old.faults }
        ensures still { OnOk result (faults self.new.past ≡ faults self.old.past → self.new.faults ≡ self.old.faults) }
        ensures err { OnErr result (self.new ≡ self.old) }
        ensures adds { AddsBy by_entry self.old.holder self.old.past self.new.past }
    {
        self.proxy.start(call)
    }

    /// What was entered, where each entry fits the entries before it, what was launched names the launcher's
    /// number, and each Open and Call stands above the Install of its incarnation; and the keeper, which is as the column showed it: its rows, where it tells them,
    /// are those of what was entered. At most as many Calls are marked Fault as the keeper's count rose in
    /// the run, which did not rise where none is, and none is where none of its calls fails.
    pub fn close(self) -> (Past<Entry<ProxyEvent>>, K)
        ensures past { result.0 ≡ self.past }
        ensures law { ProxyLaw N.site N.run_seed self.number result.0 }
        ensures launched { LaunchedBy proxy_grant N.launcher result.0 }
        ensures follows { AllFollow N.site self.number result.0 }
        ensures declared { self.number < length N.site.proxies }
        ensures told { K.told result.1 ≡ self.told }
        ensures tells { N.tells ≡ true → is_some (K.told result.1) ≡ true }
        ensures rows { IfSome (K.told result.1) (λ T. T ≡ rows N.site self.number result.0) }
        ensures faults { K.faults result.1 ≡ self.faults }
        ensures steady { K.steady result.1 ≡ self.steady }
        ensures tables { K.tables result.1 ≡ tables N.site self.number }
        ensures marked { counted (N.keeper_faults self.number) (faults result.0) ≤ self.faults }
        ensures faultless { N.steady ≡ true → faults result.0 ≡ 0 }
        ensures still { faults result.0 ≡ 0 → self.faults ≡ N.keeper_faults self.number }
    {
        let SiteProxy { proxy, of: _ } = self;
        proxy.close()
    }
}

impl<N: Backed, K: Keeper> Journaled for SiteProxy<N, K> {
    ghost use Rattle.named_columns.specs.Launched.{by_entry};

    type Entry = Entry<ProxyEvent>;

    ghost journal = { λ a. a.past };

    ghost by = { by_entry };

    ghost holder = { λ a. a.holder };

    ghost label = { λ a. a.number };

    ghost held = { λ a n. record a { holder = n } };

    fn hold(&mut self, number: u16)
        ensures same { self.new.past ≡ self.old.past }
        ensures label { self.new.number ≡ self.old.number }
        ensures holder { self.new.holder ≡ number }
        ensures all { self.new ≡ record self.old { holder = number } }
    {
        self.proxy.hold(number);
    }

    fn label(&self) -> u16 {
        self.proxy.label()
    }

    fn holder(&self) -> u16 {
        self.proxy.holder()
    }
}
