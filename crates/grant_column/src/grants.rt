//! The grants of one column.

ghost use Rattle.std.specs.Prelude.{◌≡◌, ◌≤◌, ◌<◌, ◌+◌, ◌^◌, ◌==◌, ◌&&◌, ℕ, IfOk, OnOk, OnErr, Some, None, if◌then◌else◌, is_some};
ghost use Rattle.okws_base.specs.declared.limit.TheConstants.{MOST_SESSIONS};
ghost use Rattle.okws_base.specs.declared.value.Token.{Token};
ghost use Rattle.grant_column.specs.Granted.{IsNew, IsSame, issued_with, service_count, stands, last, issued, opened, places, ended_in, issued_in};
ghost use Rattle.okws_base.specs.Past.{is_just};

use okws_base::value::Token;
use std::alloc::{AllocError, Global};
use std::collections::HashMap;
use std::marker::Model;

// What is kept of a service: the last incarnation that was installed, whether it stands, and how many
// sessions it opened.
#[derive(Clone, Copy)]
pub struct Service {
    last: u32,
    is_live: bool,
    opened: u32,
}

const NOBODY: Service = Service {
    last: 0,
    is_live: false,
    opened: 0,
};

// An incarnation of a service.
#[derive(Clone, Copy, PartialEq, Eq, Hash)]
pub struct Incarnation {
    service: u16,
    number: u32,
}

// A token that was issued to a service.
#[derive(Clone, Copy, PartialEq, Eq, Hash)]
pub struct Issue {
    service: u16,
    bytes: [u8; 20],
}

/// The grants of one column: contracts see them as finite maps.
pub struct Grants {
    services: Vec<Service>,
    // How many sessions the incarnations before the last ones opened.
    ended: HashMap<Incarnation, u32>,
    issues: HashMap<Issue, u32>,
}

impl Drop for Grants {
    fn drop(self) {
        let Grants {
            services,
            ended,
            issues,
        } = self;
        drop(services);
        drop(ended);
        drop(issues);
    }
}

impl Model for Grants {
    ghost use Rattle.grant_column.specs.Granted.{Granted, IsKept};

    ghost Value = { Granted };

    ghost view = { λ a. record { services = a.services.items; ended = a.ended.entries; issues = a.issues.entries } };

    ghost invariant = { λ a. IsKept (record { services = a.services.items; ended = a.ended.entries; issues = a.issues.entries }) };
}

impl Grants {
    /// The grants of so many services, of which none stands.
    pub fn new(alloc: Global, services: u16) -> Result<Self, AllocError>
        ensures { IfOk result (λ g. IsNew services g) }
    {
        Ok(Grants {
            services: vec![in alloc; NOBODY; services as usize]?,
            ended: HashMap::new(alloc),
            issues: HashMap::new(alloc),
        })
    }

    /// The incarnation of the service that stands.
    pub fn standing(&self, service: u16) -> Option<u32>
        requires { service < service_count self.now }
        ensures { result ≡ stands self.now service }
    {
        let kept = self.services[service as usize];
        if kept.is_live { Some(kept.last) } else { None }
    }

    /// The greatest incarnation of the service that was installed, 0 for none.
    pub fn last(&self, service: u16) -> u32
        requires { service < service_count self.now }
        ensures { result ≡ last self.now service }
    {
        self.services[service as usize].last
    }

    /// How many incarnations stand: for as many revocations room is to be kept.
    pub fn places(&self) -> usize
        ensures count { result ≡ places self.now }
        ensures small { result < 2 ^ 16 }
    {
        self.services.iter().filter(|kept| kept.is_live).count()
    }

    /// The incarnation of the service to which the token was issued.
    pub fn issued(&self, service: u16, token: &Token) -> Option<u32>
        ensures { result ≡ issued self.now service token.now }
    {
        let issue = Issue {
            service,
            bytes: token.bytes,
        };
        self.issues.get(&issue).copied()
    }

    /// How many sessions the incarnation opened.
    pub fn opened(&self, service: u16, incarnation: u32) -> u32
        requires { service < service_count self.now }
        ensures { result ≡ opened self.now service incarnation }
    {
        let kept = self.services[service as usize];
        if kept.last == incarnation {
            return kept.opened;
        }
        let ended = Incarnation {
            service,
            number: incarnation,
        };
        self.ended.get(&ended).copied().unwrap_or(0)
    }

    /// Has the incarnation stand, with the token that was issued to it where the column has tokens.
    /// Where memory is refused, the grants answer as before.
    pub fn install(
        &mut self,
        service: u16,
        incarnation: u32,
        token: Option<Token>,
    ) -> Result<(), AllocError>
        requires service { service < service_count self.old }
        requires later { last self.old service < incarnation }
        ensures services { service_count self.new ≡ service_count self.old }
        ensures standing { OnOk result ((s : ℕ) → stands self.new s ≡ (if service == s then Some incarnation else stands self.old s)) }
        ensures last { OnOk result ((s : ℕ) → last self.new s ≡ (if service == s then incarnation else last self.old s)) }
        ensures issued { OnOk result ((s : ℕ) (t : Token) → issued self.new s t ≡ issued_with service incarnation token s t (issued self.old s t)) }
        ensures opened { OnOk result ((s k : ℕ) → opened self.new s k ≡ opened self.old s k) }
        ensures places { OnOk result (places self.new + (if is_some (stands self.old service) then 1 else 0) ≡ places self.old + 1) }
        ensures err { OnErr result (IsSame self.old self.new) }
    {
        let was = self.services[service as usize];
        keep_count(&mut self.ended, service, was.last, was.opened)?;
        keep_issue(&mut self.issues, service, incarnation, token)?;
        self.services[service as usize] = Service {
            last: incarnation,
            is_live: true,
            opened: 0,
        };
        Ok(())
    }

    /// Has the incarnation stand no longer. Where it doesn't stand, nothing changes.
    pub fn revoke(&mut self, service: u16, incarnation: u32)
        requires { service < service_count self.old }
        ensures services { service_count self.new ≡ service_count self.old }
        ensures standing { (s : ℕ) → stands self.new s ≡ (if (service == s) && is_just incarnation (stands self.old s) then None else stands self.old s) }
        ensures last { (s : ℕ) → last self.new s ≡ last self.old s }
        ensures issued { (s : ℕ) (t : Token) → issued self.new s t ≡ issued self.old s t }
        ensures opened { (s k : ℕ) → opened self.new s k ≡ opened self.old s k }
        ensures places { places self.new + (if is_just incarnation (stands self.old service) then 1 else 0) ≡ places self.old }
    {
        if self.standing(service) == Some(incarnation) {
            self.services[service as usize].is_live = false;
        }
    }

    /// Counts one session more of the incarnation, which stands, and gives its number. Takes no memory.
    pub fn admit(&mut self, service: u16, incarnation: u32) -> u32
        requires service { service < service_count self.old }
        requires stands { stands self.old service ≡ Some incarnation }
        requires most { opened self.old service incarnation < MOST_SESSIONS }
        ensures number { result ≡ opened self.old service incarnation }
        ensures opened { (s k : ℕ) → opened self.new s k ≡ opened self.old s k + (if (service == s) && (incarnation == k) then 1 else 0) }
        ensures services { service_count self.new ≡ service_count self.old }
        ensures standing { (s : ℕ) → stands self.new s ≡ stands self.old s }
        ensures last { (s : ℕ) → last self.new s ≡ last self.old s }
        ensures issued { (s : ℕ) (t : Token) → issued self.new s t ≡ issued self.old s t }
        ensures places { places self.new ≡ places self.old }
    {
        let number = self.services[service as usize].opened;
        self.services[service as usize].opened = number + 1;
        number
    }
}

// Keeps how many sessions an incarnation opened that is the last one no longer.
fn keep_count(
    ended: &mut HashMap<Incarnation, u32>,
    service: u16,
    number: u32,
    opened: u32,
) -> Result<(), AllocError>
    ensures ok { OnOk result ((s k : ℕ) → ended_in ended.new.entries s k ≡ (if (service == s) && (number == k) then opened else ended_in ended.old.entries s k)) }
    ensures err { OnErr result (ended.new.entries ≡ ended.old.entries) }
{
    match ended.insert(Incarnation { service, number }, opened) {
        Ok(_) => Ok(()),
        Err(_) => Err(AllocError),
    }
}

// Keeps to which incarnation a token was issued.
fn keep_issue(
    issues: &mut HashMap<Issue, u32>,
    service: u16,
    incarnation: u32,
    token: Option<Token>,
) -> Result<(), AllocError>
    ensures ok { OnOk result ((s : ℕ) (t : Token) → issued_in issues.new.entries s t ≡ issued_with service incarnation token s t (issued_in issues.old.entries s t)) }
    ensures err { OnErr result (issues.new.entries ≡ issues.old.entries) }
{
    let Some(token) = token else {
        return Ok(());
    };
    let bytes = token.bytes;
    match issues.insert(Issue { service, bytes }, incarnation) {
        Ok(_) => Ok(()),
        Err(_) => Err(AllocError),
    }
}
