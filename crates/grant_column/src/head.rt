//! The head of a column: what every column that grants has in common.

ghost use Rattle.std.specs.Prelude.{◌≡◌, ◌≤◌, ◌<◌, ◌+◌, ◌==◌, ◌&&◌, ◌∷◌, ℕ, [], IfOk, OnOk, OnErr, Some, None, if◌then◌else◌};
ghost use Rattle.okws_base.specs.Past.{Grant, Installs, Revokes, Leaves, standing_by, last_by, is_just};
ghost use Rattle.okws_base.specs.declared.limit.TheConstants.{MOST_SESSIONS};
ghost use Rattle.okws_base.specs.declared.value.Token.{Token};
ghost use Rattle.grant_column.specs.Granted.{IsNew, IsSame, issued_with, service_count, issued, opened};
ghost use Rattle.grant_column.specs.Headed.{noted};

use crate::grants::Grants;
use okws_base::journal::{Entry, Journal, Past};
use okws_base::told::Parts;
use okws_base::value::Token;
use std::alloc::{AllocError, Global};
use std::marker::Model;

/// A kind of column that grants.
pub trait Granting {
    /// An event of such a column.
    type Event: Drop;

    /// What an event does to what stands.
    ghost grant: { Self.Event → Grant };
}

/// The journal of a column, what it says of the incarnations that stand, and the number that new
/// entries name. Room is kept in the journal for the revocation of each incarnation that stands.
pub struct Head<G: Granting> {
    journal: Journal<Entry<G::Event>>,
    grants: Grants,
    holder: u16,
}

impl<G: Granting> Drop for Head<G> {
    fn drop(self) {
        let Head {
            journal,
            grants,
            holder: _,
        } = self;
        drop(journal);
        drop(grants);
    }
}

impl<G: Granting> Model for Head<G> {
    ghost use Rattle.std.specs.Prelude.{◌-◌};
    ghost use Rattle.grant_column.specs.Granted.{places};
    ghost use Rattle.grant_column.specs.Headed.{Headed, IsHead};

    ghost Value = { Headed G.Event };

    ghost view = { λ a. record { past = a.journal.past; room = a.journal.room - places a.grants; keeps = a.journal.keeps; holder = a.holder; granted = a.grants } };

    ghost invariant = { λ a. IsHead G.grant a.journal.past a.journal.room a.grants };
}

impl<G: Granting> Head<G> {
    /// The head of a column of so many services, with an empty journal, which keeps its entries or
    /// not. New entries name number 0 until `hold`.
    pub fn new(alloc: Global, services: u16, keeps: bool) -> Result<Self, AllocError>
        ensures past { IfOk result (λ h. h.past ≡ []) }
        ensures keeps { IfOk result (λ h. h.keeps ≡ keeps) }
        ensures holder { IfOk result (λ h. h.holder ≡ 0) }
        ensures granted { IfOk result (λ h. IsNew services h.granted) }
    {
        let grants = Grants::new(alloc, services)?;
        Ok(Head {
            journal: Journal::new(alloc, keeps),
            grants,
            holder: 0,
        })
    }

    /// The incarnation of the service that stands.
    pub fn standing(&self, service: u16) -> Option<u32>
        requires { service < service_count self.now.granted }
        ensures { result ≡ standing_by G.grant self.now.past service }
    {
        self.grants.standing(service)
    }

    /// The greatest incarnation of the service that was installed, 0 for none.
    pub fn last(&self, service: u16) -> u32
        requires { service < service_count self.now.granted }
        ensures { result ≡ last_by G.grant self.now.past service }
    {
        self.grants.last(service)
    }

    /// The incarnation of the service to which the token was issued.
    pub fn issued(&self, service: u16, token: &Token) -> Option<u32>
        ensures { result ≡ issued self.now.granted service token.now }
    {
        self.grants.issued(service, token)
    }

    /// How many sessions the incarnation opened.
    pub fn opened(&self, service: u16, incarnation: u32) -> u32
        requires { service < service_count self.now.granted }
        ensures { result ≡ opened self.now.granted service incarnation }
    {
        self.grants.opened(service, incarnation)
    }

    /// Has the incarnation stand, with the token that is issued to it where the column has tokens,
    /// enters its event, and keeps the place of its revocation. Where memory is refused, the journal
    /// is as before, and the grants answer as before.
    pub fn install(
        &mut self,
        service: u16,
        incarnation: u32,
        token: Option<Token>,
        event: G::Event,
    ) -> Result<(), AllocError>
        requires service { service < service_count self.old.granted }
        requires later { last_by G.grant self.old.past service < incarnation }
        requires installs { G.grant event ≡ Installs service incarnation }
        ensures past { OnOk result (self.new.past ≡ noted self.old.holder event ∷ self.old.past) }
        ensures issued { OnOk result ((s : ℕ) (t : Token) → issued self.new.granted s t ≡ issued_with service incarnation token s t (issued self.old.granted s t)) }
        ensures opened { OnOk result ((s k : ℕ) → opened self.new.granted s k ≡ opened self.old.granted s k) }
        ensures services { service_count self.new.granted ≡ service_count self.old.granted }
        ensures same { (self.new.keeps ≡ self.old.keeps) × (self.new.holder ≡ self.old.holder) }
        ensures err { OnErr result ((self.new.past ≡ self.old.past) × IsSame self.old.granted self.new.granted) }
    {
        self.journal.make_room(self.grants.places() + 2)?;
        self.grants.install(service, incarnation, token)?;
        self.journal.enter(Entry {
            worker: self.holder,
            event,
        });
        Ok(())
    }

    /// Has the incarnation stand no longer, and enters its event. Where it doesn't stand, nothing
    /// changes. Takes no memory.
    pub fn revoke(&mut self, service: u16, incarnation: u32, event: G::Event)
        requires service { service < service_count self.old.granted }
        requires revokes { G.grant event ≡ Revokes service }
        ensures past { self.new.past ≡ (if is_just incarnation (standing_by G.grant self.old.past service) then noted self.old.holder event ∷ self.old.past else self.old.past) }
        ensures issued { (s : ℕ) (t : Token) → issued self.new.granted s t ≡ issued self.old.granted s t }
        ensures opened { (s k : ℕ) → opened self.new.granted s k ≡ opened self.old.granted s k }
        ensures services { service_count self.new.granted ≡ service_count self.old.granted }
        ensures same { (self.new.keeps ≡ self.old.keeps) × (self.new.holder ≡ self.old.holder) }
    {
        if self.grants.standing(service) == Some(incarnation) {
            self.grants.revoke(service, incarnation);
            self.journal.enter(Entry {
                worker: self.holder,
                event,
            });
        }
    }

    /// Counts one session more of the incarnation, which stands, and gives its number. Enters
    /// nothing, and takes no memory.
    pub fn admit(&mut self, service: u16, incarnation: u32) -> u32
        requires service { service < service_count self.old.granted }
        requires stands { standing_by G.grant self.old.past service ≡ Some incarnation }
        requires most { opened self.old.granted service incarnation < MOST_SESSIONS }
        ensures number { result ≡ opened self.old.granted service incarnation }
        ensures opened { (s k : ℕ) → opened self.new.granted s k ≡ opened self.old.granted s k + (if (service == s) && (incarnation == k) then 1 else 0) }
        ensures issued { (s : ℕ) (t : Token) → issued self.new.granted s t ≡ issued self.old.granted s t }
        ensures services { service_count self.new.granted ≡ service_count self.old.granted }
        ensures past { self.new.past ≡ self.old.past }
        ensures room { self.new.room ≡ self.old.room }
        ensures same { (self.new.keeps ≡ self.old.keeps) × (self.new.holder ≡ self.old.holder) }
    {
        self.grants.admit(service, incarnation)
    }

    /// Makes room for one entry beside the places of the revocations. Where memory is refused, what
    /// was entered is as before.
    pub fn make_room(&mut self) -> Result<(), AllocError>
        ensures ok { OnOk result (0 < self.new.room) }
        ensures same { self.new ≡ record self.old { room = self.new.room } }
    {
        self.journal.make_room(self.grants.places() + 1)
    }

    /// Enters an event that changes nothing of what stands, for which there is room. Takes no memory.
    pub fn enter(&mut self, event: G::Event)
        requires room { 0 < self.old.room }
        requires leaves { G.grant event ≡ Leaves }
        ensures past { self.new.past ≡ noted self.old.holder event ∷ self.old.past }
        ensures same { self.new ≡ record self.old { past = self.new.past; room = self.new.room } }
    {
        self.journal.enter(Entry {
            worker: self.holder,
            event,
        });
    }

    /// Enters what the parts stand for, an entry that changes nothing of what stands, and makes it only
    /// where it is kept. Where memory is refused, what was entered is as before.
    pub fn tell<P: Parts<Item = Entry<G::Event>>>(
        &mut self,
        alloc: Global,
        parts: &P,
    ) -> Result<(), AllocError>
        requires room { 0 < self.old.room }
        requires leaves { G.grant (P.item parts.now).event ≡ Leaves }
        ensures ok { OnOk result (self.new.past ≡ P.item parts.now ∷ self.old.past) }
        ensures err { OnErr result (self.new.past ≡ self.old.past) }
        ensures same { self.new ≡ record self.old { past = self.new.past; room = self.new.room } }
    {
        self.journal.tell(alloc, parts)
    }

    /// Has new entries name this number. Changes nothing else.
    pub fn hold(&mut self, number: u16)
        ensures { self.new ≡ record self.old { holder = number } }
    {
        self.holder = number;
    }

    /// The number that new entries name.
    pub fn holder(&self) -> u16
        ensures { result ≡ self.now.holder }
    {
        self.holder
    }

    /// What was entered.
    pub fn close(self) -> Past<Entry<G::Event>>
        ensures { result ≡ self.past }
    {
        let Head {
            journal,
            grants: _,
            holder: _,
        } = self;
        journal.into_past()
    }
}
