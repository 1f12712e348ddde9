//! The doors of a run and their desks, in rows.

ghost use Rattle.std.specs.Prelude.{◌≡◌, ◌+◌, ◌++◌, ◌∷◌, [], length, IfSome, IfNone};
ghost use Rattle.site_run.specs.Places.{HasPlaces, SamePlaces};

use crate::room::Desk;
use okws_outer::door::Door;
use std::marker::Model;

/// The doors of a run and their desks, those of number 0 first.
pub struct Doors<D: Door> {
    pub(crate) doors: Vec<D>,
    pub(crate) desks: Vec<Desk>,
}

impl<D: Door> Model for Doors<D> {
    ghost use Rattle.std.specs.Prelude.{map, vec_capacity};
    ghost use Rattle.site_run.specs.declared.room.Desk.{Desk};
    ghost use Rattle.site_run.specs.Places.{PlacesAre};

    ghost Value = { PlacesAre };

    ghost view = { λ x. record { entrances = map D.entrance x.doors.items; places = map (λ (d : Desk). d.place) x.desks.items; doors_room = vec_capacity x.doors; desks_room = vec_capacity x.desks } };
}

impl<D: Door> Doors<D> {
    /// Takes the door of the greatest number and its desk.
    pub fn next_door(&mut self) -> Option<(D, Desk)>
        requires alike { length self.old.places ≡ length self.old.entrances }
        ensures some { IfSome result (λ r. (self.old.entrances ≡ self.new.entrances ++ D.entrance r.0 ∷ []) × (self.old.places ≡ self.new.places ++ r.1.place ∷ [])) }
        ensures none { IfNone result ((self.old.entrances ≡ []) × (self.new.entrances ≡ []) × (self.new.places ≡ [])) }
        ensures room { SamePlaces self.old self.new }
    {
        let Some(door) = self.doors.pop() else {
            return None;
        };
        let Some(desk) = self.desks.pop() else {
            unreachable!()
        };
        Some((door, desk))
    }

    /// Takes a door and its desk back, as those of the greatest number.
    pub fn put_back(&mut self, door: D, desk: Desk)
        requires room { HasPlaces (length self.old.entrances + 1) self.old }
        requires alike { length self.old.places ≡ length self.old.entrances }
        ensures door { self.new.entrances ≡ self.old.entrances ++ D.entrance door ∷ [] }
        ensures place { self.new.places ≡ self.old.places ++ desk.place ∷ [] }
        ensures room { SamePlaces self.old self.new }
    {
        self.doors.push_reserved(door);
        self.desks.push_reserved(desk);
    }
}
