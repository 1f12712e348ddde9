//! Sets of slots: putting slots in, taking them out, and the places in those of a group.

ghost use Rattle.std.specs.Prelude.{◌≡◌, ◌||◌, ◌&&◌, not, true, false, IfOk, OnOk, OnErr, IsSome, length, ◌==◌, if◌then◌else◌};
ghost use Rattle.std.specs.Ordering.{is_eq, nat_cmp};
ghost use Rattle.std.specs.BTreeMap.{get};
ghost use Rattle.std.specs.List.Sorted.{IsStrictlySortedBy};
ghost use Rattle.row_index.specs.Few.{listed};
ghost use Rattle.row_index.specs.Groups.{group_cmp};
ghost use Rattle.row_index.specs.GroupPlaces.{places_if_any, places_listed, is_among};
ghost use Rattle.row_index.specs.Slots.{slot_cmp, holds, has_slot, group_places, places_in};
ghost use Rattle.row_index.specs.declared.slot.Slot.{Slot};

use crate::few::Few;
use crate::places::Places;
use crate::slot::{Group, Slot};
use okws_base::items::Exact;
use okws_base::value::Value;
use std::alloc::{AllocError, Global};
use std::collections::BTreeMap;

/// Slots, by their groups: one search leads to the places in all slots of a value in a column.
#[derive(Drop)]
pub struct Slots {
    groups: BTreeMap<Group, Places>,
}

impl Slots {
    /// No slots.
    pub fn new(alloc: Global) -> Slots
        ensures { (q : Slot) → holds result q ≡ false }
    {
        Slots {
            groups: BTreeMap::new(alloc),
        }
    }

    /// Puts a slot in place of those of its group, and gives the places of these, if there were any; or leaves them as they were
    /// where memory is refused.
    #[inline(always)]
    pub fn drive_out(&mut self, group: Group, place: u64) -> Result<Option<Places>, AllocError>
        ensures old { IfOk result (λ o. places_if_any o ≡ group_places self.old group) }
        ensures slots { OnOk result ((q : Slot) → holds self.new q ≡ (if is_eq (group_cmp group q.group) then place == q.place else holds self.old q)) }
        ensures there { OnOk result (IsSome (get group_cmp self.new.groups group)) }
        ensures err { OnErr result ((q : Slot) → holds self.new q ≡ holds self.old q) }
    {
        let old = self.groups.insert(group, Places::Sole(place))?;
        Ok(old)
    }

    /// Puts the places of its group back that a slot has driven out, and with them its own; or them alone where memory is refused.
    #[inline(never)]
    pub fn put_beside(
        &mut self,
        alloc: Global,
        slot: &Slot,
        places: Places,
    ) -> Result<(), AllocError>
        requires { IsSome (get group_cmp self.old.groups slot.now.group) }
        ensures ok { OnOk result ((q : Slot) → holds self.new q ≡ (if is_eq (group_cmp slot.now.group q.group) then (slot.now.place == q.place) || is_among q.place (places_listed places) else holds self.old q)) }
        ensures err { OnErr result ((q : Slot) → holds self.new q ≡ (if is_eq (group_cmp slot.now.group q.group) then is_among q.place (places_listed places) else holds self.old q)) }
    {
        let mut places = places;
        let put = places.put(alloc, slot.place);
        self.put_back(&slot.group, places);
        put
    }

    /// Puts the places of its group back that a slot has driven out, if there are any, and tells whether there were none.
    #[inline(never)]
    pub fn give_way(&mut self, slot: &Slot, places: Places) -> bool
        requires { IsSome (get group_cmp self.old.groups slot.now.group) }
        ensures none { result ≡ (length (places_listed places) == 0) }
        ensures ordered { IsStrictlySortedBy nat_cmp (places_listed places) }
        ensures back { result ≡ false → (q : Slot) → holds self.new q ≡ (if is_eq (group_cmp slot.now.group q.group) then is_among q.place (places_listed places) else holds self.old q) }
        ensures stays { result ≡ true → self.new ≡ self.old }
    {
        if places.has_any() {
            self.put_back(&slot.group, places);
            return false;
        }
        true
    }

    // Puts other places in those of a group, which is there.
    fn put_back(&mut self, group: &Group, places: Places)
        requires { IsSome (get group_cmp self.old.groups group.now) }
        ensures { (q : Slot) → holds self.new q ≡ (if is_eq (group_cmp group.now q.group) then is_among q.place (places_listed places) else holds self.old q) }
    {
        if let Some(kept) = self.groups.get_mut(group) {
            *kept = places;
        }
    }

    /// Puts a slot in, or leaves them as they were where memory is refused.
    pub fn put(&mut self, alloc: Global, slot: &Slot) -> Result<(), AllocError>
        ensures ok { OnOk result ((q : Slot) → holds self.new q ≡ (is_eq (slot_cmp slot.now q) || holds self.old q)) }
        ensures err { OnErr result ((q : Slot) → holds self.new q ≡ holds self.old q) }
    {
        match self.drive_out(slot.group.copy(alloc)?, slot.place)? {
            None => Ok(()),
            Some(places) => self.put_beside(alloc, slot, places),
        }
    }

    /// Takes a slot out.
    #[inline(always)]
    pub fn take(&mut self, slot: &Slot)
        ensures { (q : Slot) → holds self.new q ≡ (not (is_eq (slot_cmp slot.now q)) && holds self.old q) }
    {
        if self.take_place(slot) {
            self.groups.remove(&slot.group);
        }
    }

    // Takes a place out of those of its group, and tells whether the group is to go with it.
    #[inline(always)]
    fn take_place(&mut self, slot: &Slot) -> bool
        ensures left { result ≡ false → (q : Slot) → holds self.new q ≡ (not (is_eq (slot_cmp slot.now q)) && holds self.old q) }
        ensures last { result ≡ true → (q : Slot) → (not (is_eq (group_cmp slot.now.group q.group)) && holds self.new q) ≡ (not (is_eq (slot_cmp slot.now q)) && holds self.old q) }
    {
        match self.groups.get_mut(&slot.group) {
            None => false,
            Some(places) => places.take(slot.place),
        }
    }

    /// Takes the slots of a group out, and tells their places, if there are any.
    #[inline(always)]
    pub fn take_group(&mut self, group: &Group) -> Option<Places>
        ensures places { places_if_any result ≡ group_places self.old group.now }
        ensures slots { (q : Slot) → holds self.new q ≡ (not (is_eq (group_cmp group.now q.group)) && holds self.old q) }
    {
        self.groups.remove(group)
    }

    /// The places in the slots of this column that have this value, ascending.
    #[inline(always)]
    pub fn places_at(
        &self,
        alloc: Global,
        column: u8,
        value: &Value,
    ) -> Result<Few<u64>, AllocError>
        ensures places { IfOk result (λ v. listed v ≡ places_in column value.now self.now) }
        ensures ordered { OnOk result (IsStrictlySortedBy nat_cmp (places_in column value.now self.now)) }
    {
        let group = group_of(alloc, column, value)?;
        match self.groups.get(&group) {
            None => Ok(Few::Sole(None)),
            Some(places) => places.list(alloc),
        }
    }

    /// Puts all slots in, or none where memory is refused. None of them is in the set.
    pub fn put_all(&mut self, alloc: Global, slots: &[Slot]) -> Result<(), AllocError>
        requires fresh { (q : Slot) → has_slot slots.now q ≡ true → holds self.old q ≡ false }
        ensures ok { OnOk result ((q : Slot) → holds self.new q ≡ (has_slot slots.now q || holds self.old q)) }
        ensures err { OnErr result ((q : Slot) → holds self.new q ≡ holds self.old q) }
    {
        for i in 0..slots.len() {
            if let Err(e) = self.put(alloc, &slots[i]) {
                self.take_all(&slots[..i]);
                return Err(e);
            }
        }
        Ok(())
    }

    /// Takes the slots out.
    pub fn take_all(&mut self, slots: &[Slot])
        ensures { (q : Slot) → holds self.new q ≡ (not (has_slot slots.now q) && holds self.old q) }
    {
        for slot in slots {
            self.take(slot);
        }
    }
}

/// A group with a copy of the value.
#[inline(always)]
pub fn group_of(alloc: Global, column: u8, value: &Value) -> Result<Group, AllocError>
    ensures { IfOk result (λ g. g ≡ record { column = column; value = value.now }) }
{
    Ok(Group {
        column,
        value: value.copy(alloc)?,
    })
}
