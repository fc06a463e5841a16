//! A map from numbers to values, where each new number is above all before.
//!
//! The values are in a list by rising number, and are found by binary search. A value that is taken
//! out leaves a vacant place. Vacant places are removed when the list is full. Only `reserve`
//! allocates: it keeps room for as many values again as there are, so the cost of removing vacant
//! places is constant for each value, averaged over all calls.
ghost use Rattle.std.specs.Prelude.{◌≡◌, ◌+◌, ◌<◌, ◌≤◌, ◌==◌, ◌↔◌, ℕ, IsTrue, if◌then◌else◌, length, filter, Some, None, slice_get, IfSome, IfNone, OnOk, ltb, vec_len, vec_capacity};
ghost use Rattle.std.specs.Option.{option_copied};
ghost use Rattle.std.specs.Fn.{FnOnceTakesAtMut, FnOnceReturnsAtMut};
ghost use Rattle.pq_core.specs.aux.Rising.{found, numbers, IsVacant, IsAbove, Rises, has_value, live_count, SameFound, Compacts};
ghost use Rattle.pq_core.specs.aux.Changes.{IsSetAt, IsSameMap};

use crate::values::fault::Memory;
use std::alloc::Global;
use std::marker::Model;

/// A number and its value. The place is vacant where the value was taken out.
#[derive(Drop)]
pub(crate) struct Place<T> {
    pub(crate) number: u64,
    pub(crate) value: Option<T>,
}

/// A map from rising numbers to values.
#[derive(Drop)]
pub(crate) struct Rising<T> {
    places: Vec<Place<T>>,
    live: usize,
}

impl<T> Model for Rising<T> {
    ghost use Rattle.std.specs.Prelude.{◌-◌, vec_capacity};
    ghost use Rattle.pq_core.specs.aux.Rising.{Slots, IsKept};

    ghost Value = { Slots T };

    ghost view = { λ r. record { items = r.places.items; room = vec_capacity r.places - r.live } };

    ghost invariant = { λ r. IsKept r.places.items r.live };
}

impl<T: Drop> Rising<T> {
    /// A map without values.
    pub(crate) fn new(alloc: Global) -> Self
        ensures none { (n : ℕ) → found result.items n ≡ None }
        ensures above { (n : ℕ) → IsAbove n result.items }
    {
        Rising {
            places: Vec::new(alloc),
            live: 0,
        }
    }

    /// Makes room for `more` values. It keeps room for as many again as there are.
    pub(crate) fn reserve(&mut self, more: usize) -> Result<(), Memory>
        ensures same { SameFound self.old.items self.new.items }
        ensures grows { self.old.room ≤ self.new.room }
        ensures room { OnOk result (more ≤ self.new.room) }
    {
        let wanted = self.live.saturating_add(more);
        if wanted <= self.places.capacity() - self.live {
            return Ok(());
        }
        compact(&mut self.places);
        self.places.reserve(wanted)?;
        Ok(())
    }

    /// Adds `value` under `number`, which is above all numbers before.
    pub(crate) fn push_reserved(&mut self, number: u64, value: T)
        requires room { 0 < self.old.room }
        requires above { IsAbove number self.old.items }
        ensures found { (n : ℕ) → found self.new.items n ≡ (if n == number then Some value else found self.old.items n) }
        ensures room { self.old.room ≤ self.new.room + 1 }
        ensures above { (m : ℕ) → number < m → IsAbove m self.old.items → IsAbove m self.new.items }
    {
        make_room(&mut self.places);
        self.places.push_reserved(Place {
            number,
            value: Some(value),
        });
        self.live += 1;
    }

    /// Takes the value of `number` out, and keeps its place.
    pub(crate) fn take(&mut self, number: u64) -> Option<T>
        ensures value { result ≡ found self.old.items number }
        ensures found { (n : ℕ) → found self.new.items n ≡ (if n == number then None else found self.old.items n) }
        ensures vacant { IfSome result (λ _. IsVacant self.new.items number) }
        ensures numbers { numbers self.new.items ≡ numbers self.old.items }
        ensures room { self.old.room ≤ self.new.room }
        ensures more_room { IfSome result (λ _. self.old.room + 1 ≤ self.new.room) }
        ensures above { (m : ℕ) → IsAbove m self.old.items → IsAbove m self.new.items }
    {
        match place_of(&self.places, number) {
            None => return None,
            Some(at) => match self.places[at].value.take() {
                None => return None,
                Some(value) => {
                    self.live -= 1;
                    return Some(value);
                }
            },
        }
    }

    /// Puts `value` under `number`, whose value was taken out.
    pub(crate) fn put_back(&mut self, number: u64, value: T)
        requires { IsVacant self.old.items number }
        ensures found { (n : ℕ) → found self.new.items n ≡ (if n == number then Some value else found self.old.items n) }
        ensures room { self.old.room ≤ self.new.room + 1 }
        ensures above { (m : ℕ) → IsAbove m self.old.items → IsAbove m self.new.items }
    {
        if let Some(at) = place_of(&self.places, number) {
            self.places[at].value = Some(value);
            self.live += 1;
        }
    }

    /// The value of `number`.
    pub(crate) fn get(&self, number: u64) -> Option<&T>
        ensures { option_copied result ≡ found self.now.items number }
    {
        match place_of(&self.places, number) {
            None => return None,
            Some(at) => return self.places[at].value.as_ref(),
        }
    }

    /// Changes the value of `number` by `f`, if there is one. Returns what `f` returned.
    pub(crate) fn update<A, F: FnOnce(&mut T) -> A + Drop>(
        &mut self,
        number: u64,
        f: F,
    ) -> Option<A>
        requires { (value : T) → found self.old.items number ≡ Some value → FnOnceTakesAtMut F.FnOnce f value }
        ensures open { (value : T) → found self.old.items number ≡ Some value → (answer : A) × (after : T) × (result ≡ Some answer) × FnOnceReturnsAtMut F.FnOnce f value answer after × IsSetAt self.old self.new number (Some after) }
        ensures closed { found self.old.items number ≡ None → (result ≡ None) × IsSameMap self.old self.new }
        ensures above { (m : ℕ) → IsAbove m self.old.items → IsAbove m self.new.items }
    {
        match place_of(&self.places, number) {
            Some(at) => return change(&mut self.places[at].value, f),
            None => return None,
        }
    }

    /// Whether it has no value.
    pub(crate) fn is_empty(&self) -> bool
        ensures { IsTrue result ↔ ((n : ℕ) → found self.now.items n ≡ None) }
    {
        self.live == 0
    }

    /// The places in order, vacant ones among them.
    pub(crate) fn places(&self) -> &[Place<T>]
        ensures now { result.now ≡ self.now.items }
        ensures rises { Rises self.now.items }
    {
        &self.places
    }
}

/// Changes the value of a place by `f`, if there is one. Returns what `f` returned.
fn change<T: Drop, A, F: FnOnce(&mut T) -> A + Drop>(slot: &mut Option<T>, f: F) -> Option<A>
    requires { (value : T) → slot.old ≡ Some value → FnOnceTakesAtMut F.FnOnce f value }
    ensures open { (value : T) → slot.old ≡ Some value → (answer : A) × (after : T) × (result ≡ Some answer) × FnOnceReturnsAtMut F.FnOnce f value answer after × (slot.new ≡ Some after) }
    ensures closed { slot.old ≡ None → (result ≡ None) × (slot.new ≡ None) }
{
    match slot {
        Some(value) => return Some(f(value)),
        None => return None,
    }
}

/// Removes the vacant places.
fn compact<T: Drop>(places: &mut Vec<Place<T>>)
    ensures items { places.new.items ≡ filter has_value places.old.items }
    ensures capacity { vec_capacity places.new ≡ vec_capacity places.old }
{
    places.retain(
        |place: &Place<T>| -> bool
            ensures { result ≡ has_value place.now }
        { place.value.is_some() },
    );
}

/// Removes the vacant places where the list is full.
fn make_room<T: Drop>(places: &mut Vec<Place<T>>)
    requires rises { Rises places.old.items }
    requires room { live_count places.old.items < vec_capacity places.old }
    ensures compacts { Compacts places.old.items places.new.items }
    ensures room { vec_len places.new < vec_capacity places.new }
    ensures capacity { vec_capacity places.new ≡ vec_capacity places.old }
{
    if places.len() < places.capacity() {
        return;
    }
    compact(places);
}

/// The index of the place of `number`.
fn place_of<T>(places: &[Place<T>], number: u64) -> Option<usize>
    requires { Rises places.now }
    ensures here { IfSome result (λ i. (i < length places.now) × ((p : Place T) → slice_get places.now i ≡ Some p → p.number ≡ number)) }
    ensures none { IfNone result ((i : ℕ) (p : Place T) → slice_get places.now i ≡ Some p → p.number ≡ number → ⊥) }
{
    let first = places.partition_point(
        |place: &Place<T>| -> bool
            ensures { result ≡ ltb place.now.number number }
        { place.number < number },
    );
    if first >= places.len() {
        return None;
    }
    if places[first].number != number {
        return None;
    }
    Some(first)
}
