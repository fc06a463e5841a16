//! The slots of the table: each has a key, and an entry if the key has a memo.
//!
//! A key has a number, that of its slot: the count of the slots made before. It never changes. A map
//! (`numbers`) finds the number of a key in logarithmic time. Who knows where a key may be passes a
//! hint along: one comparison then takes the place of the search. An input has no slot.
ghost use Rattle.std.specs.Prelude.{◌≡◌, ◌<◌, [], length, IfSome, IfNone, IfOk, IfErr, OnOk, OnErr, Some, None, option_copied, if◌then◌else◌};
ghost use Rattle.std.specs.Option.{option_map};
ghost use Rattle.std.specs.Map.{lookup};
ghost use Rattle.std.specs.BTreeMap.{is_at};
ghost use Rattle.std.specs.Ordering.{is_eq};
ghost use Rattle.pq_memo.specs.Sound.{Memo};
ghost use Rattle.pq_memo.specs.Table.{key_at, memo_at, joined, IsPut, IsSameTable};
ghost use Rattle.pq_memo.specs.Writes.{remarked};
ghost use Rattle.pq_memo.specs.aux.Slots.{value_at, with_at};
ghost use Rattle.pq_memo.specs.aux.Written.{HasRoom};

use crate::table::entry::{Entry, mark_in};
use crate::table::hint::{Hint, hint_at};
use crate::table::numbers::Numbers;
use crate::table::recorded::Recorded;
use pq_inputs::Durability;
use pq_rules::{Memory, Rules, is_same_key, push};
use std::alloc::Global;
use std::marker::Model;

/// A key, which recorded reads share, and what the table keeps of it. Contracts see the pair.
#[derive(Drop)]
pub(crate) struct Slot<K, V> {
    key: Recorded<K>,
    entry: Option<Entry<K, V>>,
}

impl<K, V> Model for Slot<K, V> {
    ghost use Rattle.std.specs.Prelude.{Option};
    ghost use Rattle.pq_memo.specs.Sound.{Memo};

    ghost Value = { K × Option (Memo K V) };

    ghost view = { λ s. (s.key, s.entry) };
}

impl<K, V> Slot<K, V> {
    /// The key.
    fn key(&self) -> &K
        ensures { result.now ≡ self.now.0 }
    {
        self.key.key()
    }

    /// The entry, if the key has a memo.
    fn entry(&self) -> Option<&Entry<K, V>>
        ensures { option_copied result ≡ self.now.1 }
    {
        self.entry.as_ref()
    }

    /// Marks the entry, if there is one.
    fn mark(&mut self, revision: u64, durability: Durability)
        ensures { self.new ≡ (self.old.0, option_map (λ m. remarked m revision durability) self.old.1) }
    {
        mark_in(&mut self.entry, revision, durability);
    }
}

impl<K: Drop, V: Drop> Slot<K, V> {
    /// The key once more.
    fn share(&self) -> Result<Recorded<K>, Memory>
        ensures { IfOk result (λ k. k ≡ self.now.0) }
    {
        self.key.copy()
    }

    /// Gives the key the memo `entry`.
    fn set(&mut self, entry: Entry<K, V>)
        ensures { self.new ≡ (self.old.0, Some entry) }
    {
        self.entry = Some(entry);
    }
}

/// Marks the entry of the slot `number`, if it has one.
fn mark_at<K, V>(slots: &mut Vec<Slot<K, V>>, number: usize, revision: u64, durability: Durability)
    requires { number < length slots.old.items }
    ensures { slots.new.items ≡ with_at slots.old.items number (option_map (λ m. remarked m revision durability) (joined (value_at slots.old.items number))) }
{
    slots[number].mark(revision, durability);
}

/// Gives the key of the slot `number` the memo `entry`.
fn set_at<K: Drop, V: Drop>(slots: &mut Vec<Slot<K, V>>, number: usize, entry: Entry<K, V>)
    requires { number < length slots.old.items }
    ensures { slots.new.items ≡ with_at slots.old.items number (Some entry) }
{
    slots[number].set(entry);
}

/// Makes a place in `next` for the slot `number`, if it is the first without one.
fn make_place(next: &mut Vec<Hint>, number: usize) -> Result<(), Memory> {
    if next.as_slice().len() <= number {
        push(next, Hint::Nowhere)?;
    }
    Ok(())
}

/// Notes in `next` that the key at `hint` was read after the slot at `before`.
fn note_after(next: &mut Vec<Hint>, before: Hint, hint: Hint) {
    match before.slot_number() {
        Some(number) if number < next.as_slice().len() => next[number] = hint,
        _ => {}
    }
}

/// Notes in `next` that `reads` were made in this order.
fn note_order<K>(next: &mut Vec<Hint>, reads: &[Recorded<K>]) {
    for i in 1..reads.len() {
        note_after(next, reads[i - 1].hint(), reads[i].hint());
    }
}

/// A copy of `key`, to be shared. It is looked for first at `hint`.
pub(crate) fn share_copy<R: Rules>(
    alloc: Global,
    rules: &R,
    key: &R::Key,
    hint: Hint,
) -> Result<Recorded<R::Key>, Memory>
    ensures { IfOk result (λ k. k ≡ key.now) }
{
    Recorded::new(alloc, rules.copy_key(alloc, key)?, hint)
}

/// Slots with distinct keys. Contracts see their list, in the order of their numbers.
#[derive(Drop)]
pub(crate) struct Slots<R: Rules> {
    alloc: Global,
    numbers: Numbers<R>,
    slots: Vec<Slot<R::Key, R::Value>>,
    // Where to look for a key second: the slot that was written last.
    last: Hint,
    // Of each slot, the key that was read after it last.
    next: Vec<Hint>,
}

impl<R: Rules> Model for Slots<R> {
    ghost use Rattle.std.specs.Prelude.{List, Option};
    ghost use Rattle.pq_memo.specs.Sound.{Memo};
    ghost use Rattle.pq_memo.specs.aux.Numbers.{number_in};
    ghost use Rattle.pq_memo.specs.aux.Slots.{IsNumbered};

    ghost Value = { List (R.Key × Option (Memo R.Key R.Value)) };

    ghost view = { λ s. s.slots.items };

    ghost invariant = { λ s. IsNumbered (number_in R.Key.cmp R.codes s.numbers) s.slots.items };
}

impl<R: Rules> Slots<R> {
    /// No slots. They take their memory from `alloc`.
    pub(crate) fn new(alloc: Global) -> Self
        ensures { result ≡ [] }
    {
        Slots {
            alloc,
            numbers: Numbers::new(alloc),
            slots: Vec::new(alloc),
            last: Hint::Nowhere,
            next: Vec::new(alloc),
        }
    }

    /// The allocator.
    pub(crate) fn alloc(&self) -> Global {
        self.alloc
    }

    /// The number of the slot at `hint`, if it has `key`.
    fn follow(&self, rules: &R, key: &R::Key, hint: Hint) -> Option<usize>
        ensures { IfSome result (λ n. key_at self.now n ≡ Some key.now) }
    {
        let number = hint.slot_number()?;
        let slots = self.slots.as_slice();
        if number < slots.len() && is_same_key(rules, slots[number].key(), key) {
            return Some(number);
        }
        None
    }

    /// The number of `key`, if it has a slot. It is looked for first at `hint`.
    pub(crate) fn find(&self, rules: &R, key: &R::Key, hint: Hint) -> Option<usize>
        ensures found { IfSome result (λ n. key_at self.now n ≡ Some key.now) }
        ensures none { IfNone result (lookup (is_at (R.Key.cmp key.now)) self.now ≡ None) }
    {
        if let Some(number) = self.follow(rules, key, hint) {
            return Some(number);
        }
        if let Some(number) = self.follow(rules, key, self.last) {
            return Some(number);
        }
        self.numbers.get(rules, key)
    }

    /// Where to look for the read `i` of the memo in the slot at `own`: where it was when that memo
    /// was made, or else where the read after that in the slot at `before` was last.
    pub(crate) fn read_hint(&self, own: Hint, i: usize, before: Hint) -> Hint {
        if let Some(number) = own.slot_number() {
            if let Some(entry) = self.entry_of(number) {
                let known = entry.hint(i);
                if !known.is_nowhere() {
                    return known;
                }
            }
        }
        match before.slot_number() {
            Some(number) => hint_at(&self.next, number),
            None => Hint::Nowhere,
        }
    }

    /// How many slots there are.
    pub(crate) fn count(&self) -> usize {
        self.slots.as_slice().len()
    }

    /// The key of the slot `number`, if there is such a slot.
    pub(crate) fn key_of(&self, number: usize) -> Option<&R::Key>
        ensures key { IfSome result (λ k. key_at self.now number ≡ Some k.now) }
        ensures none { IfNone result (key_at self.now number ≡ None) }
    {
        let slots = self.slots.as_slice();
        if number < slots.len() {
            return Some(slots[number].key());
        }
        None
    }

    /// `_key`, whose slot is `number`, shared with the slot.
    pub(crate) fn share_key(
        &self,
        _rules: &R,
        _key: &R::Key,
        number: usize,
    ) -> Result<Recorded<R::Key>, Memory>
        requires { key_at self.now number ≡ Some _key.now }
        ensures { IfOk result (λ k. k ≡ _key.now) }
    {
        let shared = self.slots.as_slice()[number].share()?;
        Ok(shared)
    }

    /// The entry of the slot `number`, if there is one.
    pub(crate) fn entry_of(&self, number: usize) -> Option<&Entry<R::Key, R::Value>> {
        self.slots.as_slice().get(number)?.entry()
    }

    /// Sets the verified revision and the durability of the memo in the slot `number`, if it has
    /// one.
    pub(crate) fn mark(&mut self, _rules: &R, number: usize, revision: u64, durability: Durability)
        requires { (k : R.Key) × (key_at self.old number ≡ Some k) }
        ensures marked { (k q : R.Key) → key_at self.old number ≡ Some k → memo_at R.Key.cmp self.new q
            ≡ (if is_eq (R.Key.cmp k q) then option_map (λ (m : Memo R.Key R.Value). remarked m revision durability) (memo_at R.Key.cmp self.old k) else memo_at R.Key.cmp self.old q) }
    {
        mark_at(&mut self.slots, number, revision, durability);
        self.last = Hint::of_slot(number);
    }

    /// The entry of the slot `number`, which is that of `_key`.
    pub(crate) fn entry_at(
        &self,
        _rules: &R,
        _key: &R::Key,
        number: usize,
    ) -> Option<&Entry<R::Key, R::Value>>
        requires { key_at self.now number ≡ Some _key.now }
        ensures { option_copied result ≡ memo_at R.Key.cmp self.now _key.now }
    {
        self.slots.as_slice()[number].entry()
    }

    /// The entry of `key`, which is looked for first at `hint`. `hint` becomes its slot.
    pub(crate) fn entry(
        &self,
        rules: &R,
        key: &R::Key,
        hint: &mut Hint,
    ) -> Option<&Entry<R::Key, R::Value>>
        ensures { option_copied result ≡ memo_at R.Key.cmp self.now key.now }
    {
        let found = self.find(rules, key, *hint);
        *hint = found.map_or(Hint::Nowhere, Hint::of_slot);
        match found {
            Some(number) => self.entry_at(rules, key, number),
            None => None,
        }
    }

    /// Gives `_key`, whose slot is `number`, the memo `entry`.
    fn set(&mut self, _rules: &R, _key: &R::Key, number: usize, entry: Entry<R::Key, R::Value>)
        requires { key_at self.old number ≡ Some _key.now }
        ensures put { IsPut R.Key.cmp (memo_at R.Key.cmp self.old) _key.now entry (memo_at R.Key.cmp self.new) }
        ensures kept { (q : R.Key) → HasRoom R.Key.cmp self.old q → HasRoom R.Key.cmp self.new q }
    {
        note_order(&mut self.next, entry.reads());
        set_at(&mut self.slots, number, entry);
        self.last = Hint::of_slot(number);
    }

    /// Gives `key` the memo `entry`. If an allocation fails, both come back.
    pub(crate) fn store(
        &mut self,
        rules: &R,
        key: R::Key,
        hint: Hint,
        entry: Entry<R::Key, R::Value>,
    ) -> Result<(), (R::Key, Entry<R::Key, R::Value>)>
        ensures put { OnOk result (IsPut R.Key.cmp (memo_at R.Key.cmp self.old) key entry (memo_at R.Key.cmp self.new)) }
        ensures refused { OnErr result (IsSameTable (memo_at R.Key.cmp self.old) (memo_at R.Key.cmp self.new)) }
        ensures returned { IfErr result (λ e. (e.0 ≡ key) × (e.1 ≡ entry)) }
    {
        match self.make_room(rules, &key, hint, Hint::Nowhere) {
            Ok(hint) => {
                self.put(rules, &key, hint, entry);
                Ok(())
            }
            Err(_) => Err((key, entry)),
        }
    }

    /// Gives `key`, which has a slot, the memo `entry`. It takes no memory.
    pub(crate) fn put(
        &mut self,
        rules: &R,
        key: &R::Key,
        hint: Hint,
        entry: Entry<R::Key, R::Value>,
    )
        requires room { HasRoom R.Key.cmp self.old key.now }
        ensures put { IsPut R.Key.cmp (memo_at R.Key.cmp self.old) key.now entry (memo_at R.Key.cmp self.new) }
        ensures kept { (q : R.Key) → HasRoom R.Key.cmp self.old q → HasRoom R.Key.cmp self.new q }
    {
        match self.find(rules, key, hint) {
            Some(number) => self.set(rules, key, number, entry),
            None => unreachable!(),
        }
    }

    /// Makes a slot of `key`, if it has none, and returns where it is. The key was read after the
    /// slot at `before`. It is looked for first at `hint`, and else by one search of the index.
    pub(crate) fn make_room(
        &mut self,
        rules: &R,
        key: &R::Key,
        hint: Hint,
        before: Hint,
    ) -> Result<Hint, Memory>
        ensures same { IsSameTable (memo_at R.Key.cmp self.old) (memo_at R.Key.cmp self.new) }
        ensures room { OnOk result (HasRoom R.Key.cmp self.new key.now) }
        ensures kept { (q : R.Key) → HasRoom R.Key.cmp self.old q → HasRoom R.Key.cmp self.new q }
    {
        if let Some(_) = self.follow(rules, key, hint) {
            return Ok(hint);
        }
        let number = self.slots.as_slice().len();
        if self.slots.reserve(1).is_err() || make_place(&mut self.next, number).is_err() {
            return Err(Memory);
        }
        let made = Hint::of_slot(number);
        let shared = share_copy(self.alloc, rules, key, made)?;
        match self.numbers.claim(self.alloc, rules, &shared, number) {
            Ok(Some(known)) => {
                note_after(&mut self.next, before, Hint::of_slot(known));
                Ok(Hint::of_slot(known))
            }
            Ok(None) => {
                note_after(&mut self.next, before, made);
                self.slots.push_reserved(Slot {
                    key: shared,
                    entry: None,
                });
                self.last = made;
                Ok(made)
            }
            Err(_) => Err(Memory),
        }
    }
}
