//! Laws of answers, each as the contract of a function that does nothing.
//!
//! A law holds for every rule set, at all sources. The last says that the words for lists of
//! `specs/Relations` are those of std.
ghost use Rattle.std.specs.Prelude.{◌≡◌, ◌<◌, ◌∷◌, ◌↔◌, ℕ, List, Bool, IsTrue};
ghost use Rattle.std.specs.List.{All, Contains};
ghost use Rattle.std.specs.declared.cmp.Ordering.TheVariants.{Less};
ghost use Rattle.pq_inputs.specs.Sources.{Sources};
ghost use Rattle.pq_rules.specs.declared.turn.Answer.{Answer};
ghost use Rattle.pq_rules.specs.declared.turn.Answer.TheVariants.{Cycle};
ghost use Rattle.pq_rules.specs.Turns.{over};
ghost use Rattle.pq_rules.specs.Relations.{Each, In, IsRing, Round};
ghost use Rattle.pq_rules.specs.Value.{Means, Waits};

use crate::rules::Rules;

/// A key has at most one answer.
pub fn one_value<R: Rules>(_rules: &R)
    // A key has at most one value.
    ensures one { (files : Sources) (key : R.Key) (a b : Answer R.Key R.Value) → Means (over R.Key.cmp (R.machine _rules.now) files) key a → Means (over R.Key.cmp (R.machine _rules.now) files) key b → a ≡ b }
{}

/// Keys above the inputs' level that wait round, each for the one after it and the last for the
/// first, are a cycle: the answer of each is their ring, the least key first.
pub fn keys_that_wait_round<R: Rules>(_rules: &R)
    // Keys on a dependency cycle have that cycle as their value, from the least key on.
    ensures ring { (files : Sources) (z : R.Key) (zs : List R.Key) → 0 < (R.machine _rules.now).level z → Round (Waits (over R.Key.cmp (R.machine _rules.now) files)) (z ∷ zs) → Each (λ x. R.Key.cmp z x ≡ Less) zs → (x : R.Key) → In x (z ∷ zs) → Means (over R.Key.cmp (R.machine _rules.now) files) x (Cycle (z ∷ zs)) }
{}

/// A key above the inputs' level that waits for a key whose answer is a cycle has that cycle as its
/// answer.
pub fn cycle_passes_on<R: Rules>(_rules: &R)
    // A key that waits for a key of its level with a cycle has that cycle.
    ensures passed { (files : Sources) (k q : R.Key) (r : List R.Key) → 0 < (R.machine _rules.now).level k → Waits (over R.Key.cmp (R.machine _rules.now) files) k q → Means (over R.Key.cmp (R.machine _rules.now) files) q (Cycle r) → Means (over R.Key.cmp (R.machine _rules.now) files) k (Cycle r) }
{}

/// A key above the inputs' level whose answer is a cycle waits for a key with the same answer. The
/// keys of the cycle wait round, the least key first.
pub fn cycle_waits_round<R: Rules>(_rules: &R)
    // `waits`, `round`: A key with a cycle waits for a key of its level with that cycle, and the
    // cycle's keys wait for each other.
    ensures waits { (files : Sources) (k : R.Key) (r : List R.Key) → 0 < (R.machine _rules.now).level k → Means (over R.Key.cmp (R.machine _rules.now) files) k (Cycle r) → (q : R.Key) × Waits (over R.Key.cmp (R.machine _rules.now) files) k q × Means (over R.Key.cmp (R.machine _rules.now) files) q (Cycle r) }
    ensures round { (files : Sources) (k : R.Key) (r : List R.Key) → 0 < (R.machine _rules.now).level k → Means (over R.Key.cmp (R.machine _rules.now) files) k (Cycle r) → IsRing R.Key.cmp (Waits (over R.Key.cmp (R.machine _rules.now) files)) r }
{}

/// `Each` of this crate is `All` of std, and `In` is `Contains`. Both forms exist since a proof
/// takes the recursive one apart by cases, and std's speak of indexes. A clause cannot range over
/// all predicates, so the first is stated of tests; the lemma `each_all` of `proofs/ListLemmas` is
/// of every predicate.
pub fn lists_of_std<A>()
    // `each`, `has`: The recursive words `Each`, of tests, and `In` of the definitions are std's
    // `All` and `Contains`.
    ensures each { (test : A → Bool) (xs : List A) → Each (λ x. IsTrue (test x)) xs ↔ All (λ x. IsTrue (test x)) xs }
    ensures has { (x : A) (xs : List A) → In x xs ↔ Contains xs x }
{}
