//! What a rule set is, and the laws that it keeps.
ghost use Rattle.std.specs.Prelude.{◌≡◌, ℕ, List, option_copied, IfOk, IfErr, ◌↔◌, IsTrue, IsSome};
ghost use Rattle.pq_inputs.specs.Sources.{Sources};
ghost use Rattle.pq_rules.specs.Turns.{Machine, over};
ghost use Rattle.pq_rules.specs.Laws.{Laws};

use crate::turn::{Answer, Memory, Turn};
use std::alloc::Global;

/// A rule set: the queries of a computation, put together (the Salsa book, "Defining the query
/// groups"). Contracts see what it computes as one value, `machine`, so `start` and `advance`
/// depend on their arguments alone. Keys have a lawful order, values a lawful equality.
pub trait Rules: Copy {
    type Key: Ord + Drop;

    type Value: Eq + Drop;

    type Part: Drop;

    /// What the rule set computes: its methods as functions.
    ghost machine: { Self → Machine Self.Key Self.Part Self.Value };

    /// A finite list of keys, for given sources: it has the key and every key that its evaluation
    /// asks.
    ghost reach: { Self → Sources → Self.Key → List Self.Key };

    /// The level of `key`: 0 for an input. A rule asks keys of its own level or of a lower one.
    fn level(&self, key: &Self::Key) -> u8
        // The level of the key, by `machine`.
        ensures level { result ≡ (machine self.now).level key.now };

    /// The code of a key, as a function.
    ghost codes: { Self.Key → ℕ };

    /// A number that is made of `key`. Keys of one number may differ.
    fn code(&self, key: &Self::Key) -> u64
        // The code of the key, by `codes`.
        ensures code { result ≡ codes key.now };

    /// The name of the file of the input `key`. It is `None` for a key with a rule.
    fn file<'a>(&self, key: &'a Self::Key) -> Option<&'a str>
        // The file of the key, if it has one, by `machine`.
        ensures file { option_copied result ≡ (machine self.now).file key.now };

    /// Makes the value of an input whose file has `text`, `None` for an absent file.
    fn text(&self, alloc: Global, text: Option<&str>) -> Result<Self::Value, Memory>
        // The value of an input whose file has this text, `None` for an absent file, by `machine`.
        ensures value { IfOk result (λ v. v ≡ (machine self.now).text (option_copied text.entry)) };

    /// Starts the rule of `key`: its first turn.
    fn start(
        &self,
        alloc: Global,
        key: &Self::Key,
    ) -> Result<Turn<Self::Key, Self::Part, Self::Value>, Memory>
        // The first turn of the key, by `machine`.
        ensures turn { IfOk result (λ t. t ≡ (machine self.now).start key.now) };

    /// Goes on from `part` with the answer to the key that it asked: the next turn. If an
    /// allocation fails, `part` comes back unchanged.
    fn advance(
        &self,
        alloc: Global,
        part: Self::Part,
        answer: &Answer<Self::Key, Self::Value>,
    ) -> Result<Turn<Self::Key, Self::Part, Self::Value>, Self::Part>
        // The turn of the part after the answer, by `machine`.
        ensures turn { IfOk result (λ t. t ≡ (machine self.now).advance part answer.now) }
        // After an allocation failure the part comes back.
        ensures back { IfErr result (λ p. p ≡ part) };

    /// What is left for the rule to ask at `part`: a pair that each further question lowers, in
    /// lexicographic order.
    fn left(&self, part: &Self::Part) -> (u32, u64)
        // What is left to ask at the part, by `machine`.
        ensures left { (result.0, result.1) ≡ (machine self.now).left part.now };

    /// Copies `key`.
    fn copy_key(&self, alloc: Global, key: &Self::Key) -> Result<Self::Key, Memory>
        // A copy is equal.
        ensures copy { IfOk result (λ k. k ≡ key.now) };

    /// Copies `value`. A copy may share memory with it.
    fn copy_value(&self, alloc: Global, value: &Self::Value) -> Result<Self::Value, Memory>
        // A copy is equal.
        ensures copy { IfOk result (λ v. v ≡ value.now) };

    /// The laws of `specs/Laws`, at any sources.
    ghost lawful: { (rules : Self) (files : Sources) → Laws (over Self.Key.cmp (machine rules) files) (reach rules files) };

    /// A key has a file exactly if its level is 0.
    ghost inputs: { (rules : Self) (key : Self.Key) → ((machine rules).level key ≡ 0) ↔ IsSome ((machine rules).file key) };

    /// Values that compare as equal are equal.
    ghost exact_values: { (a b : Self.Value) → IsTrue (Self.Value.eq a b) → a ≡ b };
}
