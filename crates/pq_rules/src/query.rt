//! One query of a computation, generic over the rule set in which it is used.
ghost use Rattle.std.specs.Prelude.{◌≡◌, ℕ, IfOk, IfErr};
ghost use Rattle.pq_rules.specs.declared.turn.Turn.{Turn};
ghost use Rattle.pq_rules.specs.declared.turn.Turn.TheVariants.{Ask};
ghost use Rattle.pq_rules.specs.Turns.{IsLower};

use crate::turn::{Memory, Turn};
use std::alloc::Global;

/// One query: the rule for the keys of one kind (the Salsa book, "Defining the query groups"). It
/// does not know the rule set in which it is used. The keys that it asks and the answers that it
/// gets are types of that rule set; a small trait of the query's own crate makes and reads them.
pub trait Query {
    type Key;

    type Value: Drop;

    type Part: Drop;

    type AnyKey: Drop;

    type AnyAnswer;

    /// The level of the query's keys. A rule asks keys of its own level or of a lower one.
    const LEVEL: u8;

    ghost LEVEL: { ℕ };

    /// The first turn of a key, as a function.
    ghost starts: { Self → Self.Key → Turn Self.AnyKey Self.Part Self.Value };

    /// The turn after an answer, as a function.
    ghost advances: { Self → Self.Part → Self.AnyAnswer → Turn Self.AnyKey Self.Part Self.Value };

    /// What is left to ask, as a function.
    ghost lefts: { Self → Self.Part → ℕ × ℕ };

    /// Starts the rule of `key`: its first turn.
    fn start(
        &self,
        alloc: Global,
        key: &Self::Key,
    ) -> Result<Turn<Self::AnyKey, Self::Part, Self::Value>, Memory>
        // The first turn of the key, by `starts`.
        ensures turn { IfOk result (λ t. t ≡ starts self.now key.now) };

    /// Goes on from `part` with the answer to the key that it asked: the next turn. If an
    /// allocation fails, `part` comes back unchanged.
    fn advance(
        &self,
        alloc: Global,
        part: Self::Part,
        answer: &Self::AnyAnswer,
    ) -> Result<Turn<Self::AnyKey, Self::Part, Self::Value>, Self::Part>
        // The turn of the part after the answer, by `advances`.
        ensures turn { IfOk result (λ t. t ≡ advances self.now part answer.now) }
        // After an allocation failure the part comes back.
        ensures back { IfErr result (λ p. p ≡ part) };

    /// What is left for the rule to ask at `part`: a pair that each further question lowers, in
    /// lexicographic order.
    fn left(&self, part: &Self::Part) -> (u32, u64)
        // What is left to ask at the part, by `lefts`.
        ensures left { (result.0, result.1) ≡ lefts self.now part.now };

    /// Each further question lowers what is left.
    ghost falls: { (query : Self) (p : Self.Part) (a : Self.AnyAnswer) (q : Self.AnyKey) (r : Self.Part) → advances query p a ≡ Ask q r → IsLower (lefts query r) (lefts query p) };
}
