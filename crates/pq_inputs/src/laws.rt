//! Laws of the definitions, as the contracts of functions with empty bodies.
ghost use Rattle.std.specs.Prelude.{◌≡◌, ℕ, List};
ghost use Rattle.pq_inputs.specs.declared.durability.Durability.{Durability};
ghost use Rattle.pq_inputs.specs.Sources.{Sources};
ghost use Rattle.pq_inputs.specs.Changes.{IsLastChange, IsLastChangeOf};

/// In a history each file has one revision of its last change, and so has each durability.
pub fn one_last_change()
    // `file`, `durability`: A history has at most one last change of a file, and of a durability.
    ensures file { (history : List Sources) (name : List ℕ) (a b : ℕ) →
        IsLastChange history name a → IsLastChange history name b → a ≡ b }
    ensures durability { (history : List Sources) (durability : Durability) (a b : ℕ) →
        IsLastChangeOf history durability a → IsLastChangeOf history durability b → a ≡ b }
{}
