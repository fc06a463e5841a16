//! What holds of every two texts.
ghost use Rattle.std.specs.Prelude.{◌≡◌, ◌↔◌, List, ℕ, true};
ghost use Rattle.std.specs.declared.cmp.Ordering.TheVariants.{Equal};
ghost use Rattle.std.specs.Cmp.Lexicographic.{slice_cmp};
ghost use Rattle.std.specs.Ordering.{nat_cmp};
ghost use Rattle.pq_names.specs.TextOrder.{equal_texts, compare_texts};

/// Two texts are equal, and tie in the order, exactly where they have the same bytes. The order is
/// that of their bytes.
pub fn texts_compare_by_bytes()
    // `equal`, `tie`, `order`: `==` and `cmp` of texts, also through a bound, are equality and
    // lexicographic order of the bytes.
    ensures equal { (a b : List ℕ) → (equal_texts a b ≡ true) ↔ (a ≡ b) }
    ensures tie { (a b : List ℕ) → (compare_texts a b ≡ Equal) ↔ (a ≡ b) }
    ensures order { (a b : List ℕ) → compare_texts a b ≡ slice_cmp nat_cmp a b }
{}
