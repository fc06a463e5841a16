//! Laws: what holds of every two scopes.
ghost use Rattle.std.specs.Prelude.{◌≡◌, true};
ghost use Rattle.pq_schema.specs.ScopeContents.{Scope};
ghost use Rattle.pq_schema.specs.aux.EqualScopes.{same_scopes};

/// `==` of two scopes holds exactly if contracts see the same files in both lists.
pub fn equal_scopes()
    // `equal_are_same`, `same_are_equal`: `==` of definitions, and of scopes, holds exactly if
    // contracts see the same.
    ensures equal_are_same { (a b : Scope) → same_scopes a b ≡ true → a ≡ b }
    ensures same_are_equal { (a b : Scope) → a ≡ b → same_scopes a b ≡ true }
{}
