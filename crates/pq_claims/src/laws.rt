//! Laws of claims, each as the contract of a function that does nothing.
ghost use Rattle.std.specs.Prelude.{◌≡◌, ℕ, None};
ghost use Rattle.pq_rules.specs.Relations.{Leads};
ghost use Rattle.pq_claims.specs.Claims.{AreSound, WaitsFor, hold_of};

use crate::claims::Claims;
use pq_rules::Rules;

/// Between any two calls a key has one holder at most, which holds it once. A run that waits for a
/// key waits for another run, which holds it. Waits form no ring.
pub fn claims_are_sound<R: Rules>(claims: &Claims<R>)
    // `AreSound`: A key has one holder at most, which holds it once. A run that waits waits for
    // another run, which holds the key. Waits form no ring.
    ensures sound { AreSound claims.now }
{
    let _next = claims.next;
}

/// Waits lead from each run to a run that waits for no key.
pub fn waits_end<R: Rules>(claims: &Claims<R>)
    // Waits lead from each run to a run that waits for no key.
    ensures ends { (r : ℕ) → (s : ℕ) × Leads (WaitsFor claims.now) r s × ((hold_of claims.now s).wait ≡ None) }
{
    let _next = claims.next;
}
