//! Laws of lists of events, each as the contract of a function that does nothing.
ghost use Rattle.std.specs.Prelude.{ℕ, List};
ghost use Rattle.pq_play.specs.World.{World};
ghost use Rattle.pq_play.specs.Headline.{LeavesClosed};
ghost use Rattle.pq_play.specs.Steps.{LeadsTo};
ghost use Rattle.pq_play.specs.declared.event.Event.{Event};

use pq_rules::Rules;

/// A client that is closed has the same outbox after every list of events: nothing enters it.
pub fn closed_along<R: Rules>(_rules: &R)
    // Along every list of events a closed client's outbox stays the same.
    ensures { (room : ℕ) (events : List (Event R.Key)) (w v : World R.Key R.Value) → LeadsTo room R.Key.cmp (R.machine _rules.now) _rules.now events w v → LeavesClosed w.ledger v.ledger }
{}
