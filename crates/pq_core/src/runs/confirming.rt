//! Marking the valid memos below the frame of a run.
//!
//! A memo that is only confirmed needs no frame, no claim and no release. So before a frame walks,
//! a trail goes down from it by the numbers of keys (`Trail` of `pq_memo`). Each memo that it comes to
//! is marked, if it is valid and no run holds its key. The trail ends at the first that is not, and
//! frames follow it there. Nothing is said of where a trail leads: a memo is tested when it is marked.
//!
//! A look marks `PORTION` memos at most, so no other run and no edit waits for a whole trail.
ghost use Rattle.std.specs.Prelude.{◌≡◌, ℕ, Some, IsTrue};
ghost use Rattle.pq_memo.specs.Table.{key_at, KeptOver};
ghost use Rattle.pq_claims.specs.Claims.{Holds};
ghost use Rattle.pq_core.specs.aux.Runs.{HasMarked};

use pq_claims::Claims;
use pq_inputs::Inputs;
use pq_memo::{Frame, Memos, Trail};
use pq_rules::Rules;

/// The number of memos that a look marks at most, and of marks that a trail makes between two.
const PORTION: usize = 64;

/// Whether no run holds the key with the number `number`.
fn is_free<R: Rules>(memos: &Memos<R>, claims: &Claims<R>, number: usize) -> bool
    ensures { IsTrue result → (k : R.Key) → key_at memos.now.places number ≡ Some k → (r : ℕ) → Holds claims.now r k → ⊥ }
{
    match memos.key_in(number) {
        Some(key) => {
            if claims.is_held(key) {
                return false;
            }
            true
        }
        None => false,
    }
}

/// The number of the first memo to mark below `frame`, if there may be one.
pub(crate) fn first_free<R: Rules>(
    trail: &mut Trail,
    memos: &Memos<R>,
    claims: &Claims<R>,
    inputs: &Inputs,
    frame: &Frame<R::Key, R::Part>,
) -> Option<usize> {
    if memos.start_trail(trail, frame) {
        match memos.next_slot(trail, PORTION, inputs) {
            Some(number) => {
                if is_free(memos, claims, number) {
                    return Some(number);
                }
            }
            None => {}
        }
    }
    None
}

/// Marks the memo of the key with the number `first`, to which `trail` came, and those that it comes to
/// after it, until one is not valid or a run holds its key. It asks for none that it would not mark: a
/// trail is closed at a memo until that is marked, and the next look would make a frame.
pub(crate) fn confirm<R: Rules>(
    trail: &mut Trail,
    memos: &mut Memos<R>,
    claims: &Claims<R>,
    inputs: &Inputs,
    first: usize,
)
    requires kept { KeptOver R.Key.cmp (R.machine memos.old.rules) inputs.now memos.old.places }
    ensures { HasMarked R.Key.cmp R.machine inputs.now claims.now memos.old memos.new }
{
    let mut number = first;
    'marks: for i in 1..PORTION + 1 {
        if !is_free(memos, claims, number) {
            return;
        }
        if !memos.confirm_slot(number, inputs) {
            return;
        }
        trail.leave();
        if i == PORTION {
            return;
        }
        match memos.next_slot(trail, PORTION, inputs) {
            Some(next) => number = next,
            None => return,
        }
    }
}
