//! Laws of the table of memos, each as the contract of a function that does nothing.
ghost use Rattle.std.specs.Prelude.{◌≡◌, ◌+◌, ◌<◌, length, ℕ, List, [], slice_get, Some};
ghost use Rattle.pq_inputs.specs.Sources.{Table};
ghost use Rattle.pq_rules.specs.Turns.{over};
ghost use Rattle.pq_rules.specs.Value.{Means};
ghost use Rattle.pq_rules.specs.declared.turn.Turn.TheVariants.{Done};
ghost use Rattle.pq_rules.specs.declared.turn.Answer.TheVariants.{Value};
ghost use Rattle.pq_memo.specs.Sound.{Memo, Sound, HasReads, at};
ghost use Rattle.pq_memo.specs.Look.{IsUpToDate, IsGreen, IsFresh, HasChangedRead, IsLapsedRing};
ghost use Rattle.pq_memo.specs.Cause.{IsCause};
ghost use Rattle.pq_memo.specs.Table.{memo_at, HasIn, KeptOver, IsNext};
ghost use Rattle.pq_memo.specs.declared.table.look.Why.{Why};
ghost use Rattle.pq_memo.specs.declared.table.look.Why.TheVariants.{Fresh, Changed, Ring};
ghost use Rattle.pq_memo.specs.Frames.{Came};
ghost use Rattle.pq_memo.specs.Steps.{IsWhy};

use crate::table::memos::Memos;
use pq_rules::Rules;

/// A table that keeps its invariant is sound, and it keeps the invariant when the inputs get one
/// more revision.
pub fn kept_is_sound<R: Rules>(_memos: &Memos<R>)
    // A table that keeps the invariant is sound. Each memo's answer is the key's value at the
    // revision at which it was verified and at the one at which it changed. Its reads are those of
    // its rule in order, and its durability is at most that of each input below it.
    ensures sound { (inputs : Table) → KeptOver R.Key.cmp (R.machine _memos.now.rules) inputs _memos.now.places →
        Sound R.Key.cmp (R.machine _memos.now.rules) inputs.history inputs.revision (HasIn (memo_at R.Key.cmp _memos.now.places)) }
    // A table keeps the invariant when the inputs get one more revision.
    ensures next { (before after : Table) → IsNext before after → KeptOver R.Key.cmp (R.machine _memos.now.rules) before _memos.now.places →
        KeptOver R.Key.cmp (R.machine _memos.now.rules) after _memos.now.places }
{}

/// What `look` answers: a memo that is verified now or green is right now, and a rule that has to
/// be started has a cause.
pub fn look_is_right<R: Rules>(_memos: &Memos<R>)
    // `verified`, `green`: A memo that is verified now, or valid, has the key's value now.
    ensures verified { (inputs : Table) → KeptOver R.Key.cmp (R.machine _memos.now.rules) inputs _memos.now.places →
        (k : R.Key) (memo : Memo R.Key R.Value) → HasIn (memo_at R.Key.cmp _memos.now.places) k memo → memo.verified ≡ inputs.revision →
        Means (at R.Key.cmp (R.machine _memos.now.rules) inputs.history inputs.revision) k memo.answer }
    ensures green { (inputs : Table) → length inputs.history ≡ inputs.revision + 1 → KeptOver R.Key.cmp (R.machine _memos.now.rules) inputs _memos.now.places →
        (k : R.Key) (green : IsGreen (R.machine _memos.now.rules) inputs.history inputs.revision (HasIn (memo_at R.Key.cmp _memos.now.places)) k) →
        Means (at R.Key.cmp (R.machine _memos.now.rules) inputs.history inputs.revision) k green.0.answer }
    // `fresh`, `changed`, `ring`: A rule that has to be started has that cause: no memo; the first
    // recorded read that changed; a ring through the key that may have changed.
    ensures fresh { (inputs : Table) (k : R.Key) → IsFresh (R.machine _memos.now.rules) (HasIn (memo_at R.Key.cmp _memos.now.places)) k →
        IsCause R.Key.cmp (R.machine _memos.now.rules) inputs.history inputs.revision (HasIn (memo_at R.Key.cmp _memos.now.places)) k Fresh }
    ensures changed { (inputs : Table) → length inputs.history ≡ inputs.revision + 1 → KeptOver R.Key.cmp (R.machine _memos.now.rules) inputs _memos.now.places →
        (k q : R.Key) → HasChangedRead (R.machine _memos.now.rules) inputs.history inputs.revision (HasIn (memo_at R.Key.cmp _memos.now.places)) k q →
        IsCause R.Key.cmp (R.machine _memos.now.rules) inputs.history inputs.revision (HasIn (memo_at R.Key.cmp _memos.now.places)) k (Changed q) }
    ensures ring { (inputs : Table) (k : R.Key) → IsLapsedRing inputs.history inputs.revision (HasIn (memo_at R.Key.cmp _memos.now.places)) k →
        IsCause R.Key.cmp (R.machine _memos.now.rules) inputs.history inputs.revision (HasIn (memo_at R.Key.cmp _memos.now.places)) k Ring }
{}

/// What a caller of `step` uses. A rule that has to be started comes to its first turn. Where a
/// rule has come to a value, the reads made for it are what `publish` requires. Where it asks, the
/// key's frame waits.
pub fn turns_are_right<R: Rules>(_memos: &Memos<R>)
    // `starts`, `ends`: A rule that is started comes to its first turn, and a rule that ended has
    // made the reads that `publish` requires.
    ensures starts { (inputs : Table) → KeptOver R.Key.cmp (R.machine _memos.now.rules) inputs _memos.now.places →
        (k : R.Key) (why : Why R.Key) → IsWhy (R.machine _memos.now.rules) inputs.history inputs.revision (HasIn (memo_at R.Key.cmp _memos.now.places)) k why →
        Came R.Key.cmp (R.machine _memos.now.rules) inputs.history inputs.revision (HasIn (memo_at R.Key.cmp _memos.now.places)) k ((R.machine _memos.now.rules).start k) [] }
    ensures ends { (inputs : Table) → slice_get inputs.history inputs.revision ≡ Some inputs.files → (k : R.Key) (v : R.Value) (reads : List R.Key) →
        Came R.Key.cmp (R.machine _memos.now.rules) inputs.history inputs.revision (HasIn (memo_at R.Key.cmp _memos.now.places)) k (Done v) reads →
        HasReads (over R.Key.cmp (R.machine _memos.now.rules) inputs.files) k (Value v) reads }
{}
