//! Laws of the ledger, each as the contract of a function that does nothing.
//!
//! They are what holds of every ledger that is reached, whatever the calls answer.
ghost use Rattle.std.specs.Prelude.{◌≡◌, ◌≤◌, ◌+◌, ℕ, [], Bool, Option, Result};
ghost use Rattle.std.specs.declared.alloc.AllocError.{AllocError};
ghost use Rattle.pq_core.specs.Changes.{ChangeView};
ghost use Rattle.pq_core.specs.Works.{DoneView, WorkView};
ghost use Rattle.pq_core.specs.Ledger.{Ledger, IsClosed};
ghost use Rattle.pq_core.specs.Moves.{Opens, Accepts, Edits, Starts, Looks, Gives, Starves, Withdraws, Releases, Closes, TakesOut, RunAt, Runs};
ghost use Rattle.pq_core.specs.RightReply.{answer_by};
ghost use Rattle.pq_core.specs.Kept.{Kept};
ghost use Rattle.pq_core.specs.Told.{Told, told_puts};
ghost use Rattle.pq_core.specs.Stores.{StandsFor as StoreStandsFor};
ghost use Rattle.pq_core.specs.Cores.{StandsFor};
ghost use Rattle.pq_core.specs.Starts.{IsCountedFor, IsCountedIn, Log, count};
ghost use Rattle.pq_memo.specs.Sound.{Sound};
ghost use Rattle.pq_memo.specs.Look.{IsUpToDate};
ghost use Rattle.pq_memo.specs.Table.{memo_at, HasIn};
ghost use Rattle.pq_claims.specs.Claims.{AreSound, Holds};
ghost use Rattle.pq_core.specs.declared.values.label.Label.{Label};
ghost use Rattle.pq_core.specs.declared.values.request.Request.{Request};
ghost use Rattle.pq_core.specs.declared.values.fault.OpenRefused.{OpenRefused};
ghost use Rattle.pq_core.specs.declared.values.fault.AcceptRefused.{AcceptRefused};
ghost use Rattle.pq_core.specs.declared.values.fault.EditRefused.{EditRefused};
ghost use Rattle.pq_core.specs.declared.values.fault.LookFault.{LookFault};
ghost use Rattle.pq_core.specs.declared.values.fault.GiveRefused.{GiveRefused};
ghost use Rattle.pq_core.specs.declared.values.fault.WithdrawFault.{WithdrawFault};
ghost use Rattle.pq_core.specs.declared.values.moves.Move.{Move};
ghost use Rattle.pq_core.specs.declared.values.moves.Released.{Released};

use crate::lanes::cores::Core;
use crate::lanes::outbox::Outbox;
use crate::store::store::Store;
use crate::values::stamp::Stamp;
use pq_claims::claims_are_sound;
use pq_memo::kept_is_sound;
use pq_rules::Rules;

/// Each move keeps what holds of every ledger: the replies put are those to the first requests, in
/// order, and each reply is right. A client is opened with an outbox into which nothing was put.
pub fn moves_keep<R: Rules, M: Stamp, O: Outbox<R, M>>(_rules: &R)
    // `opens`, `accepts`, `edits`, `starts`, `looks`, `gives`, `starves`, `withdraws`, `releases`,
    // `closes`, `takes`: Each move keeps `Kept`: the replies put are those of the first requests,
    // in order, and each reply is right.
    ensures opens { (outbox : O) (answer : Result ℕ (OpenRefused O)) (l m : Ledger R.Key R.Value M O) → O.puts outbox ≡ [] → Kept (answer_by R.Key.cmp (R.machine _rules.now) M.point) O.puts l → Opens outbox answer l m → Kept (answer_by R.Key.cmp (R.machine _rules.now) M.point) O.puts m }
    ensures accepts { (client : ℕ) (request : Request R.Key) (answer : Result ℕ (AcceptRefused R.Key)) (l m : Ledger R.Key R.Value M O) → Kept (answer_by R.Key.cmp (R.machine _rules.now) M.point) O.puts l → Accepts O.puts client request answer l m → Kept (answer_by R.Key.cmp (R.machine _rules.now) M.point) O.puts m }
    ensures edits { (client : ℕ) (change : ChangeView) (answer : Result ℕ EditRefused) (l m : Ledger R.Key R.Value M O) → Kept (answer_by R.Key.cmp (R.machine _rules.now) M.point) O.puts l → Edits client change answer l m → Kept (answer_by R.Key.cmp (R.machine _rules.now) M.point) O.puts m }
    ensures starts { (answer : Option ℕ) (l m : Ledger R.Key R.Value M O) → Kept (answer_by R.Key.cmp (R.machine _rules.now) M.point) O.puts l → Starts answer l m → Kept (answer_by R.Key.cmp (R.machine _rules.now) M.point) O.puts m }
    ensures looks { (run : ℕ) (answer : Result (Move (WorkView R R.Key R.Part R.Value)) LookFault) (l m : Ledger R.Key R.Value M O) → Kept (answer_by R.Key.cmp (R.machine _rules.now) M.point) O.puts l → Looks R.Key.cmp (R.machine _rules.now) M.point _rules.now run answer l m → Kept (answer_by R.Key.cmp (R.machine _rules.now) M.point) O.puts m }
    ensures gives { (run : ℕ) (done : DoneView R R.Key R.Part R.Value) (answer : Result (Move (WorkView R R.Key R.Part R.Value)) (GiveRefused (DoneView R R.Key R.Part R.Value))) (l m : Ledger R.Key R.Value M O) → Kept (answer_by R.Key.cmp (R.machine _rules.now) M.point) O.puts l → Gives run done answer l m → Kept (answer_by R.Key.cmp (R.machine _rules.now) M.point) O.puts m }
    ensures starves { (run : ℕ) (answer : Bool) (l m : Ledger R.Key R.Value M O) → Kept (answer_by R.Key.cmp (R.machine _rules.now) M.point) O.puts l → Starves run answer l m → Kept (answer_by R.Key.cmp (R.machine _rules.now) M.point) O.puts m }
    ensures withdraws { (client : ℕ) (label : Label) (answer : Result Bool WithdrawFault) (l m : Ledger R.Key R.Value M O) → Kept (answer_by R.Key.cmp (R.machine _rules.now) M.point) O.puts l → Withdraws client label answer l m → Kept (answer_by R.Key.cmp (R.machine _rules.now) M.point) O.puts m }
    ensures releases { (client : ℕ) (answer : Released) (l m : Ledger R.Key R.Value M O) → Kept (answer_by R.Key.cmp (R.machine _rules.now) M.point) O.puts l → Releases O.puts O.takes O.was_full O.was_gone client answer l m → Kept (answer_by R.Key.cmp (R.machine _rules.now) M.point) O.puts m }
    ensures closes { (client : ℕ) (answer : Option O) (l m : Ledger R.Key R.Value M O) → Kept (answer_by R.Key.cmp (R.machine _rules.now) M.point) O.puts l → Closes client answer l m → Kept (answer_by R.Key.cmp (R.machine _rules.now) M.point) O.puts m }
    ensures takes { (client : ℕ) (answer : Result Bool AllocError) (l m : Ledger R.Key R.Value M O) → Kept (answer_by R.Key.cmp (R.machine _rules.now) M.point) O.puts l → TakesOut O.puts O.takes client answer l m → Kept (answer_by R.Key.cmp (R.machine _rules.now) M.point) O.puts m }
{}

/// Each move leaves a client that is closed as it was, with the same outbox: after the close of a
/// client nothing enters its outbox.
pub fn closed_for_good<R: Rules, M: Stamp, O: Outbox<R, M>>(_rules: &R)
    // `opens`, `accepts`, `edits`, `starts`, `looks`, `gives`, `starves`, `withdraws`, `releases`,
    // `closes`, `takes`: After each move a closed client is closed, and its outbox is the same.
    ensures opens { (c : ℕ) (outbox : O) (answer : Result ℕ (OpenRefused O)) (l m : Ledger R.Key R.Value M O) (shut : IsClosed l c) → Opens outbox answer l m → (after : IsClosed m c) × (after.client.outbox ≡ shut.client.outbox) }
    ensures accepts { (c : ℕ) (client : ℕ) (request : Request R.Key) (answer : Result ℕ (AcceptRefused R.Key)) (l m : Ledger R.Key R.Value M O) (shut : IsClosed l c) → Accepts O.puts client request answer l m → (after : IsClosed m c) × (after.client.outbox ≡ shut.client.outbox) }
    ensures edits { (c : ℕ) (client : ℕ) (change : ChangeView) (answer : Result ℕ EditRefused) (l m : Ledger R.Key R.Value M O) (shut : IsClosed l c) → Edits client change answer l m → (after : IsClosed m c) × (after.client.outbox ≡ shut.client.outbox) }
    ensures starts { (c : ℕ) (answer : Option ℕ) (l m : Ledger R.Key R.Value M O) (shut : IsClosed l c) → Starts answer l m → (after : IsClosed m c) × (after.client.outbox ≡ shut.client.outbox) }
    ensures looks { (c : ℕ) (run : ℕ) (answer : Result (Move (WorkView R R.Key R.Part R.Value)) LookFault) (l m : Ledger R.Key R.Value M O) (shut : IsClosed l c) → Looks R.Key.cmp (R.machine _rules.now) M.point _rules.now run answer l m → (after : IsClosed m c) × (after.client.outbox ≡ shut.client.outbox) }
    ensures gives { (c : ℕ) (run : ℕ) (done : DoneView R R.Key R.Part R.Value) (answer : Result (Move (WorkView R R.Key R.Part R.Value)) (GiveRefused (DoneView R R.Key R.Part R.Value))) (l m : Ledger R.Key R.Value M O) (shut : IsClosed l c) → Gives run done answer l m → (after : IsClosed m c) × (after.client.outbox ≡ shut.client.outbox) }
    ensures starves { (c : ℕ) (run : ℕ) (answer : Bool) (l m : Ledger R.Key R.Value M O) (shut : IsClosed l c) → Starves run answer l m → (after : IsClosed m c) × (after.client.outbox ≡ shut.client.outbox) }
    ensures withdraws { (c : ℕ) (client : ℕ) (label : Label) (answer : Result Bool WithdrawFault) (l m : Ledger R.Key R.Value M O) (shut : IsClosed l c) → Withdraws client label answer l m → (after : IsClosed m c) × (after.client.outbox ≡ shut.client.outbox) }
    ensures releases { (c : ℕ) (client : ℕ) (answer : Released) (l m : Ledger R.Key R.Value M O) (shut : IsClosed l c) → Releases O.puts O.takes O.was_full O.was_gone client answer l m → (after : IsClosed m c) × (after.client.outbox ≡ shut.client.outbox) }
    ensures closes { (c : ℕ) (client : ℕ) (answer : Option O) (l m : Ledger R.Key R.Value M O) (shut : IsClosed l c) → Closes client answer l m → (after : IsClosed m c) × (after.client.outbox ≡ shut.client.outbox) }
    ensures takes { (c : ℕ) (client : ℕ) (answer : Result Bool AllocError) (l m : Ledger R.Key R.Value M O) (shut : IsClosed l c) → TakesOut O.puts O.takes client answer l m → (after : IsClosed m c) × (after.client.outbox ≡ shut.client.outbox) }
{}

/// Between any two calls the table of memos is sound, as `engine_is_sound` says of an engine's. And
/// the store stands for some ledger.
pub fn store_is_sound<R: Rules, M: Stamp>(store: &Store<R, M>)
    // `sound`, `stands`: Of a store, what `core_is_sound` says of a core.
    ensures sound { Sound R.Key.cmp (R.machine store.now.rules) store.now.inputs.history store.now.inputs.revision (HasIn (memo_at R.Key.cmp store.now.places)) }
    ensures stands { (l : Ledger R.Key R.Value M (Told R.Key R.Value M)) × StoreStandsFor R.Key.cmp (R.machine store.now.rules) M.point store.now l × Kept (answer_by R.Key.cmp (R.machine store.now.rules) M.point) told_puts l }
{
    kept_is_sound(&store.memos);
}

/// Between any two calls a key has one holder at most, and waits between runs form no ring. A run
/// that holds a key exists. No key that a run holds is up to date: so a key is released in the call
/// that brings it up to date, and after a ring was published no run holds a key of it.
pub fn store_holds_keys<R: Rules, M: Stamp>(store: &Store<R, M>)
    // `sound`, `runs`, `stale`: Of a store, what `runs_hold_their_keys` says of a core.
    ensures sound { AreSound store.now.claims }
    ensures runs { (run : ℕ) (key : R.Key) → Holds store.now.claims run key → (l : Ledger R.Key R.Value M (Told R.Key R.Value M)) → StoreStandsFor R.Key.cmp (R.machine store.now.rules) M.point store.now l → (at : RunAt R.Key R.Value M (Told R.Key R.Value M)) × Runs l run at }
    ensures stale { (run : ℕ) (key : R.Key) → Holds store.now.claims run key → IsUpToDate (R.machine store.now.rules) store.now.inputs.revision (HasIn (memo_at R.Key.cmp store.now.places)) key → ⊥ }
{
    claims_are_sound(&store.claims);
}

/// In one revision a key's rule is started at most once, and once more for each run that was
/// stopped, starved or withdrawn while it held the key. It holds of the log of every list of
/// calls: the empty log is counted for a new store, and each call keeps that.
pub fn store_counts_starts<R: Rules, M: Stamp>(store: &Store<R, M>)
    // Of a store, what `starts_are_counted` says of a core.
    ensures { (log : Log R.Key) → IsCountedIn R.Key.cmp (R.machine store.now.rules) store.now log → (revision : ℕ) (key : R.Key) → count R.Key.cmp revision key log.starts ≤ count R.Key.cmp revision key log.lost + 1 }
{}

/// Between any two calls the table of memos is sound, as `engine_is_sound` says of an engine's. And
/// the core stands for some ledger.
pub fn core_is_sound<R: Rules, M: Stamp, O: Outbox<R, M>>(core: &Core<R, M, O>)
    // `sound`, `stands`: Between any two calls the table of memos is sound, and the core stands for
    // some ledger, for which `Kept` holds.
    ensures sound { Sound R.Key.cmp (R.machine core.now.rules) core.now.inputs.history core.now.inputs.revision (HasIn (memo_at R.Key.cmp core.now.places)) }
    ensures stands { (l : Ledger R.Key R.Value M O) × StandsFor R.Key.cmp (R.machine core.now.rules) M.point O.puts core.now l × Kept (answer_by R.Key.cmp (R.machine core.now.rules) M.point) O.puts l }
{
    store_is_sound(&core.store);
}

/// Between any two calls a key has one holder at most, and waits between runs form no ring. A run
/// that holds a key exists. No key that a run holds is up to date: so a key is released in the call
/// that brings it up to date, and after a ring was published no run holds a key of it.
pub fn runs_hold_their_keys<R: Rules, M: Stamp, O: Outbox<R, M>>(core: &Core<R, M, O>)
    // `sound`, `runs`, `stale`: Between any two calls a key has one holder at most, and waits
    // between runs form no ring. A run that holds a key exists. No key that a run holds is up to
    // date: when a key or a ring is published, its keys are released in the same call.
    ensures sound { AreSound core.now.claims }
    ensures runs { (run : ℕ) (key : R.Key) → Holds core.now.claims run key → (l : Ledger R.Key R.Value M O) → StandsFor R.Key.cmp (R.machine core.now.rules) M.point O.puts core.now l → (at : RunAt R.Key R.Value M O) × Runs l run at }
    ensures stale { (run : ℕ) (key : R.Key) → Holds core.now.claims run key → IsUpToDate (R.machine core.now.rules) core.now.inputs.revision (HasIn (memo_at R.Key.cmp core.now.places)) key → ⊥ }
{
    store_holds_keys(&core.store);
}

/// In one revision a key's rule is started at most once, and once more for each run that was
/// stopped, starved or withdrawn while it held the key. It holds of the log of every list of
/// calls: the empty log is counted for a new core, and each call keeps that.
pub fn starts_are_counted<R: Rules, M: Stamp, O: Outbox<R, M>>(core: &Core<R, M, O>)
    // In each revision a log that is counted has at most one start of a key, and one more for each
    // run that was stopped, starved or withdrawn while it held the key. So that holds after every
    // list of calls of a core. An edit that ends every run adds nothing: no rule was started at its
    // revision.
    ensures { (log : Log R.Key) → IsCountedFor R.Key.cmp (R.machine core.now.rules) core.now log → (revision : ℕ) (key : R.Key) → count R.Key.cmp revision key log.starts ≤ count R.Key.cmp revision key log.lost + 1 }
{}
