//! The engine: inputs, and the memos of what was demanded, on one thread.
//!
//! A demand starts only rules that have a cause: no memo, a changed read, or a ring that durability
//! does not confirm.
ghost use Rattle.std.specs.Prelude.{◌≡◌, ◌+◌, ◌∷◌, ◌++◌, [], string_bytes, Option, None, unwrap_or, IfOk, OnOk, IfErr, OnErr};
ghost use Rattle.std.specs.Option.{option_map};
ghost use Rattle.pq_inputs.specs.Sources.{File, with_file};
ghost use Rattle.pq_inputs.specs.Refusal.{refusal};
ghost use Rattle.pq_rules.specs.Turns.{over};
ghost use Rattle.pq_rules.specs.Relations.{Each};
ghost use Rattle.pq_rules.specs.Value.{Means};
ghost use Rattle.pq_memo.specs.Look.{IsUpToDate};
ghost use Rattle.pq_memo.specs.Sound.{Sound};
ghost use Rattle.pq_memo.specs.Table.{memo_at, HasIn};
ghost use Rattle.pq_memo.specs.Demand.{Differ, IsCarried, IsVerified, IsSameOrVerified, NoneLost, carried_keys};

use crate::demand::demanded::Demanded;
use crate::laws::kept_is_sound;
use crate::table::hint::Hint;
use crate::table::memos::Memos;
use pq_inputs::{Durability, InputFault, Inputs, Revision, SetRefused};
use pq_rules::{Memory, Rules};
use std::alloc::Global;
use std::marker::Model;

/// Inputs, and the memos of what was demanded. Contracts see the rule set, the places of the memos
/// and the inputs. The table of memos keeps its invariant over the history of the inputs.
#[derive(Drop)]
pub struct Engine<R: Rules> {
    memos: Memos<R>,
    inputs: Inputs,
}

impl<R: Rules> Model for Engine<R> {
    ghost use Rattle.pq_memo.specs.EngineView.{EngineView};
    ghost use Rattle.pq_memo.specs.Table.{KeptOver};

    ghost Value = { EngineView R R.Key R.Value };

    ghost view = { λ e. record { rules = e.memos.rules; places = e.memos.places; inputs = e.inputs } };

    ghost invariant = { λ e. KeptOver R.Key.cmp (R.machine e.memos.rules) e.inputs e.memos.places };
}

impl<R: Rules> Engine<R> {
    /// An engine over `inputs`, without memos.
    pub fn new(alloc: Global, rules: R, inputs: Inputs) -> Self
        // `rules`, `inputs`, `empty`: An engine of these rules over these inputs, without memos.
        ensures rules { result.rules ≡ rules }
        ensures inputs { result.inputs ≡ inputs }
        ensures empty { (key : R.Key) → memo_at R.Key.cmp result.places key ≡ None }
    {
        Engine {
            memos: Memos::new(alloc, rules),
            inputs,
        }
    }

    /// The inputs.
    pub fn inputs(&self) -> &Inputs
        // The inputs of the engine.
        ensures { result.now ≡ self.now.inputs }
    {
        &self.inputs
    }

    /// Sets the file `name` to `text`, or to absent, and to `durability`. Returns the revision that
    /// this makes. Every memo stays.
    ///
    /// A refused change leaves the inputs unchanged, and `text` comes back.
    ///
    /// # Errors
    ///
    /// Those of `Inputs::set`.
    pub fn set(
        &mut self,
        name: &str,
        text: Option<String>,
        durability: Durability,
    ) -> Result<Revision, SetRefused>
        // `rules`, `places`: The rule set and every memo stay.
        ensures rules { self.new.rules ≡ self.old.rules }
        ensures places { self.new.places ≡ self.old.places }
        // `revision`, `files`, `history`, `limit`, `accepted`, `fault`, `refused`, `back`: The clauses
        // of `Inputs::set`, said of the engine's inputs.
        ensures revision { IfOk result (λ revision.
            (revision ≡ self.old.inputs.revision + 1) × (self.new.inputs.revision ≡ revision)) }
        ensures files { let file : File = record { text = option_map string_bytes text; durability = durability } in
            OnOk result (self.new.inputs.files ≡ with_file self.old.inputs.files name.now file) }
        ensures history { OnOk result (self.new.inputs.history ≡ self.old.inputs.history ++ self.new.inputs.files ∷ []) }
        ensures limit { OnOk result (self.new.inputs.limit ≡ self.old.inputs.limit) }
        ensures accepted { OnOk result
            (refusal self.old.inputs name.now (option_map string_bytes text) ≡ None) }
        ensures fault { IfErr result (λ refused.
            refused.fault ≡
            unwrap_or (refusal self.old.inputs name.now (option_map string_bytes text)) InputFault.Memory) }
        ensures refused { OnErr result (self.new.inputs ≡ self.old.inputs) }
        ensures back { IfErr result (λ refused. refused.text ≡ text) }
    {
        let _latest = self.inputs.now();
        self.inputs.set(name, text, durability)
    }

    /// Demands the answer of `key` at the sources now, and returns it with the rules that were
    /// started for it, in order.
    ///
    /// For an input, and for a key that was demanded since the last change, no rule is started. If
    /// an allocation fails, the memos published so far stay, and no memo is lost.
    pub fn demand(
        &mut self,
        alloc: Global,
        key: &R::Key,
    ) -> Result<Demanded<R::Key, R::Value>, Memory>
        // `rules`, `inputs`: The rule set and the inputs stay.
        ensures rules { self.new.rules ≡ self.old.rules }
        ensures inputs { self.new.inputs ≡ self.old.inputs }
        // The answer is the key's value at the sources now, for every rule set that keeps the laws
        // of `Rules`.
        ensures value { IfOk result (λ d. Means (over R.Key.cmp (R.machine self.old.rules) self.old.inputs.files) key.now d.answer) }
        // `up_to_date`, `idle`: Afterwards the key is up to date. If it was before, no rule was
        // started.
        ensures up_to_date { OnOk result (IsUpToDate (R.machine self.old.rules) self.old.inputs.revision (HasIn (memo_at R.Key.cmp self.new.places)) key.now) }
        ensures idle { IfOk result (λ d. IsUpToDate (R.machine self.old.rules) self.old.inputs.revision (HasIn (memo_at R.Key.cmp self.old.places)) key.now → d.carried.items ≡ []) }
        // Each rule that was started is listed with the revision now, and its cause in the table
        // before the demand.
        ensures carried { IfOk result (λ d. Each (IsCarried R.Key.cmp (R.machine self.old.rules) self.old.inputs.history self.old.inputs.revision (HasIn (memo_at R.Key.cmp self.old.places))) d.carried.items) }
        // `once`, `covered`: No key is listed twice, and each has a memo afterwards that was
        // verified now.
        ensures once { IfOk result (λ d. Differ (carried_keys d.carried.items)) }
        ensures covered { IfOk result (λ d. Each (IsVerified self.old.inputs.revision (memo_at R.Key.cmp self.new.places)) (carried_keys d.carried.items)) }
        // `none_lost`, `verified`: Also after an allocation failure: no memo is lost, one with an
        // equal answer keeps its changed revision, and each memo is that of before or was verified
        // now.
        ensures none_lost { NoneLost (memo_at R.Key.cmp self.old.places) (memo_at R.Key.cmp self.new.places) }
        ensures verified { (k : R.Key) → IsSameOrVerified self.old.inputs.revision (memo_at R.Key.cmp self.old.places) (memo_at R.Key.cmp self.new.places) k }
    {
        let _latest = self.inputs.now();
        let mut hint = Hint::Nowhere;
        let carried = self
            .memos
            .bring_up_to_date(alloc, key, &mut hint, &self.inputs)?;
        match self.memos.read_answer(alloc, key, &self.inputs, &mut hint)? {
            Some(answer) => Ok(Demanded { answer, carried }),
            None => unreachable!(),
        }
    }
}

/// The memos of an engine are sound: each is right at the revision at which it was verified and at
/// the one at which its answer changed, its reads are those of its rule in order, and its
/// durability is at most that of each input below it.
pub fn engine_is_sound<R: Rules>(engine: &Engine<R>)
    // The table of an engine is sound at every time.
    ensures { Sound R.Key.cmp (R.machine engine.now.rules) engine.now.inputs.history engine.now.inputs.revision (HasIn (memo_at R.Key.cmp engine.now.places)) }
{
    kept_is_sound(&engine.memos);
}
