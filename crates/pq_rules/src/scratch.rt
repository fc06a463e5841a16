//! The slow evaluator: the answer of a key, with nothing kept from before.
//!
//! It goes depth first. A stack has a frame for each key whose rule waits for the answer of
//! another; each frame but the last waits for the key of the frame above it. A step takes the last
//! frame and looks for the answer of the key that it asked:
//! - the answer is known, or the key is an input: the frame's rule goes on by it, or has a cycle of
//!   its own level as its answer too (`deliver`);
//! - the key is on the stack: the frames from it on are a cycle, and the ring of their keys is the
//!   answer of each;
//! - otherwise the rule of the key starts, in a frame of its own.
//!
//! Each key is evaluated once. A table keeps each started key with the place of its frame, which is
//! there until the key has an answer. So a key's answer and its frame are found in logarithmic
//! time, and `n` keys that ask `q` questions in all cost some `(n + q) log n` comparisons.
ghost use Rattle.std.specs.Prelude.{◌≡◌, ◌<◌, ◌≤◌, ◌++◌, ◌∷◌, ◌&&◌, [], ℕ, List, length, nat_eq, slice_get, Some, IfOk, IfSome, IfNone, HoldsAt, option_copied};
ghost use Rattle.std.specs.BTreeMap.{insert_entry};
ghost use Rattle.pq_inputs.specs.Sources.{Sources};
ghost use Rattle.pq_rules.specs.declared.turn.Answer.{Answer};
ghost use Rattle.pq_rules.specs.declared.turn.Answer.TheVariants.{Cycle};
ghost use Rattle.pq_rules.specs.Turns.{over, text_at};
ghost use Rattle.pq_rules.specs.Relations.{In, Each};
ghost use Rattle.pq_rules.specs.Value.{Means};
ghost use Rattle.pq_rules.specs.aux.AnswerTable.{Finished, Covers, Placed, entry, finished, is_cycle};
ghost use Rattle.pq_rules.specs.aux.Evaluator.{frame_keys, IsLeastAt, RotatedToLeast, Distinct, RingDone, Applies, Holds, Proceeds, Grows, IsNew};

use crate::answer_table::AnswerTable;
use crate::answers::is_same_key;
use crate::lists::push;
use crate::rules::Rules;
use crate::turn::{Answer, Memory, Ring, Turn};
use pq_inputs::Inputs;
use std::alloc::Global;

/// A key whose rule waits for the answer of the key that it asked, and the part to go on from.
#[derive(Drop)]
pub(crate) struct Frame<K, P> {
    key: K,
    asked: K,
    part: P,
}

/// Finds the frame of `key` in the stack, in logarithmic time.
fn place_of<R: Rules>(
    rules: &R,
    found: &AnswerTable<R::Key, R::Value>,
    stack: &[Frame<R::Key, R::Part>],
    key: &R::Key,
) -> Option<usize>
    requires placed { Placed R.Key.cmp found.now.started (frame_keys stack.now) }
    ensures found { IfSome result (λ i. (i < length stack.now) × HoldsAt (λ f. f.key ≡ key.now) stack.now i) }
    ensures none { IfNone result (In key.now (frame_keys stack.now) → ⊥) }
{
    match found.frame_of(key) {
        Some(place) => {
            if place < stack.len() && is_same_key(rules, &stack[place].key, key) {
                return Some(place);
            }
            None
        }
        None => None,
    }
}

/// Finds the frame of the least key.
fn least_place<R: Rules>(_rules: &R, frames: &[Frame<R::Key, R::Part>]) -> usize
    requires { 0 < length frames.now }
    ensures within { result < length frames.now }
    ensures least { IsLeastAt R.Key.cmp frames.now result }
{
    let mut least = 0;
    for i in 1..frames.len() {
        if frames[i].key.cmp(&frames[least].key).is_lt() {
            least = i;
        }
    }
    least
}

/// Adds copies of the keys of `frames` to `keys`.
fn copy_frame_keys<R: Rules>(
    alloc: Global,
    rules: &R,
    keys: &mut Vec<R::Key>,
    frames: &[Frame<R::Key, R::Part>],
) -> Result<(), Memory>
    ensures { IfOk result (λ _. keys.new.items ≡ keys.old.items ++ frame_keys frames.now) }
{
    for frame in frames {
        let copy = rules.copy_key(alloc, &frame.key)?;
        push(keys, copy)?;
    }
    Ok(())
}

/// Copies the keys of `frames`, rotated so that the least is the first.
fn ring_of<R: Rules>(
    alloc: Global,
    rules: &R,
    frames: &[Frame<R::Key, R::Part>],
) -> Result<Vec<R::Key>, Memory>
    requires some { 0 < length frames.now }
    requires distinct { Distinct (frame_keys frames.now) }
    ensures { IfOk result (λ v. RotatedToLeast R.Key.cmp (frame_keys frames.now) v.items) }
{
    let at = least_place(rules, frames);
    let mut ring = Vec::new(alloc);
    copy_frame_keys(alloc, rules, &mut ring, &frames[at..])?;
    copy_frame_keys(alloc, rules, &mut ring, &frames[..at])?;
    Ok(ring)
}

/// Gives `key` the answer at `place`.
fn assign<R: Rules>(
    _rules: &R,
    found: &mut AnswerTable<R::Key, R::Value>,
    key: R::Key,
    place: usize,
) -> Result<(), Memory>
    requires { place < length found.old.answers }
    ensures given { IfOk result (λ _. (a : Answer R.Key R.Value) → slice_get found.old.answers place ≡ Some a → Covers (finished found.old ++ entry key a ∷ []) (finished found.new)) }
    ensures answers { found.new.answers ≡ found.old.answers }
    ensures started { found.new.started ≡ found.old.started }
{
    found.point(key, place)
}

/// Adds `answer` and gives it to `key`.
fn finish<R: Rules>(
    rules: &R,
    found: &mut AnswerTable<R::Key, R::Value>,
    key: R::Key,
    answer: Answer<R::Key, R::Value>,
) -> Result<(), Memory>
    ensures given { IfOk result (λ _. Covers (finished found.old ++ entry key answer ∷ []) (finished found.new)) }
    ensures started { found.new.started ≡ found.old.started }
{
    let place = found.add(answer)?;
    assign(rules, found, key, place)
}

/// Pops the frames from `place` on, and gives their keys the answer at `answer`.
fn finish_ring<R: Rules>(
    rules: &R,
    found: &mut AnswerTable<R::Key, R::Value>,
    stack: &mut Vec<Frame<R::Key, R::Part>>,
    place: usize,
    answer: usize,
) -> Result<(), Memory>
    requires within { place ≤ length stack.old.items }
    requires answer { answer < length found.old.answers }
    ensures done { IfOk result (λ _. (ring : List R.Key) → slice_get found.old.answers answer ≡ Some (Cycle ring) → RingDone ring place (finished found.old) stack.old.items (finished found.new) stack.new.items) }
    ensures started { found.new.started ≡ found.old.started }
{
    'ring: while stack.len() > place {
        if let Some(frame) = stack.pop() {
            assign(rules, found, frame.key, answer)?;
        }
    }
    Ok(())
}

/// Applies a turn of `key`: a question becomes a frame, a value its answer.
fn apply_turn<R: Rules>(
    rules: &R,
    found: &mut AnswerTable<R::Key, R::Value>,
    stack: &mut Vec<Frame<R::Key, R::Part>>,
    key: R::Key,
    turn: Turn<R::Key, R::Part, R::Value>,
) -> Result<(), Memory>
    ensures applied { IfOk result (λ _. (files : Sources) → Applies (over R.Key.cmp (R.machine rules.now) files) key turn (finished found.old) stack.old.items (finished found.new) stack.new.items) }
    ensures started { found.new.started ≡ found.old.started }
{
    match turn {
        Turn::Ask(asked, part) => {
            // Called for its contract alone: what is left fits in its machine integers, which
            // bounds the steps.
            let _left = rules.left(&part);
            push(stack, Frame { key, asked, part })
        }
        Turn::Done(value) => { finish(rules, found, key, Answer::Value(value)) }
    }
}

/// Goes on with the rule of a frame, by the answer at `place`.
fn resume<R: Rules>(
    alloc: Global,
    rules: &R,
    found: &mut AnswerTable<R::Key, R::Value>,
    stack: &mut Vec<Frame<R::Key, R::Part>>,
    frame: Frame<R::Key, R::Part>,
    place: usize,
) -> Result<(), Memory>
    requires { place < length found.old.answers }
    ensures applied { IfOk result (λ _. (files : Sources) (a : Answer R.Key R.Value) → slice_get found.old.answers place ≡ Some a → Applies (over R.Key.cmp (R.machine rules.now) files) frame.key ((R.machine rules.now).advance frame.part a) (finished found.old) stack.old.items (finished found.new) stack.new.items) }
    ensures started { found.new.started ≡ found.old.started }
{
    match rules.advance(alloc, frame.part, found.answer(place)) {
        Ok(turn) => { apply_turn(rules, found, stack, frame.key, turn) }
        Err(_) => Err(Memory),
    }
}

/// Starts the rule of `key`, and notes the place of its frame.
fn begin<R: Rules>(
    alloc: Global,
    rules: &R,
    found: &mut AnswerTable<R::Key, R::Value>,
    stack: &mut Vec<Frame<R::Key, R::Part>>,
    key: R::Key,
) -> Result<(), Memory>
    ensures applied { IfOk result (λ _. (files : Sources) → Applies (over R.Key.cmp (R.machine rules.now) files) key ((R.machine rules.now).start key) (finished found.old) stack.old.items (finished found.new) stack.new.items) }
    ensures started { IfOk result (λ _. found.new.started ≡ insert_entry R.Key.cmp found.old.started key (length stack.old.items)) }
{
    let copy = rules.copy_key(alloc, &key)?;
    found.start(copy, stack.len())?;
    let turn = rules.start(alloc, &key)?;
    apply_turn(rules, found, stack, key, turn)
}

/// Looks up the text of the file of `key`. `None` is for a key of no file too.
fn text_of<'a, R: Rules>(rules: &R, inputs: &'a Inputs, key: &R::Key) -> Option<&'a str>
    ensures { option_copied result ≡ text_at inputs.now.files ((R.machine rules.now).file key.now) }
{
    match rules.file(key) {
        Some(name) => inputs.get(name),
        None => None,
    }
}

/// Makes the answer of the input `key`.
pub fn input_answer<R: Rules>(
    alloc: Global,
    rules: &R,
    inputs: &Inputs,
    key: &R::Key,
) -> Result<Answer<R::Key, R::Value>, Memory>
    // The key is an input: its level is 0.
    requires { (R.machine rules.now).level key.now ≡ 0 }
    // The answer is the value of the key at the sources now.
    ensures { IfOk result (λ a. Means (over R.Key.cmp (R.machine rules.now) inputs.now.files) key.now a) }
{
    let value = rules.text(alloc, text_of(rules, inputs, key))?;
    Ok(Answer::Value(value))
}

/// Reads the input `key`, adds its answer and returns its place.
fn read_input<R: Rules>(
    alloc: Global,
    rules: &R,
    inputs: &Inputs,
    found: &mut AnswerTable<R::Key, R::Value>,
    key: &R::Key,
) -> Result<usize, Memory>
    requires { (R.machine rules.now).level key.now ≡ 0 }
    ensures within { IfOk result (λ i. i < length found.new.answers) }
    ensures means { IfOk result (λ i. (a : Answer R.Key R.Value) → slice_get found.new.answers i ≡ Some a → Means (over R.Key.cmp (R.machine rules.now) inputs.now.files) key.now a) }
    ensures grown { IfOk result (λ _. Grows (over R.Key.cmp (R.machine rules.now) inputs.now.files) (finished found.old) (finished found.new)) }
    ensures started { found.new.started ≡ found.old.started }
{
    let answer = input_answer(alloc, rules, inputs, key)?;
    let place = found.add(answer)?;
    let copy = rules.copy_key(alloc, key)?;
    assign(rules, found, copy, place)?;
    Ok(place)
}

/// Finds the place of the answer of `key`, which it has already or gets as an input. `None` is for
/// a key whose rule has to run.
fn known<R: Rules>(
    alloc: Global,
    rules: &R,
    inputs: &Inputs,
    found: &mut AnswerTable<R::Key, R::Value>,
    key: &R::Key,
) -> Result<Option<usize>, Memory>
    requires { Each (λ (f : Finished R.Key R.Value). Means (over R.Key.cmp (R.machine rules.now) inputs.now.files) f.key f.answer) (finished found.old) }
    ensures within { IfOk result (λ o. IfSome o (λ i. i < length found.new.answers)) }
    ensures means { IfOk result (λ o. IfSome o (λ i. (a : Answer R.Key R.Value) → slice_get found.new.answers i ≡ Some a → Means (over R.Key.cmp (R.machine rules.now) inputs.now.files) key.now a)) }
    ensures grown { IfOk result (λ _. Grows (over R.Key.cmp (R.machine rules.now) inputs.now.files) (finished found.old) (finished found.new)) }
    ensures started { found.new.started ≡ found.old.started }
    ensures none { IfOk result (λ o. IfNone o (IsNew (R.machine rules.now) key.now (finished found.new))) }
{
    match found.place_of(key) {
        Some(place) => Ok(Some(place)),
        None => {
            if rules.level(key) > 0 {
                return Ok(None);
            }
            let place = read_input(alloc, rules, inputs, found, key)?;
            Ok(Some(place))
        }
    }
}

/// Whether `answer`, to the question of `frame`, is the frame's own answer too: a cycle of its own
/// level.
fn passes_on<R: Rules>(
    rules: &R,
    frame: &Frame<R::Key, R::Part>,
    answer: &Answer<R::Key, R::Value>,
) -> bool
    ensures { result ≡ (nat_eq ((R.machine rules.now).level frame.now.asked) ((R.machine rules.now).level frame.now.key) && is_cycle answer.now) }
{
    match answer {
        Answer::Value(_) => false,
        Answer::Cycle(_) => rules.level(&frame.asked) == rules.level(&frame.key),
    }
}

/// Delivers the answer at `place` to `frame`, the last one, which was popped. `_inputs` and `_root`
/// are for the contract.
fn deliver<R: Rules>(
    alloc: Global,
    rules: &R,
    _inputs: &Inputs,
    _root: &R::Key,
    found: &mut AnswerTable<R::Key, R::Value>,
    stack: &mut Vec<Frame<R::Key, R::Part>>,
    frame: Frame<R::Key, R::Part>,
    place: usize,
) -> Result<(), Memory>
    requires within { place < length found.old.answers }
    requires going { Holds R.Key.cmp (R.machine rules.now) (R.reach rules.now) _inputs.now.files _root.now found.old (stack.old.items ++ frame ∷ []) }
    requires means { (a : Answer R.Key R.Value) → slice_get found.old.answers place ≡ Some a → Means (over R.Key.cmp (R.machine rules.now) _inputs.now.files) frame.asked a }
    ensures { IfOk result (λ _. Proceeds R.Key.cmp (R.machine rules.now) (R.reach rules.now) _inputs.now.files _root.now found.old (stack.old.items ++ frame ∷ []) found.new stack.new.items) }
{
    if passes_on(rules, &frame, found.answer(place)) {
        assign(rules, found, frame.key, place)
    } else {
        resume(alloc, rules, found, stack, frame, place)
    }
}

/// Evaluates the question of `frame`, the last one, which was popped: its key has no answer yet.
/// `_inputs` and `_root` are for the contract.
fn ask_first<R: Rules>(
    alloc: Global,
    rules: &R,
    _inputs: &Inputs,
    _root: &R::Key,
    found: &mut AnswerTable<R::Key, R::Value>,
    stack: &mut Vec<Frame<R::Key, R::Part>>,
    frame: Frame<R::Key, R::Part>,
) -> Result<(), Memory>
    requires going { Holds R.Key.cmp (R.machine rules.now) (R.reach rules.now) _inputs.now.files _root.now found.old (stack.old.items ++ frame ∷ []) }
    requires new { IsNew (R.machine rules.now) frame.asked (finished found.old) }
    ensures { IfOk result (λ _. Proceeds R.Key.cmp (R.machine rules.now) (R.reach rules.now) _inputs.now.files _root.now found.old (stack.old.items ++ frame ∷ []) found.new stack.new.items) }
{
    let asked = rules.copy_key(alloc, &frame.asked)?;
    push(stack, frame)?;
    match place_of(rules, found, stack, &asked) {
        Some(place) => {
            let keys = ring_of(alloc, rules, &stack[place..])?;
            let ring = Ring::new(alloc, keys)?;
            let answer = found.add(Answer::Cycle(ring))?;
            finish_ring(rules, found, stack, place, answer)
        }
        None => {
            begin(alloc, rules, found, stack, asked)?;
            Ok(())
        }
    }
}

/// Takes a step for `frame`, the last one, which was popped.
fn step<R: Rules>(
    alloc: Global,
    rules: &R,
    inputs: &Inputs,
    root: &R::Key,
    found: &mut AnswerTable<R::Key, R::Value>,
    stack: &mut Vec<Frame<R::Key, R::Part>>,
    frame: Frame<R::Key, R::Part>,
) -> Result<(), Memory>
    requires { Holds R.Key.cmp (R.machine rules.now) (R.reach rules.now) inputs.now.files root.now found.old (stack.old.items ++ frame ∷ []) }
    ensures { IfOk result (λ _. Proceeds R.Key.cmp (R.machine rules.now) (R.reach rules.now) inputs.now.files root.now found.old (stack.old.items ++ frame ∷ []) found.new stack.new.items) }
{
    match known(alloc, rules, inputs, found, &frame.asked)? {
        Some(place) => { deliver(alloc, rules, inputs, root, found, stack, frame, place) }
        None => { ask_first(alloc, rules, inputs, root, found, stack, frame) }
    }
}

/// Evaluates `key` at the sources of `inputs`, with nothing kept from before: its answer, as
/// `Means` defines it. Each key is evaluated once. If an allocation fails, it answers `Memory` and
/// keeps nothing.
pub fn from_scratch<R: Rules>(
    alloc: Global,
    rules: &R,
    inputs: &Inputs,
    key: &R::Key,
) -> Result<Answer<R::Key, R::Value>, Memory>
    // The answer is the value of the key at the sources now, for every rule set that keeps the laws
    // of `Rules`.
    ensures value { IfOk result (λ a. Means (over R.Key.cmp (R.machine rules.now) inputs.now.files) key.now a) }
{
    if rules.level(key) == 0 {
        return input_answer(alloc, rules, inputs, key);
    }
    let mut found = AnswerTable::new(alloc);
    let mut stack = Vec::new(alloc);
    begin(
        alloc,
        rules,
        &mut found,
        &mut stack,
        rules.copy_key(alloc, key)?,
    )?;
    'steps: while let Some(frame) = stack.pop() {
        step(alloc, rules, inputs, key, &mut found, &mut stack, frame)?;
    }
    match found.place_of(key) {
        Some(place) => Ok(found.take(place)),
        None => unreachable!(),
    }
}
