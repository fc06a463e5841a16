//! The two queries of the example, generic over the rule set in which they are used.
ghost use Rattle.std.specs.Prelude.{◌≡◌, ℕ, List, Option, IfOk, IfErr, option_copied, length, unwrap_or, ◌+◌, min};
ghost use Rattle.pq_rules.specs.sums.Queries.{sum_level, total_level, sum_starts, sum_advances, sum_left, add_next, total_starts, total_advances};
ghost use Rattle.pq_rules.specs.aux.sums.Falls.{sum_falls, total_falls};

use super::names::{Names, names_of_file};
use crate::query::Query;
use crate::turn::{Memory, Turn};
use pq_names::Text;
use std::alloc::Global;
use std::marker::PhantomData;

/// The largest sum; a larger one counts as this.
pub(crate) const LARGEST_SUM: u32 = 1_000_000;

/// What a rule set offers these two queries: it makes the keys that they ask and reads the answers
/// that they get.
pub trait SumKeys {
    type Key: Drop;

    type Answer;

    ghost input: { List ℕ → Self.Key };

    ghost sum: { List ℕ → Self.Key };

    ghost text: { Self.Answer → Option (List ℕ) };

    ghost number: { Self.Answer → Option ℕ };

    /// Makes the key of the text of the file `name`.
    fn input_key(alloc: Global, name: &str) -> Result<Self::Key, Memory>
        ensures key { IfOk result (λ k. k ≡ input name.now) };

    /// Makes the key of the sum of the file `name`.
    fn sum_key(alloc: Global, name: &str) -> Result<Self::Key, Memory>
        ensures key { IfOk result (λ k. k ≡ sum name.now) };

    /// Reads the text of a file, `None` where `answer` is no text or the file is absent.
    fn read_text<'a>(answer: &'a Self::Answer) -> Option<&'a str>
        ensures text { option_copied result ≡ text answer.now };

    /// Reads the sum of a file, `None` where `answer` is a cycle or a text.
    fn read_number(answer: &Self::Answer) -> Option<u32>
        ensures number { result ≡ number answer.now };
}

/// What the rule of a sum does with the next answer.
#[derive(Drop)]
pub enum SumPart {
    /// The answer is the text of the file.
    Read,
    /// The answer is the sum of a name. The fields are the names that are left and the sum so far.
    Add(Names, u32),
}

/// The sum of a file: one more than the sums of the names in its text, in order, at most
/// `LARGEST_SUM`.
#[derive(Drop)]
pub struct SumQuery<S> {
    sum: PhantomData<S>,
}

/// The total of a file: its sum, or 0 where that is a cycle.
#[derive(Drop)]
pub struct TotalQuery<S> {
    sum: PhantomData<S>,
}

impl<S> SumQuery<S> {
    /// Makes the query.
    pub(crate) fn new() -> Self {
        SumQuery { sum: PhantomData }
    }
}

impl<S> TotalQuery<S> {
    /// Makes the query.
    pub(crate) fn new() -> Self {
        TotalQuery { sum: PhantomData }
    }
}

/// Asks the sum of the next name, or ends in `sum` where no name is left. If an allocation fails,
/// `names` comes back.
fn ask_next<S: SumKeys>(
    alloc: Global,
    names: Names,
    sum: u32,
) -> Result<Turn<S::Key, SumPart, u32>, Names>
    ensures turn { IfOk result (λ t. t ≡ add_next S.sum names sum) }
    ensures back { IfErr result (λ n. n ≡ names) }
{
    if names.next >= names.names.len() {
        return Ok(Turn::Done(sum));
    }
    match S::sum_key(alloc, names.names[names.next].as_str()) {
        Ok(key) => {
            let left = Names {
                next: names.next + 1,
                names: names.names,
            };
            Ok(Turn::Ask(key, SumPart::Add(left, sum)))
        }
        Err(_) => Err(names),
    }
}

impl<S: SumKeys> Query for SumQuery<S> {
    type Key = Text;

    type Value = u32;

    type Part = SumPart;

    type AnyKey = S::Key;

    type AnyAnswer = S::Answer;

    const LEVEL: u8 = 1;

    ghost LEVEL = { sum_level };

    ghost starts = { λ s k. sum_starts S.input k };

    ghost advances = { λ s p a. sum_advances S.sum (S.text a) (S.number a) p };

    ghost lefts = { λ s p. sum_left p };

    ghost falls = { λ s p a q r e. sum_falls S.sum (S.text a) (S.number a) p q r e };

    fn start(&self, alloc: Global, key: &Text) -> Result<Turn<S::Key, SumPart, u32>, Memory> {
        Ok(Turn::Ask(S::input_key(alloc, key.as_str())?, SumPart::Read))
    }

    fn advance(
        &self,
        alloc: Global,
        part: SumPart,
        answer: &S::Answer,
    ) -> Result<Turn<S::Key, SumPart, u32>, SumPart> {
        match part {
            SumPart::Read => match names_of_file(alloc, S::read_text(answer)) {
                Ok(names) => match ask_next::<S>(alloc, names, 1) {
                    Ok(turn) => Ok(turn),
                    Err(_) => Err(SumPart::Read),
                },
                Err(_) => Err(SumPart::Read),
            },
            SumPart::Add(names, sum) => {
                let number = S::read_number(answer).unwrap_or(0);
                let total = (sum as u64 + number as u64).min(LARGEST_SUM as u64) as u32;
                match ask_next::<S>(alloc, names, total) {
                    Ok(turn) => Ok(turn),
                    Err(names) => Err(SumPart::Add(names, sum)),
                }
            }
        }
    }

    fn left(&self, part: &SumPart) -> (u32, u64) {
        match part {
            SumPart::Read => (1, 0),
            SumPart::Add(names, _) => (0, names.names.len().saturating_sub(names.next) as u64),
        }
    }
}

impl<S: SumKeys> Query for TotalQuery<S> {
    type Key = Text;

    type Value = u32;

    type Part = ();

    type AnyKey = S::Key;

    type AnyAnswer = S::Answer;

    const LEVEL: u8 = 2;

    ghost LEVEL = { total_level };

    ghost starts = { λ s k. total_starts S.sum k };

    ghost advances = { λ s p a. total_advances (S.number a) };

    ghost lefts = { λ s p. (0, 0) };

    ghost falls = { λ s p a q r e. total_falls (S.number a) q r e };

    fn start(&self, alloc: Global, key: &Text) -> Result<Turn<S::Key, (), u32>, Memory> {
        Ok(Turn::Ask(S::sum_key(alloc, key.as_str())?, ()))
    }

    fn advance(
        &self,
        _alloc: Global,
        _part: (),
        answer: &S::Answer,
    ) -> Result<Turn<S::Key, (), u32>, ()> {
        Ok(Turn::Done(S::read_number(answer).unwrap_or(0)))
    }

    fn left(&self, _part: &()) -> (u32, u64) {
        (0, 0)
    }
}
