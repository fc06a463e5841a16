//! The example of a rule set: two queries over the names in texts, put together.
//!
//! The sum of a file is 1 and the sums of the names in its text. The total of a file is its sum, or
//! 0 where that is a cycle. Modules: `names` (the names in a text), `queries` (the two queries);
//! here they become one rule set, `Sums`.
ghost use Rattle.std.specs.Prelude.{◌≡◌, ℕ, List, Option, Some, None, IfOk, option_copied};
ghost use Rattle.pq_rules.specs.sums.RuleSet.{text_read, number_read, sum_turn, total_turn};

mod names;
mod queries;

use crate::code::text_code;
use crate::query::Query;
use crate::rules::Rules;
use crate::turn::{Answer, Memory, Turn};
use pq_names::Text;
use queries::{SumKeys, SumPart, SumQuery, TotalQuery};
use std::alloc::Global;

/// A key: the text, the sum or the total of the file of a name.
#[derive(Drop, PartialEq, Eq, PartialOrd, Ord)]
pub enum SumsKey {
    Input(Text),
    Sum(Text),
    Total(Text),
}

/// A value: the text of a file, `None` where it is absent, or a number.
#[derive(Drop, PartialEq, Eq)]
pub enum SumsValue {
    Source(Option<Text>),
    Number(u32),
}

/// What a key's rule does with the next answer.
#[derive(Drop)]
pub enum SumsPart {
    Adding(SumPart),
    Taking,
}

/// The rule set.
#[derive(Clone, Copy)]
pub struct Sums;

impl SumKeys for Sums {
    ghost use Rattle.pq_rules.specs.declared.sums.SumsKey.TheVariants.{Input, Sum};

    type Key = SumsKey;

    type Answer = Answer<SumsKey, SumsValue>;

    ghost input = { λ name. Input name };

    ghost sum = { λ name. Sum name };

    ghost text = { text_read };

    ghost number = { number_read };

    fn input_key(alloc: Global, name: &str) -> Result<SumsKey, Memory> {
        Ok(SumsKey::Input(Text::new(alloc, name)?))
    }

    fn sum_key(alloc: Global, name: &str) -> Result<SumsKey, Memory> {
        Ok(SumsKey::Sum(Text::new(alloc, name)?))
    }

    fn read_text<'a>(answer: &'a Answer<SumsKey, SumsValue>) -> Option<&'a str> {
        match answer {
            Answer::Value(SumsValue::Source(Some(text))) => Some(text.as_str()),
            Answer::Value(SumsValue::Source(None)) => None,
            Answer::Value(SumsValue::Number(_)) => None,
            Answer::Cycle(_) => None,
        }
    }

    fn read_number(answer: &Answer<SumsKey, SumsValue>) -> Option<u32> {
        match answer {
            Answer::Value(SumsValue::Number(number)) => Some(*number),
            Answer::Value(SumsValue::Source(_)) => None,
            Answer::Cycle(_) => None,
        }
    }
}

/// Makes a turn of the sum query one of the rule set.
fn of_sum(turn: Turn<SumsKey, SumPart, u32>) -> Turn<SumsKey, SumsPart, SumsValue>
    ensures { result ≡ sum_turn turn }
{
    match turn {
        Turn::Ask(key, part) => Turn::Ask(key, SumsPart::Adding(part)),
        Turn::Done(value) => Turn::Done(SumsValue::Number(value)),
    }
}

/// Makes a turn of the total query one of the rule set.
fn of_total(turn: Turn<SumsKey, (), u32>) -> Turn<SumsKey, SumsPart, SumsValue>
    ensures { result ≡ total_turn turn }
{
    match turn {
        Turn::Ask(key, ()) => Turn::Ask(key, SumsPart::Taking),
        Turn::Done(value) => Turn::Done(SumsValue::Number(value)),
    }
}

impl Rules for Sums {
    ghost use Rattle.pq_rules.specs.sums.RuleSet.{sums, sums_code, sums_reach};
    ghost use Rattle.pq_rules.specs.aux.sums.Laws.{sums_lawful};
    ghost use Rattle.pq_rules.specs.aux.sums.Exact.{sums_inputs, key_exact, value_exact};

    type Key = SumsKey;

    type Value = SumsValue;

    type Part = SumsPart;

    ghost machine = { λ s. sums };

    ghost reach = { λ s files k. sums_reach files k };

    ghost codes = { sums_code };

    ghost lawful = { λ s files. sums_lawful _ files key_exact };

    ghost inputs = { λ s k. sums_inputs k };

    ghost exact_values = { value_exact };

    fn level(&self, key: &SumsKey) -> u8 {
        match key {
            SumsKey::Input(_) => 0,
            SumsKey::Sum(_) => SumQuery::<Sums>::LEVEL,
            SumsKey::Total(_) => TotalQuery::<Sums>::LEVEL,
        }
    }

    fn code(&self, key: &SumsKey) -> u64 {
        match key {
            SumsKey::Input(name) => text_code(name),
            SumsKey::Sum(name) => text_code(name),
            SumsKey::Total(name) => text_code(name),
        }
    }

    fn file<'a>(&self, key: &'a SumsKey) -> Option<&'a str> {
        match key {
            SumsKey::Input(name) => Some(name.as_str()),
            SumsKey::Sum(_) => None,
            SumsKey::Total(_) => None,
        }
    }

    fn text(&self, alloc: Global, text: Option<&str>) -> Result<SumsValue, Memory> {
        match text {
            Some(text) => Ok(SumsValue::Source(Some(Text::new(alloc, text)?))),
            None => Ok(SumsValue::Source(None)),
        }
    }

    fn start(
        &self,
        alloc: Global,
        key: &SumsKey,
    ) -> Result<Turn<SumsKey, SumsPart, SumsValue>, Memory> {
        match key {
            SumsKey::Input(_) => Ok(Turn::Done(SumsValue::Source(None))),
            SumsKey::Sum(name) => Ok(of_sum(SumQuery::<Sums>::new().start(alloc, name)?)),
            SumsKey::Total(name) => Ok(of_total(TotalQuery::<Sums>::new().start(alloc, name)?)),
        }
    }

    fn advance(
        &self,
        alloc: Global,
        part: SumsPart,
        answer: &Answer<SumsKey, SumsValue>,
    ) -> Result<Turn<SumsKey, SumsPart, SumsValue>, SumsPart> {
        match part {
            SumsPart::Adding(part) => match SumQuery::<Sums>::new().advance(alloc, part, answer) {
                Ok(turn) => Ok(of_sum(turn)),
                Err(part) => Err(SumsPart::Adding(part)),
            },
            SumsPart::Taking => match TotalQuery::<Sums>::new().advance(alloc, (), answer) {
                Ok(turn) => Ok(of_total(turn)),
                Err(()) => Err(SumsPart::Taking),
            },
        }
    }

    fn left(&self, part: &SumsPart) -> (u32, u64) {
        match part {
            SumsPart::Adding(part) => SumQuery::<Sums>::new().left(part),
            SumsPart::Taking => TotalQuery::<Sums>::new().left(&()),
        }
    }

    fn copy_key(&self, _alloc: Global, key: &SumsKey) -> Result<SumsKey, Memory> {
        match key {
            SumsKey::Input(name) => Ok(SumsKey::Input(name.copy()?)),
            SumsKey::Sum(name) => Ok(SumsKey::Sum(name.copy()?)),
            SumsKey::Total(name) => Ok(SumsKey::Total(name.copy()?)),
        }
    }

    fn copy_value(&self, _alloc: Global, value: &SumsValue) -> Result<SumsValue, Memory> {
        match value {
            SumsValue::Source(Some(text)) => Ok(SumsValue::Source(Some(text.copy()?))),
            SumsValue::Source(None) => Ok(SumsValue::Source(None)),
            SumsValue::Number(number) => Ok(SumsValue::Number(*number)),
        }
    }
}
