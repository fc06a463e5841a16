//! A rule set that counts the rules that it starts: each key's rule is started once.
ghost use Rattle.std.specs.Prelude.{◌≡◌};

use pq_rules::{Answer, Memory, Rules, Sums, SumsKey, SumsPart, SumsValue, Turn};
use std::alloc::Global;
use std::cell::Cell;

/// The sums, each start counted.
#[derive(Clone, Copy)]
pub struct Counted<'a> {
    /// How many rules were started.
    pub starts: &'a Cell<u32>,
}

impl<'a> Rules for Counted<'a> {
    ghost use Rattle.pq_rules.specs.sums.RuleSet.{sums, sums_code, sums_reach};
    ghost use Rattle.pq_rules.specs.aux.sums.Laws.{sums_lawful};
    ghost use Rattle.pq_rules.specs.aux.sums.Exact.{sums_inputs, key_exact, value_exact};

    type Key = SumsKey;

    type Value = SumsValue;

    type Part = SumsPart;

    ghost machine = { λ s. sums };

    ghost reach = { λ s files k. sums_reach files k };

    ghost codes = { sums_code };

    ghost lawful = { λ s files. sums_lawful _ files key_exact };

    ghost inputs = { λ s k. sums_inputs k };

    ghost exact_values = { value_exact };

    fn level(&self, key: &SumsKey) -> u8 {
        Sums.level(key)
    }

    fn code(&self, key: &SumsKey) -> u64 {
        Sums.code(key)
    }

    fn file<'b>(&self, key: &'b SumsKey) -> Option<&'b str> {
        Sums.file(key)
    }

    fn text(&self, alloc: Global, text: Option<&str>) -> Result<SumsValue, Memory> {
        Sums.text(alloc, text)
    }

    fn start(
        &self,
        alloc: Global,
        key: &SumsKey,
    ) -> Result<Turn<SumsKey, SumsPart, SumsValue>, Memory> {
        self.starts.set(self.starts.get().saturating_add(1));
        Sums.start(alloc, key)
    }

    fn advance(
        &self,
        alloc: Global,
        part: SumsPart,
        answer: &Answer<SumsKey, SumsValue>,
    ) -> Result<Turn<SumsKey, SumsPart, SumsValue>, SumsPart> {
        Sums.advance(alloc, part, answer)
    }

    fn left(&self, part: &SumsPart) -> (u32, u64) {
        Sums.left(part)
    }

    fn copy_key(&self, alloc: Global, key: &SumsKey) -> Result<SumsKey, Memory> {
        Sums.copy_key(alloc, key)
    }

    fn copy_value(&self, alloc: Global, value: &SumsValue) -> Result<SumsValue, Memory> {
        Sums.copy_value(alloc, value)
    }
}
