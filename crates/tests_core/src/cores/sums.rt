//! The keys of sums as lines write them.
use super::lines::Sample;
use crate::checks::split_row;
use pq_inputs::Inputs;
use pq_rules::{Answer, Memory, Sums, SumsKey, SumsValue, Text, from_scratch};
use std::alloc::Global;
use std::process::Abort;
use test_support::{Page, add_answer, add_key, sums_key};

impl Sample for SumsKey {
    type Value = SumsValue;

    fn written(rt: &(impl Abort + AllocGlobal), text: &str) -> SumsKey {
        let (query, name) = split_row(rt, text, " ");
        sums_key(query, Text::new(rt.alloc(), name).expect(rt, "memory"))
    }

    fn show(&self, page: &mut Page) {
        add_key(page, self);
    }

    fn show_answer(page: &mut Page, answer: &Answer<SumsKey, SumsValue>) {
        add_answer(page, answer);
    }

    fn scratch(
        &self,
        alloc: Global,
        inputs: &Inputs,
    ) -> Result<Answer<SumsKey, SumsValue>, Memory> {
        from_scratch(alloc, &Sums, inputs, self)
    }
}
