//! The query of a file's symbols.
ghost use Rattle.std.specs.Prelude.{◌≡◌, IfOk};
ghost use Rattle.pq_proto.specs.Compile.{symbols_of};
ghost use Rattle.pq_proto.specs.aux.Outputs.{output_level, parsed_read, symbols_advances, symbols_falls, symbols_starts};

use crate::Memory;
use crate::key::ProtoKey;
use crate::queries::answers::parsed_in;
use crate::symbols::symbols_text;
use crate::value::ProtoValue;
use pq_links::ParsedFile;
use pq_names::Text;
use pq_rules::{Answer, Query, Turn};
use std::alloc::Global;

/// The list of the symbols of a file as a text. It is `[]` for an absent file, and for one with a
/// syntax error.
#[derive(Drop)]
pub struct SymbolsQuery;

/// The symbols of the file that was read by `answer`.
fn after_file(alloc: Global, answer: &Answer<ProtoKey, ProtoValue>) -> Result<Text, Memory>
    ensures symbols { IfOk result (λ t. t ≡ symbols_of (parsed_read answer.now)) }
{
    match parsed_in(answer) {
        Some(file) => symbols_text(alloc, file.get()),
        None => symbols_text(alloc, &ParsedFile::Absent),
    }
}

impl Query for SymbolsQuery {
    type Key = Text;

    type Value = Text;

    type Part = ();

    type AnyKey = ProtoKey;

    type AnyAnswer = Answer<ProtoKey, ProtoValue>;

    const LEVEL: u8 = 10;

    ghost LEVEL = { output_level };

    ghost starts = { λ s f. symbols_starts f };

    ghost advances = { λ s p a. symbols_advances a };

    ghost lefts = { λ s p. (0, 0) };

    ghost falls = { λ s p a q r e. symbols_falls a q r e };

    fn start(&self, _alloc: Global, key: &Text) -> Result<Turn<ProtoKey, (), Text>, Memory> {
        Ok(Turn::Ask(ProtoKey::Parse(key.copy()?), ()))
    }

    fn advance(
        &self,
        alloc: Global,
        _part: (),
        answer: &Answer<ProtoKey, ProtoValue>,
    ) -> Result<Turn<ProtoKey, (), Text>, ()> {
        match after_file(alloc, answer) {
            Ok(text) => Ok(Turn::Done(text)),
            Err(_) => Err(()),
        }
    }

    fn left(&self, _part: &()) -> (u32, u64) {
        (0, 0)
    }
}
