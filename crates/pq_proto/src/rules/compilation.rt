//! What the files of the inputs compile to.
ghost use Rattle.std.specs.Prelude.{IfOk, false};
ghost use Rattle.pq_proto.specs.Compile.{Compiles};

use crate::Memory;
use crate::key::ProtoKey;
use crate::rules::ProtoRules;
use crate::value::ProtoValue;
use pq_inputs::Inputs;
use pq_rules::{Answer, from_scratch};
use std::alloc::Global;

/// Compiles `key` at the sources of `inputs`, with nothing kept from before. The links of a file
/// that leads into a cycle of imports are that cycle. Braces are not read: a text with an error has
/// no definitions. Only `Memory` is an error, after an allocation
/// failure; then nothing is kept.
pub fn compile(
    alloc: Global,
    inputs: &Inputs,
    key: &ProtoKey,
) -> Result<Answer<ProtoKey, ProtoValue>, Memory>
    // The answer is what the key compiles to at the sources now.
    ensures compiled { IfOk result (λ a. Compiles false inputs.now.files key.now a) }
{
    from_scratch(alloc, &ProtoRules { loose: false }, inputs, key)
}
