//! Rule sets of one value.
//!
//! The rules of proto3 files have a switch. A hall takes them with the switch in a type.
ghost use Rattle.std.specs.Prelude.{◌≡◌, Bool, false, refl, true};

use pq_proto::{ProtoKey, ProtoPart, ProtoRules, ProtoValue};
use pq_rules::{Answer, Memory, Rules, Turn};
use std::alloc::Global;
use std::marker::PhantomData;

/// A rule set of one value: what was made by any value of it is of these rules. So a worker may bring
/// a result back without a proof that the store has the rules that it was made by.
pub trait OneValue {
    /// Any two values are equal.
    ghost one: { (a b : Self) → a ≡ b };
}

/// A setting of the switch of [`ProtoRules`], as a type.
pub trait Braces: Copy {
    /// Whether braces are read.
    ghost read: { Bool };

    /// Whether braces are read.
    fn read() -> bool
        // The setting that the type stands for.
        ensures read { result ≡ read };
}

/// Braces are not read: a text with an error has no definitions.
#[derive(Clone, Copy)]
pub struct Strict;

/// Braces are read: a text with an error has the imports and definitions that they show.
#[derive(Clone, Copy)]
pub struct Loose;

impl Braces for Strict {
    ghost read = { false };

    fn read() -> bool {
        false
    }
}

impl Braces for Loose {
    ghost read = { true };

    fn read() -> bool {
        true
    }
}

/// The rules of proto3 files with the setting `B` of their switch. Its machine is that of
/// [`ProtoRules`] with this setting, so the law `proto_values` says what its keys mean.
#[derive(Clone, Copy)]
pub struct HallRules<B: Braces> {
    of: PhantomData<B>,
}

impl<B: Braces> HallRules<B> {
    /// The rules.
    pub fn new() -> HallRules<B> {
        HallRules { of: PhantomData }
    }
}

/// The rules with the switch as a value.
fn rules<B: Braces>() -> ProtoRules
    ensures { result.loose ≡ B.read }
{
    ProtoRules { loose: B::read() }
}

impl<B: Braces> OneValue for HallRules<B> {
    ghost one = { λ a b. refl };
}

impl<B: Braces> Rules for HallRules<B> {
    ghost use Rattle.pq_proto.specs.aux.RuleSet.{proto_code, proto_rules, proto_reach};
    ghost use Rattle.pq_proto.specs.aux.KeyOrder.{key_exact};
    ghost use Rattle.pq_proto.specs.aux.ProtoLaws.{proto_lawful, proto_inputs};
    ghost use Rattle.pq_proto.specs.aux.Exact.{value_exact};

    type Key = ProtoKey;

    type Value = ProtoValue;

    type Part = ProtoPart;

    ghost machine = { λ s. proto_rules B.read };

    ghost reach = { λ s files k. proto_reach B.read files k };

    ghost codes = { proto_code };

    ghost lawful = { λ s files. proto_lawful _ B.read files key_exact };

    ghost inputs = { λ s k. proto_inputs k };

    ghost exact_values = { value_exact };

    fn level(&self, key: &ProtoKey) -> u8 {
        rules::<B>().level(key)
    }

    fn code(&self, key: &ProtoKey) -> u64 {
        rules::<B>().code(key)
    }

    fn file<'a>(&self, key: &'a ProtoKey) -> Option<&'a str> {
        rules::<B>().file(key)
    }

    fn text(&self, alloc: Global, text: Option<&str>) -> Result<ProtoValue, Memory> {
        rules::<B>().text(alloc, text)
    }

    fn start(
        &self,
        alloc: Global,
        key: &ProtoKey,
    ) -> Result<Turn<ProtoKey, ProtoPart, ProtoValue>, Memory> {
        rules::<B>().start(alloc, key)
    }

    fn advance(
        &self,
        alloc: Global,
        part: ProtoPart,
        answer: &Answer<ProtoKey, ProtoValue>,
    ) -> Result<Turn<ProtoKey, ProtoPart, ProtoValue>, ProtoPart> {
        rules::<B>().advance(alloc, part, answer)
    }

    fn left(&self, part: &ProtoPart) -> (u32, u64) {
        rules::<B>().left(part)
    }

    fn copy_key(&self, alloc: Global, key: &ProtoKey) -> Result<ProtoKey, Memory> {
        rules::<B>().copy_key(alloc, key)
    }

    fn copy_value(&self, alloc: Global, value: &ProtoValue) -> Result<ProtoValue, Memory> {
        rules::<B>().copy_value(alloc, value)
    }
}
