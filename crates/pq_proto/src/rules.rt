//! The rule set of proto3 files: the queries of links, of schemas, of checks and of this crate, put
//! together.
//!
//! `embedded` says how the parts and values of each query are parts and values of the rule set, and
//! `reads` how the queries below make their keys and read their answers. `compilation` compiles one
//! key from scratch, and `laws` has what the rule set means.
ghost use Rattle.std.specs.Prelude.{◌≡◌, IfOk, IfErr, option_copied};

pub(crate) mod compilation;
mod embedded;
pub(crate) mod laws;
mod reads;

use crate::Memory;
use crate::key::ProtoKey;
use crate::queries::{
    DefinitionPart, DefinitionQuery, DescriptorPart, DescriptorQuery, SymbolsQuery,
};
use crate::value::{Location, ProtoValue};
use pq_checks::{CheckPart, ChecksQuery, DiagnosticsPart, DiagnosticsQuery};
use pq_links::{ImportsQuery, ItemsQuery, LinkedQuery, Linking, ParseQuery};
use pq_rules::{Answer, Query, Rules, Sum, Text, Turn, advance_of, code_with, start_of, text_code};
use pq_schema::{DefsQuery, ResolvedPart, ResolvedQuery, ScopePart, ScopeQuery};
use std::alloc::Global;

/// What a key's rule does with the next answer: a part of one of the queries.
#[derive(Drop)]
pub enum ProtoPart {
    /// The part of the query of parses.
    Parsing,
    /// The part of the query of trees without spans.
    Itemizing,
    /// The part of the query of imports.
    Importing,
    /// A part of the query of links.
    LinkingFiles(Linking),
    /// The part of the query of definitions.
    Defining,
    /// A part of the query of scopes.
    Scoping(ScopePart),
    /// A part of the query of resolved references.
    Resolving(ResolvedPart),
    /// A part of the query of checks.
    Checking(CheckPart),
    /// A part of the query of diagnostics.
    Diagnosing(DiagnosticsPart),
    /// A part of the query of descriptors.
    Describing(DescriptorPart),
    /// The part of the query of symbols.
    Listing,
    /// A part of the query of definitions of what is at a place.
    Locating(DefinitionPart),
}

/// The rule set of proto3 files (the law `proto_values`).
#[derive(Clone, Copy)]
pub struct ProtoRules {
    /// Whether braces are read: then a text with an error has the imports and the definitions that
    /// its braces show, and else none.
    pub loose: bool,
}

impl Sum for ProtoRules {
    type Key = ProtoKey;

    type Part = ProtoPart;

    type Value = ProtoValue;
}

/// Copies `location`.
fn copy_location(location: &Location) -> Result<Location, Memory>
    ensures copy { IfOk result (λ l. l ≡ location.now) }
{
    Ok(Location {
        file: location.file.copy()?,
        start: location.start,
        end: location.end,
    })
}

impl Rules for ProtoRules {
    ghost use Rattle.pq_proto.specs.aux.RuleSet.{proto_code, proto_rules, proto_reach};
    ghost use Rattle.pq_proto.specs.aux.KeyOrder.{key_exact};
    ghost use Rattle.pq_proto.specs.aux.ProtoLaws.{proto_lawful, proto_inputs};
    ghost use Rattle.pq_proto.specs.aux.Exact.{value_exact};

    type Key = ProtoKey;

    type Value = ProtoValue;

    type Part = ProtoPart;

    ghost machine = { λ s. proto_rules s.loose };

    ghost reach = { λ s files k. proto_reach s.loose files k };

    ghost codes = { proto_code };

    ghost lawful = { λ s files. proto_lawful _ s.loose files key_exact };

    ghost inputs = { λ s k. proto_inputs k };

    ghost exact_values = { value_exact };

    fn level(&self, key: &ProtoKey) -> u8 {
        match key {
            ProtoKey::Input(_) => 0,
            ProtoKey::Parse(_) => ParseQuery::<ProtoRules>::LEVEL,
            ProtoKey::Items(_) => ItemsQuery::<ProtoRules>::LEVEL,
            ProtoKey::Imports(_) => ImportsQuery::<ProtoRules>::LEVEL,
            ProtoKey::Linked(_) => LinkedQuery::<ProtoRules>::LEVEL,
            ProtoKey::Defs(_) => DefsQuery::<ProtoRules>::LEVEL,
            ProtoKey::Scope(_) => ScopeQuery::<ProtoRules>::LEVEL,
            ProtoKey::Resolved(_) => ResolvedQuery::<ProtoRules>::LEVEL,
            ProtoKey::Checks(_) => ChecksQuery::<ProtoRules>::LEVEL,
            ProtoKey::Diagnostics(_) => DiagnosticsQuery::<ProtoRules>::LEVEL,
            ProtoKey::Descriptor(_) => DescriptorQuery::LEVEL,
            ProtoKey::Symbols(_) => SymbolsQuery::LEVEL,
            ProtoKey::Definition(_, _) => DefinitionQuery::LEVEL,
        }
    }

    fn code(&self, key: &ProtoKey) -> u64 {
        match key {
            ProtoKey::Input(file) => code_with(text_code(file), 0),
            ProtoKey::Parse(file) => code_with(text_code(file), 1),
            ProtoKey::Items(file) => code_with(text_code(file), 2),
            ProtoKey::Imports(file) => code_with(text_code(file), 3),
            ProtoKey::Linked(file) => code_with(text_code(file), 4),
            ProtoKey::Defs(file) => code_with(text_code(file), 5),
            ProtoKey::Scope(file) => code_with(text_code(file), 6),
            ProtoKey::Resolved(file) => code_with(text_code(file), 7),
            ProtoKey::Checks(file) => code_with(text_code(file), 8),
            ProtoKey::Diagnostics(file) => code_with(text_code(file), 9),
            ProtoKey::Descriptor(file) => code_with(text_code(file), 10),
            ProtoKey::Symbols(file) => code_with(text_code(file), 11),
            ProtoKey::Definition(file, place) => {
                let line = code_with(text_code(file), place.line as u64);
                code_with(line, place.character as u64)
            }
        }
    }

    fn file<'a>(&self, key: &'a ProtoKey) -> Option<&'a str> {
        match key {
            ProtoKey::Input(file) => Some(file.as_str()),
            _ => None,
        }
    }

    fn text(&self, alloc: Global, text: Option<&str>) -> Result<ProtoValue, Memory> {
        match text {
            Some(text) => Ok(ProtoValue::Source(Some(Text::new(alloc, text)?))),
            None => Ok(ProtoValue::Source(None)),
        }
    }

    fn start(
        &self,
        alloc: Global,
        key: &ProtoKey,
    ) -> Result<Turn<ProtoKey, ProtoPart, ProtoValue>, Memory> {
        match key {
            ProtoKey::Input(_) => Ok(Turn::Done(ProtoValue::Source(None))),
            ProtoKey::Parse(file) => start_of::<Self, _>(
                alloc,
                &ParseQuery::<Self>::new(self.loose),
                file,
            ),
            ProtoKey::Items(file) => start_of::<Self, _>(alloc, &ItemsQuery::<Self>::new(), file),
            ProtoKey::Imports(file) => start_of::<Self, _>(
                alloc,
                &ImportsQuery::<Self>::new(),
                file,
            ),
            ProtoKey::Linked(file) => start_of::<Self, _>(alloc, &LinkedQuery::<Self>::new(), file),
            ProtoKey::Defs(file) => start_of::<Self, _>(alloc, &DefsQuery::<Self>::new(), file),
            ProtoKey::Scope(file) => start_of::<Self, _>(alloc, &ScopeQuery::<Self>::new(), file),
            ProtoKey::Resolved(file) => start_of::<Self, _>(
                alloc,
                &ResolvedQuery::<Self>::new(),
                file,
            ),
            ProtoKey::Checks(file) => start_of::<Self, _>(alloc, &ChecksQuery::<Self>::new(), file),
            ProtoKey::Diagnostics(file) => {
                start_of::<Self, _>(alloc, &DiagnosticsQuery::<Self>::new(), file)
            }
            ProtoKey::Descriptor(file) => start_of::<Self, _>(alloc, &DescriptorQuery, file),
            ProtoKey::Symbols(file) => start_of::<Self, _>(alloc, &SymbolsQuery, file),
            ProtoKey::Definition(file, place) => {
                start_of::<Self, _>(alloc, &DefinitionQuery, &(file.copy()?, *place))
            }
        }
    }

    fn advance(
        &self,
        alloc: Global,
        part: ProtoPart,
        answer: &Answer<ProtoKey, ProtoValue>,
    ) -> Result<Turn<ProtoKey, ProtoPart, ProtoValue>, ProtoPart> {
        match part {
            ProtoPart::Parsing => {
                advance_of::<Self, _>(alloc, &ParseQuery::<Self>::new(self.loose), (), answer)
            }
            ProtoPart::Itemizing => {
                advance_of::<Self, _>(alloc, &ItemsQuery::<Self>::new(), (), answer)
            }
            ProtoPart::Importing => {
                advance_of::<Self, _>(alloc, &ImportsQuery::<Self>::new(), (), answer)
            }
            ProtoPart::LinkingFiles(part) => {
                advance_of::<Self, _>(alloc, &LinkedQuery::<Self>::new(), part, answer)
            }
            ProtoPart::Defining => {
                advance_of::<Self, _>(alloc, &DefsQuery::<Self>::new(), (), answer)
            }
            ProtoPart::Scoping(part) => {
                advance_of::<Self, _>(alloc, &ScopeQuery::<Self>::new(), part, answer)
            }
            ProtoPart::Resolving(part) => {
                advance_of::<Self, _>(alloc, &ResolvedQuery::<Self>::new(), part, answer)
            }
            ProtoPart::Checking(part) => {
                advance_of::<Self, _>(alloc, &ChecksQuery::<Self>::new(), part, answer)
            }
            ProtoPart::Diagnosing(part) => {
                advance_of::<Self, _>(alloc, &DiagnosticsQuery::<Self>::new(), part, answer)
            }
            ProtoPart::Describing(part) => advance_of::<Self, _>(
                alloc,
                &DescriptorQuery,
                part,
                answer,
            ),
            ProtoPart::Listing => advance_of::<Self, _>(alloc, &SymbolsQuery, (), answer),
            ProtoPart::Locating(part) => advance_of::<Self, _>(
                alloc,
                &DefinitionQuery,
                part,
                answer,
            ),
        }
    }

    fn left(&self, part: &ProtoPart) -> (u32, u64) {
        match part {
            ProtoPart::LinkingFiles(part) => LinkedQuery::<ProtoRules>::new().left(part),
            ProtoPart::Scoping(part) => ScopeQuery::<ProtoRules>::new().left(part),
            ProtoPart::Resolving(part) => ResolvedQuery::<ProtoRules>::new().left(part),
            ProtoPart::Checking(part) => ChecksQuery::<ProtoRules>::new().left(part),
            ProtoPart::Diagnosing(part) => DiagnosticsQuery::<ProtoRules>::new().left(part),
            ProtoPart::Describing(part) => DescriptorQuery.left(part),
            ProtoPart::Locating(part) => DefinitionQuery.left(part),
            _ => (0, 0),
        }
    }

    fn copy_key(&self, _alloc: Global, key: &ProtoKey) -> Result<ProtoKey, Memory> {
        match key {
            ProtoKey::Input(file) => Ok(ProtoKey::Input(file.copy()?)),
            ProtoKey::Parse(file) => Ok(ProtoKey::Parse(file.copy()?)),
            ProtoKey::Items(file) => Ok(ProtoKey::Items(file.copy()?)),
            ProtoKey::Imports(file) => Ok(ProtoKey::Imports(file.copy()?)),
            ProtoKey::Linked(file) => Ok(ProtoKey::Linked(file.copy()?)),
            ProtoKey::Defs(file) => Ok(ProtoKey::Defs(file.copy()?)),
            ProtoKey::Scope(file) => Ok(ProtoKey::Scope(file.copy()?)),
            ProtoKey::Resolved(file) => Ok(ProtoKey::Resolved(file.copy()?)),
            ProtoKey::Checks(file) => Ok(ProtoKey::Checks(file.copy()?)),
            ProtoKey::Diagnostics(file) => Ok(ProtoKey::Diagnostics(file.copy()?)),
            ProtoKey::Descriptor(file) => Ok(ProtoKey::Descriptor(file.copy()?)),
            ProtoKey::Symbols(file) => Ok(ProtoKey::Symbols(file.copy()?)),
            ProtoKey::Definition(file, place) => Ok(ProtoKey::Definition(file.copy()?, *place)),
        }
    }

    fn copy_value(&self, _alloc: Global, value: &ProtoValue) -> Result<ProtoValue, Memory> {
        match value {
            ProtoValue::Source(Some(text)) => Ok(ProtoValue::Source(Some(text.copy()?))),
            ProtoValue::Source(None) => Ok(ProtoValue::Source(None)),
            ProtoValue::Parse(file) => Ok(ProtoValue::Parse(file.copy()?)),
            ProtoValue::Items(items) => Ok(ProtoValue::Items(items.copy()?)),
            ProtoValue::Imports(Some(imports)) => Ok(ProtoValue::Imports(Some(imports.copy()?))),
            ProtoValue::Imports(None) => Ok(ProtoValue::Imports(None)),
            ProtoValue::Linked(links) => Ok(ProtoValue::Linked(links.copy()?)),
            ProtoValue::Defs(defs) => Ok(ProtoValue::Defs(defs.copy()?)),
            ProtoValue::Scope(scope) => Ok(ProtoValue::Scope(scope.copy()?)),
            ProtoValue::Resolved(resolved) => Ok(ProtoValue::Resolved(resolved.copy()?)),
            ProtoValue::Checks(checked) => Ok(ProtoValue::Checks(checked.copy()?)),
            ProtoValue::Diagnostics(checked) => Ok(ProtoValue::Diagnostics(checked.copy()?)),
            ProtoValue::Descriptor(text) => Ok(ProtoValue::Descriptor(text.copy()?)),
            ProtoValue::Symbols(text) => Ok(ProtoValue::Symbols(text.copy()?)),
            ProtoValue::Definition(Some(location)) => {
                Ok(ProtoValue::Definition(Some(copy_location(location)?)))
            }
            ProtoValue::Definition(None) => Ok(ProtoValue::Definition(None)),
        }
    }
}
