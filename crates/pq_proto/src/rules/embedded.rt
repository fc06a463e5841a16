//! The queries of the rule set, as parts of it.
ghost use Rattle.pq_proto.specs.declared.rules.ProtoPart.TheVariants.{Parsing, Itemizing, Importing, LinkingFiles, Defining, Scoping, Resolving, Checking, Diagnosing, Describing, Listing, Locating};
ghost use Rattle.pq_proto.specs.declared.value.ProtoValue.TheVariants as values;

use crate::key::ProtoKey;
use crate::queries::{
    DefinitionPart, DefinitionQuery, DescriptorPart, DescriptorQuery, SymbolsQuery,
};
use crate::rules::{ProtoPart, ProtoRules};
use crate::value::{Location, ProtoValue};
use pq_checks::{
    CheckKeys, CheckPart, ChecksQuery, Diagnosed, DiagnosticsPart, DiagnosticsQuery, Fault,
};
use pq_links::{
    FileItems, Import, ImportsQuery, ItemsQuery, LinkKeys, LinkedQuery, Linking, Links, ParseQuery,
    ParsedFile,
};
use pq_names::Text;
use pq_rules::{Answer, EmbeddedIn, Shared};
use pq_schema::{
    Defs, DefsQuery, ResolvedPart, ResolvedQuery, ResolvedReferences, SchemaKeys, Scope, ScopePart,
    ScopeQuery,
};
use pq_syntax::Items;

impl<S: LinkKeys<Key = ProtoKey, Answer = Answer<ProtoKey, ProtoValue>>> EmbeddedIn<ProtoRules>
    for ParseQuery<S> {
    ghost as_part = { λ q. Parsing };

    ghost as_value = { λ v. values.Parse v };

    fn part(_part: ()) -> ProtoPart {
        ProtoPart::Parsing
    }

    fn value(value: Shared<ParsedFile>) -> ProtoValue {
        ProtoValue::Parse(value)
    }
}

impl<S: LinkKeys<Key = ProtoKey, Answer = Answer<ProtoKey, ProtoValue>>> EmbeddedIn<ProtoRules>
    for ItemsQuery<S> {
    ghost as_part = { λ q. Itemizing };

    ghost as_value = { λ v. values.Items v };

    fn part(_part: ()) -> ProtoPart {
        ProtoPart::Itemizing
    }

    fn value(value: Shared<FileItems>) -> ProtoValue {
        ProtoValue::Items(value)
    }
}

impl<S: LinkKeys<Key = ProtoKey, Answer = Answer<ProtoKey, ProtoValue>>> EmbeddedIn<ProtoRules>
    for ImportsQuery<S> {
    ghost as_part = { λ q. Importing };

    ghost as_value = { λ v. values.Imports v };

    fn part(_part: ()) -> ProtoPart {
        ProtoPart::Importing
    }

    fn value(value: Option<Shared<Items<Import>>>) -> ProtoValue {
        ProtoValue::Imports(value)
    }
}

impl<S: LinkKeys<Key = ProtoKey, Answer = Answer<ProtoKey, ProtoValue>>> EmbeddedIn<ProtoRules>
    for LinkedQuery<S> {
    ghost as_part = { λ q. LinkingFiles q };

    ghost as_value = { λ v. values.Linked v };

    fn part(part: Linking) -> ProtoPart {
        ProtoPart::LinkingFiles(part)
    }

    fn value(value: Shared<Links>) -> ProtoValue {
        ProtoValue::Linked(value)
    }
}

impl<S: SchemaKeys<Key = ProtoKey, Answer = Answer<ProtoKey, ProtoValue>>> EmbeddedIn<ProtoRules>
    for DefsQuery<S> {
    ghost as_part = { λ q. Defining };

    ghost as_value = { λ v. values.Defs v };

    fn part(_part: ()) -> ProtoPart {
        ProtoPart::Defining
    }

    fn value(value: Shared<Defs>) -> ProtoValue {
        ProtoValue::Defs(value)
    }
}

impl<S: SchemaKeys<Key = ProtoKey, Answer = Answer<ProtoKey, ProtoValue>>> EmbeddedIn<ProtoRules>
    for ScopeQuery<S> {
    ghost as_part = { λ q. Scoping q };

    ghost as_value = { λ v. values.Scope v };

    fn part(part: ScopePart) -> ProtoPart {
        ProtoPart::Scoping(part)
    }

    fn value(value: Shared<Scope>) -> ProtoValue {
        ProtoValue::Scope(value)
    }
}

impl<S: SchemaKeys<Key = ProtoKey, Answer = Answer<ProtoKey, ProtoValue>>> EmbeddedIn<ProtoRules>
    for ResolvedQuery<S> {
    ghost as_part = { λ q. Resolving q };

    ghost as_value = { λ v. values.Resolved v };

    fn part(part: ResolvedPart) -> ProtoPart {
        ProtoPart::Resolving(part)
    }

    fn value(value: Shared<ResolvedReferences>) -> ProtoValue {
        ProtoValue::Resolved(value)
    }
}

impl<S: CheckKeys<Key = ProtoKey, Answer = Answer<ProtoKey, ProtoValue>>> EmbeddedIn<ProtoRules>
    for ChecksQuery<S> {
    ghost as_part = { λ q. Checking q };

    ghost as_value = { λ v. values.Checks v };

    fn part(part: CheckPart) -> ProtoPart {
        ProtoPart::Checking(part)
    }

    fn value(value: Shared<Items<Fault>>) -> ProtoValue {
        ProtoValue::Checks(value)
    }
}

impl<S: CheckKeys<Key = ProtoKey, Answer = Answer<ProtoKey, ProtoValue>>> EmbeddedIn<ProtoRules>
    for DiagnosticsQuery<S> {
    ghost as_part = { λ q. Diagnosing q };

    ghost as_value = { λ v. values.Diagnostics v };

    fn part(part: DiagnosticsPart) -> ProtoPart {
        ProtoPart::Diagnosing(part)
    }

    fn value(value: Shared<Diagnosed>) -> ProtoValue {
        ProtoValue::Diagnostics(value)
    }
}

impl EmbeddedIn<ProtoRules> for DescriptorQuery {
    ghost as_part = { λ q. Describing q };

    ghost as_value = { λ v. values.Descriptor v };

    fn part(part: DescriptorPart) -> ProtoPart {
        ProtoPart::Describing(part)
    }

    fn value(value: Text) -> ProtoValue {
        ProtoValue::Descriptor(value)
    }
}

impl EmbeddedIn<ProtoRules> for SymbolsQuery {
    ghost as_part = { λ q. Listing };

    ghost as_value = { λ v. values.Symbols v };

    fn part(_part: ()) -> ProtoPart {
        ProtoPart::Listing
    }

    fn value(value: Text) -> ProtoValue {
        ProtoValue::Symbols(value)
    }
}

impl EmbeddedIn<ProtoRules> for DefinitionQuery {
    ghost as_part = { λ q. Locating q };

    ghost as_value = { λ v. values.Definition v };

    fn part(part: DefinitionPart) -> ProtoPart {
        ProtoPart::Locating(part)
    }

    fn value(value: Option<Location>) -> ProtoValue {
        ProtoValue::Definition(value)
    }
}
