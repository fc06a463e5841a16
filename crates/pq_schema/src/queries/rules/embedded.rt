//! The queries of the rule set, as parts of it.
ghost use Rattle.pq_schema.specs.declared.queries.rules.SchemaPart.TheVariants.{Parsing, Itemizing, Importing, LinkingFiles, Defining, Scoping, Resolving};
ghost use Rattle.pq_schema.specs.declared.queries.rules.SchemaValue.TheVariants as values;

use crate::define::definitions::Defs;
use crate::queries::defined::DefsQuery;
use crate::queries::keys::SchemaKeys;
use crate::queries::resolved::{ResolvedPart, ResolvedQuery};
use crate::queries::resolved_references::ResolvedReferences;
use crate::queries::rules::{SchemaKey, SchemaPart, SchemaRules, SchemaValue};
use crate::queries::scopes::{ScopePart, ScopeQuery};
use crate::scope::scope::Scope;
use pq_links::{
    FileItems, Import, ImportsQuery, ItemsQuery, LinkKeys, LinkedQuery, Linking, Links, ParseQuery,
    ParsedFile,
};
use pq_rules::{Answer, EmbeddedIn, Shared};
use pq_syntax::Items;

impl<S: LinkKeys<Key = SchemaKey, Answer = Answer<SchemaKey, SchemaValue>>> EmbeddedIn<SchemaRules>
    for ParseQuery<S> {
    ghost as_part = { λ q. Parsing };

    ghost as_value = { λ v. values.Parse v };

    fn part(_part: ()) -> SchemaPart {
        SchemaPart::Parsing
    }

    fn value(value: Shared<ParsedFile>) -> SchemaValue {
        SchemaValue::Parse(value)
    }
}

impl<S: LinkKeys<Key = SchemaKey, Answer = Answer<SchemaKey, SchemaValue>>> EmbeddedIn<SchemaRules>
    for ItemsQuery<S> {
    ghost as_part = { λ q. Itemizing };

    ghost as_value = { λ v. values.Items v };

    fn part(_part: ()) -> SchemaPart {
        SchemaPart::Itemizing
    }

    fn value(value: Shared<FileItems>) -> SchemaValue {
        SchemaValue::Items(value)
    }
}

impl<S: LinkKeys<Key = SchemaKey, Answer = Answer<SchemaKey, SchemaValue>>> EmbeddedIn<SchemaRules>
    for ImportsQuery<S> {
    ghost as_part = { λ q. Importing };

    ghost as_value = { λ v. values.Imports v };

    fn part(_part: ()) -> SchemaPart {
        SchemaPart::Importing
    }

    fn value(value: Option<Shared<Items<Import>>>) -> SchemaValue {
        SchemaValue::Imports(value)
    }
}

impl<S: LinkKeys<Key = SchemaKey, Answer = Answer<SchemaKey, SchemaValue>>> EmbeddedIn<SchemaRules>
    for LinkedQuery<S> {
    ghost as_part = { λ q. LinkingFiles q };

    ghost as_value = { λ v. values.Linked v };

    fn part(part: Linking) -> SchemaPart {
        SchemaPart::LinkingFiles(part)
    }

    fn value(value: Shared<Links>) -> SchemaValue {
        SchemaValue::Linked(value)
    }
}

impl<S: SchemaKeys<Key = SchemaKey, Answer = Answer<SchemaKey, SchemaValue>>> EmbeddedIn<
    SchemaRules,
> for DefsQuery<S> {
    ghost as_part = { λ q. Defining };

    ghost as_value = { λ v. values.Defs v };

    fn part(_part: ()) -> SchemaPart {
        SchemaPart::Defining
    }

    fn value(value: Shared<Defs>) -> SchemaValue {
        SchemaValue::Defs(value)
    }
}

impl<S: SchemaKeys<Key = SchemaKey, Answer = Answer<SchemaKey, SchemaValue>>> EmbeddedIn<
    SchemaRules,
> for ScopeQuery<S> {
    ghost as_part = { λ q. Scoping q };

    ghost as_value = { λ v. values.Scope v };

    fn part(part: ScopePart) -> SchemaPart {
        SchemaPart::Scoping(part)
    }

    fn value(value: Shared<Scope>) -> SchemaValue {
        SchemaValue::Scope(value)
    }
}

impl<S: SchemaKeys<Key = SchemaKey, Answer = Answer<SchemaKey, SchemaValue>>> EmbeddedIn<
    SchemaRules,
> for ResolvedQuery<S> {
    ghost as_part = { λ q. Resolving q };

    ghost as_value = { λ v. values.Resolved v };

    fn part(part: ResolvedPart) -> SchemaPart {
        SchemaPart::Resolving(part)
    }

    fn value(value: Shared<ResolvedReferences>) -> SchemaValue {
        SchemaValue::Resolved(value)
    }
}
