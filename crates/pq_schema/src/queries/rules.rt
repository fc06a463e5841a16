//! The rule set of a schema: the queries of links and of this crate, put together.
//!
//! `embedded` says how the parts and values of each query are parts and values of the rule set.
ghost use Rattle.std.specs.Prelude.{◌≡◌, Option, None, IfOk, option_copied, unwrap_or};
ghost use Rattle.pq_schema.specs.aux.RuleSet.{text_read, parsed_read, items_read, imports_read, links_read, defs_read, scope_read};

mod embedded;

use crate::define::definitions::Defs;
use crate::queries::defined::DefsQuery;
use crate::queries::keys::SchemaKeys;
use crate::queries::resolved::{ResolvedPart, ResolvedQuery};
use crate::queries::resolved_references::ResolvedReferences;
use crate::queries::scopes::{ScopePart, ScopeQuery};
use crate::scope::scope::Scope;
use pq_links::{
    FileItems, Import, ImportsQuery, ItemsQuery, LinkKeys, LinkedQuery, Linking, Links, ParseQuery,
    ParsedFile,
};
use pq_rules::{
    Answer, Memory, Query, Rules, Shared, Sum, Text, Turn, advance_of, start_of, text_code,
};
use pq_syntax::Items;
use std::alloc::Global;

/// A key of the rule set, of the file of a name.
#[derive(Drop, PartialEq, Eq, PartialOrd, Ord)]
pub enum SchemaKey {
    /// The text of the file.
    Input(Text),
    /// What the file is read as.
    Parse(Text),
    /// The same without spans.
    Items(Text),
    /// The imports of the file.
    Imports(Text),
    /// The links of the file.
    Linked(Text),
    /// The definitions of the file.
    Defs(Text),
    /// The scope of the file.
    Scope(Text),
    /// The resolved references of the file.
    Resolved(Text),
}

/// A value of a key.
#[derive(Drop, PartialEq, Eq)]
pub enum SchemaValue {
    /// The text of a file, `None` where it is absent.
    Source(Option<Text>),
    /// What a file is read as.
    Parse(Shared<ParsedFile>),
    /// The same without spans.
    Items(Shared<FileItems>),
    /// The imports of a file, `None` where it is absent.
    Imports(Option<Shared<Items<Import>>>),
    /// The links of a file.
    Linked(Shared<Links>),
    /// The definitions of a file.
    Defs(Shared<Defs>),
    /// The scope of a file.
    Scope(Shared<Scope>),
    /// The resolved references of a file.
    Resolved(Shared<ResolvedReferences>),
}

/// What a key's rule does with the next answer.
#[derive(Drop)]
pub enum SchemaPart {
    /// The part of the query of parses.
    Parsing,
    /// The part of the query of trees without spans.
    Itemizing,
    /// The part of the query of imports.
    Importing,
    /// A part of the query of links.
    LinkingFiles(Linking),
    /// The part of the query of definitions.
    Defining,
    /// A part of the query of scopes.
    Scoping(ScopePart),
    /// A part of the query of resolved references.
    Resolving(ResolvedPart),
}

/// The rule set of a schema (the law `schema_values`). It reads no braces.
#[derive(Clone, Copy)]
pub struct SchemaRules;

impl Sum for SchemaRules {
    type Key = SchemaKey;

    type Part = SchemaPart;

    type Value = SchemaValue;
}

impl LinkKeys for SchemaRules {
    ghost use Rattle.pq_schema.specs.declared.queries.rules.SchemaKey.TheVariants.{Input, Parse, Items as ItemsKey, Imports, Linked};

    type Key = SchemaKey;

    type Answer = Answer<SchemaKey, SchemaValue>;

    ghost input = { λ f. Input f };

    ghost parse = { λ f. Parse f };

    ghost items = { λ f. ItemsKey f };

    ghost imports = { λ f. Imports f };

    ghost linked = { λ f. Linked f };

    ghost text = { text_read };

    ghost parsed = { parsed_read };

    ghost itemed = { items_read };

    ghost imported = { imports_read };

    ghost links = { links_read };

    fn input_key(file: &Text) -> Result<SchemaKey, Memory> {
        Ok(SchemaKey::Input(file.copy()?))
    }

    fn parse_key(file: &Text) -> Result<SchemaKey, Memory> {
        Ok(SchemaKey::Parse(file.copy()?))
    }

    fn items_key(file: &Text) -> Result<SchemaKey, Memory> {
        Ok(SchemaKey::Items(file.copy()?))
    }

    fn imports_key(file: &Text) -> Result<SchemaKey, Memory> {
        Ok(SchemaKey::Imports(file.copy()?))
    }

    fn linked_key(file: &Text) -> Result<SchemaKey, Memory> {
        Ok(SchemaKey::Linked(file.copy()?))
    }

    fn read_text<'a>(answer: &'a Answer<SchemaKey, SchemaValue>) -> Option<&'a str> {
        match answer {
            Answer::Value(SchemaValue::Source(Some(text))) => Some(text.as_str()),
            _ => None,
        }
    }

    fn read_parsed<'a>(
        answer: &'a Answer<SchemaKey, SchemaValue>,
    ) -> Option<&'a Shared<ParsedFile>> {
        match answer {
            Answer::Value(SchemaValue::Parse(file)) => Some(file),
            _ => None,
        }
    }

    fn read_items<'a>(answer: &'a Answer<SchemaKey, SchemaValue>) -> Option<&'a Shared<FileItems>> {
        match answer {
            Answer::Value(SchemaValue::Items(items)) => Some(items),
            _ => None,
        }
    }

    fn read_imports<'a>(
        answer: &'a Answer<SchemaKey, SchemaValue>,
    ) -> Option<&'a Shared<Items<Import>>> {
        match answer {
            Answer::Value(SchemaValue::Imports(Some(imports))) => Some(imports),
            _ => None,
        }
    }

    fn read_links<'a>(answer: &'a Answer<SchemaKey, SchemaValue>) -> Option<&'a Shared<Links>> {
        match answer {
            Answer::Value(SchemaValue::Linked(links)) => Some(links),
            _ => None,
        }
    }
}

impl SchemaKeys for SchemaRules {
    ghost use Rattle.pq_schema.specs.declared.queries.rules.SchemaKey.TheVariants.{Defs as DefsKey, Scope as ScopeKey};

    ghost defs = { λ f. DefsKey f };

    ghost scope = { λ f. ScopeKey f };

    ghost defined = { defs_read };

    ghost scoped = { scope_read };

    fn defs_key(file: &Text) -> Result<SchemaKey, Memory> {
        Ok(SchemaKey::Defs(file.copy()?))
    }

    fn scope_key(file: &Text) -> Result<SchemaKey, Memory> {
        Ok(SchemaKey::Scope(file.copy()?))
    }

    fn read_defs<'a>(answer: &'a Answer<SchemaKey, SchemaValue>) -> Option<&'a Shared<Defs>> {
        match answer {
            Answer::Value(SchemaValue::Defs(defs)) => Some(defs),
            _ => None,
        }
    }

    fn read_scope<'a>(answer: &'a Answer<SchemaKey, SchemaValue>) -> Option<&'a Shared<Scope>> {
        match answer {
            Answer::Value(SchemaValue::Scope(scope)) => Some(scope),
            _ => None,
        }
    }
}

impl Rules for SchemaRules {
    ghost use Rattle.pq_schema.specs.aux.RuleSet.{schema_code, schema_rules, schema_reach};
    ghost use Rattle.pq_schema.specs.aux.SchemaLaws.{schema_lawful, schema_inputs};
    ghost use Rattle.pq_schema.specs.aux.Exact.{key_exact, value_exact};

    type Key = SchemaKey;

    type Value = SchemaValue;

    type Part = SchemaPart;

    ghost machine = { λ s. schema_rules };

    ghost reach = { λ s files k. schema_reach files k };

    ghost codes = { schema_code };

    ghost lawful = { λ s files. schema_lawful _ files key_exact };

    ghost inputs = { λ s k. schema_inputs k };

    ghost exact_values = { value_exact };

    fn level(&self, key: &SchemaKey) -> u8 {
        match key {
            SchemaKey::Input(_) => 0,
            SchemaKey::Parse(_) => ParseQuery::<SchemaRules>::LEVEL,
            SchemaKey::Items(_) => ItemsQuery::<SchemaRules>::LEVEL,
            SchemaKey::Imports(_) => ImportsQuery::<SchemaRules>::LEVEL,
            SchemaKey::Linked(_) => LinkedQuery::<SchemaRules>::LEVEL,
            SchemaKey::Defs(_) => DefsQuery::<SchemaRules>::LEVEL,
            SchemaKey::Scope(_) => ScopeQuery::<SchemaRules>::LEVEL,
            SchemaKey::Resolved(_) => ResolvedQuery::<SchemaRules>::LEVEL,
        }
    }

    fn code(&self, key: &SchemaKey) -> u64 {
        match key {
            SchemaKey::Input(file) => text_code(file),
            SchemaKey::Parse(file) => text_code(file),
            SchemaKey::Items(file) => text_code(file),
            SchemaKey::Imports(file) => text_code(file),
            SchemaKey::Linked(file) => text_code(file),
            SchemaKey::Defs(file) => text_code(file),
            SchemaKey::Scope(file) => text_code(file),
            SchemaKey::Resolved(file) => text_code(file),
        }
    }

    fn file<'a>(&self, key: &'a SchemaKey) -> Option<&'a str> {
        match key {
            SchemaKey::Input(name) => Some(name.as_str()),
            _ => None,
        }
    }

    fn text(&self, alloc: Global, text: Option<&str>) -> Result<SchemaValue, Memory> {
        match text {
            Some(text) => Ok(SchemaValue::Source(Some(Text::new(alloc, text)?))),
            None => Ok(SchemaValue::Source(None)),
        }
    }

    fn start(
        &self,
        alloc: Global,
        key: &SchemaKey,
    ) -> Result<Turn<SchemaKey, SchemaPart, SchemaValue>, Memory> {
        match key {
            SchemaKey::Input(_) => Ok(Turn::Done(SchemaValue::Source(None))),
            SchemaKey::Parse(file) => {
                start_of::<Self, _>(alloc, &ParseQuery::<Self>::new(false), file)
            }
            SchemaKey::Items(file) => {
                start_of::<Self, _>(alloc, &ItemsQuery::<Self>::new(), file)
            }
            SchemaKey::Imports(file) => {
                start_of::<Self, _>(alloc, &ImportsQuery::<Self>::new(), file)
            }
            SchemaKey::Linked(file) => {
                start_of::<Self, _>(alloc, &LinkedQuery::<Self>::new(), file)
            }
            SchemaKey::Defs(file) => { start_of::<Self, _>(alloc, &DefsQuery::<Self>::new(), file) }
            SchemaKey::Scope(file) => {
                start_of::<Self, _>(alloc, &ScopeQuery::<Self>::new(), file)
            }
            SchemaKey::Resolved(file) => {
                start_of::<Self, _>(alloc, &ResolvedQuery::<Self>::new(), file)
            }
        }
    }

    fn advance(
        &self,
        alloc: Global,
        part: SchemaPart,
        answer: &Answer<SchemaKey, SchemaValue>,
    ) -> Result<Turn<SchemaKey, SchemaPart, SchemaValue>, SchemaPart> {
        match part {
            SchemaPart::Parsing => {
                advance_of::<Self, _>(alloc, &ParseQuery::<Self>::new(false), (), answer)
            }
            SchemaPart::Itemizing => {
                advance_of::<Self, _>(alloc, &ItemsQuery::<Self>::new(), (), answer)
            }
            SchemaPart::Importing => {
                advance_of::<Self, _>(alloc, &ImportsQuery::<Self>::new(), (), answer)
            }
            SchemaPart::LinkingFiles(part) => {
                advance_of::<Self, _>(alloc, &LinkedQuery::<Self>::new(), part, answer)
            }
            SchemaPart::Defining => {
                advance_of::<Self, _>(alloc, &DefsQuery::<Self>::new(), (), answer)
            }
            SchemaPart::Scoping(part) => {
                advance_of::<Self, _>(alloc, &ScopeQuery::<Self>::new(), part, answer)
            }
            SchemaPart::Resolving(part) => {
                advance_of::<Self, _>(alloc, &ResolvedQuery::<Self>::new(), part, answer)
            }
        }
    }

    fn left(&self, part: &SchemaPart) -> (u32, u64) {
        match part {
            SchemaPart::Parsing => ParseQuery::<SchemaRules>::new(false).left(&()),
            SchemaPart::Itemizing => ItemsQuery::<SchemaRules>::new().left(&()),
            SchemaPart::Importing => ImportsQuery::<SchemaRules>::new().left(&()),
            SchemaPart::LinkingFiles(part) => LinkedQuery::<SchemaRules>::new().left(part),
            SchemaPart::Defining => DefsQuery::<SchemaRules>::new().left(&()),
            SchemaPart::Scoping(part) => ScopeQuery::<SchemaRules>::new().left(part),
            SchemaPart::Resolving(part) => ResolvedQuery::<SchemaRules>::new().left(part),
        }
    }

    fn copy_key(&self, _alloc: Global, key: &SchemaKey) -> Result<SchemaKey, Memory> {
        match key {
            SchemaKey::Input(name) => Ok(SchemaKey::Input(name.copy()?)),
            SchemaKey::Parse(name) => Ok(SchemaKey::Parse(name.copy()?)),
            SchemaKey::Items(name) => Ok(SchemaKey::Items(name.copy()?)),
            SchemaKey::Imports(name) => Ok(SchemaKey::Imports(name.copy()?)),
            SchemaKey::Linked(name) => Ok(SchemaKey::Linked(name.copy()?)),
            SchemaKey::Defs(name) => Ok(SchemaKey::Defs(name.copy()?)),
            SchemaKey::Scope(name) => Ok(SchemaKey::Scope(name.copy()?)),
            SchemaKey::Resolved(name) => Ok(SchemaKey::Resolved(name.copy()?)),
        }
    }

    fn copy_value(&self, _alloc: Global, value: &SchemaValue) -> Result<SchemaValue, Memory> {
        match value {
            SchemaValue::Source(Some(text)) => Ok(SchemaValue::Source(Some(text.copy()?))),
            SchemaValue::Source(None) => Ok(SchemaValue::Source(None)),
            SchemaValue::Parse(file) => Ok(SchemaValue::Parse(file.copy()?)),
            SchemaValue::Items(items) => Ok(SchemaValue::Items(items.copy()?)),
            SchemaValue::Imports(Some(imports)) => Ok(SchemaValue::Imports(Some(imports.copy()?))),
            SchemaValue::Imports(None) => Ok(SchemaValue::Imports(None)),
            SchemaValue::Linked(links) => Ok(SchemaValue::Linked(links.copy()?)),
            SchemaValue::Defs(defs) => Ok(SchemaValue::Defs(defs.copy()?)),
            SchemaValue::Scope(scope) => Ok(SchemaValue::Scope(scope.copy()?)),
            SchemaValue::Resolved(resolved) => Ok(SchemaValue::Resolved(resolved.copy()?)),
        }
    }
}
