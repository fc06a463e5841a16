//! The rule set as the queries of links, of schemas and of checks see it: it makes the keys that
//! they ask and reads the answers that they get.
ghost use Rattle.std.specs.Prelude.{◌≡◌, IfOk, ◌++◌, map};
ghost use Rattle.pq_proto.specs.aux.RuleSet.{own_name};

use crate::Memory;
use crate::key::ProtoKey;
use crate::queries::{checked_in, items_in, parsed_in, resolved_in};
use crate::rules::ProtoRules;
use crate::value::ProtoValue;
use pq_checks::{CheckKeys, Fault};
use pq_links::{FileItems, Import, LinkKeys, Links, ParsedFile};
use pq_names::Text;
use pq_rules::{Answer, Shared};
use pq_schema::{Defs, ResolvedReferences, SchemaKeys, Scope};
use pq_syntax::Items;
use std::alloc::Global;

/// The file of `key`.
fn file_of(key: &ProtoKey) -> &Text
    ensures file { result.now ≡ own_name key.now }
{
    match key {
        ProtoKey::Input(file) => file,
        ProtoKey::Parse(file) => file,
        ProtoKey::Items(file) => file,
        ProtoKey::Imports(file) => file,
        ProtoKey::Linked(file) => file,
        ProtoKey::Defs(file) => file,
        ProtoKey::Scope(file) => file,
        ProtoKey::Resolved(file) => file,
        ProtoKey::Checks(file) => file,
        ProtoKey::Diagnostics(file) => file,
        ProtoKey::Descriptor(file) => file,
        ProtoKey::Symbols(file) => file,
        ProtoKey::Definition(file, _) => file,
    }
}

/// The files of the keys `keys`, in order.
fn files_of(alloc: Global, keys: &[ProtoKey]) -> Result<Vec<Text>, Memory>
    ensures files { IfOk result (λ fs. fs.items ≡ map own_name keys.now) }
{
    let mut files = Vec::with_capacity(alloc, keys.len())?;
    'keys: for key in keys {
        files.push(file_of(key).copy()?)?;
    }
    Ok(files)
}

impl LinkKeys for ProtoRules {
    ghost use Rattle.pq_proto.specs.declared.key.ProtoKey.TheVariants as keys;
    ghost use Rattle.pq_proto.specs.aux.Outputs.{items_read, parsed_read};
    ghost use Rattle.pq_proto.specs.aux.RuleSet.{text_read, imports_read, links_read};

    type Key = ProtoKey;

    type Answer = Answer<ProtoKey, ProtoValue>;

    ghost input = { λ f. keys.Input f };

    ghost parse = { λ f. keys.Parse f };

    ghost items = { λ f. keys.Items f };

    ghost imports = { λ f. keys.Imports f };

    ghost linked = { λ f. keys.Linked f };

    ghost text = { text_read };

    ghost parsed = { parsed_read };

    ghost itemed = { items_read };

    ghost imported = { imports_read };

    ghost links = { links_read };

    fn input_key(file: &Text) -> Result<ProtoKey, Memory> {
        Ok(ProtoKey::Input(file.copy()?))
    }

    fn parse_key(file: &Text) -> Result<ProtoKey, Memory> {
        Ok(ProtoKey::Parse(file.copy()?))
    }

    fn items_key(file: &Text) -> Result<ProtoKey, Memory> {
        Ok(ProtoKey::Items(file.copy()?))
    }

    fn imports_key(file: &Text) -> Result<ProtoKey, Memory> {
        Ok(ProtoKey::Imports(file.copy()?))
    }

    fn linked_key(file: &Text) -> Result<ProtoKey, Memory> {
        Ok(ProtoKey::Linked(file.copy()?))
    }

    fn read_text<'a>(answer: &'a Answer<ProtoKey, ProtoValue>) -> Option<&'a str> {
        match answer {
            Answer::Value(ProtoValue::Source(Some(text))) => Some(text.as_str()),
            _ => None,
        }
    }

    fn read_parsed<'a>(answer: &'a Answer<ProtoKey, ProtoValue>) -> Option<&'a Shared<ParsedFile>> {
        parsed_in(answer)
    }

    fn read_items<'a>(answer: &'a Answer<ProtoKey, ProtoValue>) -> Option<&'a Shared<FileItems>> {
        items_in(answer)
    }

    fn read_imports<'a>(
        answer: &'a Answer<ProtoKey, ProtoValue>,
    ) -> Option<&'a Shared<Items<Import>>> {
        match answer {
            Answer::Value(ProtoValue::Imports(Some(imports))) => Some(imports),
            _ => None,
        }
    }

    fn read_links<'a>(answer: &'a Answer<ProtoKey, ProtoValue>) -> Option<&'a Shared<Links>> {
        match answer {
            Answer::Value(ProtoValue::Linked(links)) => Some(links),
            _ => None,
        }
    }
}

impl SchemaKeys for ProtoRules {
    ghost use Rattle.pq_proto.specs.declared.key.ProtoKey.TheVariants as keys;
    ghost use Rattle.pq_proto.specs.aux.RuleSet.{defs_read, scope_read};

    ghost defs = { λ f. keys.Defs f };

    ghost scope = { λ f. keys.Scope f };

    ghost defined = { defs_read };

    ghost scoped = { scope_read };

    fn defs_key(file: &Text) -> Result<ProtoKey, Memory> {
        Ok(ProtoKey::Defs(file.copy()?))
    }

    fn scope_key(file: &Text) -> Result<ProtoKey, Memory> {
        Ok(ProtoKey::Scope(file.copy()?))
    }

    fn read_defs<'a>(answer: &'a Answer<ProtoKey, ProtoValue>) -> Option<&'a Shared<Defs>> {
        match answer {
            Answer::Value(ProtoValue::Defs(defs)) => Some(defs),
            _ => None,
        }
    }

    fn read_scope<'a>(answer: &'a Answer<ProtoKey, ProtoValue>) -> Option<&'a Shared<Scope>> {
        match answer {
            Answer::Value(ProtoValue::Scope(scope)) => Some(scope),
            _ => None,
        }
    }
}

impl CheckKeys for ProtoRules {
    ghost use Rattle.pq_proto.specs.declared.key.ProtoKey.TheVariants as keys;
    ghost use Rattle.pq_proto.specs.aux.Outputs.{faults_read, resolved_read};
    ghost use Rattle.pq_proto.specs.aux.RuleSet.{ring_read};

    ghost resolved = { λ f. keys.Resolved f };

    ghost checks = { λ f. keys.Checks f };

    ghost referred = { resolved_read };

    ghost ring = { ring_read };

    ghost checked = { faults_read };

    fn resolved_key(file: &Text) -> Result<ProtoKey, Memory> {
        Ok(ProtoKey::Resolved(file.copy()?))
    }

    fn checks_key(file: &Text) -> Result<ProtoKey, Memory> {
        Ok(ProtoKey::Checks(file.copy()?))
    }

    fn read_resolved<'a>(
        answer: &'a Answer<ProtoKey, ProtoValue>,
    ) -> Option<&'a Shared<ResolvedReferences>> {
        resolved_in(answer)
    }

    fn read_ring(
        alloc: Global,
        answer: &Answer<ProtoKey, ProtoValue>,
    ) -> Result<Option<Shared<Items<Text>>>, Memory> {
        match answer {
            Answer::Value(_) => Ok(None),
            Answer::Cycle(ring) => {
                let files = files_of(alloc, ring.keys())?;
                Ok(Some(Shared::new(alloc, Items::new(files))?))
            }
        }
    }

    fn is_cycle(answer: &Answer<ProtoKey, ProtoValue>) -> bool {
        matches!(answer, Answer::Cycle(_))
    }

    fn read_checked<'a>(
        answer: &'a Answer<ProtoKey, ProtoValue>,
    ) -> Option<&'a Shared<Items<Fault>>> {
        checked_in(answer)
    }
}
