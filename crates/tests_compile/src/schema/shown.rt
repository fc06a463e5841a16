//! Answers as text.
use pq_links::{FileItems, Import, Links, ParsedFile, TypePart};
use pq_rules::{Answer, Ring, Shared, Text};
use pq_schema::{
    Definition, DefinitionKind, Defs, FileDefs, FullName, Resolution, ResolveFault,
    ResolvedReference, SchemaKey, SchemaValue, Scope, Target,
};
use pq_syntax::Parsed;
use test_support::Page;

/// The name of a file on a ring of imports.
fn linked_name(key: &SchemaKey) -> &str {
    match key {
        SchemaKey::Linked(name) => name.as_str(),
        _ => "of another query",
    }
}

/// Writes the keys of a cycle, each with a semicolon after it.
fn add_ring(page: &mut Page, ring: &Ring<SchemaKey>) {
    for key in ring.keys() {
        page.add("Linked ");
        page.add(linked_name(key));
        page.add(";");
    }
}

/// Writes names, each with a blank after it.
fn add_names(page: &mut Page, names: &[Shared<Text>]) {
    for name in names {
        page.add(name.get().as_str());
        page.add(" ");
    }
}

/// Writes the names of files, each with a blank after it.
fn add_files(page: &mut Page, files: &[FileDefs]) {
    for file in files {
        page.add(file.file.get().as_str());
        page.add(" ");
    }
}

/// Writes imports as `NAME plain;` or `NAME public;`.
fn add_imports(page: &mut Page, imports: &[Import]) {
    for import in imports {
        page.add(import.file.as_str());
        page.add(if import.is_public {
            " public;"
        } else {
            " plain;"
        });
    }
}

/// The word of a kind of definitions, between blanks.
fn definition_word(kind: DefinitionKind) -> &'static str {
    match kind {
        DefinitionKind::Message => " message ",
        DefinitionKind::Enum => " enum ",
        DefinitionKind::Service => " service ",
        DefinitionKind::Field => " field ",
        DefinitionKind::Oneof => " oneof ",
        DefinitionKind::Method => " method ",
        DefinitionKind::Value => " value ",
        DefinitionKind::Entry => " entry ",
    }
}

/// Writes a full name.
fn add_full_name(page: &mut Page, full_name: &FullName) {
    match full_name.text(page.alloc) {
        Ok(text) => page.add(text.as_str()),
        Err(_) => page.cut(),
    }
}

/// Writes a definition as ` NAME KIND ITEM;`.
fn add_definition(page: &mut Page, definition: &Definition) {
    page.add(" ");
    add_full_name(page, &definition.full_name);
    page.add(definition_word(definition.kind));
    page.number(definition.item);
    page.add(";");
}

/// Writes what a text is parsed to.
fn add_parsed(page: &mut Page, parsed: &Parsed) {
    match parsed {
        Parsed::Tree(nodes) => {
            page.number(nodes.as_slice().len());
            page.add(" statements");
        }
        Parsed::Fault { span, code: _ } => {
            page.add("fault ");
            page.span(*span);
        }
    }
}

/// Writes what a file is read as.
fn add_file(page: &mut Page, file: &ParsedFile) {
    match file {
        ParsedFile::Absent => page.add("absent"),
        ParsedFile::Present { parsed, .. } => add_parsed(page, parsed),
    }
}

/// Writes what a file is read as, without spans.
fn add_items(page: &mut Page, items: &FileItems) {
    match items {
        FileItems::Absent => page.add("absent"),
        FileItems::Fault(_) => page.add("fault"),
        FileItems::Other(_) => page.add("other version"),
        FileItems::Tree(file) => {
            page.number(file.as_slice().len());
            page.add(" statements");
        }
    }
}

/// Writes what a file exports, sees and reaches.
fn add_links(page: &mut Page, links: &Links) {
    add_names(page, links.exports.as_slice());
    page.add("| ");
    add_names(page, links.visible.as_slice());
    page.add("| ");
    add_names(page, links.reach.as_slice());
}

/// Writes the package of a file and its definitions.
fn add_defs(page: &mut Page, defs: &Defs) {
    page.add(defs.package_name());
    page.add(" |");
    for definition in defs.definitions() {
        add_definition(page, definition);
    }
}

/// Writes what a file sees and reaches.
fn add_scope(page: &mut Page, scope: &Scope) {
    add_files(page, scope.visible());
    page.add("| ");
    add_files(page, scope.reach());
}

/// What a kind of type is called, between blanks.
fn kind_word(is_enum: bool) -> &'static str {
    if is_enum { " enum " } else { " message " }
}

/// Writes a type as `FILE NAME KIND ITEM`.
fn add_found(page: &mut Page, target: &Target) {
    page.add(target.file.as_str());
    page.add(" ");
    add_full_name(page, &target.full_name);
    page.add(kind_word(target.is_enum));
    page.number(target.item);
}

/// Writes what a reference resolves to.
fn add_resolution(page: &mut Page, resolution: &Resolution) {
    match resolution {
        Resolution::Type(target) => add_found(page, target),
        Resolution::NotFound => page.add("NotFound"),
        Resolution::NotVisible(file) => {
            page.add("NotVisible ");
            page.add(file.as_str());
        }
        Resolution::NotAType => page.add("NotAType"),
    }
}

/// The word of the part of an item that is a reference, between blanks.
fn part_word(part: TypePart) -> &'static str {
    match part {
        TypePart::Type => " type ",
        TypePart::Input => " input ",
        TypePart::Output => " output ",
    }
}

/// Writes references, each as `ITEM PART RESOLUTION;`.
fn add_references(page: &mut Page, references: &[ResolvedReference]) {
    for reference in references {
        page.number(reference.item);
        page.add(part_word(reference.part));
        add_resolution(page, &reference.resolution);
        page.add(";");
    }
}

/// Writes a value: its lists with `|` between.
fn add_value(page: &mut Page, value: &SchemaValue) {
    match value {
        SchemaValue::Source(_) => page.add("a text"),
        SchemaValue::Parse(file) => add_file(page, file.get()),
        SchemaValue::Items(items) => add_items(page, items.get()),
        SchemaValue::Imports(None) => page.add("absent"),
        SchemaValue::Imports(Some(imports)) => add_imports(page, imports.get().as_slice()),
        SchemaValue::Linked(links) => add_links(page, links.get()),
        SchemaValue::Defs(defs) => add_defs(page, defs.get()),
        SchemaValue::Scope(scope) => add_scope(page, scope.get()),
        SchemaValue::Resolved(all) => add_references(page, all.get().as_slice()),
    }
}

/// Writes an answer: a value, or the keys of a cycle.
pub(super) fn add_answer(page: &mut Page, answer: &Answer<SchemaKey, SchemaValue>) {
    match answer {
        Answer::Value(value) => add_value(page, value),
        Answer::Cycle(ring) => add_ring(page, ring),
    }
}

/// Writes why a name has no target.
fn add_fault(page: &mut Page, fault: &ResolveFault) {
    match fault {
        ResolveFault::NotFound => page.add("NotFound"),
        ResolveFault::NotVisible(file) => {
            page.add("NotVisible ");
            page.add(file.as_str());
        }
        ResolveFault::NotAType => page.add("NotAType"),
        ResolveFault::Memory => page.cut(),
    }
}

/// Writes the target of a name, or why it has none.
pub(super) fn add_target(page: &mut Page, target: &Result<Target, ResolveFault>) {
    match target {
        Ok(target) => add_found(page, target),
        Err(fault) => add_fault(page, fault),
    }
}
