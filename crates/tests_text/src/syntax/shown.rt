//! A tree as lines of text, with each span.
use super::add_code;
use crate::checks::check_page;
use pq_syntax::{
    Constant, ConstantKind, ImportKind, Label, MethodType, Name, NamePart, Node, Number, Parsed,
    Range, RangeEnd, Setting, Statement, Strings, parse,
};
use std::process::Abort;
use test_support::Page;

/// Writes a name and its span.
fn add_name(page: &mut Page, name: &Name) {
    page.add(name.text.as_str());
    page.add(" ");
    page.span(name.span);
}

/// Writes a number, `none` past 64 bits, and its span.
fn add_number(page: &mut Page, number: &Number) {
    page.add(if number.negative { "-" } else { "" });
    match number.value {
        Some(value) => page.wide(value),
        None => page.add("none"),
    }
    page.add(" ");
    page.span(number.span);
}

/// Writes the value of strings between bars, and their span.
fn add_strings(page: &mut Page, strings: &Strings) {
    page.add("|");
    page.bytes(strings.value.as_slice());
    page.add("| ");
    page.span(strings.span);
}

/// The word of a kind of constants.
fn kind_word(kind: ConstantKind) -> &'static str {
    match kind {
        ConstantKind::Identifier => "identifier ",
        ConstantKind::Integer => "integer ",
        ConstantKind::Float => "float ",
        ConstantKind::Text => "text ",
        ConstantKind::Aggregate => "aggregate ",
    }
}

/// Writes a constant's kind, text and span.
fn add_constant(page: &mut Page, constant: &Constant) {
    page.add(kind_word(constant.kind));
    page.add(constant.text.as_str());
    page.add(" ");
    page.span(constant.span);
}

/// Writes a part of an option's name, and its span.
fn add_part(page: &mut Page, part: &NamePart) {
    page.add(if part.is_extension { "(" } else { "" });
    page.add(part.text.as_str());
    page.add(if part.is_extension { ") " } else { " " });
    page.span(part.span);
    page.add(" ");
}

/// Writes an option: the parts of its name, its constant and its span.
fn add_setting(page: &mut Page, setting: &Setting) {
    for part in setting.parts.as_slice() {
        add_part(page, part);
    }
    page.add("= ");
    add_constant(page, &setting.constant);
    page.add(" in ");
    page.span(setting.span);
}

/// Writes options in brackets.
fn add_settings(page: &mut Page, settings: &[Setting]) {
    for one in settings {
        page.add(" [");
        add_setting(page, one);
        page.add("]");
    }
}

/// Writes the end of a reserved range, if it has one.
fn add_range_end(page: &mut Page, end: &RangeEnd) {
    match end {
        RangeEnd::Alone => {}
        RangeEnd::To(last) => {
            page.add(" to ");
            add_number(page, last);
        }
        RangeEnd::Max => page.add(" to max"),
    }
}

/// Writes reserved ranges in brackets.
fn add_ranges(page: &mut Page, ranges: &[Range]) {
    for range in ranges {
        page.add(" [");
        add_number(page, &range.first);
        add_range_end(page, &range.last);
        page.add(" in ");
        page.span(range.span);
        page.add("]");
    }
}

/// Writes reserved names in brackets.
fn add_reserved_names(page: &mut Page, names: &[Strings]) {
    for one in names {
        page.add(" [");
        add_strings(page, one);
        page.add("]");
    }
}

/// Writes a method's type, after `stream ` if it is a stream.
fn add_method_type(page: &mut Page, kind: &MethodType) {
    page.add(if kind.is_stream { "stream " } else { "" });
    add_name(page, &kind.type_name);
}

/// The word of a kind of imports.
fn import_word(kind: ImportKind) -> &'static str {
    match kind {
        ImportKind::Plain => "import plain ",
        ImportKind::Public => "import public ",
        ImportKind::Weak => "import weak ",
    }
}

/// Writes an import's kind and file.
fn add_import(page: &mut Page, kind: ImportKind, file: &Strings) {
    page.add(import_word(kind));
    add_strings(page, file);
}

/// Writes a statement of which only the name is shown.
fn add_named(page: &mut Page, what: &str, of: &Name) {
    page.add(what);
    add_name(page, of);
}

/// Writes a name, its number and its options.
fn add_tail(page: &mut Page, of: &Name, to: &Number, options: &[Setting]) {
    page.add(" ");
    add_name(page, of);
    page.add(" = ");
    add_number(page, to);
    add_settings(page, options);
}

/// Writes the label and the type of a field.
fn add_field_head(page: &mut Page, label: Option<Label>, type_name: &Name) {
    page.add(match label {
        None => "field ",
        Some(Label::Optional) => "field optional ",
        Some(Label::Repeated) => "field repeated ",
    });
    add_name(page, type_name);
}

/// Writes the types of a map field.
fn add_map_head(page: &mut Page, key: &Name, value: &Name) {
    add_named(page, "map ", key);
    add_named(page, " to ", value);
}

/// Writes a method.
fn add_method(page: &mut Page, of: &Name, input: &MethodType, output: &MethodType) {
    add_named(page, "rpc ", of);
    page.add(" from ");
    add_method_type(page, input);
    page.add(" to ");
    add_method_type(page, output);
}

/// Writes a statement without its span.
fn add_statement(page: &mut Page, statement: &Statement) {
    match statement {
        Statement::Import { kind, file } => add_import(page, *kind, file),
        Statement::Package { name } => add_named(page, "package ", name),
        Statement::Option(set) => {
            page.add("option ");
            add_setting(page, set);
        }
        Statement::Message { name } => add_named(page, "message ", name),
        Statement::Field {
            label,
            type_name,
            name,
            number,
            options,
        } => {
            add_field_head(page, *label, type_name);
            add_tail(page, name, number, options.as_slice());
        }
        Statement::MapField {
            key,
            value,
            name,
            number,
            options,
        } => {
            add_map_head(page, key, value);
            add_tail(page, name, number, options.as_slice());
        }
        other => add_second_statement(page, other),
    }
}

/// Writes the second half of the cases of [`add_statement`].
fn add_second_statement(page: &mut Page, statement: &Statement) {
    match statement {
        Statement::Oneof { name } => add_named(page, "oneof ", name),
        Statement::ReservedNumbers(all) => {
            page.add("reserved numbers");
            add_ranges(page, all.as_slice());
        }
        Statement::ReservedNames(all) => {
            page.add("reserved names");
            add_reserved_names(page, all.as_slice());
        }
        Statement::Enum { name } => add_named(page, "enum ", name),
        Statement::Value {
            name,
            number,
            options,
        } => {
            page.add("value");
            add_tail(page, name, number, options.as_slice());
        }
        Statement::Service { name } => add_named(page, "service ", name),
        Statement::Method {
            name,
            input,
            output,
        } => add_method(page, name, input, output),
        Statement::Extend { type_name } => add_named(page, "extend ", type_name),
        _ => page.add("none"),
    }
}

/// Writes a node: its depth, its span and its statement.
fn add_node(page: &mut Page, node: &Node) {
    page.number(usize::from(node.depth));
    page.add(" ");
    page.span(node.span);
    page.add(" ");
    add_statement(page, &node.statement);
    page.add("\n");
}

/// Writes nodes, a line for each.
pub(super) fn add_nodes(page: &mut Page, nodes: &[Node]) {
    for node in nodes {
        add_node(page, node);
    }
}

/// Writes what was parsed.
fn add_parsed(page: &mut Page, parsed: &Parsed) {
    match parsed {
        Parsed::Tree(file) => add_nodes(page, file.as_slice()),
        Parsed::Fault { span, code } => add_code(page, *code, *span),
    }
}

/// Writes the statements of the tree of `text`, a line for each, or its error.
pub(super) fn add_tree(page: &mut Page, text: &str) {
    match parse(page.alloc, text) {
        Ok(parsed) => add_parsed(page, &parsed),
        Err(_) => page.cut(),
    }
}

/// Checks that the tree of `text` has the lines `want`.
pub(super) fn check_tree(rt: &(impl Abort + AllocGlobal), text: &str, want: &str) {
    let mut page = Page::new(rt.alloc());
    add_tree(&mut page, text);
    check_page(rt, &page, want, text);
}
