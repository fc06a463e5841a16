//! Fields and oneofs as descriptors tell them.
ghost use Rattle.std.specs.Prelude.{◌≡◌, [], ◌∷◌, ◌++◌, Some, None, true, false, codes, map, string_bytes, IfOk, OnOk};
ghost use Rattle.std.specs.Option.{option_copied};
ghost use Rattle.json.specs.Token.{key};
ghost use Rattle.serde_json.specs.Data.{string};
ghost use Rattle.pq_proto.specs.Lists.{list_data};
ghost use Rattle.pq_proto.specs.Bodies.{each};
ghost use Rattle.pq_proto.specs.Reserved.{integer};
ghost use Rattle.pq_proto.specs.Types.{text_or_null};
ghost use Rattle.pq_proto.specs.Descriptor.{entry_type, field_by, field_data, fields_by, fields_in, is_optional, label_number, oneof_by, oneofs_data};
ghost use Rattle.pq_proto.specs.aux.Printed.{tokens_of, values_of};
ghost use Rattle.pq_proto.specs.aux.Rests.{left};
ghost use Rattle.pq_proto.specs.aux.Views.{field_of, oneof_named, type_of};

use crate::Memory;
use crate::bodies::{Body, Held};
use crate::descriptor::names::qualified;
use crate::descriptor::references::References;
use crate::descriptor::reserved::print_integer;
use crate::descriptor::settings::print_options;
use crate::descriptor::types::{TypeName, field_type, message_type};
use crate::printing::lists::{Part, print_each, print_list};
use crate::printing::printer::Printer;
use pq_schema::entry_name;
use pq_syntax::{Label, Name, Number, Setting, Statement};
use std::alloc::Global;

/// A field without its type.
#[derive(Drop)]
pub(crate) struct FieldParts<'a> {
    /// The number of its label.
    pub(crate) label: u64,
    /// Its name.
    pub(crate) name: &'a str,
    /// Its number.
    pub(crate) number: Number,
    /// The oneof that it is in.
    pub(crate) oneof: Option<&'a str>,
    /// Whether `optional` is written.
    pub(crate) is_optional: bool,
    /// Its options.
    pub(crate) options: &'a [Setting],
}

/// The number of a field's label.
fn label_number(label: Option<Label>) -> u64
    ensures { result ≡ label_number label }
{
    match label {
        Some(Label::Repeated) => 3,
        Some(Label::Optional) => 1,
        None => 1,
    }
}

/// Whether `label` is `optional`.
fn is_optional(label: Option<Label>) -> bool
    ensures { result ≡ is_optional label }
{
    match label {
        Some(Label::Optional) => true,
        Some(Label::Repeated) => false,
        None => false,
    }
}

/// Prints the name of the type `kind`, or null.
pub(crate) fn print_type_name(
    out: &mut Printer,
    member: &str,
    kind: &TypeName,
) -> Result<(), Memory>
    ensures { OnOk result (out.new
        ≡ out.old ++ key member.now ∷ tokens_of (text_or_null (type_of kind.now).name)) }
{
    match &kind.name {
        Some(name) => out.text_member(member, name.as_str()),
        None => out.null_member(member),
    }
}

/// Prints the name of the oneof `oneof`, or null.
fn print_oneof(out: &mut Printer, oneof: Option<&str>) -> Result<(), Memory>
    ensures { OnOk result (out.new
        ≡ out.old ++ key (codes "oneof") ∷ tokens_of (text_or_null (option_copied oneof.entry))) }
{
    match oneof {
        Some(name) => out.text_member("oneof", name),
        None => out.null_member("oneof"),
    }
}

/// Prints the field `field` of the type `kind`.
pub(crate) fn print_field(
    alloc: Global,
    out: &mut Printer,
    field: &FieldParts<'_>,
    kind: &TypeName,
) -> Result<(), Memory>
    ensures { OnOk result (out.new
        ≡ out.old ++ tokens_of (field_data (field_of field.now (type_of kind.now)))) }
{
    out.begin_object()?;
    out.unsigned_member("label", field.label)?;
    out.text_member("name", field.name)?;
    out.key("number")?;
    print_integer(alloc, out, &field.number)?;
    print_oneof(out, field.oneof)?;
    out.boolean_member("optional", field.is_optional)?;
    out.key("options")?;
    print_options(alloc, out, field.options)?;
    out.unsigned_member("type", kind.number)?;
    print_type_name(out, "typeName", kind)?;
    out.end_object()?;
    Ok(())
}

/// The type of the map field named `field` in the message `scope`.
fn entry_type(alloc: Global, scope: &str, field: &str) -> Result<TypeName, Memory>
    ensures { IfOk result (λ t. type_of t ≡ entry_type scope.now field.now) }
{
    let entry = entry_name(alloc, field)?;
    let full = qualified(alloc, scope, entry.as_str())?;
    message_type(alloc, full.as_str())
}

/// The fields of a message, or of one of its oneofs, without those of the oneofs in it.
#[derive(Drop)]
struct PlainFields<'a, 'r> {
    references: &'a References<'r>,
    scope: &'a str,
    oneof: Option<&'a str>,
}

impl<'a, 'r> PlainFields<'a, 'r> {
    /// Prints the field that the item `item` is by `statement`, if it is one.
    fn print_by(
        &self,
        alloc: Global,
        out: &mut Printer,
        item: usize,
        statement: &Statement,
    ) -> Result<(), Memory>
        ensures { OnOk result (out.new ≡ out.old
            ++ values_of (field_by self.now.references.now self.now.scope.now (option_copied self.now.oneof) item statement.now)) }
    {
        match statement {
            Statement::Field {
                label,
                type_name,
                name,
                number,
                options,
            } => {
                let kind = field_type(alloc, self.references, item, type_name.text.as_str())?;
                let field = FieldParts {
                    label: label_number(*label),
                    name: name.text.as_str(),
                    number: *number,
                    oneof: self.oneof,
                    is_optional: is_optional(*label),
                    options: options.as_slice(),
                };
                print_field(alloc, out, &field, &kind)
            }
            Statement::MapField {
                name,
                number,
                options,
                ..
            } => {
                let kind = entry_type(alloc, self.scope, name.text.as_str())?;
                let field = FieldParts {
                    label: 3,
                    name: name.text.as_str(),
                    number: *number,
                    oneof: self.oneof,
                    is_optional: false,
                    options: options.as_slice(),
                };
                print_field(alloc, out, &field, &kind)
            }
            Statement::Import { .. }
            | Statement::Package { .. }
            | Statement::Option(_)
            | Statement::Message { .. }
            | Statement::Oneof { .. }
            | Statement::ReservedNumbers(_)
            | Statement::ReservedNames(_)
            | Statement::Enum { .. }
            | Statement::Value { .. }
            | Statement::Service { .. }
            | Statement::Method { .. }
            | Statement::Extend { .. } => Ok(()),
        }
    }
}

impl<'a, 'r> Part for PlainFields<'a, 'r> {
    ghost made = { λ s item _. field_by s.references.now s.scope.now (option_copied s.oneof) item.number item.node.statement };

    fn print(&self, alloc: Global, out: &mut Printer, held: &Held<'_>) -> Result<(), Memory> {
        self.print_by(alloc, out, held.number, &held.node.statement)
    }
}

/// The fields of a message.
#[derive(Drop)]
struct Fields<'a, 'r> {
    references: &'a References<'r>,
    scope: &'a str,
}

impl<'a, 'r> Part for Fields<'a, 'r> {
    ghost made = { λ s item inside. fields_by s.references.now s.scope.now item.number inside item.node.statement };

    fn print(&self, alloc: Global, out: &mut Printer, held: &Held<'_>) -> Result<(), Memory> {
        let oneof = oneof_name(&held.node.statement);
        let fields = PlainFields {
            references: self.references,
            scope: self.scope,
            oneof,
        };
        if oneof.is_some() {
            print_each(alloc, out, &held.inside, &fields)
        } else {
            fields.print(alloc, out, held)
        }
    }
}

/// The name of the oneof that `statement` is, if it is one.
fn oneof_name(statement: &Statement) -> Option<&str>
    ensures { option_copied result ≡ oneof_named statement.now }
{
    match statement {
        Statement::Oneof { name } => Some(name.text.as_str()),
        _ => None,
    }
}

/// Prints the list of the fields of the message `scope` with the body `body`.
pub(crate) fn print_fields(
    alloc: Global,
    out: &mut Printer,
    references: &References<'_>,
    scope: &str,
    body: &Body<'_>,
) -> Result<(), Memory>
    ensures { OnOk result (out.new ≡ out.old
        ++ tokens_of (list_data (fields_in references.now scope.now (left body.now)))) }
{
    print_list(alloc, out, body, &Fields { references, scope })
}

/// The names of the oneofs of a body.
#[derive(Drop)]
struct Oneofs;

impl Part for Oneofs {
    ghost made = { λ _ item _. map (λ t. string t) (oneof_by item.node.statement) };

    fn print(&self, _alloc: Global, out: &mut Printer, held: &Held<'_>) -> Result<(), Memory> {
        match oneof_name(&held.node.statement) {
            Some(name) => out.text(name),
            None => Ok(()),
        }
    }
}

/// Prints the list of the names of the oneofs of `body`.
pub(crate) fn print_oneofs(alloc: Global, out: &mut Printer, body: &Body<'_>) -> Result<(), Memory>
    ensures { OnOk result (out.new ≡ out.old ++ tokens_of (oneofs_data (left body.now))) }
{
    print_list(alloc, out, body, &Oneofs)
}
