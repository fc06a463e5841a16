//! Messages as descriptors tell them, with those in them, and the entries of map fields.
ghost use Rattle.std.specs.Prelude.{◌≡◌, ℕ, ◌<◌, ◌++◌, [], ◌∷◌, pos, codes, OnOk};
ghost use Rattle.pq_schema.specs.Definitions.{entry_name};
ghost use Rattle.pq_proto.specs.Types.{field_type, key_type};
ghost use Rattle.pq_proto.specs.Lists.{list_data};
ghost use Rattle.pq_proto.specs.Descriptor.{entry_data, entry_field, entry_of, message_by, message_data, messages_in};
ghost use Rattle.pq_proto.specs.aux.Printed.{tokens_of, values_of};
ghost use Rattle.pq_proto.specs.aux.Rests.{left};
ghost use Rattle.pq_proto.specs.aux.Parts.{message_back, message_front};
ghost use Rattle.pq_proto.specs.aux.Views.{type_of};

use crate::Memory;
use crate::bodies::{Body, Held};
use crate::descriptor::enums::print_enums;
use crate::descriptor::fields::{FieldParts, print_field, print_fields, print_oneofs};
use crate::descriptor::names::qualified;
use crate::descriptor::references::References;
use crate::descriptor::reserved::{print_names_in, print_ranges_in};
use crate::descriptor::settings::print_options_in;
use crate::descriptor::types::{TypeName, field_type, key_type};
use crate::printing::printer::Printer;
use pq_lex::Span;
use pq_schema::entry_name;
use pq_syntax::{Name, Number, Statement};
use std::alloc::Global;

/// The greatest number of a field.
const GREATEST_FIELD: u64 = 536_870_911;

/// Prints the field `name` of an entry, of the number `n` and the type `kind`.
fn print_entry_field(
    alloc: Global,
    out: &mut Printer,
    name: &str,
    n: u64,
    kind: &TypeName,
) -> Result<(), Memory>
    ensures { OnOk result (out.new
        ≡ out.old ++ tokens_of (entry_field name.now n (type_of kind.now))) }
{
    let number = Number {
        negative: false,
        value: Some(n),
        span: Span { start: 0, end: 0 },
    };
    let field = FieldParts {
        label: 1,
        name,
        number,
        oneof: None,
        is_optional: false,
        options: &[],
    };
    print_field(alloc, out, &field, kind)
}

/// Prints the list of the fields of an entry with keys of the type `key` and values of the type
/// `value`.
fn print_entry_fields(
    alloc: Global,
    out: &mut Printer,
    key: &TypeName,
    value: &TypeName,
) -> Result<(), Memory>
    ensures { OnOk result (out.new ≡ out.old ++ tokens_of (list_data
        (entry_field (codes "key") 1 (type_of key.now) ∷ entry_field (codes "value") 2 (type_of value.now) ∷ []))) }
{
    out.begin_array()?;
    print_entry_field(alloc, out, "key", 1, key)?;
    print_entry_field(alloc, out, "value", 2, value)?;
    out.end_array()?;
    Ok(())
}

/// Prints the entry message `name` of the full name `full`, with keys of the type `key` and values
/// of the type `value`.
fn print_entry(
    alloc: Global,
    out: &mut Printer,
    full: &str,
    name: &str,
    key: &TypeName,
    value: &TypeName,
) -> Result<(), Memory>
    ensures { OnOk result (out.new
        ≡ out.old ++ tokens_of (entry_data full.now name.now (type_of key.now) (type_of value.now))) }
{
    out.begin_object()?;
    out.empty_member("enums")?;
    out.key("fields")?;
    print_entry_fields(alloc, out, key, value)?;
    out.text_member("fullName", full)?;
    out.boolean_member("mapEntry", true)?;
    out.empty_member("messages")?;
    out.text_member("name", name)?;
    out.empty_member("oneofs")?;
    out.empty_member("options")?;
    out.empty_member("reservedNames")?;
    out.empty_member("reservedRanges")?;
    out.end_object()?;
    Ok(())
}

/// Prints the entry of the map field named `field`, the item `item`, in the message `scope`.
fn print_map_entry(
    alloc: Global,
    out: &mut Printer,
    references: &References<'_>,
    scope: &str,
    item: usize,
    map: (&Name, &Name, &Name),
) -> Result<(), Memory>
    ensures { OnOk result (out.new ≡ out.old ++ tokens_of (entry_data (entry_of scope.now map.entry.2.now.text)
        (entry_name map.entry.2.now.text) (key_type map.entry.0.now.text) (field_type references.now item map.entry.1.now.text))) }
{
    let (key, value, field) = map;
    let name = entry_name(alloc, field.text.as_str())?;
    let full = qualified(alloc, scope, name.as_str())?;
    let key = key_type(key.text.as_str());
    let value = field_type(alloc, references, item, value.text.as_str())?;
    print_entry(alloc, out, full.as_str(), name.as_str(), &key, &value)
}

/// Prints the messages of `body` in the scope `scope`, one after the other, an entry at its field's
/// place.
#[cycle(messages)]
fn print_each_message(
    alloc: Global,
    out: &mut Printer,
    references: &References<'_>,
    scope: &str,
    body: &Body<'_>,
) -> Result<(), Memory>
    ensures { OnOk result (out.new
        ≡ out.old ++ values_of (messages_in references.now (left body.now) scope.now)) }
{
    let mut rest = body.copy();
    'statements: while let Some(held) = rest.next() {
        print_message_at(alloc, out, references, scope, &held)?;
    }
    Ok(())
}

/// Prints the message or the entry that the statement `held` makes in the scope `scope`.
#[cycle(messages)]
fn print_message_at(
    alloc: Global,
    out: &mut Printer,
    references: &References<'_>,
    scope: &str,
    held: &Held<'_>,
) -> Result<(), Memory>
    ensures { OnOk result (out.new ≡ out.old ++ values_of
        (message_by references.now scope.now held.now.number (left held.now.inside) (messages_in references.now (left held.now.inside)) held.now.node.now.statement)) }
{
    match &held.node.statement {
        Statement::Message { name } => {
            let full = qualified(alloc, scope, name.text.as_str())?;
            print_message(
                alloc,
                out,
                references,
                full.as_str(),
                name.text.as_str(),
                &held.inside,
            )
        }
        Statement::MapField {
            key,
            value,
            name,
            ..
        } => print_map_entry(
            alloc,
            out,
            references,
            scope,
            held.number,
            (key, value, name),
        ),
        Statement::Import { .. }
        | Statement::Package { .. }
        | Statement::Option(_)
        | Statement::Field { .. }
        | Statement::Oneof { .. }
        | Statement::ReservedNumbers(_)
        | Statement::ReservedNames(_)
        | Statement::Enum { .. }
        | Statement::Value { .. }
        | Statement::Service { .. }
        | Statement::Method { .. }
        | Statement::Extend { .. } => Ok(()),
    }
}

/// Prints the message `name` of the full name `full` with the body `body`.
#[cycle(messages)]
fn print_message(
    alloc: Global,
    out: &mut Printer,
    references: &References<'_>,
    full: &str,
    name: &str,
    body: &Body<'_>,
) -> Result<(), Memory>
    ensures { OnOk result (out.new ≡ out.old ++ tokens_of
        (message_data references.now full.now name.now (left body.now) (messages_in references.now (left body.now) full.now))) }
{
    print_front(alloc, out, references, full, body)?;
    print_each_message(alloc, out, references, full, body)?;
    print_back(alloc, out, name, body)?;
    Ok(())
}

/// Prints the members of a message before those for the messages in it.
fn print_front(
    alloc: Global,
    out: &mut Printer,
    references: &References<'_>,
    full: &str,
    body: &Body<'_>,
) -> Result<(), Memory>
    ensures { OnOk result (out.new ≡ out.old ++ message_front references.now full.now (left body.now)) }
{
    out.begin_object()?;
    out.key("enums")?;
    print_enums(alloc, out, full, body)?;
    out.key("fields")?;
    print_fields(alloc, out, references, full, body)?;
    out.text_member("fullName", full)?;
    out.boolean_member("mapEntry", false)?;
    out.key("messages")?;
    out.begin_array()?;
    Ok(())
}

/// Prints the members of a message after those for the messages in it.
fn print_back(alloc: Global, out: &mut Printer, name: &str, body: &Body<'_>) -> Result<(), Memory>
    ensures { OnOk result (out.new ≡ out.old ++ message_back name.now (left body.now)) }
{
    out.end_array()?;
    out.text_member("name", name)?;
    out.key("oneofs")?;
    print_oneofs(alloc, out, body)?;
    out.key("options")?;
    print_options_in(alloc, out, body)?;
    out.key("reservedNames")?;
    print_names_in(alloc, out, body)?;
    out.key("reservedRanges")?;
    print_ranges_in(alloc, out, GREATEST_FIELD, body)?;
    out.end_object()?;
    Ok(())
}

/// Prints the list of the messages of `body` in the scope `scope`.
#[tactic(auto, using(crate::proofs::ListSteps::list_tokens))]
pub(crate) fn print_messages(
    alloc: Global,
    out: &mut Printer,
    references: &References<'_>,
    scope: &str,
    body: &Body<'_>,
) -> Result<(), Memory>
    ensures { OnOk result (out.new
        ≡ out.old ++ tokens_of (list_data (messages_in references.now (left body.now) scope.now))) }
{
    out.begin_array()?;
    print_each_message(alloc, out, references, scope, body)?;
    out.end_array()?;
    Ok(())
}
