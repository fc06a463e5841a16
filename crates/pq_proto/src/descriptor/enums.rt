//! Enums as descriptors tell them.
ghost use Rattle.std.specs.Prelude.{◌≡◌, ◌++◌, OnOk};
ghost use Rattle.pq_proto.specs.Lists.{list_data};
ghost use Rattle.pq_proto.specs.Descriptor.{enum_by, enum_data, enums_in, value_by, value_data};
ghost use Rattle.pq_proto.specs.aux.Printed.{tokens_of, values_of};
ghost use Rattle.pq_proto.specs.aux.Rests.{left};

use crate::Memory;
use crate::bodies::{Body, Held};
use crate::descriptor::names::qualified;
use crate::descriptor::reserved::{print_integer, print_names_in, print_ranges_in};
use crate::descriptor::settings::{print_options, print_options_in};
use crate::printing::lists::{Part, print_list};
use crate::printing::printer::Printer;
use pq_syntax::{Name, Number, Setting, Statement};
use std::alloc::Global;

/// The greatest number of an enum value.
const GREATEST_VALUE: u64 = 2_147_483_647;

/// Prints the enum value `name` of the number `number`.
fn print_value(
    alloc: Global,
    out: &mut Printer,
    name: &Name,
    number: &Number,
    options: &[Setting],
) -> Result<(), Memory>
    ensures { OnOk result (out.new
        ≡ out.old ++ tokens_of (value_data name.now number.now options.now)) }
{
    out.begin_object()?;
    out.text_member("name", name.text.as_str())?;
    out.key("number")?;
    print_integer(alloc, out, number)?;
    out.key("options")?;
    print_options(alloc, out, options)?;
    out.end_object()?;
    Ok(())
}

/// The values of an enum.
#[derive(Drop)]
struct Values;

impl Part for Values {
    ghost made = { λ _ item _. value_by item.node.statement };

    fn print(&self, alloc: Global, out: &mut Printer, held: &Held<'_>) -> Result<(), Memory> {
        if let Statement::Value {
            name,
            number,
            options,
        } = &held.node.statement
        {
            print_value(alloc, out, name, number, options.as_slice())?;
        }
        Ok(())
    }
}

/// Prints the enum `name` of the full name `full` with the body `body`.
fn print_enum(
    alloc: Global,
    out: &mut Printer,
    full: &str,
    name: &str,
    body: &Body<'_>,
) -> Result<(), Memory>
    ensures { OnOk result (out.new
        ≡ out.old ++ tokens_of (enum_data full.now name.now (left body.now))) }
{
    out.begin_object()?;
    out.text_member("fullName", full)?;
    out.text_member("name", name)?;
    out.key("options")?;
    print_options_in(alloc, out, body)?;
    out.key("reservedNames")?;
    print_names_in(alloc, out, body)?;
    out.key("reservedRanges")?;
    print_ranges_in(alloc, out, GREATEST_VALUE, body)?;
    out.key("values")?;
    print_list(alloc, out, body, &Values)?;
    out.end_object()?;
    Ok(())
}

/// The enums of a body in a scope.
#[derive(Drop)]
struct Enums<'a> {
    scope: &'a str,
}

impl<'a> Part for Enums<'a> {
    ghost made = { λ s item inside. enum_by s.scope.now inside item.node.statement };

    fn print(&self, alloc: Global, out: &mut Printer, held: &Held<'_>) -> Result<(), Memory> {
        if let Statement::Enum { name } = &held.node.statement {
            let full = qualified(alloc, self.scope, name.text.as_str())?;
            print_enum(alloc, out, full.as_str(), name.text.as_str(), &held.inside)?;
        }
        Ok(())
    }
}

/// Prints the list of the enums of `body`, in the scope `scope`.
pub(crate) fn print_enums(
    alloc: Global,
    out: &mut Printer,
    scope: &str,
    body: &Body<'_>,
) -> Result<(), Memory>
    ensures { OnOk result (out.new
        ≡ out.old ++ tokens_of (list_data (enums_in scope.now (left body.now)))) }
{
    print_list(alloc, out, body, &Enums { scope })
}
