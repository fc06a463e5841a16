//! Services as descriptors tell them.
ghost use Rattle.std.specs.Prelude.{◌≡◌, ◌++◌, OnOk};
ghost use Rattle.pq_proto.specs.Lists.{list_data};
ghost use Rattle.pq_proto.specs.Descriptor.{method_by, method_data, methods_in, service_by, service_data, services_in};
ghost use Rattle.pq_proto.specs.aux.Printed.{tokens_of, values_of};
ghost use Rattle.pq_proto.specs.aux.Rests.{left};
ghost use Rattle.pq_proto.specs.aux.Views.{type_of};

use crate::Memory;
use crate::bodies::{Body, Held};
use crate::descriptor::fields::print_type_name;
use crate::descriptor::names::qualified;
use crate::descriptor::references::References;
use crate::descriptor::settings::print_options_in;
use crate::descriptor::types::{TypeName, referred};
use crate::printing::lists::{Part, print_list};
use crate::printing::printer::Printer;
use pq_links::TypePart;
use pq_syntax::Statement;
use std::alloc::Global;

/// A method without its options.
#[derive(Drop)]
struct MethodParts<'a> {
    /// Its name.
    name: &'a str,
    /// Its input type.
    input: TypeName,
    /// Its output type.
    output: TypeName,
    /// Whether the client streams.
    is_client: bool,
    /// Whether the server streams.
    is_server: bool,
}

/// Prints the method `method` with the body `body`.
fn print_method(
    alloc: Global,
    out: &mut Printer,
    method: &MethodParts<'_>,
    body: &Body<'_>,
) -> Result<(), Memory>
    ensures { OnOk result (out.new ≡ out.old ++ tokens_of (method_data method.now.name.now
        (type_of method.now.input) (type_of method.now.output) method.now.is_client method.now.is_server (left body.now))) }
{
    out.begin_object()?;
    out.boolean_member("clientStreaming", method.is_client)?;
    print_type_name(out, "input", &method.input)?;
    out.text_member("name", method.name)?;
    out.key("options")?;
    print_options_in(alloc, out, body)?;
    print_type_name(out, "output", &method.output)?;
    out.boolean_member("serverStreaming", method.is_server)?;
    out.end_object()?;
    Ok(())
}

/// The methods of a service.
#[derive(Drop)]
struct Methods<'a, 'r> {
    references: &'a References<'r>,
}

impl<'a, 'r> Part for Methods<'a, 'r> {
    ghost made = { λ s item inside. method_by s.references.now item.number inside item.node.statement };

    fn print(&self, alloc: Global, out: &mut Printer, held: &Held<'_>) -> Result<(), Memory> {
        if let Statement::Method {
            name,
            input,
            output,
        } = &held.node.statement
        {
            let method = MethodParts {
                name: name.text.as_str(),
                input: referred(alloc, self.references, held.number, TypePart::Input)?,
                output: referred(alloc, self.references, held.number, TypePart::Output)?,
                is_client: input.is_stream,
                is_server: output.is_stream,
            };
            print_method(alloc, out, &method, &held.inside)?;
        }
        Ok(())
    }
}

/// Prints the service `name` of the full name `full` with the body `body`.
fn print_service(
    alloc: Global,
    out: &mut Printer,
    references: &References<'_>,
    full: &str,
    name: &str,
    body: &Body<'_>,
) -> Result<(), Memory>
    ensures { OnOk result (out.new
        ≡ out.old ++ tokens_of (service_data references.now full.now name.now (left body.now))) }
{
    out.begin_object()?;
    out.text_member("fullName", full)?;
    out.key("methods")?;
    print_list(alloc, out, body, &Methods { references })?;
    out.text_member("name", name)?;
    out.key("options")?;
    print_options_in(alloc, out, body)?;
    out.end_object()?;
    Ok(())
}

/// The services of a file of a package.
#[derive(Drop)]
struct Services<'a, 'r> {
    references: &'a References<'r>,
    scope: &'a str,
}

impl<'a, 'r> Part for Services<'a, 'r> {
    ghost made = { λ s item inside. service_by s.references.now s.scope.now inside item.node.statement };

    fn print(&self, alloc: Global, out: &mut Printer, held: &Held<'_>) -> Result<(), Memory> {
        if let Statement::Service { name } = &held.node.statement {
            let full = qualified(alloc, self.scope, name.text.as_str())?;
            print_service(
                alloc,
                out,
                self.references,
                full.as_str(),
                name.text.as_str(),
                &held.inside,
            )?;
        }
        Ok(())
    }
}

/// Prints the list of the services of `body`, in the scope `scope`.
pub(crate) fn print_services(
    alloc: Global,
    out: &mut Printer,
    references: &References<'_>,
    scope: &str,
    body: &Body<'_>,
) -> Result<(), Memory>
    ensures { OnOk result (out.new ≡ out.old
        ++ tokens_of (list_data (services_in references.now scope.now (left body.now)))) }
{
    print_list(alloc, out, body, &Services { references, scope })
}
