//! The descriptor of a file, printed in one go.
//!
//! `messages` with their `fields`, `enums` and `services` are its parts, and `settings`, `reserved`,
//! `types` and `names` what these share. `references` looks up what a type refers to.
ghost use Rattle.std.specs.Prelude.{◌≡◌, [], ◌∷◌, ◌++◌, cond, IfOk, OnOk};
ghost use Rattle.std.specs.Str.{is_utf8};
ghost use Rattle.serde_json.specs.Written.{compact_text};
ghost use Rattle.pq_proto.specs.Descriptor.{descriptor, file_data, import_by, import_data, import_kind};
ghost use Rattle.pq_proto.specs.aux.Printed.{tokens_of, values_of};
ghost use Rattle.pq_proto.specs.aux.Rests.{left};

mod enums;
mod fields;
mod messages;
mod names;
mod references;
mod reserved;
mod services;
mod settings;
mod types;

use crate::Memory;
use crate::bodies::{Body, Held, sizes_of};
use crate::descriptor::enums::print_enums;
use crate::descriptor::messages::print_messages;
use crate::descriptor::names::package_of;
use crate::descriptor::references::References;
use crate::descriptor::reserved::as_text;
use crate::descriptor::services::print_services;
use crate::descriptor::settings::print_options_in;
use crate::printing::lists::{Part, print_list};
use crate::printing::printer::Printer;
use pq_names::Text;
use pq_schema::ResolvedReference;
use pq_syntax::{ImportKind, Node, Statement};
use std::alloc::Global;

/// The name of the kind `kind` of an import.
fn import_kind(kind: ImportKind) -> &'static str
    ensures { result.now ≡ import_kind kind }
{
    match kind {
        ImportKind::Plain => "plain",
        ImportKind::Public => "public",
        ImportKind::Weak => "weak",
    }
}

/// Prints the import of the kind `kind` of the file `file`.
fn print_import(out: &mut Printer, kind: ImportKind, file: &str) -> Result<(), Memory>
    ensures { OnOk result (out.new ≡ out.old ++ tokens_of (import_data kind file.now)) }
{
    out.begin_object()?;
    out.text_member("kind", import_kind(kind))?;
    out.text_member("name", file)?;
    out.end_object()?;
    Ok(())
}

/// The imports of a file.
#[derive(Drop)]
struct Imports;

impl Part for Imports {
    ghost made = { λ _ item _. import_by item.node.statement };

    fn print(&self, _alloc: Global, out: &mut Printer, held: &Held<'_>) -> Result<(), Memory> {
        if let Statement::Import { kind, file } = &held.node.statement {
            print_import_named(out, *kind, file.value.as_slice())?;
        }
        Ok(())
    }
}

/// Prints the import of the kind `kind` of the file named `file`, if the name is UTF-8.
fn print_import_named(out: &mut Printer, kind: ImportKind, file: &[u8]) -> Result<(), Memory>
    ensures { OnOk result (out.new ≡ out.old
        ++ values_of (cond (is_utf8 file.now) (import_data kind file.now ∷ []) [])) }
{
    match as_text(file) {
        Some(name) => print_import(out, kind, name),
        None => Ok(()),
    }
}

/// Prints the descriptor of the file `file` of the package `package_name` with the body `body`.
fn print_file(
    alloc: Global,
    out: &mut Printer,
    references: &References<'_>,
    file: &str,
    package_name: &str,
    body: &Body<'_>,
) -> Result<(), Memory>
    ensures { OnOk result (out.new ≡ out.old
        ++ tokens_of (file_data references.now file.now package_name.now (left body.now))) }
{
    out.begin_object()?;
    out.key("enums")?;
    print_enums(alloc, out, package_name, body)?;
    out.key("imports")?;
    print_list(alloc, out, body, &Imports)?;
    out.key("messages")?;
    print_messages(alloc, out, references, package_name, body)?;
    out.text_member("name", file)?;
    out.key("options")?;
    print_options_in(alloc, out, body)?;
    out.text_member("package", package_name)?;
    out.key("services")?;
    print_services(alloc, out, references, package_name, body)?;
    out.end_object()?;
    Ok(())
}

/// The text of the descriptor of the file `file` with the statements `nodes`, whose resolved
/// references are `references` (descriptor.proto, "FileDescriptorProto").
///
/// It is JSON without white space, made in time linear in the file and the text. Only `Memory` is
/// an error, after an allocation failure.
pub fn descriptor_text(
    alloc: Global,
    file: &str,
    nodes: &[Node],
    references: &[ResolvedReference],
) -> Result<Text, Memory>
    // The text is the compact JSON text of the descriptor of the file, by its statements and
    // resolved references.
    ensures { IfOk result (λ t. t ≡ compact_text (descriptor references.now file.now nodes.now)) }
{
    let sizes = sizes_of(alloc, nodes)?;
    let resolved = References::new(alloc, references, nodes.len())?;
    let mut out = Printer::new(alloc);
    print_file(
        alloc,
        &mut out,
        &resolved,
        file,
        package_of(nodes),
        &Body::of(nodes, sizes.as_slice()),
    )?;
    out.into_text(alloc)
}
