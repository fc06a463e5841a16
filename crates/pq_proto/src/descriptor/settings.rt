//! Options as descriptors tell them.
ghost use Rattle.std.specs.Prelude.{◌≡◌, [], ◌∷◌, ◌++◌, List, codes, flat_map, map, string_bytes, IfOk, OnOk};
ghost use Rattle.pq_proto.specs.Settings.{constant_data, kind_name, option_data, option_name, options_data, part_text, setting_of, settings_in};
ghost use Rattle.pq_proto.specs.aux.Printed.{tokens_of, values_of};
ghost use Rattle.pq_proto.specs.aux.Rests.{left};

use crate::Memory;
use crate::bodies::{Body, Held};
use crate::printing::lists::{Part, print_list};
use crate::printing::printer::Printer;
use pq_syntax::{Constant, ConstantKind, NamePart, Setting, Statement};
use std::alloc::Global;

/// The name of the kind `kind` of a constant.
fn kind_name(kind: ConstantKind) -> &'static str
    ensures { result.now ≡ kind_name kind }
{
    match kind {
        ConstantKind::Identifier => "identifier",
        ConstantKind::Integer => "integer",
        ConstantKind::Float => "float",
        ConstantKind::Text => "string",
        ConstantKind::Aggregate => "aggregate",
    }
}

/// Adds the part `part` of an option's name to `name`.
fn add_part(name: &mut String, part: &NamePart) -> Result<(), Memory>
    ensures { OnOk result (string_bytes name.new ≡ string_bytes name.old ++ part_text part.now) }
{
    if !part.is_extension {
        name.push_str(part.text.as_str())?;
        return Ok(());
    }
    name.push_str("(")?;
    name.push_str(part.text.as_str())?;
    name.push_str(")")?;
    Ok(())
}

/// Adds the parts `parts` to `name`, each after a dot.
fn add_parts(name: &mut String, parts: &[NamePart]) -> Result<(), Memory>
    ensures { OnOk result (string_bytes name.new
        ≡ string_bytes name.old ++ flat_map (λ p. codes "." ++ part_text p) parts.now) }
{
    'parts: for part in parts {
        name.push_str(".")?;
        add_part(name, part)?;
    }
    Ok(())
}

/// The name of an option, by its parts.
fn option_name(alloc: Global, parts: &[NamePart]) -> Result<String, Memory>
    ensures { IfOk result (λ s. string_bytes s ≡ option_name parts.now) }
{
    let mut name = String::new(alloc);
    if let Some((first, rest)) = parts.split_first() {
        add_part(&mut name, first)?;
        add_parts(&mut name, rest)?;
    }
    Ok(name)
}

/// Prints the constant `constant`.
fn print_constant(out: &mut Printer, constant: &Constant) -> Result<(), Memory>
    ensures { OnOk result (out.new ≡ out.old ++ tokens_of (constant_data constant.now)) }
{
    out.begin_object()?;
    out.text_member("kind", kind_name(constant.kind))?;
    out.text_member("text", constant.text.as_str())?;
    out.end_object()?;
    Ok(())
}

/// Prints the option `setting`.
fn print_option(alloc: Global, out: &mut Printer, setting: &Setting) -> Result<(), Memory>
    ensures { OnOk result (out.new ≡ out.old ++ tokens_of (option_data setting.now)) }
{
    let name = option_name(alloc, setting.parts.as_slice())?;
    out.begin_object()?;
    out.text_member("name", name.as_str())?;
    out.key("value")?;
    print_constant(out, &setting.constant)?;
    out.end_object()?;
    Ok(())
}

/// Prints the options `settings`, one after the other.
fn print_each(alloc: Global, out: &mut Printer, settings: &[Setting]) -> Result<(), Memory>
    ensures { OnOk result (out.new ≡ out.old ++ values_of (map option_data settings.now)) }
{
    'settings: for setting in settings {
        print_option(alloc, out, setting)?;
    }
    Ok(())
}

/// Prints the list of the options `settings`.
#[tactic(auto, using(crate::proofs::ListSteps::list_tokens))]
pub(crate) fn print_options(
    alloc: Global,
    out: &mut Printer,
    settings: &[Setting],
) -> Result<(), Memory>
    ensures { OnOk result (out.new ≡ out.old ++ tokens_of (options_data settings.now)) }
{
    out.begin_array()?;
    print_each(alloc, out, settings)?;
    out.end_array()?;
    Ok(())
}

/// The option statements of a body.
#[derive(Drop)]
struct OptionStatements;

impl Part for OptionStatements {
    ghost made = { λ _ item _. map option_data (setting_of item.node.statement) };

    fn print(&self, alloc: Global, out: &mut Printer, held: &Held<'_>) -> Result<(), Memory> {
        if let Statement::Option(setting) = &held.node.statement {
            print_option(alloc, out, setting)?;
        }
        Ok(())
    }
}

/// Prints the list of the option statements of `body`.
pub(crate) fn print_options_in(
    alloc: Global,
    out: &mut Printer,
    body: &Body<'_>,
) -> Result<(), Memory>
    ensures { OnOk result (out.new
        ≡ out.old ++ tokens_of (options_data (settings_in (left body.now)))) }
{
    print_list(alloc, out, body, &OptionStatements)
}
