//! What comes before and after the result of a response. A result is printed between the two, or
//! was printed before: then its text is put between them, and never read again.
ghost use Rattle.std.specs.Prelude.{◌≡◌, ◌++◌, IfOk, OnOk, string_bytes};
ghost use Rattle.pq_frame.specs.Labels.{label_data};
ghost use Rattle.pq_proto.specs.aux.Printed.{tokens_of};
ghost use Rattle.pq_session.specs.Labels.{label_model};
ghost use Rattle.pq_session.specs.Reply.{result_start, result_text as text_of_result, descriptor_text as text_of_descriptor};
ghost use Rattle.pq_session.specs.aux.Starts.{start_tokens};

use pq_core::Label;
use pq_proto::Printer;
use std::alloc::{AllocError, Global};

/// Prints the member `id` of a response.
#[tactic(auto, using(crate::proofs::PrintLemmas::integer_tokens))]
fn print_label(out: &mut Printer, label: &Label) -> Result<(), AllocError>
    ensures { OnOk result (out.new ≡ out.old ++ tokens_of (label_data (label_model label.now))) }
{
    match label {
        Label::None => out.null(),
        Label::Unsigned(n) => out.unsigned(*n),
        Label::Negative(n) => out.signed(*n),
        Label::Text(text) => out.text(text.as_str()),
    }
}

/// Prints a response up to its result.
pub(crate) fn print_start(out: &mut Printer, label: &Label) -> Result<(), AllocError>
    ensures { OnOk result (out.new ≡ out.old ++ start_tokens (label_model label.now)) }
{
    out.begin_object()?;
    out.key("id")?;
    print_label(out, label)?;
    out.text_member("jsonrpc", "2.0")?;
    out.key("result")?;
    Ok(())
}

/// The text of a response up to its result.
fn result_start(alloc: Global, label: &Label) -> Result<String, AllocError>
    ensures { IfOk result (λ s. string_bytes s ≡ result_start (label_model label.now)) }
{
    let mut out = Printer::new(alloc);
    print_start(&mut out, label)?;
    Ok(out.into_string())
}

/// The response whose result is the JSON text `text`, which is put in as it is, and not read.
///
/// Only `Memory` is an error, after an allocation failure.
#[tactic(auto, unfolding(crate::specs::Reply::result_text))]
pub fn result_text(alloc: Global, label: &Label, text: &str) -> Result<String, AllocError>
    // The response into which a printed result is put. The law `symbols_spliced` says of which data it
    // is the compact text.
    ensures { IfOk result (λ s. string_bytes s ≡ text_of_result (label_model label.now) text.now) }
{
    let mut reply = result_start(alloc, label)?;
    reply.push_str(text)?;
    reply.push_str("}")?;
    Ok(reply)
}

/// The response of the descriptor that is printed as `descriptor`, at a revision of the sources.
#[tactic(auto, unfolding(crate::specs::Reply::result_text, crate::specs::Reply::descriptor_text))]
pub(crate) fn descriptor_text(
    alloc: Global,
    label: &Label,
    descriptor: &str,
    revision: u64,
) -> Result<String, AllocError>
    ensures { IfOk result (λ s. string_bytes s
        ≡ text_of_descriptor (label_model label.now) descriptor.now revision) }
{
    let number = format!(in alloc; "{revision}")?;
    let mut reply = result_start(alloc, label)?;
    reply.push_str("{\"file\":")?;
    reply.push_str(descriptor)?;
    reply.push_str(",\"revision\":\"")?;
    reply.push_str(number.as_str())?;
    reply.push_str("\"}}")?;
    Ok(reply)
}
