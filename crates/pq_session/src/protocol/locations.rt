//! Locations (LSP 3.17, "Location"), printed token by token.
ghost use Rattle.std.specs.Prelude.{◌≡◌, ◌++◌, OnOk};
ghost use Rattle.pq_proto.specs.aux.Printed.{tokens_of};
ghost use Rattle.pq_session.specs.Reply.{located_data};

use pq_lex::Position;
use pq_proto::{Printer, print_range};
use std::alloc::AllocError;

/// Prints the location from `start` to `end` in the file of `uri`.
pub(crate) fn print_location(
    out: &mut Printer,
    uri: &str,
    start: Position,
    end: Position,
) -> Result<(), AllocError>
    ensures { OnOk result (out.new ≡ out.old ++ tokens_of (located_data uri.now start end)) }
{
    out.begin_object()?;
    out.key("range")?;
    print_range(out, start, end)?;
    out.text_member("uri", uri)?;
    out.end_object()?;
    Ok(())
}
