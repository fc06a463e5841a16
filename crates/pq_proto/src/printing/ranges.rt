//! Positions and ranges (Language Server Protocol 3.17, "Position", "Range"), printed token by token.
ghost use Rattle.std.specs.Prelude.{◌≡◌, ◌++◌, OnOk};
ghost use Rattle.pq_proto.specs.Ranges.{position_data, range_data};
ghost use Rattle.pq_proto.specs.aux.Printed.{tokens_of};

use crate::Memory;
use crate::printing::printer::Printer;
use pq_lex::Position;

/// Prints the position `position`.
fn print_position(out: &mut Printer, position: Position) -> Result<(), Memory>
    ensures { OnOk result (out.new ≡ out.old ++ tokens_of (position_data position)) }
{
    out.begin_object()?;
    out.unsigned_member("character", position.character as u64)?;
    out.unsigned_member("line", position.line as u64)?;
    out.end_object()?;
    Ok(())
}

/// Prints the range from `start` to `end`. Only `Memory` is an error, after an allocation failure.
pub fn print_range(out: &mut Printer, start: Position, end: Position) -> Result<(), Memory>
    // The call adds the tokens that it names.
    ensures { OnOk result (out.new ≡ out.old ++ tokens_of (range_data start end)) }
{
    out.begin_object()?;
    out.key("end")?;
    print_position(out, end)?;
    out.key("start")?;
    print_position(out, start)?;
    out.end_object()?;
    Ok(())
}
