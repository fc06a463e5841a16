//! Lists of what the statements of a body make, printed by one walk over the body.
ghost use Rattle.std.specs.Prelude.{◌≡◌, ◌++◌, OnOk};
ghost use Rattle.pq_proto.specs.Bodies.{each};
ghost use Rattle.pq_proto.specs.Lists.{list_data};
ghost use Rattle.pq_proto.specs.aux.Printed.{tokens_of, values_of};
ghost use Rattle.pq_proto.specs.aux.Rests.{left};

use crate::Memory;
use crate::bodies::{Body, Held};
use crate::printing::printer::Printer;
use std::alloc::Global;

/// What is printed of each statement of a body.
pub(crate) trait Part {
    ghost use Rattle.std.specs.Prelude.{List};
    ghost use Rattle.serde_json.specs.Data.{Data};
    ghost use Rattle.pq_syntax.specs.Places.{Item};
    ghost use Rattle.pq_proto.specs.Bodies.{Body as Statements};

    ghost made: { Self → Item → Statements → List Data };

    /// Prints what the statement `held` makes.
    fn print(&self, alloc: Global, out: &mut Printer, held: &Held<'_>) -> Result<(), Memory>
        ensures { OnOk result (out.new ≡ out.old ++ values_of
            (made self.now (record { number = held.now.number; node = held.now.node.now }) (left held.now.inside))) };
}

/// Prints what `part` makes of each statement of `body`, one after the other.
pub(crate) fn print_each<P: Part>(
    alloc: Global,
    out: &mut Printer,
    body: &Body<'_>,
    part: &P,
) -> Result<(), Memory>
    ensures { OnOk result (out.new ≡ out.old ++ values_of (each (P.made part.now) (left body.now))) }
{
    let mut rest = body.copy();
    'statements: while let Some(held) = rest.next() {
        part.print(alloc, out, &held)?;
    }
    Ok(())
}

/// Prints the list of what `part` makes of the statements of `body`.
#[tactic(auto, using(crate::proofs::ListSteps::list_tokens))]
pub(crate) fn print_list<P: Part>(
    alloc: Global,
    out: &mut Printer,
    body: &Body<'_>,
    part: &P,
) -> Result<(), Memory>
    ensures { OnOk result (out.new
        ≡ out.old ++ tokens_of (list_data (each (P.made part.now) (left body.now)))) }
{
    out.begin_array()?;
    print_each(alloc, out, body, part)?;
    out.end_array()?;
    Ok(())
}
