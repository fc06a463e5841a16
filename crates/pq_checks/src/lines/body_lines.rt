//! Errors P126 and P130: oneofs without a field, and enums without a value.
ghost use Rattle.std.specs.Prelude.{◌≡◌, ◌++◌, flat_map, map, IfOk};
ghost use Rattle.std.specs.Option.{option_cmp};
ghost use Rattle.std.specs.Ordering.{nat_cmp};
ghost use Rattle.pq_checks.specs.Faults.{body_faults};
ghost use Rattle.pq_checks.specs.aux.Seen.{member_seen};
ghost use Rattle.pq_checks.specs.aux.Sets.{Has, is_holder};

use crate::Memory;
use crate::errors::code::Code;
use crate::errors::fault::Fault;
use crate::errors::said::At;
use crate::errors::tell::tell_if;
use crate::tree::members::Member;
use pq_links::Part;
use std::alloc::Global;
use std::collections::BTreeSet;

/// The numbers of the statements in whose bodies `members` are.
fn holders(alloc: Global, members: &[Member<'_>]) -> Result<BTreeSet<Option<usize>>, Memory>
    ensures holders { IfOk result (λ s. Has (option_cmp nat_cmp) is_holder s (map member_seen members.now)) }
{
    let mut holders = BTreeSet::new(alloc);
    'each: for member in members {
        holders.insert(member.holder)?;
    }
    Ok(holders)
}

/// Adds the error of the code `code` with the message `text` for each of `bodies` in which none of
/// `members` is.
pub(crate) fn push_body_faults(
    alloc: Global,
    faults: &mut Vec<Fault>,
    bodies: &[usize],
    members: &[Member<'_>],
    code: Code,
    text: &str,
) -> Result<(), Memory>
    ensures { IfOk result (λ _. faults.new.items ≡ faults.old.items
        ++ flat_map (body_faults code text.now (map member_seen members.now)) bodies.now) }
{
    if bodies.is_empty() {
        return Ok(());
    }
    let holders = holders(alloc, members)?;
    'each: for body in bodies {
        let has_member = holders.contains(&Some(*body));
        let place = At {
            item: *body,
            part: Part::Name,
        };
        tell_if(alloc, faults, !has_member, place, code, text)?;
    }
    Ok(())
}
