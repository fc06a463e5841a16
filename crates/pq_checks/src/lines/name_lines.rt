//! Errors P124 and P135: names of members that are reserved.
ghost use Rattle.std.specs.Prelude.{◌≡◌, ◌++◌, flat_map, map, IfOk};
ghost use Rattle.pq_checks.specs.Faults.{name_faults};
ghost use Rattle.pq_checks.specs.aux.Lines.{name_cmp};
ghost use Rattle.pq_checks.specs.aux.Seen.{member_seen, name_seen};
ghost use Rattle.pq_checks.specs.aux.Sets.{Has, is_name};

use crate::Memory;
use crate::errors::code::Code;
use crate::errors::fault::Fault;
use crate::errors::said::At;
use crate::errors::tell::tell_name;
use crate::tree::members::{Member, ReservedName};
use pq_links::Part;
use std::alloc::Global;
use std::collections::BTreeSet;

/// A name in a message or an enum: the number of its statement, and the bytes of the name.
type NameKey<'a> = (Option<usize>, &'a [u8]);

/// The set of the reserved names `names`.
fn name_set<'a>(alloc: Global, names: &[ReservedName<'a>]) -> Result<BTreeSet<NameKey<'a>>, Memory>
    ensures names { IfOk result (λ s. Has name_cmp is_name s (map name_seen names.now)) }
{
    let mut set = BTreeSet::new(alloc);
    'each: for i in 0..names.len() {
        let name = &names[i];
        set.insert((name.owner, name.value.value.as_slice()))?;
    }
    Ok(set)
}

/// Adds the error of the code `code` for each of `members` whose name is one of the reserved names
/// `names`. Its message begins with `before`.
pub(crate) fn push_name_faults<'a>(
    alloc: Global,
    faults: &mut Vec<Fault>,
    members: &[Member<'a>],
    names: &[ReservedName<'a>],
    code: Code,
    before: &str,
) -> Result<(), Memory>
    ensures { IfOk result (λ _. faults.new.items ≡ faults.old.items
        ++ flat_map (name_faults code before.now (map name_seen names.now)) (map member_seen members.now)) }
{
    let reserved = name_set(alloc, names)?;
    'each: for member in members {
        let name = member.name.text.as_str();
        let key = (member.owner, name.as_bytes());
        let holds = reserved.contains(&key);
        let place = At {
            item: member.item,
            part: Part::Name,
        };
        tell_name(
            alloc,
            faults,
            holds,
            place,
            code,
            before,
            name,
            " is reserved",
        )?;
    }
    Ok(())
}
