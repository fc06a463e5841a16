//! Where a name is searched for: a scope of a file, in which it is used, and the files that define
//! names.
ghost use Rattle.std.specs.Prelude.{◌≡◌, ◌++◌, ◌<◌, [], get_or, length};
ghost use Rattle.pq_schema.specs.Resolution.{meaning};
ghost use Rattle.pq_schema.specs.aux.Hits.{meaning_at};
ghost use Rattle.pq_schema.specs.aux.Spots.{IsPlain};
ghost use Rattle.pq_schema.specs.aux.Walk.{IsOrigin};

use crate::scope::named::Place;
use crate::search::inner::Inner;
use crate::search::lookup::Lookup;
use crate::search::outward::Outward;
use std::alloc::Global;

/// A scope of a file, what a search from its package outwards needs to know, and the files that are
/// searched.
#[derive(Clone, Copy)]
pub(crate) struct Origin<'a, 'w> {
    pub(crate) alloc: Global,
    pub(crate) files: &'w Lookup<'a>,
    pub(crate) outward: Outward<'w>,
    pub(crate) scope: &'w Inner,
}

impl<'a> Origin<'a, '_> {
    /// The first definition of the name `name`, which has no dot, in the scope `at` outwards.
    /// `near` has the places of the files whose package is one of the scopes.
    pub(crate) fn definition(self, near: &[usize], at: usize, name: &str) -> Option<Place<'a>>
        requires origin { IsOrigin self near.now }
        requires at { at < length self.scope.now.1 }
        requires plain { IsPlain name.now }
        ensures first { meaning_at result ≡ meaning self.entry.files.now (get_or self.entry.scope.now.1 at [] ++ name.now) }
    {
        let lead = self.scope.lead(at);
        let full = lead.spell(name);
        self.files.definition_below(self.outward.along, near, &full)
    }
}
