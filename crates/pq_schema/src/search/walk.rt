//! The walk over the statements of a file that looks up its references.
//!
//! The walk keeps the open scopes, each with what is before a name in it. So a reference costs its
//! look-ups, and no scope is compared or copied for it.
ghost use Rattle.std.specs.Prelude.{◌≡◌, ◌++◌, ◌∷◌, ℕ, List, [], IfOk, OnOk, flat_map, get_or, map};
ghost use Rattle.pq_syntax.specs.Places.{places};
ghost use Rattle.pq_schema.specs.References.{references_at, references_by, type_reference};
ghost use Rattle.pq_schema.specs.Resolution.{scopes, search};
ghost use Rattle.pq_schema.specs.aux.Asked.{AreAsked};
ghost use Rattle.pq_schema.specs.aux.Hits.{found_at};
ghost use Rattle.pq_schema.specs.aux.Inside.{AreInner, IsNear, opened, opened_by, used, used_as};
ghost use Rattle.pq_schema.specs.aux.NameParts.{leading};
ghost use Rattle.pq_schema.specs.aux.Outward.{IsOutward};
ghost use Rattle.pq_schema.specs.aux.PackageRange.{IsRange, IsRangeOf};
ghost use Rattle.pq_schema.specs.aux.Walk.{IsWalk};
ghost use Rattle.pq_schema.specs.declared.scope.scope.FileDefs.{FileDefs};

use crate::define::outline::innermost;
use crate::names::full_name::FullName;
use crate::scope::package_range::PackageRange;
use crate::search::asked::{Asked, open_scopes};
use crate::search::inner::{Inner, inner_of};
use crate::search::lookup::Lookup;
use crate::search::origin::Origin;
use crate::search::outward::Outward;
use crate::search::references::is_scalar;
use crate::search::search::{Hit, find, near_scopes};
use crate::search::uses::Use;
use pq_links::TypePart;
use pq_names::Memory;
use pq_rules::Shared;
use pq_syntax::{Name, Node, Stack, Statement};
use std::alloc::Global;

/// A scope, and the places of the files whose package is one of the scopes from it outwards.
#[derive(Drop)]
pub(crate) struct Nearby {
    within: FullName,
    places: Vec<usize>,
}

/// The scope `within`, whose text is `text`, with the places of those of `files`.
pub(crate) fn near_of(
    alloc: Global,
    files: &Lookup<'_>,
    within: FullName,
    text: &str,
) -> Result<Nearby, Memory>
    requires text { text.now ≡ within }
    ensures near { IfOk result (λ n. IsNear files.now n) }
    ensures within { IfOk result (λ n. n.within ≡ within) }
{
    let places = near_scopes(alloc, files, text)?;
    Ok(Nearby { within, places })
}

/// Makes `last` that of the scope `within`.
fn look_near(
    alloc: Global,
    files: &Lookup<'_>,
    within: &FullName,
    last: &mut Nearby,
) -> Result<(), Memory>
    requires near { IsNear files.now last.old }
    ensures near { OnOk result (IsNear files.now last.new) }
    ensures within { OnOk result (last.new.within ≡ within.now) }
{
    if last.within == *within {
        return Ok(());
    }
    let text = within.text(alloc)?;
    *last = near_of(alloc, files, within.copy()?, text.as_str())?;
    Ok(())
}

/// What a walk keeps from statement to statement.
#[derive(Drop)]
pub(crate) struct Walk<'a> {
    /// The scope in which a name was looked up last.
    near: Nearby,
    /// What was looked up in the open scopes.
    asked: Vec<Asked<'a>>,
    /// The references so far.
    uses: Vec<Use<'a>>,
}

impl<'a> Walk<'a> {
    /// What `name` is found as from the scope of `origin` outwards.
    fn find(&mut self, origin: Origin<'a, '_>, name: &str) -> Result<Hit<'a>, Memory>
        requires walk { IsWalk origin self.old }
        ensures is { IfOk result (λ hit. found_at hit ≡ search origin.entry.files.now (scopes origin.entry.scope.now.0) name.now) }
        ensures walk { OnOk result (IsWalk origin.entry self.new) }
        ensures uses { OnOk result (self.new.uses.items ≡ self.old.uses.items) }
    {
        match origin.files.all() {
            Some(all) => find(origin, all, &mut self.asked, name),
            None => {
                look_near(
                    origin.alloc,
                    origin.files,
                    origin.scope.name(),
                    &mut self.near,
                )?;
                find(origin, &self.near.places, &mut self.asked, name)
            }
        }
    }

    /// Adds the reference to `name` that the part `part` of the item `item` is.
    fn put(
        &mut self,
        origin: Origin<'a, '_>,
        item: usize,
        part: TypePart,
        name: &Name,
    ) -> Result<(), Memory>
        requires walk { IsWalk origin self.old }
        ensures found { OnOk result (map used self.new.uses.items ≡ map used self.old.uses.items
            ++ used_as origin.entry.files.now (record { item = item; part = part; within = origin.entry.scope.now.0; name = name.now.text }) ∷ []) }
        ensures walk { OnOk result (IsWalk origin.entry self.new) }
    {
        let hit = self.find(origin, name.text.as_str())?;
        self.uses.push(Use { item, part, hit })?;
        Ok(())
    }

    /// Adds the reference of a field's type `name`, unless that is a scalar.
    fn put_type(&mut self, origin: Origin<'a, '_>, item: usize, name: &Name) -> Result<(), Memory>
        requires walk { IsWalk origin self.old }
        ensures found { OnOk result (map used self.new.uses.items ≡ map used self.old.uses.items
            ++ map (used_as origin.entry.files.now) (type_reference item origin.entry.scope.now.0 name.now.text)) }
        ensures walk { OnOk result (IsWalk origin.entry self.new) }
    {
        if is_scalar(name.text.as_str()) {
            return Ok(());
        }
        self.put(origin, item, TypePart::Type, name)
    }

    /// Adds the references of the item `item` with the statement `statement`, used in the scope of
    /// `origin`.
    fn refer(
        &mut self,
        origin: Origin<'a, '_>,
        item: usize,
        statement: &Statement,
    ) -> Result<(), Memory>
        requires walk { IsWalk origin self.old }
        ensures found { OnOk result (map used self.new.uses.items ≡ map used self.old.uses.items
            ++ map (used_as origin.entry.files.now) (references_by origin.entry.scope.now.0 item statement.now)) }
        ensures walk { OnOk result (IsWalk origin.entry self.new) }
    {
        match statement {
            Statement::Field { type_name, .. } => self.put_type(origin, item, type_name),
            Statement::MapField { value, .. } => self.put_type(origin, item, value),
            Statement::Method { input, output, .. } => {
                self.put(origin, item, TypePart::Input, &input.type_name)?;
                self.put(origin, item, TypePart::Output, &output.type_name)
            }
            Statement::Import { .. }
            | Statement::Package { .. }
            | Statement::Option(_)
            | Statement::Message { .. }
            | Statement::Oneof { .. }
            | Statement::ReservedNumbers(_)
            | Statement::ReservedNames(_)
            | Statement::Enum { .. }
            | Statement::Value { .. }
            | Statement::Service { .. }
            | Statement::Extend { .. } => Ok(()),
        }
    }
}

/// The packages inside the scope `name` that is inside the innermost scope of `asked`, or inside the
/// package of the file, whose packages are `outermost`, if there is none.
fn packages_of<'a>(
    outermost: PackageRange<'a>,
    asked: &[Asked<'a>],
    name: &str,
) -> Option<PackageRange<'a>>
    ensures packages { (files : List FileDefs) (root : List ℕ) (scope : List ℕ × List (List ℕ)) → IsRange files (leading root) outermost.entry
        → AreInner scope.1 root scope.0 → AreAsked files scope.1 asked.now
        → IsRangeOf files result (get_or (opened name.now scope).1 0 []) }
{
    if name.is_empty() {
        return None;
    }
    let outer = match asked.last() {
        Some(scope) => scope.packages?,
        None => outermost,
    };
    Some(outer.inside(name))
}

/// The packages inside the scope of what `statement` contains, if it opens one.
fn packages_in<'a>(
    outermost: PackageRange<'a>,
    asked: &[Asked<'a>],
    statement: &Statement,
) -> Option<PackageRange<'a>>
    ensures packages { (files : List FileDefs) (root : List ℕ) (scope : List ℕ × List (List ℕ)) → IsRange files (leading root) outermost.entry
        → AreInner scope.1 root scope.0 → AreAsked files scope.1 asked.now
        → IsRangeOf files result (get_or (opened_by statement.now scope).1 0 []) }
{
    match statement {
        Statement::Message { name } => packages_of(outermost, asked, name.text.as_str()),
        Statement::Service { name } => packages_of(outermost, asked, name.text.as_str()),
        _ => None,
    }
}

/// The references of a file of the package of `outward` with the statements `nodes`, in text order.
pub(crate) fn find_under<'a>(
    alloc: Global,
    files: &Lookup<'a>,
    outward: Outward<'_>,
    root: &Shared<Inner>,
    nodes: &[Node],
    near: Nearby,
) -> Result<Vec<Use<'a>>, Memory>
    requires near { IsNear files.now near }
    requires outward { IsOutward files.now outward.along.now outward.root.now outward.spots.now }
    requires root { root.now ≡ (outward.root.now, []) }
    ensures found { IfOk result (λ v. map used v.items
        ≡ map (used_as files.now) (flat_map (references_at outward.entry.root.now) (places nodes.now))) }
{
    let outermost = files.packages_in(outward.root);
    let mut stack: Stack<Shared<Inner>> = Stack::new(alloc);
    let asked = Vec::new(alloc);
    let uses = Vec::new(alloc);
    let mut walk = Walk { near, asked, uses };
    'items: for item in 0..nodes.len() {
        let node = &nodes[item];
        stack.close_to(node.depth);
        let outer = innermost(&stack, root);
        let scope = outer.get();
        let origin = Origin {
            alloc,
            files,
            outward,
            scope,
        };
        walk.asked.truncate(scope.depth());
        let inside = inner_of(alloc, &node.statement, outer)?;
        walk.refer(origin, item, &node.statement)?;
        let packages = packages_in(outermost, &walk.asked, &node.statement);
        open_scopes(alloc, &mut walk.asked, inside.get().depth(), packages)?;
        stack.open(node.depth, inside)?;
    }
    Ok(walk.uses)
}
