//! What the references of a file are found as.
//!
//! Where many references would be searched in many files, one index of names is made first.
ghost use Rattle.std.specs.Prelude.{◌≡◌, IfOk, flat_map, map, slice_get};
ghost use Rattle.pq_syntax.specs.Places.{places};
ghost use Rattle.pq_schema.specs.References.{references_at};
ghost use Rattle.pq_schema.specs.aux.Hits.{found_at};
ghost use Rattle.pq_schema.specs.aux.Inside.{found_use, used, used_as};
ghost use Rattle.pq_schema.specs.aux.Outward.{IsOutward};

use crate::names::nesting::innermost;
use crate::scope::files::{Files, larger};
use crate::search::along::Along;
use crate::search::inner::Inner;
use crate::search::lookup::{Lookup, is_few, most_of_one};
use crate::search::outward::Outward;
use crate::search::references::is_scalar;
use crate::search::search::Hit;
use crate::search::spots::spots_of;
use crate::search::walk::{find_under, near_of};
use pq_links::TypePart;
use pq_names::Memory;
use pq_syntax::{Node, Statement};
use std::alloc::Global;

/// A reference of a file, with what it is found as.
#[derive(Clone, Copy)]
pub(crate) struct Use<'a> {
    pub(crate) item: usize,
    pub(crate) part: TypePart,
    pub(crate) hit: Hit<'a>,
}

/// How many bytes are copied or compared in the time of a search of one file.
const BYTES: usize = 64;

/// What decides the cost of looking up the references of a file.
#[derive(Clone, Copy)]
struct Demand {
    /// The number of references without a dot.
    simple: usize,
    /// The number of references with a dot.
    dotted: usize,
    /// The most bytes that a message's own name has.
    longest: usize,
}

impl Demand {
    /// Counts the reference to `name`.
    fn count(&mut self, name: &str) {
        if name.contains('.') {
            self.dotted = self.dotted.saturating_add(1);
        } else {
            self.simple = self.simple.saturating_add(1);
        }
    }

    /// Counts the reference of a field's type `name`, unless that is a scalar.
    fn count_type(&mut self, name: &str) {
        if !is_scalar(name) {
            self.count(name);
        }
    }

    /// Counts the references and the name of `statement`.
    fn add(&mut self, statement: &Statement) {
        match statement {
            Statement::Field { type_name, .. } => self.count_type(type_name.text.as_str()),
            Statement::MapField { value, .. } => self.count_type(value.text.as_str()),
            Statement::Method { input, output, .. } => {
                self.count(input.type_name.text.as_str());
                self.count(output.type_name.text.as_str());
            }
            Statement::Message { name } => {
                self.longest = larger(self.longest, name.text.as_str().len());
            }
            _ => {}
        }
    }
}

/// What decides the cost of looking up the references of `nodes`.
fn demand_of(nodes: &[Node]) -> Demand {
    let mut demand = Demand {
        simple: 0,
        dotted: 0,
        longest: 0,
    };
    'nodes: for i in 0..nodes.len() {
        demand.add(&nodes[i].statement);
    }
    demand
}

/// How many searches of one file the look-ups of the references of `nodes` in `files` take where there
/// is no index. They are used in a file of the package `root`.
fn searches_of(alloc: Global, files: &Files, root: &str, nodes: &[Node]) -> Result<usize, Memory> {
    let demand = demand_of(nodes);
    let near = files.near(alloc, innermost(root))?.len();
    let most = larger(near, most_of_one(files.packages()));
    // The scope of each reference is compared, and a dotted name may be copied.
    let scope = root.len().saturating_add(demand.longest) / BYTES;
    let simple = demand.simple.saturating_mul(near.saturating_add(scope));
    let dotted = demand.dotted.saturating_mul(most.saturating_add(scope));
    Ok(simple.saturating_add(dotted))
}

/// The files `files`, for the look-up of the references of `nodes`, which are used in a file of the
/// package `root`.
fn lookup_for<'a>(
    alloc: Global,
    files: &'a Files,
    root: &str,
    nodes: &[Node],
) -> Result<Lookup<'a>, Memory>
    ensures files { IfOk result (λ l. l ≡ files.now) }
{
    if is_few(files) {
        return Lookup::few(alloc, files);
    }
    let searches = searches_of(alloc, files, root, nodes)?;
    Lookup::new(alloc, files, searches)
}

/// The references of a file of the package of `outward` with the statements `nodes`, in text order.
fn find_all<'a>(
    alloc: Global,
    files: &Lookup<'a>,
    outward: Outward<'_>,
    nodes: &[Node],
) -> Result<Vec<Use<'a>>, Memory>
    requires outward { IsOutward files.now outward.along.now outward.root.now outward.spots.now }
    ensures found { IfOk result (λ v. map used v.items
        ≡ map (used_as files.now) (flat_map (references_at outward.entry.root.now) (places nodes.now))) }
{
    let root = Inner::package(alloc, outward.root)?;
    let near = near_of(alloc, files, root.get().name().copy()?, outward.root)?;
    find_under(alloc, files, outward, &root, nodes, near)
}

/// The references of a file of the package `root` with the statements `nodes`, each with what it is
/// found as in `files`, in text order.
pub(crate) fn find_each<'a>(
    alloc: Global,
    files: &'a Files,
    root: &str,
    nodes: &[Node],
) -> Result<Vec<Use<'a>>, Memory>
    ensures found { IfOk result (λ v. map used v.items
        ≡ map (used_as files.now) (flat_map (references_at root.now) (places nodes.now))) }
{
    let lookup = lookup_for(alloc, files, root, nodes)?;
    let along = Along::new(alloc, files, root)?;
    let spots = spots_of(alloc, files, root)?;
    let outward = Outward {
        root,
        along: &along,
        spots: &spots,
    };
    find_all(alloc, &lookup, outward, nodes)
}

/// What the use at `index` is found as, or nothing past the end of `uses`.
pub(crate) fn hit_or_nothing<'a>(uses: &[Use<'a>], index: usize) -> Hit<'a>
    ensures is { found_at result ≡ found_use (slice_get uses.now index) }
{
    match uses.get(index) {
        Some(one) => one.hit,
        None => Hit::Nothing,
    }
}
