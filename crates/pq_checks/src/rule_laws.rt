//! A law of the queries in a rule set, as the contract of a function that does nothing.
ghost use Rattle.std.specs.Prelude.{Bool};
ghost use Rattle.pq_inputs.specs.Sources.{Sources};
ghost use Rattle.pq_rules.specs.Turns.{over};
ghost use Rattle.pq_schema.specs.SchemaSum.{SchemaSum};
ghost use Rattle.pq_checks.specs.ChecksSum.{ChecksSum, ChecksMeans};

use pq_rules::Rules;

/// In every rule set that embeds the queries of checks and of diagnostics beside those of a schema,
/// at all sources, the answers of these keys are exactly what the sources say of the file's errors.
pub fn checks_in_rules<R: Rules>(_rules: &R)
    // In every rule set that embeds the two queries beside those of a schema, at all sources, the
    // answers of these keys are exactly what the sources say of the file's errors, and of its
    // diagnostics.
    ensures means { (loose : Bool) (files : Sources) (s : SchemaSum (over R.Key.cmp (R.machine _rules.now) files) loose files) (c : ChecksSum (over R.Key.cmp (R.machine _rules.now) files) loose files s) → ChecksMeans (over R.Key.cmp (R.machine _rules.now) files) loose files s c }
{}
