//! Laws of the queries and of the rule set, each as the contract of a function that does nothing.
//!
//! A law of a query is of every sum of queries `S` and of every list `es` of questions with their
//! answers by which the query's own rule runs from its start to a value. It says what the questions
//! were, in order, and that the value is the definition, applied to what these answers say.
ghost use Rattle.std.specs.Prelude.{◌≡◌, Bool, List, ℕ, ◌↔◌, false, true};
ghost use Rattle.pq_inputs.specs.Sources.{Sources};
ghost use Rattle.pq_rules.specs.declared.turn.Answer.{Answer};
ghost use Rattle.pq_rules.specs.declared.turn.Turn.TheVariants.{Done};
ghost use Rattle.pq_rules.specs.Embedding.{Runs};
ghost use Rattle.pq_rules.specs.Turns.{over};
ghost use Rattle.pq_rules.specs.Value.{Means};
ghost use Rattle.pq_schema.specs.aux.Equal.{same_defs};
ghost use Rattle.pq_links.specs.Files.{nodes_in};
ghost use Rattle.pq_links.specs.ImportGraph.{Graph, IsBad, IsRingOf};
ghost use Rattle.pq_schema.specs.Answers.{AreDefsBy, IsScopeBy, AreResolvedBy};
ghost use Rattle.pq_schema.specs.Compile.{Compiles};
ghost use Rattle.pq_schema.specs.Contents.{Defs};
ghost use Rattle.pq_schema.specs.SchemaSum.{SchemaSum, SchemaMeans};
ghost use Rattle.pq_schema.specs.ScopeContents.{Scope};
ghost use Rattle.pq_schema.specs.aux.Queries.{defs_starts, defs_advances, scope_starts, scope_advances, resolved_starts, resolved_advances};
ghost use Rattle.pq_schema.specs.aux.RuleSet.{schema_rules};
ghost use Rattle.pq_schema.specs.declared.queries.resolved.ResolvedPart.{ResolvedPart};
ghost use Rattle.pq_schema.specs.declared.queries.resolved.ResolvedReference.{ResolvedReference};
ghost use Rattle.pq_schema.specs.declared.queries.rules.SchemaKey.{SchemaKey};
ghost use Rattle.pq_schema.specs.declared.queries.rules.SchemaValue.{SchemaValue};
ghost use Rattle.pq_schema.specs.declared.queries.scopes.ScopePart.{ScopePart};

use crate::queries::keys::SchemaKeys;
use crate::queries::rules::SchemaKey;
use pq_rules::Rules;

/// `==` of what two files define holds exactly if contracts see the same package and definitions.
pub fn equal_defs()
    // `equal_are_same`, `same_are_equal`: `==` of definitions, and of scopes, holds exactly if
    // contracts see the same.
    ensures equal_are_same { (a b : Defs) → same_defs a b ≡ true → a ≡ b }
    ensures same_are_equal { (a b : Defs) → a ≡ b → same_defs a b ≡ true }
{}

/// The definitions of a file ask for its tree without spans, and end in the definitions of that.
pub fn defs_by_answers<S: SchemaKeys>()
    // What the query asks, in order, and that it ends in the definition applied to what the answers
    // say.
    ensures gives { (f : List ℕ) (es : List (S.Key × S.Answer)) (v : Defs) → Runs (λ (q : Unit {0}) (a : S.Answer). defs_advances (nodes_in (S.itemed a))) (defs_starts S.items f) es (Done v) → AreDefsBy S.items S.itemed f es v }
{}

/// The scope of a file asks its links and then the definitions of each file that these reach, in
/// order, and ends in the scope by these.
pub fn scope_by_answers<S: SchemaKeys>()
    // What the query asks, in order, and that it ends in the definition applied to what the answers
    // say.
    ensures gives { (f : List ℕ) (es : List (S.Key × S.Answer)) (s : Scope) → Runs (λ (q : ScopePart) (a : S.Answer). scope_advances S.defs (S.links a) (S.defined a) q) (scope_starts S.linked f) es (Done s) → IsScopeBy S.linked S.defs S.links S.defined f es s }
{}

/// The resolved references of a file ask its scope and its tree without spans, and end in its type
/// references, each with what it resolves to in that scope.
pub fn resolved_by_answers<S: SchemaKeys>()
    // What the query asks, in order, and that it ends in the definition applied to what the answers
    // say.
    ensures gives { (f : List ℕ) (es : List (S.Key × S.Answer)) (rs : List ResolvedReference) → Runs (λ (q : ResolvedPart) (a : S.Answer). resolved_advances S.items (S.scoped a) (nodes_in (S.itemed a)) q) (resolved_starts S.scope f) es (Done rs) → AreResolvedBy S.scope S.items S.scoped S.itemed f es rs }
{}

/// A file that leads into a ring of imports, and so has an empty scope, is bad: walks of every
/// length start at it.
pub fn rings_are_bad()
    // A file that leads into a ring of imports is bad: import walks of every length start at it.
    ensures bad { (g : Graph) (f : List ℕ) (ring : List (List ℕ)) → IsRingOf g f ring → IsBad g f }
{}

/// In every rule set that embeds the seven queries, at all sources, the answers of their keys are
/// exactly what the files compile to.
pub fn schema_in_rules<R: Rules>(_rules: &R)
    // What `schema_values` says, in every rule set that embeds the seven queries, so in every
    // larger one, whether its parse reads braces or not.
    ensures means { (loose : Bool) (files : Sources) (s : SchemaSum (over R.Key.cmp (R.machine _rules.now) files) loose files) → SchemaMeans (over R.Key.cmp (R.machine _rules.now) files) loose files s }
{}

/// At all sources, what a key of the rule set means is exactly what it compiles to.
pub fn schema_values()
    // At all sources, what a key of `SchemaRules` means is exactly what it compiles to, where braces
    // are not read. The keys
    // are those of a file's text, parse, tree without spans, imports, links or ring, definitions,
    // scope and resolved references.
    ensures means { (files : Sources) (key : SchemaKey) (a : Answer SchemaKey SchemaValue) → Means (over ⟦<SchemaKey as Ord>⟧.cmp schema_rules files) key a ↔ Compiles false files key a }
{}
