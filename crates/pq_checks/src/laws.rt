//! Laws of definitions and of the queries, each as the contract of a function that does nothing.
//!
//! A law of a query is of every sum of queries `S` and of every list `es` of questions with their
//! answers by which the query's own rule runs from its start to a value. It says what the questions
//! were, in order, and that the value is the definition, applied to what these answers say.
ghost use Rattle.std.specs.Prelude.{◌≡◌, ◌↔◌, ℕ, Bool, List, [], Contains};
ghost use Rattle.pq_checks.specs.Compile.{AreFaults};
ghost use Rattle.pq_checks.specs.DiagnosticOrder.{diagnostic_cmp};
ghost use Rattle.pq_checks.specs.Diagnostics.{AreDiagnosticsBy, IsDiagnostic, Stands, parsed_diagnostics};
ghost use Rattle.pq_checks.specs.aux.DiagnosticsTurns.{diagnostics_starts, diagnostics_advances};
ghost use Rattle.std.specs.declared.cmp.Ordering.TheVariants.{Equal};
ghost use Rattle.pq_rules.specs.declared.turn.Turn.TheVariants.{Done};
ghost use Rattle.pq_rules.specs.Embedding.{Runs};
ghost use Rattle.pq_checks.specs.Answers.{AreChecksBy};
ghost use Rattle.pq_checks.specs.aux.Queries.{check_starts, check_advances};
ghost use Rattle.pq_checks.specs.declared.queries.checked.CheckPart.{CheckPart};
ghost use Rattle.pq_checks.specs.declared.errors.diagnostic.Diagnosed.{Diagnosed};
ghost use Rattle.pq_checks.specs.declared.errors.diagnostic.Diagnostic.{Diagnostic};
ghost use Rattle.pq_checks.specs.declared.queries.diagnostics.DiagnosticsPart.{DiagnosticsPart};
ghost use Rattle.pq_checks.specs.Earlier.{of_each_after, IsSaidOfOne};
ghost use Rattle.pq_checks.specs.Faults.{faults, IsFault};
ghost use Rattle.pq_checks.specs.InOrder.{in_order, IsInOrder};
ghost use Rattle.pq_checks.specs.Surroundings.{Surroundings};
ghost use Rattle.pq_checks.specs.declared.errors.fault.Fault.{Fault};
ghost use Rattle.pq_inputs.specs.Sources.{Sources};
ghost use Rattle.pq_links.specs.Files.{nodes_of, read_in};
ghost use Rattle.pq_syntax.specs.declared.fault.Parsed.{Parsed};
ghost use Rattle.pq_syntax.specs.declared.tree.Node.{Node};

use crate::queries::keys::CheckKeys;

/// Where equal elements are one, a list put in order is the only list in order that contains what
/// it contains.
pub fn one_order<T: Ord>()
    // `ordered`, `members`, `only`: What `diagnostics_in_order` says, of any order in which equal
    // elements are one.
    ensures ordered { (xs : List T) → IsInOrder T.cmp (in_order T.cmp xs) }
    ensures members { ((x y : T) → T.cmp x y ≡ Equal → x ≡ y) → (xs : List T) (x : T) → Contains (in_order T.cmp xs) x ↔ Contains xs x }
    ensures only { ((x y : T) → T.cmp x y ≡ Equal → x ≡ y) → (xs ys : List T) → IsInOrder T.cmp ys → ((x : T) → Contains ys x ↔ Contains xs x) → ys ≡ in_order T.cmp xs }
{}

/// What is said of each element by those before it is what is said of some element.
pub fn said_of_one<A, B>()
    // What is said of each element of a list by those before it is what is said of some element.
    ensures { (f : List A → A → List B) (xs : List A) (x : B) → Contains (of_each_after f [] xs) x ↔ IsSaidOfOne f xs x }
{}

/// Diagnostics that are put in order rise by start, end, code as printed and message, and are the
/// same diagnostics; no other list is so.
pub fn diagnostics_in_order()
    // `ordered`, `members`, `only`: Diagnostics put in order rise strictly by start, end, code as
    // it is printed and message, are the same diagnostics, and no other list is so.
    ensures ordered { (ds : List Diagnostic) → IsInOrder diagnostic_cmp (in_order diagnostic_cmp ds) }
    ensures members { (ds : List Diagnostic) (d : Diagnostic) → Contains (in_order diagnostic_cmp ds) d ↔ Contains ds d }
    ensures only { (ds es : List Diagnostic) → IsInOrder diagnostic_cmp es → ((d : Diagnostic) → Contains es d ↔ Contains ds d) → es ≡ in_order diagnostic_cmp ds }
{}

/// The errors of a file are those that a line of the table says of one part of the file.
pub fn each_fault()
    // An error is among those of a file exactly if a line of the table says it of one part of the
    // file, by what comes before that part.
    ensures each { (s : Surroundings) (nodes : List Node) (f : Fault) → Contains (faults s nodes) f ↔ IsFault s nodes f }
{}

/// The tree of a file has the place of each error of the file by the table.
pub fn each_stands()
    // The tree of a file has the place of each error that the table gives.
    ensures stands { (loose : Bool) (files : Sources) (f : List ℕ) (fs : List Fault) (x : Fault) → AreFaults loose files f fs → Contains fs x → Stands (nodes_of (read_in loose files f)) x }
{}

/// A diagnostic of a text is its syntax error, or an error by the table at the span of its place.
pub fn each_diagnostic()
    // A diagnostic is among those of a text exactly if it is its syntax error, or an error of the
    // table at the span of its place. Of a text of another version of the language, the version is
    // information and no error.
    ensures each { (other : Bool) (fs : List Fault) (p : Parsed) (d : Diagnostic) → Contains (parsed_diagnostics other fs p) d ↔ IsDiagnostic other fs p d }
{}

/// The diagnostics of a file ask for what it is read as, then, exactly if that is a tree, for its
/// errors by the table, and are the diagnostics by these.
pub fn diagnostics_by_answers<S: CheckKeys>()
    // The query of a file's diagnostics asks its parse and then, exactly if that is a tree, its
    // checks, and ends in the diagnostics that these give.
    ensures gives { (f : List ℕ) (es : List (S.Key × S.Answer)) (d : Diagnosed) → Runs (λ (q : DiagnosticsPart) (a : S.Answer). diagnostics_advances S.checks (S.checked a) (S.parsed a) q) (diagnostics_starts S.parse f) es (Done d) → AreDiagnosticsBy S.checks S.parse S.checked S.parsed f es d }
{}

/// The checks of a file ask its tree without spans, its imports, its links, its definitions, its
/// scope and its resolved references, then the tree of each imported file without spans, and in a
/// bad file the links of each import up to the first cycle. They end in the errors of the file by
/// these answers.
pub fn checks_by_answers<S: CheckKeys>()
    // The query of a file's errors asks the keys below it in a fixed order, and ends in the errors
    // that the table gives by these answers.
    ensures gives { (f : List ℕ) (es : List (S.Key × S.Answer)) (v : List Fault) → Runs (λ (q : CheckPart) (a : S.Answer). check_advances (record { items = S.items; imports = S.imports; linked = S.linked; defs = S.defs; scope = S.scope; resolved = S.resolved; itemed = S.itemed; imported = S.imported; ring = S.ring; defined = S.defined; scoped = S.scoped; referred = S.referred }) q a) (check_starts S.items f) es (Done v) → AreChecksBy (record { items = S.items; imports = S.imports; linked = S.linked; defs = S.defs; scope = S.scope; resolved = S.resolved; itemed = S.itemed; imported = S.imported; ring = S.ring; defined = S.defined; scoped = S.scoped; referred = S.referred }) f es v }
{}
