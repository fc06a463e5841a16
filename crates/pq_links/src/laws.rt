//! Laws of the queries, each as the contract of a function that does nothing.
//!
//! Each of the first four is of every sum of queries `S`, and of every list `es` of questions with
//! their answers by which the query's own rule runs from its start to a value. It says what the
//! questions were, in order, and that the value is the definition, applied to what these answers
//! say. `links_in_rules` is of the answers in a rule set. The last two say by the walks of imports
//! and by the grammar what the definitions of links and of a file as it is read compute.
ghost use Rattle.std.specs.List.{IsDistinct};
ghost use Rattle.std.specs.Prelude.{◌≡◌, ◌↔◌, Bool, true, IsSome, List, ℕ, Option, Some, bytes_eq};
ghost use Rattle.pq_lex.specs.aux.LineMarks.{lines_of};
ghost use Rattle.pq_lex.specs.declared.token.Span.{Span};
ghost use Rattle.pq_syntax.specs.FaultPlace.{FaultStands, IsTree};
ghost use Rattle.pq_syntax.specs.Loose.{IsShown};
ghost use Rattle.pq_syntax.specs.declared.fault.Code.{Code};
ghost use Rattle.pq_syntax.specs.declared.fault.Parsed.TheVariants.{Fault, Tree};
ghost use Rattle.pq_syntax.specs.declared.tree.Node.{Node};
ghost use Rattle.pq_rules.specs.declared.turn.Turn.TheVariants.{Done};
ghost use Rattle.pq_inputs.specs.Sources.{Sources};
ghost use Rattle.pq_rules.specs.declared.turn.Answer.{Answer};
ghost use Rattle.pq_rules.specs.Embedding.{Runs};
ghost use Rattle.pq_rules.specs.Relations.{In};
ghost use Rattle.pq_rules.specs.Turns.{over};
ghost use Rattle.pq_rules.specs.Value.{Means};
ghost use Rattle.pq_links.specs.Answers.{IsParsedBy, AreItemsBy, AreImportsBy, AreLinksBy};
ghost use Rattle.pq_links.specs.Files.{braces_of, nothing_shown, read_file};
ghost use Rattle.pq_links.specs.ImportGraph.{Graph};
ghost use Rattle.pq_links.specs.Leading.{IsInView, LeadsPublicly, LeadsTo};
ghost use Rattle.pq_links.specs.LinkedKeys.{EmbedsLinks, LinkedIs};
ghost use Rattle.pq_links.specs.Visibility.{AreLinks};
ghost use Rattle.pq_links.specs.aux.Queries.{parse_starts, parse_advances, items_starts, items_advances, imports_starts, imports_advances, linked_starts, linked_advances};
ghost use Rattle.pq_links.specs.declared.file_items.FileItems.{FileItems};
ghost use Rattle.pq_links.specs.declared.files.ParsedFile.{ParsedFile};
ghost use Rattle.pq_links.specs.declared.files.ParsedFile.TheVariants.{Present};
ghost use Rattle.pq_links.specs.declared.linked.Linking.{Linking};
ghost use Rattle.pq_links.specs.declared.links.Import.{Import};
ghost use Rattle.pq_links.specs.declared.links.Links.{Links};

use crate::keys::LinkKeys;
use pq_rules::Rules;
use pq_syntax::{each_parse, each_shown, one_fault, one_tree};

/// The parse of a file asks its text, and ends in what a file with that text is read as.
pub fn parse_by_answers<S: LinkKeys>()
    // The query of a parse asks the file's text, and ends in the tree or first error of that text,
    // with what braces show of it, where they are read, and its lines.
    ensures gives { (loose : Bool) (f : List ℕ) (es : List (S.Key × S.Answer)) (v : ParsedFile) → Runs (λ (q : Unit {0}) (a : S.Answer). parse_advances loose (S.text a)) (parse_starts S.input f) es (Done v) → IsParsedBy loose S.input S.text f es v }
{}

/// The tree without spans of a file asks its parse, and ends in what that is without spans.
pub fn items_by_answers<S: LinkKeys>()
    // The query of trees without spans asks the file's parse, and ends in that without spans.
    ensures gives { (f : List ℕ) (es : List (S.Key × S.Answer)) (v : FileItems) → Runs (λ (q : Unit {0}) (a : S.Answer). items_advances (S.parsed a)) (items_starts S.parse f) es (Done v) → AreItemsBy S.parse S.parsed f es v }
{}

/// The imports of a file ask its tree without spans, and end in the imports of that, `None` where
/// the file is absent.
pub fn imports_by_answers<S: LinkKeys>()
    // The query of imports asks the file's tree without spans, and ends in its imports: each pair
    // of name and publicity once, in text order.
    ensures gives { (f : List ℕ) (es : List (S.Key × S.Answer)) (v : Option (List Import)) → Runs (λ (q : Unit {0}) (a : S.Answer). imports_advances (S.itemed a)) (imports_starts S.items f) es (Done v) → AreImportsBy S.items S.itemed f es v }
{}

/// The links of a file ask its imports and then the links of each imported file, in order, and end
/// in the links by these.
pub fn links_by_answers<S: LinkKeys>()
    // The query of links asks the file's imports and then the links of each imported file, in
    // order. It ends in the links that these answers make.
    ensures gives { (f : List ℕ) (es : List (S.Key × S.Answer)) (l : Links) → Runs (λ (q : Linking) (a : S.Answer). linked_advances S.linked (S.imported a) (S.links a) q) (linked_starts S.imports f) es (Done l) → AreLinksBy S.imports S.linked S.imported S.links f es l }
{}

/// In each rule set that embeds the query of links above the imports of a graph, the answer of a
/// file's links is what the graph says: the links of a good file, the ring of a bad one. If imports
/// have answers, then what the graph says is an answer.
pub fn links_in_rules<R: Rules>(_rules: &R)
    // In every rule set that embeds the query of links above the imports of a graph, the answer of
    // a good file's links is what it exports, sees and reaches. A bad file's is the cycle of its
    // ring: the ring into which first bad imports lead, from the least name on.
    ensures means { (files : Sources) (g : Graph) (imports : List ℕ → R.Key) (imports_read : Answer R.Key R.Value → Option (List Import)) (level : ℕ) (s : EmbedsLinks (over R.Key.cmp (R.machine _rules.now) files) g imports imports_read level) → (f : List ℕ) (a : Answer R.Key R.Value) → Means (over R.Key.cmp (R.machine _rules.now) files) (s.linked.key f) a → LinkedIs g s.linked.key s.linked.value f a }
    // What the graph says of a file's links is an answer, if every file's imports have one.
    ensures answers { (files : Sources) (g : Graph) (imports : List ℕ → R.Key) (imports_read : Answer R.Key R.Value → Option (List Import)) (level : ℕ) (s : EmbedsLinks (over R.Key.cmp (R.machine _rules.now) files) g imports imports_read level) → ((f : List ℕ) → (a : Answer R.Key R.Value) × Means (over R.Key.cmp (R.machine _rules.now) files) (imports f) a) → (f : List ℕ) (a : Answer R.Key R.Value) → LinkedIs g s.linked.key s.linked.value f a → Means (over R.Key.cmp (R.machine _rules.now) files) (s.linked.key f) a }
{}

/// A good file reaches exactly the present files that walks of imports lead to, and exports those
/// that walks of public imports lead to. It sees itself and what its imports export. Each of the
/// three lists has each name once.
pub fn reach_is_walks()
    // `reach`, `exports`: A present file is among those that a good file reaches exactly if it is
    // that file or a walk of imports leads to it; among those that it exports, exactly if a walk of
    // public imports does. Absent files are in no list.
    ensures reach { (g : Graph) (f h : List ℕ) (l : Links) → AreLinks g f l → In h l.reach ↔ (IsSome (g h) × LeadsTo g f h) }
    ensures exports { (g : Graph) (f h : List ℕ) (l : Links) → AreLinks g f l → In h l.exports ↔ (IsSome (g h) × LeadsPublicly g f h) }
    // A present file is among those that a good file sees exactly if it is that file, or public
    // imports lead to it from a file that it imports.
    ensures visible { (g : Graph) (f h : List ℕ) (l : Links) → AreLinks g f l → In h l.visible ↔ (IsSome (g h) × IsInView g f h) }
    // Each of the three lists has each name once. Their order is that of `Visibility`.
    ensures once { (g : Graph) (f : List ℕ) (l : Links) → AreLinks g f l → IsDistinct bytes_eq l.reach × IsDistinct bytes_eq l.exports × IsDistinct bytes_eq l.visible }
{}

/// A text is read as a tree exactly if that is its tree by the grammar, and as an error exactly if
/// that is its first error. The law `places_of_text` of `pq_proto` says the same of its lines.
pub fn read_by_grammar()
    // `tree`, `fault`: A text is read as a tree exactly if that is its tree by the grammar, and as
    // an error exactly if that is its first error, beside its lines. Beside an error is what braces
    // show, where they are read.
    ensures tree { (loose : Bool) (text : List ℕ) (nodes : List Node) → (read_file loose (Some text) ≡ Present (Tree nodes) nothing_shown (lines_of text)) ↔ IsTree text nodes }
    ensures fault { (loose : Bool) (text : List ℕ) (span : Span) (code : Code) → (read_file loose (Some text) ≡ Present (Fault span code) (braces_of loose text) (lines_of text)) ↔ FaultStands text span code }
    // Where braces are read, what is shown of a text with an error is what its braces show.
    ensures shown { (text : List ℕ) → IsShown text (braces_of true text).nodes }
{
    each_parse();
    each_shown();
    one_tree();
    one_fault();
}
