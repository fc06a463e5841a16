//! Laws: what holds of every text, its tree, its error and the outcome of `parse`.

ghost use Rattle.std.specs.List.{All};
ghost use Rattle.std.specs.Prelude.{◌≡◌, List, ℕ, length, true};
ghost use Rattle.pq_lex.specs.declared.token.Span.{Span};
ghost use Rattle.pq_lex.specs.Tokens.{span};
ghost use Rattle.pq_syntax.specs.FaultPlace.{FaultStands, IfFaulty, IfTree, IsTree};
ghost use Rattle.pq_syntax.specs.Spans.{IsPlaced, Within};
ghost use Rattle.pq_syntax.specs.aux.Equal.{same_parses, same_trees};
ghost use Rattle.pq_syntax.specs.aux.Parsed.{parsed};
ghost use Rattle.pq_syntax.specs.declared.fault.Code.{Code};
ghost use Rattle.pq_syntax.specs.declared.fault.Parsed.{Parsed};
ghost use Rattle.pq_syntax.specs.declared.tree.Node.{Node};

use pq_lex::{each_text, one_lexing, tokens_in_order};

/// Each text has the tree or the error that `parsed` computes.
/// With `one_tree` and `one_fault`, the grammar alone determines `parsed`.
pub fn each_parse()
    // The value of `parsed` is the tree of the text, or its error: each text has one of the two.
    ensures { (text : List ℕ) →
        IfTree (IsTree text) (parsed text) × IfFaulty (FaultStands text) (parsed text) }
{
    each_text();
}

/// A text has at most one tree.
pub fn one_tree()
    // A text has at most one tree.
    ensures { (text : List ℕ) (nodes others : List Node) →
        IsTree text nodes → IsTree text others → nodes ≡ others }
{
    one_lexing();
    each_text();
}

/// A text has at most one error, and no error if it has a tree.
pub fn one_fault()
    // `one`, `none`: A text has at most one error, and none if it has a tree.
    ensures one { (text : List ℕ) (span other : Span) (code another : Code) →
        FaultStands text span code → FaultStands text other another →
        (span ≡ other) × (code ≡ another) }
    ensures none { (text : List ℕ) (nodes : List Node) (span : Span) (code : Code) →
        IsTree text nodes → FaultStands text span code → ⊥ }
{
    one_lexing();
    each_text();
}

/// Each statement of a tree lies in the text, and each of its parts lies in the statement. An error
/// lies in the text.
pub fn spans_within()
    // `tree`, `fault`: The spans of each text's tree lie in the text and within their statements,
    // and the span of its error lies in the text.
    ensures tree { (text : List ℕ) (nodes : List Node) →
        IsTree text nodes → All (IsPlaced (length text)) nodes }
    ensures fault { (text : List ℕ) (at : Span) (code : Code) →
        FaultStands text at code → Within at (span 0 (length text)) }
{
    tokens_in_order();
}

/// `==` of two trees, also through a bound `T: PartialEq`, holds exactly if contracts see the same
/// nodes.
pub fn equal_trees()
    // `equal_are_same`, `same_are_equal`: `==` of trees, and of outcomes of `parse`, holds exactly
    // if their models are equal, also through a bound.
    ensures equal_are_same { (a b : List Node) → same_trees a b ≡ true → a ≡ b }
    ensures same_are_equal { (a b : List Node) → a ≡ b → same_trees a b ≡ true }
{}

/// `==` of two outcomes holds exactly if contracts see the same outcome.
pub fn equal_parses()
    // `equal_are_same`, `same_are_equal`: `==` of trees, and of outcomes of `parse`, holds exactly
    // if their models are equal, also through a bound.
    ensures equal_are_same { (a b : Parsed) → same_parses a b ≡ true → a ≡ b }
    ensures same_are_equal { (a b : Parsed) → a ≡ b → same_parses a b ≡ true }
{}
