//! Laws of what braces show, each as the contract of a function that does nothing.
ghost use Rattle.std.specs.Prelude.{◌≡◌, List, ℕ};
ghost use Rattle.pq_syntax.specs.Loose.{IsShown};
ghost use Rattle.pq_syntax.specs.aux.Loosely.{loosely};
ghost use Rattle.pq_syntax.specs.declared.tree.Node.{Node};

use pq_lex::{each_text, one_lexing, tokens_in_order};

/// Braces show of each text what `loosely` computes. With `one_shown`, the braces alone determine
/// `loosely`.
pub fn each_shown()
    // The value of `loosely` is what braces show of the text: each text has such a list.
    ensures { (text : List ℕ) → IsShown text (loosely text) }
{
    each_text();
    tokens_in_order();
}

/// Braces show one list of statements of a text.
pub fn one_shown()
    // Braces show at most one list of statements of a text.
    ensures { (text : List ℕ) (nodes others : List Node) → IsShown text nodes → IsShown text others → nodes ≡ others }
{
    one_lexing();
}
