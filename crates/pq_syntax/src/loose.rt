//! What braces show of a text that has an error: its package, its imports, and its messages, enums
//! and services, whatever else stands there.
//!
//! `specs/Loose` is the meaning. Lexing goes on in the line after a lexical error (`going_on`). A
//! statement can begin at the first token of the text and of each line, and after `;`, `{` and `}`.
//! All braces end before a token that is *anew*: a keyword of the file's level at the start of its
//! line. What stands at a token is its sight (`sights`, by what single tokens are, `marks`), and a
//! sight shows at most one statement (`showing`). Each text has one such list (`each_shown`,
//! `one_shown`). It takes time and memory linear in the text.
ghost use Rattle.std.specs.Prelude.{◌≡◌, ◌++◌, ◌≤◌, ◌<◌, IfOk, List, drop, length, ℕ};
ghost use Rattle.pq_syntax.specs.Loose.{IsOtherVersion, IsShown, shown};
ghost use Rattle.pq_syntax.specs.Loose.{taken as taken_of};
ghost use Rattle.pq_syntax.specs.Words.{words};
ghost use Rattle.pq_syntax.specs.aux.Loosely.{has_other_version, innermost, loosely, next_sight, shown_from, still_open, turned};

mod going_on;
mod laws;
mod marks;
mod open;
mod showing;
mod sights;
mod versions;

use crate::Memory;
use crate::file::File;
use crate::loose::going_on::lex_on;
use crate::loose::open::OpenBraces;
use crate::loose::showing::{after, push_shown};
use crate::loose::sights::{Sight, begins_after, begins_anew, sight_at, taken};
use crate::loose::versions::is_other;
use crate::tree::Node;
pub use laws::{each_shown, one_shown};
use pq_lex::{Token, lex};
use std::alloc::Global;

/// Closes all braces before `tokens` if the first is anew.
fn close_before(text: &str, braces: &mut OpenBraces, tokens: &[Token])
    ensures { braces.new ≡ still_open text.now (words text.now tokens.now) braces.old }
{
    if begins_anew(text, tokens) {
        braces.clear();
    }
}

/// Shows what stands at the first of `tokens`, and returns its sight.
fn show_next(
    alloc: Global,
    text: &str,
    nodes: &mut Vec<Node>,
    braces: &mut OpenBraces,
    begins: bool,
    tokens: &[Token],
) -> Result<Sight, Memory>
    requires { 0 < length tokens.now }
    ensures sight { IfOk result (λ s. s ≡ next_sight text.now braces.old begins (words text.now tokens.now)) }
    ensures shown { IfOk result (λ s. nodes.new.items ≡ nodes.old.items ++ shown (innermost (still_open text.now (words text.now tokens.now) braces.old)).depth (words text.now tokens.now) s) }
    ensures turned { IfOk result (λ s. braces.new ≡ turned (still_open text.now (words text.now tokens.now) braces.old) s) }
    ensures takes { IfOk result (λ s. 1 ≤ taken_of s) }
{
    close_before(text, braces, tokens);
    let holder = braces.innermost();
    let sight = sight_at(text, holder, begins, tokens);
    push_shown(alloc, text, nodes, holder.depth, tokens, sight)?;
    braces.turn(sight)?;
    Ok(sight)
}

/// The number of the token after the `count` tokens from number `at` on, or of all.
fn number_after(tokens: &[Token], at: usize, count: usize) -> usize
    requires { at < length tokens.now }
    ensures within { result ≤ length tokens.now }
    ensures more { 1 ≤ count → at < result }
    ensures left { (text : List ℕ) → drop result (words text tokens.now) ≡ drop count (drop at (words text tokens.now)) }
{
    if count < tokens.len() - at {
        return at + count;
    }
    tokens.len()
}

/// The statements that braces show among `tokens`.
fn shown_among(alloc: Global, text: &str, tokens: &[Token]) -> Result<Vec<Node>, Memory>
    ensures { IfOk result (λ nodes. nodes.items ≡ shown_from text.now (words text.now tokens.now)) }
{
    let mut nodes = Vec::new(alloc);
    let mut braces = OpenBraces::new(alloc);
    let mut begins = true;
    let mut at = 0;
    'tokens: while at < tokens.len() {
        let rest = after(tokens, at);
        let sight = show_next(alloc, text, &mut nodes, &mut braces, begins, rest)?;
        begins = begins_after(sight);
        at = number_after(tokens, at, taken(sight));
    }
    Ok(nodes)
}

/// What braces show of `text`: packages, imports, messages, enums and services, in text order. The
/// span of each goes from its first token to its name, that of an import to its last string.
///
/// A statement that more than 63 messages contain is not shown. `Memory` means that an allocation
/// failed.
pub fn read_loosely(alloc: Global, text: &str) -> Result<File, Memory>
    // The list is the value of the total function `loosely` at the text.
    ensures exact { IfOk result (λ file. file ≡ loosely text.now) }
    // The list is what braces show of the text's tokens, in which lexing goes on after each line
    // with a lexical error.
    ensures shown { IfOk result (IsShown text.now) }
{
    each_shown();
    let tokens = lex_on(alloc, text)?;
    Ok(File::new(shown_among(alloc, text, tokens.as_slice())?))
}

/// Whether `text` is of another version of the language: it begins with `syntax`, `=` and a string
/// of the value `proto2`, with `edition`, `=` and a string, or with another statement of a file
/// than the version (Protocol Buffers language specifications of proto2 and of editions, "Proto
/// file").
///
/// `Memory` means that an allocation failed.
pub fn is_other_version(alloc: Global, text: &str) -> Result<bool, Memory>
    // The answer is the value of the total function `has_other_version` at the text.
    ensures exact { IfOk result (λ b. b ≡ has_other_version text.now) }
    // The answer is whether the text's tokens up to its first lexical error are of another version.
    ensures other { IfOk result (IsOtherVersion text.now) }
{
    let lexed = lex(alloc, text)?;
    is_other(alloc, text, lexed.tokens.as_slice())
}
