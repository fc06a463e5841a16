//! The names in a text: its pieces between single spaces that are not empty.
ghost use Rattle.std.specs.Prelude.{◌≡◌, ◌++◌, [], IfOk, option_copied};
ghost use Rattle.pq_rules.specs.sums.Names.{names, names_of};
ghost use Rattle.pq_rules.specs.aux.sums.Cuts.{word, rest, as_name};

use crate::turn::Memory;
use pq_names::Text;
use std::alloc::Global;
use std::marker::Model;

/// Names that are still to be asked, in order. Contracts see the list of them.
#[derive(Drop)]
pub struct Names {
    pub(super) names: Vec<Text>,
    pub(super) next: usize,
}

impl Model for Names {
    ghost use Rattle.std.specs.Prelude.{List, ℕ, drop};

    ghost Value = { List (List ℕ) };

    ghost view = { λ n. drop n.next n.names.items };
}

/// Splits `text` at its first space. Without one, the second part is empty.
fn cut(text: &str) -> (&str, &str)
    ensures name { result.0.now ≡ word text.now }
    ensures left { result.1.now ≡ rest text.now }
{
    match text.split_once(' ') {
        Some((name, left)) => (name, left),
        None => (text, ""),
    }
}

/// Adds `piece` to `names` if it is a name.
fn push_name(names: &mut Vec<Text>, alloc: Global, piece: &str) -> Result<(), Memory>
    ensures { IfOk result (λ _. names.new.items ≡ names.old.items ++ as_name piece.now) }
{
    if !piece.is_empty() {
        names.push(Text::new(alloc, piece)?)?;
    }
    Ok(())
}

/// Collects the names in `text`.
fn names_in(alloc: Global, text: &str) -> Result<Names, Memory>
    ensures { IfOk result (λ n. n ≡ names text.now) }
{
    let mut found = Vec::new(alloc);
    let mut left = text;
    'pieces: while !left.is_empty() {
        let (name, more) = cut(left);
        push_name(&mut found, alloc, name)?;
        left = more;
    }
    Ok(Names {
        names: found,
        next: 0,
    })
}

/// The empty list of names.
fn no_names(alloc: Global) -> Names
    ensures { result ≡ [] }
{
    Names {
        names: Vec::new(alloc),
        next: 0,
    }
}

/// Collects the names in the text of a file. An absent file has none.
pub(super) fn names_of_file(alloc: Global, text: Option<&str>) -> Result<Names, Memory>
    ensures { IfOk result (λ n. n ≡ names_of (option_copied text.entry)) }
{
    match text {
        Some(text) => names_in(alloc, text),
        None => Ok(no_names(alloc)),
    }
}
