//! The three lists of a file's links, by the links of its imports' files.
//!
//! Each takes N log N time for N names in the lists of these files, and one walk where one file is
//! imported. The lists share the names of these lists, and all three share the name of the file.
ghost use Rattle.std.specs.Prelude.{◌≡◌, [], ◌∷◌, ◌++◌, true, cond, IfOk, OnOk};
ghost use Rattle.pq_links.specs.Visibility.{firsts, links_by, no_links, passed_on, shown, reached};
ghost use Rattle.pq_links.specs.aux.Adding.{add_first, add_firsts, has, same_name};

use crate::Memory;
use crate::file_names::FileNames;
use crate::firsts::Firsts;
use crate::links::{Import, Links};
use pq_rules::{Shared, Text};
use std::alloc::Global;

/// Adds `name`, if it is not there yet.
fn add_name(names: &mut Firsts<Shared<Text>>, name: &Shared<Text>) -> Result<(), Memory>
    ensures added { OnOk result (names.new ≡ add_first same_name names.old name.now) }
{
    let item = name.copy()?;
    let key = name.copy()?;
    names.add(item, key)
}

/// Whether the name at `place` is `name`.
fn is_at(names: &Firsts<Shared<Text>>, place: usize, name: &Shared<Text>) -> bool
    ensures there { result ≡ true → has same_name names.now name.now ≡ true }
{
    match names.at(place) {
        Some(own) => own == name,
        None => false,
    }
}

/// Adds `name`, if it is not there yet. The answer is where the name that follows it in the list of
/// an import may be, where `place` is where `name` may be: there or behind, or anywhere.
fn add_near(
    names: &mut Firsts<Shared<Text>>,
    place: usize,
    name: &Shared<Text>,
) -> Result<usize, Memory>
    ensures added { OnOk result (names.new ≡ add_first same_name names.old name.now) }
{
    let next = place.saturating_add(1);
    if is_at(names, place, name) {
        return Ok(next);
    }
    if is_at(names, next, name) {
        return Ok(next.saturating_add(1));
    }
    add_name(names, name)?;
    Ok(place)
}

/// The place after the name of the file itself.
const SECOND: usize = 1;

/// Adds each name of `more` in order, if it is not there yet. Imports whose files reach the same
/// files mostly have them in the same order. So the name after one that was there is looked for
/// beside it, before the set is searched.
fn add_names(names: &mut Firsts<Shared<Text>>, more: &[Shared<Text>]) -> Result<(), Memory>
    ensures added { OnOk result (names.new ≡ add_firsts same_name names.old more.now) }
{
    let mut place = SECOND;
    'each_name: for name in more {
        place = add_near(names, place, name)?;
    }
    Ok(())
}

/// Adds what `import` passes on, if it is public.
fn add_public(
    names: &mut Firsts<Shared<Text>>,
    import: &Import,
    links: &Shared<Links>,
) -> Result<(), Memory>
    ensures added { OnOk result (names.new ≡ add_firsts same_name names.old (cond import.now.is_public links.now.exports [])) }
{
    if import.is_public {
        add_names(names, links.get().exports.as_slice())?;
    }
    Ok(())
}

/// What `file` exports, whose one import is `import`.
fn exports_with(
    alloc: Global,
    file: &Shared<Text>,
    import: &Import,
    links: &Shared<Links>,
) -> Result<FileNames, Memory>
    ensures names { IfOk result (λ names. names ≡ firsts (file.now ∷ cond import.now.is_public links.now.exports [])) }
{
    if import.is_public {
        links.get().exports.after(alloc, file)
    } else {
        only(alloc, file)
    }
}

/// What `file` exports, by the imports `pairs` and one more import.
fn exports_of(
    alloc: Global,
    file: &Shared<Text>,
    pairs: &[(Import, Shared<Links>)],
    last: &Import,
    links: &Shared<Links>,
) -> Result<FileNames, Memory>
    ensures names { IfOk result (λ names. names ≡ firsts (file.now ∷ (passed_on pairs.now ++ cond last.now.is_public links.now.exports []))) }
{
    if pairs.is_empty() {
        return exports_with(alloc, file, last, links);
    }
    let mut names = Firsts::new(alloc);
    add_name(&mut names, file)?;
    'each_pair: for pair in pairs {
        add_public(&mut names, &pair.0, &pair.1)?;
    }
    add_public(&mut names, last, links)?;
    Ok(FileNames::new(names.into_vec()))
}

/// What `file` sees, by the imports `pairs` and one more import with `links`.
fn visible_to(
    alloc: Global,
    file: &Shared<Text>,
    pairs: &[(Import, Shared<Links>)],
    links: &Shared<Links>,
) -> Result<FileNames, Memory>
    ensures names { IfOk result (λ names. names ≡ firsts (file.now ∷ (shown pairs.now ++ links.now.exports))) }
{
    if pairs.is_empty() {
        return links.get().exports.after(alloc, file);
    }
    let mut names = Firsts::new(alloc);
    add_name(&mut names, file)?;
    'each_pair: for pair in pairs {
        add_names(&mut names, pair.1.get().exports.as_slice())?;
    }
    add_names(&mut names, links.get().exports.as_slice())?;
    Ok(FileNames::new(names.into_vec()))
}

/// What `file` reaches, by the imports `pairs` and one more import with `links`.
fn reached_by(
    alloc: Global,
    file: &Shared<Text>,
    pairs: &[(Import, Shared<Links>)],
    links: &Shared<Links>,
) -> Result<FileNames, Memory>
    ensures names { IfOk result (λ names. names ≡ firsts (file.now ∷ (reached pairs.now ++ links.now.reach))) }
{
    if pairs.is_empty() {
        return links.get().reach.after(alloc, file);
    }
    let mut names = Firsts::new(alloc);
    add_name(&mut names, file)?;
    'each_pair: for pair in pairs {
        add_names(&mut names, pair.1.get().reach.as_slice())?;
    }
    add_names(&mut names, links.get().reach.as_slice())?;
    Ok(FileNames::new(names.into_vec()))
}

/// The links of `file`, by the imports `pairs` and one more import, each with its file's links.
pub(crate) fn join(
    alloc: Global,
    file: &Text,
    pairs: &[(Import, Shared<Links>)],
    last: &Import,
    links: &Shared<Links>,
) -> Result<Shared<Links>, Memory>
    ensures links { IfOk result (λ l. l ≡ links_by file.now (pairs.now ++ (last.now, links.now) ∷ [])) }
{
    let file = Shared::new(alloc, file.copy()?)?;
    let exports = exports_of(alloc, &file, pairs, last, links)?;
    let visible = visible_to(alloc, &file, pairs, links)?;
    let reach = reached_by(alloc, &file, pairs, links)?;
    Shared::new(
        alloc,
        Links {
            exports,
            visible,
            reach,
        },
    )
}

/// The list of `file` alone.
#[tactic(auto, unfolding(crate::specs::Once::each_once))]
fn only(alloc: Global, file: &Shared<Text>) -> Result<FileNames, Memory>
    ensures names { IfOk result (λ names. names ≡ firsts (file.now ∷ [])) }
{
    let mut names = Vec::new(alloc);
    names.push(file.copy()?)?;
    Ok(FileNames::new(names))
}

/// A list without names.
#[tactic(auto, unfolding(crate::specs::Once::each_once))]
fn none(alloc: Global) -> FileNames
    ensures none { result ≡ [] }
{
    FileNames::new(Vec::new(alloc))
}

/// The links of a present file without imports.
pub(crate) fn alone(alloc: Global, file: &Text) -> Result<Shared<Links>, Memory>
    ensures links { IfOk result (λ l. l ≡ links_by file.now []) }
{
    let file = Shared::new(alloc, file.copy()?)?;
    let exports = only(alloc, &file)?;
    let visible = only(alloc, &file)?;
    let reach = only(alloc, &file)?;
    Shared::new(
        alloc,
        Links {
            exports,
            visible,
            reach,
        },
    )
}

/// The links of an absent file: none.
pub(crate) fn nothing(alloc: Global) -> Result<Shared<Links>, Memory>
    ensures links { IfOk result (λ l. l ≡ no_links) }
{
    Shared::new(
        alloc,
        Links {
            exports: none(alloc),
            visible: none(alloc),
            reach: none(alloc),
        },
    )
}
