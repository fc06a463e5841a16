//! The import graph of proto3 files, as queries: the parse of a file, its tree without spans, its
//! imports, and its links, which are the files that it exports, sees and reaches.
//!
//! The graph is defined in `specs/ImportGraph`, exports, visible and reached files in
//! `specs/Visibility`, and what a text is read as in `specs/Files`: where a rule set reads braces, a
//! text with an error has the statements that they show. The four queries know no rule set: a sum of
//! queries makes their keys and reads its answers through `LinkKeys`. The laws say what each query
//! asks and ends in, for every sum. The law `links_in_rules` says what the answers
//! of links are in every rule set: the links of a good file, and for a bad one the ring into which
//! it leads.
#![tactic(auto)]

mod bare;
mod file_items;
mod file_names;
mod files;
mod firsts;
mod import_list;
mod imports;
mod items_query;
mod keys;
mod laws;
mod linked;
mod links;
mod parse;
mod places;

pub use file_items::{BareFile, FileItems};
pub use file_names::FileNames;
pub use files::{ParsedFile, Shown};
pub use imports::ImportsQuery;
pub use items_query::ItemsQuery;
pub use keys::LinkKeys;
pub use laws::{
    imports_by_answers, items_by_answers, links_by_answers, links_in_rules, parse_by_answers,
    reach_is_walks, read_by_grammar,
};
pub use linked::{Joined, LinkedQuery, Linking};
pub use links::{Import, Links};
pub use parse::ParseQuery;
pub use places::{Part, TypePart, parts_stay, parts_within, place};
pub use pq_rules::{Shared, Text};
pub use pq_syntax::Items;
pub use std::alloc::AllocError as Memory;
