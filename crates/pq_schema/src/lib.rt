//! Definitions and type references of proto3 files, the scope of a file, and what a name in it
//! resolves to (proto3 language specification, "Packages and Name Resolution" and "Maps"), as
//! queries over sources.
//!
//! `Defs::of` and `references_in` are one walk over a tree each. A name resolves by
//! `specs/Resolution`: from the innermost scope outwards, with one look-up of a full name for each
//! scope. What files compile to is in `specs/Compile`. The three queries know no rule set: a sum of
//! queries makes their keys and reads its answers through `SchemaKeys`. `SchemaRules` puts them
//! together with those of pq_links. The law `schema_values` says that each key means what it
//! compiles to; `schema_in_rules` says this of every rule set that embeds the queries.
//!
//! Folders, each over those before it:
//!
//! - `names`: names in pieces, their order, and full names.
//! - `define`: what a file defines.
//! - `scope`: the files that a file sees and reaches, and the look-up of a full name in files.
//! - `search`: the search from scope to scope, and the words that it uses.
//! - `queries`: the queries, and the rule set.
//!
//! `laws` has the laws of the queries and of the rule set, `scope_laws` one of scopes.
#![tactic(auto)]

mod define;
mod laws;
mod names;
mod queries;
mod scope;
mod scope_laws;
mod search;

pub use define::definitions::{Definition, DefinitionKind, Defs};
pub use define::map_entries::entry_name;
pub use laws::{
    defs_by_answers, equal_defs, resolved_by_answers, rings_are_bad, schema_in_rules,
    schema_values, scope_by_answers,
};
pub use names::full_name::FullName;
pub use pq_rules::{Shared, Text};
pub use pq_syntax::Items;
pub use queries::defined::DefsQuery;
pub use queries::keys::SchemaKeys;
pub use queries::resolved::{ResolvedPart, ResolvedQuery, ResolvedReference};
pub use queries::resolved_references::ResolvedReferences;
pub use queries::rules::{SchemaKey, SchemaPart, SchemaRules, SchemaValue};
pub use queries::scopes::{ScopePart, ScopeQuery};
pub use scope::collected::Collected;
pub use scope::other_files::OtherFiles;
pub use scope::scope::{FileDefs, Scope};
pub use scope_laws::equal_scopes;
pub use search::references::{Reference, references_in};
pub use search::resolution::{Resolution, ResolveFault, Target, resolve};
pub use std::alloc::AllocError as Memory;
