//! The queries of descriptors, symbols and definitions in the rule set of proto3 files. `answers`
//! reads the answers that they get.

mod answers;
mod definition;
mod descriptor;
mod symbols;

pub(crate) use answers::{checked_in, items_in, parsed_in, resolved_in};
pub use definition::{DefinitionPart, DefinitionQuery};
pub use descriptor::{DescriptorPart, DescriptorQuery};
pub use symbols::SymbolsQuery;
