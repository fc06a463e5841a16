//! The descriptor and the symbols of a proto3 file as printed texts, the definition of what stands
//! at a place of it, and the keys of the queries of proto3 files.
//!
//! What a file's texts say is data over its tree (`specs/Descriptor`, `specs/Symbols`); the tree is
//! nested bodies (`specs/Bodies`). The code prints the tokens of that data one after the other, so
//! no tree of JSON is built, and each text is printed once. It is proved to print exactly the
//! compact text of the data. A walk over a body passes over what lies deeper in one step, and a
//! reference is looked up in constant time: both take time linear in the file and the text.
//!
//! `descriptor`, `symbols` and `definition` are functions of a tree and its resolved references. They
//! walk its `bodies`, print by `printing`, and read `files`. `key` and `value` are those of all
//! queries, `queries` has the queries of descriptors, symbols and definitions, and `rules` the rule
//! set of all queries with its laws.
#![tactic(auto)]

mod bodies;
mod definition;
mod descriptor;
mod files;
mod key;
mod printing;
mod queries;
mod rules;
mod symbols;
mod text_laws;
mod value;

pub use definition::{TypeItem, definition_at};
pub use descriptor::descriptor_text;
pub use files::position_in;
pub use key::{Place, ProtoKey};
pub use printing::printer::Printer;
pub use printing::ranges::print_range;
pub use queries::{DefinitionPart, DefinitionQuery, DescriptorPart, DescriptorQuery, SymbolsQuery};
pub use rules::compilation::compile;
pub use rules::laws::{
    definition_by_answers, descriptor_by_answers, equal_keys, one_compilation, proto_values,
    symbols_by_answers,
};
pub use rules::{ProtoPart, ProtoRules};
pub use std::alloc::AllocError as Memory;
pub use symbols::symbols_text;
pub use text_laws::{bodies_are_places, places_of_text};
pub use value::{Location, ProtoValue};
