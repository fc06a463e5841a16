//! Laws of keys, of the queries, of the rule set and of what files compile to, each as the contract
//! of a function that does nothing.
//!
//! A law of a query is of every list `es` of questions with their answers by which the query's own
//! rule runs from its start to a value. It says what the questions were, in order, and that the
//! value is the definition, applied to what these answers say.
ghost use Rattle.std.specs.Prelude.{◌≡◌, ◌↔◌, Bool, List, Option, ℕ};
ghost use Rattle.std.specs.declared.cmp.Ordering.TheVariants.{Equal};
ghost use Rattle.pq_inputs.specs.Sources.{Sources};
ghost use Rattle.pq_rules.specs.declared.turn.Answer.{Answer};
ghost use Rattle.pq_rules.specs.declared.turn.Turn.TheVariants.{Done};
ghost use Rattle.pq_rules.specs.Embedding.{Runs};
ghost use Rattle.pq_rules.specs.Turns.{over};
ghost use Rattle.pq_rules.specs.Value.{Means};
ghost use Rattle.pq_proto.specs.Answers.{AreSymbolsBy, IsDefinitionBy, IsDescriptorBy, Reads};
ghost use Rattle.pq_proto.specs.Compile.{Compiles};
ghost use Rattle.pq_proto.specs.Keys.{key_cmp};
ghost use Rattle.pq_proto.specs.aux.Outputs.{definition_advances, definition_starts, descriptor_advances, descriptor_starts, symbols_advances, symbols_starts};
ghost use Rattle.pq_proto.specs.aux.RuleSet.{proto_rules};
ghost use Rattle.pq_proto.specs.contracts.key.ProtoKeyOrd.TheImpl as key_order;
ghost use Rattle.pq_proto.specs.declared.key.Place.{Place as PlaceContents};
ghost use Rattle.pq_proto.specs.declared.key.ProtoKey.{ProtoKey as KeyContents};
ghost use Rattle.pq_proto.specs.declared.value.Location.{Location as LocationContents};
ghost use Rattle.pq_proto.specs.declared.value.ProtoValue.{ProtoValue as ValueContents};

use crate::key::ProtoKey;

/// At all sources, what a key of the rule set means is exactly what it compiles to.
pub fn proto_values()
    // At all sources, what a key means in the rule set is exactly what it compiles to, whether
    // braces are read or not.
    ensures means { (loose : Bool) (files : Sources) (key : KeyContents) (a : Answer KeyContents ValueContents) → Means (over ⟦<ProtoKey as Ord>⟧.cmp (proto_rules loose) files) key a ↔ Compiles loose files key a }
{}

/// Each key compiles to one answer: it has an answer, and two answers of it are the same.
pub fn one_compilation()
    // `some`, `one`: Each key compiles to one answer, at all sources.
    ensures some { (loose : Bool) (files : Sources) (key : KeyContents) → (a : Answer KeyContents ValueContents) × Compiles loose files key a }
    ensures one { (loose : Bool) (files : Sources) (key : KeyContents) (a b : Answer KeyContents ValueContents) → Compiles loose files key a → Compiles loose files key b → a ≡ b }
{}

/// Keys of which neither comes before the other are the same key.
pub fn equal_keys()
    // Keys of the queries that compare as equal are the same key.
    ensures { (a b : KeyContents) → key_order.ghosts.cmp a b ≡ Equal → a ≡ b }
{}

/// Keys are ordered by the numbers of their queries, then by the bytes of their files' names, then by
/// their places.
pub fn keys_in_order()
    // Keys are ordered as `Keys` says: by the numbers of their queries, then the bytes of their
    // files' names, then their places.
    ensures { (a b : KeyContents) → key_order.ghosts.cmp a b ≡ key_cmp a b }
{}

/// The descriptor of a file asks its errors by the table; unless one is severe, its tree without
/// spans; and of a tree its resolved references. It ends in the descriptor by these answers.
pub fn descriptor_by_answers()
    // What the query asks, in order and only as needed, and that it ends in the definition applied
    // to what the answers say.
    ensures gives { (f : List ℕ) (es : Reads) (t : List ℕ) → Runs descriptor_advances (descriptor_starts f) es (Done t) → IsDescriptorBy f es t }
{}

/// The symbols of a file ask what it is read as, and end in the symbols of that.
pub fn symbols_by_answers()
    // What the query asks, in order and only as needed, and that it ends in the definition applied
    // to what the answers say.
    ensures gives { (f : List ℕ) (es : Reads) (t : List ℕ) → Runs (λ (q : Unit {0}) (a : Answer KeyContents ValueContents). symbols_advances a) (symbols_starts f) es (Done t) → AreSymbolsBy f es t }
{}

/// The definition of what is at a place of a file asks what the file is read as; if it has the line,
/// its resolved references; and if a type is referred to at the place, what that type's file is read
/// as. It ends in the location of the type's name by these answers.
pub fn definition_by_answers()
    // What the query asks, in order and only as needed, and that it ends in the definition applied
    // to what the answers say.
    ensures gives { (f : List ℕ) (place : PlaceContents) (es : Reads) (d : Option LocationContents) → Runs definition_advances (definition_starts f place) es (Done d) → IsDefinitionBy f place es d }
{}
