//! The names of the entries of map fields.
ghost use Rattle.std.specs.Prelude.{◌≡◌, List, ℕ, cond, ◌∷◌, ◌++◌, codes, string_bytes, IfOk, OnOk};
ghost use Rattle.pq_schema.specs.Definitions.{entry_name, camel, is_small, is_letter, capital};

use crate::{Memory, Text};
use std::alloc::Global;

/// The name of the entry message of the map field `field`.
pub fn entry_name(alloc: Global, field: &str) -> Result<Text, Memory>
    // The name of the entry message of a map field.
    ensures { IfOk result (λ t. t ≡ entry_name field.now) }
{
    let mut camel = Camel {
        first: true,
        after: false,
        bytes: Vec::with_capacity(alloc, field.len().saturating_add(ENTRY.len()))?,
    };
    'bytes: for byte in field.as_bytes() {
        camel.push(*byte)?;
    }
    let mut bytes = camel.bytes;
    bytes.extend_from_slice(ENTRY)?;
    match String::from_utf8(bytes) {
        Ok(text) => Text::from_string(alloc, text),
        Err(_) => unreachable!(),
    }
}

/// What the name of an entry ends in.
const ENTRY: &[u8] = b"Entry";

/// A name that is turned into the name of an entry, byte by byte.
#[derive(Drop)]
struct Camel {
    /// Whether no letter came yet.
    first: bool,
    /// Whether the byte before was a "_".
    after: bool,
    /// The bytes so far.
    bytes: Vec<u8>,
}

impl Camel {
    /// Takes the next byte of the name.
    #[tactic(auto, unfolding(crate::specs::Definitions::camel))]
    fn push(&mut self, byte: u8) -> Result<(), Memory>
        ensures { (rest : List ℕ) → OnOk result (
            self.new.bytes.items ++ camel self.new.first self.new.after rest
            ≡ self.old.bytes.items ++ camel self.old.first self.old.after (byte ∷ rest)) }
    {
        if byte == b'_' {
            self.after = true;
            return Ok(());
        }
        if !is_letter(byte) {
            self.bytes.push(byte)?;
            self.after = false;
            return Ok(());
        }
        let begins = self.first || self.after;
        self.bytes.push(letter(begins, byte))?;
        self.first = false;
        self.after = false;
        Ok(())
    }
}

/// Whether `byte` is a small ASCII letter.
fn is_small(byte: u8) -> bool
    ensures { result ≡ is_small byte }
{
    byte >= b'a' && byte <= b'z'
}

/// Whether `byte` is an ASCII letter.
fn is_letter(byte: u8) -> bool
    ensures { result ≡ is_letter byte }
{
    is_small(byte) || (byte >= b'A' && byte <= b'Z')
}

/// The letter `byte`, as a capital if it begins a word.
fn letter(begins: bool, byte: u8) -> u8
    ensures { result ≡ cond begins (capital byte) byte }
{
    if begins && is_small(byte) {
        return byte - 32;
    }
    byte
}
