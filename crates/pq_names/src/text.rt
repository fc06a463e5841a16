//! Texts that are copied and compared often: keys, names, the parts of a tree.
//!
//! A text of at most 22 bytes lies in the value itself: `new` and `copy` allocate nothing. A longer
//! text lies behind a counted pointer, and its copies share it. `new` copies the bytes once, `copy`
//! takes constant time, and a comparison reads the bytes in place.
ghost use Rattle.std.specs.Prelude.{◌≡◌, List, ℕ, IfOk, string_bytes};
ghost use Rattle.std.proofs.Common.{rules};
ghost use Rattle.std.specs.Cmp.{partial_order_from_own_ties};
ghost use Rattle.std.specs.Cmp.Rules.{comparing};
ghost use Rattle.std.specs.Cmp.Lexicographic.{slice_cmp};
ghost use Rattle.std.specs.Str.{bytes_eq};
ghost use Rattle.std.specs.Ordering.{nat_cmp, as_partial_cmp};

use crate::fault::Memory;
use crate::short::{INLINE, Short};
use std::alloc::Global;
use std::cmp::Ordering;
use std::fmt;
use std::fmt::{Debug, Formatter, Write};
use std::marker::Model;
use std::sync::ArcStr;

/// Where the bytes of a text are.
#[derive(Drop)]
enum Bytes {
    Inline(Short),
    Shared(ArcStr),
}

/// A text, compared by its bytes. Contracts see it as the list of its bytes.
///
/// Up to 22 bytes lie in the value itself. A longer text is shared by its copies, so that a copy
/// takes no memory for the bytes. A text can be sent to other threads and shared among them.
#[derive(Drop)]
pub struct Text {
    bytes: Bytes,
}

impl Model for Text {
    ghost use Rattle.std.specs.Prelude.{List, ℕ};
    ghost use Rattle.pq_names.specs.aux.Bytes.{bytes_of};

    ghost Value = { List ℕ };

    ghost view = { λ t. bytes_of t.bytes };
}

impl Text {
    /// A copy of `text`.
    #[inline]
    pub fn new(alloc: Global, text: &str) -> Result<Text, Memory>
        // A text is its bytes, wherever they are kept.
        ensures copy { IfOk result (λ t. t ≡ text.now) }
    {
        match Short::new(text) {
            Some(bytes) => Ok(Text {
                bytes: Bytes::Inline(bytes),
            }),
            None => Text::shared(String::from_str(alloc, text)?),
        }
    }

    /// The text of `text`. A string of more than 22 bytes is kept and not copied.
    #[inline]
    pub fn from_string(alloc: Global, text: String) -> Result<Text, Memory>
        // A text is its bytes, wherever they are kept.
        ensures same { IfOk result (λ t. t ≡ string_bytes text) }
    {
        if text.len() <= INLINE {
            Text::new(alloc, text.as_str())
        } else {
            Text::shared(text)
        }
    }

    /// The text of `text`, whose bytes its copies share.
    fn shared(text: String) -> Result<Text, Memory>
        ensures same { IfOk result (λ t. t ≡ string_bytes text) }
    {
        Ok(Text {
            bytes: Bytes::Shared(ArcStr::from_string(text)?),
        })
    }

    /// The text, to read.
    #[inline]
    pub fn as_str(&self) -> &str
        // A text is its bytes, wherever they are kept.
        ensures same { result.now ≡ self.now }
    {
        match &self.bytes {
            Bytes::Inline(bytes) => bytes.as_str(),
            Bytes::Shared(text) => text.as_str(),
        }
    }

    /// A copy, which takes no memory. `Memory` comes only where a long text has as many copies as
    /// can be counted.
    #[inline]
    pub fn copy(&self) -> Result<Text, Memory>
        // A text is its bytes, wherever they are kept.
        ensures copy { IfOk result (λ t. t ≡ self.now) }
    {
        match &self.bytes {
            Bytes::Inline(bytes) => Ok(Text {
                bytes: Bytes::Inline(bytes.copy()),
            }),
            Bytes::Shared(text) => Ok(Text {
                bytes: Bytes::Shared(text.clone()?),
            }),
        }
    }
}

impl PartialEq for Text {
    ghost eq = { bytes_eq };

    ghost laws = { Prim.search (comparing, rules) };

    #[inline]
    fn eq(&self, other: &Text) -> bool {
        self.as_str() == other.as_str()
    }
}

impl Eq for Text {
    ghost laws = { Prim.search (comparing, rules) };
}

impl Ord for Text {
    ghost cmp = { slice_cmp nat_cmp };

    ghost total = { Prim.search (comparing, rules) };

    ghost matches_partial_cmp = { Prim.search (comparing, rules) };

    ghost matches_eq = { Prim.search (comparing, rules) };

    #[inline]
    fn cmp(&self, other: &Text) -> Ordering {
        self.as_str().cmp(other.as_str())
    }
}

impl PartialOrd for Text {
    ghost partial_cmp = { as_partial_cmp (slice_cmp nat_cmp) };

    ghost laws = { partial_order_from_own_ties (Prim.search (comparing, rules)) (Prim.search (comparing, rules)) };

    #[inline]
    fn partial_cmp(&self, other: &Text) -> Option<Ordering> {
        Some(self.cmp(other))
    }
}

impl Debug for Text {
    fn fmt<W: Write>(&self, f: &mut Formatter<W>) -> fmt::Result {
        let text = self.as_str();
        Debug::fmt(&text, f)
    }
}
