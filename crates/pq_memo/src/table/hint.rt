//! Hints: where to look for a key before a search.
//!
//! A hint may be wrong or missing. Who follows it compares the key there, and searches where the
//! keys differ. So a wrong hint costs one comparison, and no contract speaks of hints.

/// Where to look first for a key: in a slot of the table, or, for an input, at a file.
#[derive(Clone, Copy)]
pub(crate) enum Hint {
    Nowhere,
    /// The slot of this number.
    Slot(u32),
    /// The file of this number among the inputs.
    File(u32),
}

impl Hint {
    /// The slot `number`, or `Nowhere` if the number takes more than 32 bits.
    pub(crate) fn of_slot(number: usize) -> Self {
        u32::try_from(number).map_or(Hint::Nowhere, |number| Hint::Slot(number))
    }

    /// The file `number`, or `Nowhere` if the number takes more than 32 bits.
    pub(crate) fn of_file(number: usize) -> Self {
        u32::try_from(number).map_or(Hint::Nowhere, |number| Hint::File(number))
    }

    /// The number of the slot, if it is one.
    pub(crate) fn slot_number(self) -> Option<usize> {
        match self {
            Hint::Slot(number) => Some(number as usize),
            _ => None,
        }
    }

    /// The number of the file, if it is one, and else a number that no file has.
    pub(crate) fn file_number(self) -> usize {
        match self {
            Hint::File(number) => number as usize,
            _ => usize::MAX,
        }
    }

    /// Whether it is `Nowhere`.
    pub(crate) fn is_nowhere(self) -> bool {
        matches!(self, Hint::Nowhere)
    }
}

/// The hint `i` of `hints`, or `Nowhere`.
pub(crate) fn hint_at(hints: &[Hint], i: usize) -> Hint {
    hints.get(i).copied().unwrap_or(Hint::Nowhere)
}

/// Where to look first for the key of a frame, and for the key that it waits for, and where its
/// rule found its first read and its last.
#[derive(Clone, Copy)]
pub(crate) struct Hints {
    pub(crate) own: Hint,
    pub(crate) next: Hint,
    pub(crate) first: Hint,
    pub(crate) read: Hint,
}

impl Hints {
    /// The key of the frame is looked for first at `own`.
    pub(crate) fn new(own: Hint) -> Self {
        Hints {
            own,
            next: Hint::Nowhere,
            first: Hint::Nowhere,
            read: Hint::Nowhere,
        }
    }

    /// The same frame, when its rule has read the key at `read`.
    pub(crate) fn after_read(self, read: Hint) -> Self {
        let first = match self.first {
            Hint::Nowhere => read,
            first => first,
        };
        Hints {
            next: Hint::Nowhere,
            first,
            read,
            ..self
        }
    }
}
