//! The record of a file: its text, its durability, and the revision of its last change.
ghost use Rattle.std.specs.Prelude.{◌≡◌, ◌≢◌, string_bytes, MatchOption, is_some, if◌then◌else◌};
ghost use Rattle.std.specs.Option.{option_map, option_copied};
ghost use Rattle.pq_inputs.specs.aux.Kept.{blank};

use crate::durability::Durability;
use std::marker::Model;

/// A file: its text, or `None` where it is absent, its durability, and the revision of its last
/// change.
#[derive(Drop)]
pub(crate) struct Record {
    text: Option<String>,
    durability: Durability,
    changed: u64,
}

impl Model for Record {
    ghost use Rattle.std.specs.Prelude.{string_bytes};
    ghost use Rattle.std.specs.Option.{option_map};
    ghost use Rattle.pq_inputs.specs.aux.Kept.{Entry};

    ghost Value = { Entry };

    ghost view = { λ r. record { file = record { text = option_map string_bytes r.text; durability = r.durability }; changed = r.changed } };
}

impl Record {
    /// The record of a file that was never set.
    pub(crate) fn blank() -> Record
        ensures { result ≡ blank }
    {
        Record {
            text: None,
            durability: Durability::Low,
            changed: 0,
        }
    }

    /// The text, or `None` where the file is absent.
    pub(crate) fn text(&self) -> Option<&str>
        ensures { option_copied result ≡ self.now.file.text }
    {
        self.text.as_deref()
    }

    /// The durability.
    pub(crate) fn durability(&self) -> Durability
        ensures { result ≡ self.now.file.durability }
    {
        self.durability
    }

    /// The revision of the last change, or 0.
    pub(crate) fn changed(&self) -> u64
        ensures { result ≡ self.now.changed }
    {
        self.changed
    }

    /// Writes `text` and `durability` at `revision`. Where the file changed, its durability before
    /// the change comes back.
    pub(crate) fn write(
        &mut self,
        text: Option<String>,
        durability: Durability,
        revision: u64,
    ) -> Option<Durability>
        ensures file { self.new.file ≡
            record { text = option_map string_bytes text; durability = durability } }
        ensures changed { self.new.changed ≡
            (if is_some result then revision else self.old.changed) }
        ensures differs { MatchOption result (self.old.file ≡ self.new.file)
            (λ before. (before ≡ self.old.file.durability) × (self.old.file ≢ self.new.file)) }
    {
        let before = self.durability;
        let same = self.text == text && before == durability;
        self.text = text;
        self.durability = durability;
        if same {
            return None;
        }
        self.changed = revision;
        Some(before)
    }
}
