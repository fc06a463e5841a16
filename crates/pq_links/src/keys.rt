//! What a sum of queries offers the queries of this crate.
ghost use Rattle.std.specs.Prelude.{◌≡◌, ℕ, List, Option, IfOk, option_copied, unwrap_or};
ghost use Rattle.pq_links.specs.Visibility.{no_links};
ghost use Rattle.pq_links.specs.declared.file_items.FileItems.{FileItems};
ghost use Rattle.pq_links.specs.declared.file_items.FileItems.TheVariants.{Absent as NoItems};
ghost use Rattle.pq_links.specs.declared.files.ParsedFile.{ParsedFile};
ghost use Rattle.pq_links.specs.declared.files.ParsedFile.TheVariants.{Absent};
ghost use Rattle.pq_links.specs.declared.links.Import.{Import};
ghost use Rattle.pq_links.specs.declared.links.Links.{Links};

use crate::Memory;
use crate::file_items::FileItems;
use crate::files::ParsedFile;
use crate::links::{Import, Links};
use pq_rules::{Shared, Text};
use pq_syntax::Items;

/// A sum of queries, as the queries of this crate see it: it makes the keys that they ask and reads
/// the answers that they get. An answer of another kind, or a cycle, reads as that of an absent
/// file.
pub trait LinkKeys {
    type Key: Drop;

    type Answer;

    /// The key of the text of a file.
    ghost input: { List ℕ → Self.Key };

    /// The key of what a file is read as.
    ghost parse: { List ℕ → Self.Key };

    /// The key of what a file is read as, without spans.
    ghost items: { List ℕ → Self.Key };

    /// The key of the imports of a file.
    ghost imports: { List ℕ → Self.Key };

    /// The key of the links of a file.
    ghost linked: { List ℕ → Self.Key };

    /// The text that an answer holds.
    ghost text: { Self.Answer → Option (List ℕ) };

    /// What an answer says that a file is read as.
    ghost parsed: { Self.Answer → ParsedFile };

    /// What an answer says that a file is read as, without spans.
    ghost itemed: { Self.Answer → FileItems };

    /// The imports that an answer holds.
    ghost imported: { Self.Answer → Option (List Import) };

    /// The links that an answer holds.
    ghost links: { Self.Answer → Links };

    /// Makes the key of the text of `file`.
    fn input_key(file: &Text) -> Result<Self::Key, Memory>
        // The key of the text of the file.
        ensures key { IfOk result (λ k. k ≡ input file.now) };

    /// Makes the key of what `file` is read as.
    fn parse_key(file: &Text) -> Result<Self::Key, Memory>
        // The key of what the file is read as.
        ensures key { IfOk result (λ k. k ≡ parse file.now) };

    /// Makes the key of what `file` is read as, without spans.
    fn items_key(file: &Text) -> Result<Self::Key, Memory>
        // The key of what the file is read as, without spans.
        ensures key { IfOk result (λ k. k ≡ items file.now) };

    /// Makes the key of the imports of `file`.
    fn imports_key(file: &Text) -> Result<Self::Key, Memory>
        // The key of the imports of the file.
        ensures key { IfOk result (λ k. k ≡ imports file.now) };

    /// Makes the key of the links of `file`.
    fn linked_key(file: &Text) -> Result<Self::Key, Memory>
        // The key of the links of the file.
        ensures key { IfOk result (λ k. k ≡ linked file.now) };

    /// Reads the text of a file, `None` where it is absent.
    fn read_text<'a>(answer: &'a Self::Answer) -> Option<&'a str>
        // The text that the answer holds, if it holds one.
        ensures text { option_copied result ≡ text answer.now };

    /// Reads what a file is read as, `None` only where that is `Absent`.
    fn read_parsed<'a>(answer: &'a Self::Answer) -> Option<&'a Shared<ParsedFile>>
        // What the answer says that a file is read as, where `None` is `Absent`.
        ensures parsed { unwrap_or (option_copied result) Absent ≡ parsed answer.now };

    /// Reads what a file is read as, without spans, `None` only where that is `Absent`.
    fn read_items<'a>(answer: &'a Self::Answer) -> Option<&'a Shared<FileItems>>
        // What the answer says that a file is read as, without spans, where `None` is `Absent`.
        ensures items { unwrap_or (option_copied result) NoItems ≡ itemed answer.now };

    /// Reads the imports of a file, `None` where it is absent.
    fn read_imports<'a>(answer: &'a Self::Answer) -> Option<&'a Shared<Items<Import>>>
        // The list of imports that the answer holds, if it holds one.
        ensures imports { option_copied result ≡ imported answer.now };

    /// Reads the links of a file, `None` only where it has none, as in a cycle.
    fn read_links<'a>(answer: &'a Self::Answer) -> Option<&'a Shared<Links>>
        // The links that the answer holds, where `None` is the links of an absent file.
        ensures links { unwrap_or (option_copied result) no_links ≡ links answer.now };
}
