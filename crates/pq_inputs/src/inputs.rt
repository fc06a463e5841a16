//! The inputs: the files now, and what is known of their changes.
ghost use Rattle.std.specs.Prelude.{◌≡◌, ℕ, min, ◌+◌, ◌<◌, ◌≤◌, List, [], ◌∷◌, ◌++◌, length, slice_get, string_bytes, Option, Some, None, false, unwrap_or, IfOk, IfSome, IfNone, OnOk, IfErr, OnErr};
ghost use Rattle.std.specs.Option.{option_map, option_copied};
ghost use Rattle.pq_inputs.specs.declared.durability.Durability.{Durability};
ghost use Rattle.pq_inputs.specs.Sources.{File, Sources, file_in, with_file, ChangesAt};
ghost use Rattle.pq_inputs.specs.Changes.{level, IsLastChange, IsLastChangeOf};
ghost use Rattle.pq_inputs.specs.Refusal.{is_full_for, is_too_long, last_revision, max_files, most_files, refusal, was_set};

use crate::durability::Durability;
use crate::fault::{InputFault, Memory, SetRefused};
use crate::files::Files;
use crate::last_changed::LastChanged;
use crate::limits::{LAST_REVISION, MAX_FILES, MAX_TEXT, MOST_FILES};
use crate::past::Past;
use crate::record::Record;
use crate::revision::Revision;
use std::alloc::Global;
use std::marker::Model;

/// The texts and durabilities of files, the last revision, and the revision of the last change of
/// each file.
///
/// Contracts see the files, the last revision, the history (the sources at each revision from 0 on),
/// and the number of files that can be set.
#[derive(Drop)]
pub struct Inputs {
    files: Files,
    revision: u64,
    last_changed: LastChanged,
    history: Vec<Past>,
    limit: usize,
}

/// The last change of a file.
#[derive(Clone, Copy, Debug, PartialEq, Eq)]
pub struct Change {
    /// The last revision at which the text or durability of the file changed, or 0.
    pub revision: Revision,
    /// The durability of the file since, or `Low` where it was never set.
    pub durability: Durability,
}

impl Model for Inputs {
    ghost use Rattle.pq_inputs.specs.Sources.{Table};

    ghost Value = { Table };

    ghost use Rattle.pq_inputs.specs.aux.Kept.{sources_of, IsKept};

    ghost view = { λ i. record { files = sources_of i.files; revision = i.revision; history = i.history.items; limit = i.limit } };

    ghost invariant = { λ i. IsKept i.limit i.files i.revision i.last_changed i.history.items };
}

impl Inputs {
    /// Inputs without files, at revision 0, which take their memory from `alloc`, and at most
    /// `MAX_FILES` files.
    pub fn new(alloc: Global) -> Result<Inputs, Memory>
        // No file was set, the revision is 0, the history has one member, without files, and as
        // many files can be set as `max_files` says.
        ensures { IfOk result (λ inputs.
            inputs ≡ record { files = []; revision = 0; history = [] ∷ []; limit = max_files }) }
    {
        Inputs::with_limit(alloc, MAX_FILES)
    }

    /// Inputs as those of `new` that take `limit` files, or `MOST_FILES` where that is less.
    pub fn with_limit(alloc: Global, limit: usize) -> Result<Inputs, Memory>
        // No file was set, the revision is 0, the history has one member, without files, and as many
        // files can be set as the limit says, and at most 65,536.
        ensures { IfOk result (λ inputs.
            inputs ≡ record { files = []; revision = 0; history = [] ∷ []; limit = min limit most_files }) }
    {
        let files = Files::new(alloc);
        let mut history = Vec::new(alloc);
        history.push(Past::of(&files))?;
        Ok(Inputs {
            files,
            revision: 0,
            last_changed: LastChanged::new(),
            history,
            limit: limit.min(MOST_FILES),
        })
    }

    /// Sets the file `name` to `text`, or to absent, and to `durability`. Returns the revision that
    /// this makes.
    ///
    /// Setting a file to what it was makes a revision too, at which nothing changed. A refused
    /// change leaves the inputs unchanged, and `text` comes back.
    ///
    /// # Errors
    ///
    /// - `TextTooLong` exactly where `text` has more than `MAX_TEXT` bytes.
    /// - Else `TooManyFiles` exactly where the file was never set and as many files were as can be.
    /// - Else `RevisionsUsedUp` exactly where the revision is `LAST_REVISION`.
    /// - Else `Memory` where an allocation fails.
    pub fn set(
        &mut self,
        name: &str,
        text: Option<String>,
        durability: Durability,
    ) -> Result<Revision, SetRefused>
        // `revision`, `files`, `history`, `limit`: An accepted change makes one revision more, sets
        // exactly this file, appends exactly these sources to the history, and leaves the number of
        // files that can be set.
        ensures revision { IfOk result (λ revision.
            (revision ≡ self.old.revision + 1) × (self.new.revision ≡ revision)) }
        ensures files { let file : File = record { text = option_map string_bytes text; durability = durability } in
            OnOk result (self.new.files ≡ with_file self.old.files name.now file) }
        ensures history { OnOk result (self.new.history ≡ self.old.history ++ self.new.files ∷ []) }
        ensures limit { OnOk result (self.new.limit ≡ self.old.limit) }
        // `accepted`, `fault`: A change is refused with the first reason that holds: text over
        // 1,048,576 bytes, a new file where as many were set as can be, revision
        // 18,446,744,073,709,551,615. `Memory` in no other case than a failed allocation.
        ensures accepted { OnOk result
            (refusal self.old name.now (option_map string_bytes text) ≡ None) }
        ensures fault { IfErr result (λ refused.
            refused.fault ≡
            unwrap_or (refusal self.old name.now (option_map string_bytes text)) InputFault.Memory) }
        // `refused`, `back`: A refused change leaves the inputs as they were, and its text comes
        // back.
        ensures refused { OnErr result (self.new ≡ self.old) }
        ensures back { IfErr result (λ refused. refused.text ≡ text) }
    {
        if let Some(fault) = self.refusal(name, text.as_deref()) {
            return Err(SetRefused { fault, text });
        }
        if self.history.reserve(1).is_err() {
            return Err(SetRefused {
                fault: InputFault::Memory,
                text,
            });
        }
        let revision = self.revision + 1;
        match self.files.write(name, text, durability, revision) {
            Ok(changed) => {
                self.last_changed.note(changed, revision);
                self.revision = revision;
                self.history.push_reserved(Past::of(&self.files));
                Ok(Revision::of(revision))
            }
            Err(text) => Err(SetRefused {
                fault: InputFault::Memory,
                text,
            }),
        }
    }

    /// The reason to refuse `text` as the text of the file `name` whatever memory there is.
    fn refusal(&self, name: &str, text: Option<&str>) -> Option<InputFault>
        ensures { result ≡ refusal self.now name.now (option_copied text.entry) }
    {
        if is_too_long(text) {
            return Some(InputFault::TextTooLong);
        }
        if self.is_full_for(name) {
            return Some(InputFault::TooManyFiles);
        }
        if self.revision >= LAST_REVISION {
            return Some(InputFault::RevisionsUsedUp);
        }
        None
    }

    /// Whether the file `name` is new and no new file can be set.
    fn is_full_for(&self, name: &str) -> bool
        ensures { result ≡ is_full_for self.now name.now }
    {
        if self.files.get(name).is_some() {
            return false;
        }
        self.files.len() >= self.limit
    }

    /// The text of the file `name`, or `None` where it is absent or was never set.
    pub fn get(&self, name: &str) -> Option<&str>
        // The text of the file now.
        ensures { option_copied result ≡ (file_in self.now.files name.now).text }
    {
        match self.files.get(name) {
            Some(record) => record.text(),
            None => None,
        }
    }

    /// The durability of the file `name`, which is `Low` where it was never set.
    pub fn durability(&self, name: &str) -> Durability
        // The durability of the file now.
        ensures { result ≡ (file_in self.now.files name.now).durability }
    {
        match self.files.get(name) {
            Some(record) => record.durability(),
            None => Durability::Low,
        }
    }

    /// The last revision at which the text or durability of the file `name` changed, or 0 where
    /// neither ever did.
    ///
    /// At each revision from that one on the file is what it is now.
    pub fn changed_at(&self, name: &str) -> Revision
        // `last`, `kept`: The last revision at which the file changed. From that revision on the
        // file is as it is now.
        ensures last { IsLastChange self.now.history name.now result }
        // It is at most the last revision.
        ensures within { result ≤ self.now.revision }
        ensures kept { (revision : ℕ) (then : Sources) → result ≤ revision →
            slice_get self.now.history revision ≡ Some then →
            file_in then name.now ≡ file_in self.now.files name.now }
    {
        Revision::of(self.files.changed(name))
    }

    /// The number of the file `name`: that of the files that were set before it, or `None` where it
    /// was never set. It stays when files are set.
    ///
    /// It is looked for first at `near`. Where that is the number, this takes one comparison of
    /// names, and else a search.
    pub fn number_of(&self, name: &str, near: usize) -> Option<usize>
        // `number`, `none`: The place of the file among those that were set, or that it was never
        // set, wherever it is looked for first.
        ensures number { IfSome result (λ number. slice_get self.now.files number ≡
            Some (name.now, file_in self.now.files name.now)) }
        ensures none { IfNone result (was_set self.now.files name.now ≡ false) }
    {
        match self.files.find(name, near) {
            Some(number) => Some(number),
            None => None,
        }
    }

    /// The last change of the file `name`: what `changed_at` and `durability` return. The file is
    /// looked for first at the number `near`.
    pub fn change_of(&self, name: &str, near: usize) -> Change
        // `last`, `durability`: The last revision at which the file changed, and its durability,
        // wherever it is looked for first.
        ensures last { IsLastChange self.now.history name.now result.revision }
        ensures durability { result.durability ≡ (file_in self.now.files name.now).durability }
    {
        let (revision, durability) = self.files.last_change(name, near);
        Change {
            revision: Revision::of(revision),
            durability,
        }
    }

    /// The last revision at which a file changed whose durability before the change was at least
    /// `durability`, or 0.
    ///
    /// Each file that changed later had a lower durability before that change. A file that has at
    /// least this durability at that revision, or at a later one, has not changed since.
    pub fn last_changed(&self, durability: Durability) -> Revision
        // `last`, `later`: The last revision at which a file changed whose durability before was at
        // least this one. A file that changed later was of a lower durability.
        ensures last { IsLastChangeOf self.now.history durability result }
        // It is at most the last revision.
        ensures within { result ≤ self.now.revision }
        ensures later { (name : List ℕ) (revision : ℕ) (change : ChangesAt self.now.history name revision) →
            result ≤ revision → level (file_in change.before name).durability < level durability }
        // From that revision on, a file of this durability or more is the same at every later
        // revision.
        ensures stays { (revision other : ℕ) (then after : Sources) (name : List ℕ) →
            result ≤ revision → revision ≤ other →
            slice_get self.now.history revision ≡ Some then →
            slice_get self.now.history other ≡ Some after →
            level durability ≤ level (file_in then name).durability →
            file_in then name ≡ file_in after name }
        // A higher durability's revision is never the later one.
        ensures ordered { (lower : Durability) (last : ℕ) → level lower ≤ level durability →
            IsLastChangeOf self.now.history lower last → result ≤ last }
    {
        Revision::of(self.last_changed.of(durability))
    }

    /// The last revision. The sources at each revision are those at the one before with one file
    /// set.
    pub fn now(&self) -> Revision
        // `now`, `bounded`: The last revision, which is at most 18,446,744,073,709,551,615.
        ensures now { result ≡ self.now.revision }
        ensures bounded { result ≤ last_revision }
        // `counted`, `first`, `last`: The history has a member for each revision, the first without
        // files and the last the files now.
        ensures counted { length self.now.history ≡ self.now.revision + 1 }
        ensures first { slice_get self.now.history 0 ≡ Some [] }
        ensures last { slice_get self.now.history self.now.revision ≡ Some self.now.files }
        // Each member of the history after the first is the one before with one file set.
        ensures made { (revision : ℕ) (before after : Sources) →
            slice_get self.now.history revision ≡ Some before →
            slice_get self.now.history (revision + 1) ≡ Some after →
            (name : List ℕ) × (file : File) × (after ≡ with_file before name file) }
    {
        Revision::of(self.revision)
    }
}

/// Whether `text`, where there is one, has more than `MAX_TEXT` bytes.
fn is_too_long(text: Option<&str>) -> bool
    ensures { result ≡ is_too_long (option_copied text.entry) }
{
    match text {
        Some(text) => text.len() > MAX_TEXT,
        None => false,
    }
}
