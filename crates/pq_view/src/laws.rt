//! What holds of every view.
ghost use Rattle.std.specs.Prelude.{◌≡◌, List, ℕ, Contains, None, Some, false, true};
ghost use Rattle.pq_view.specs.Edits.{with_disk};
ghost use Rattle.pq_view.specs.Views.{Texts, View, is_path, name_of, path_of, paths_before, place, source};

/// Names and paths fit each other, and an open document is a source.
pub fn names_lead_back()
    // `path`: the name of a path has that path in replies.
    ensures path { (v : View) (path : List ℕ) → is_path path ≡ true → path_of v (name_of v path) ≡ path }
    // `document`: the text of an open document is the source of its name.
    ensures document { (v : View) (path text : List ℕ) → is_path path ≡ true → v.documents path ≡ Some text →
        source v (name_of v path) ≡ Some text }
{}

/// The source of a name rests on no more of the disk than the paths before its place and the place.
///
/// So who looked at these alone gives the name the source that it has on the whole disk.
pub fn what_was_looked_at_is_enough()
    // Where a disk has nothing at the paths before the place of a name, and at the place what the
    // view has there, unless a document is open there, the source is as in the view of that disk.
    ensures enough { (v : View) (name : List ℕ) (disk : Texts) → is_path name ≡ false →
        ((path : List ℕ) → Contains (paths_before v name) path → disk path ≡ None) →
        ((path : List ℕ) → place v name ≡ Some path → v.documents path ≡ None → disk path ≡ v.disk path) →
        source v name ≡ source (with_disk disk v) name }
{}
