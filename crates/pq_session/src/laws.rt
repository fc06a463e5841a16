//! The theorems about all scripts and all replies, each the contract of a function with an empty
//! body.
//!
//! The definition of an output leaves no input without one (`each_output`). A script that stops
//! early has written a prefix of one (`stops_at_a_front`). A result that was printed before gives
//! the response that would be printed with its data (`symbols_spliced`, `descriptor_spliced`).
//! Reading the URI that was printed of a file gives its name back (`uris_come_back`).
//!
//! A diagnostic that an editor is shown is as it is but for its severity and its message
//! (`shown_but_severity`), and the message is its own unless an import is not found
//! (`messages_as_they_are`). Where each import is read and found, and no part of the file is unread, all
//! are shown as they are (`list_as_it_is`, `reply_as_it_is`). Any other reply is that of a session with
//! a root, where the URI of a definition is that below the root (`located_as_it_is`). Changes that fit a
//! text are not cut (`fitting_uncut`). A list that was printed before gives the notification that would
//! be printed with its data (`published_spliced`). The plain form of a URI is plain (`plain_uris_stay`).
ghost use Rattle.std.specs.Prelude.{◌≡◌, ◌↔◌, Bool, true, false, List, [], ◌++◌, ℕ, ℤ, map, Option, Some, None, IsUtf8};
ghost use Rattle.serde_json.specs.Data.{Data};
ghost use Rattle.serde_json.specs.Written.{compact_text};
ghost use Rattle.pq_frame.specs.Labels.{LabelModel, label_data};
ghost use Rattle.pq_links.specs.declared.files.ParsedFile.{ParsedFile};
ghost use Rattle.pq_checks.specs.Codes.{severity, severity_number};
ghost use Rattle.pq_checks.specs.declared.errors.diagnostic.Diagnostic.{Diagnostic};
ghost use Rattle.pq_checks.specs.declared.errors.diagnostic.Diagnosed.{Diagnosed};
ghost use Rattle.pq_core.specs.Replies.{ReplyView};
ghost use Rattle.pq_lex.specs.TextChanges.{TextChangeView, apply};
ghost use Rattle.pq_proto.specs.Lists.{list_data};
ghost use Rattle.pq_proto.specs.declared.key.ProtoKey.{ProtoKey};
ghost use Rattle.pq_proto.specs.declared.value.Location.{Location};
ghost use Rattle.pq_proto.specs.declared.value.ProtoValue.{ProtoValue};
ghost use Rattle.pq_session.specs.Cuts.{after_cuts};
ghost use Rattle.pq_session.specs.Editor.{has_unread, has_unsaid, has_missing, is_missing, shown_severity, shown_message, item_data, shown_data, shown_list, answered_diagnostics, answered_location, editor_reply_text, published_text, published_data};
ghost use Rattle.pq_session.specs.Replies.{reply_text};
ghost use Rattle.pq_session.specs.Reply.{diagnostic_data, reply_data, symbols_text, descriptor_data, descriptor_text};
ghost use Rattle.pq_frame.specs.Frames.{Frames, State};
ghost use Rattle.pq_session.specs.Responses.{ScriptState};
ghost use Rattle.std.specs.Io.{StartsWith};
ghost use Rattle.pq_session.specs.Output.{Output, Outputs};
ghost use Rattle.pq_session.specs.Script.{StopsWithin};
ghost use Rattle.pq_session.specs.Uri.{root_of, file_of, uri_of, is_file_name, path_of, plain_uri};

/// Every list of bodies has an output, in every state of a script.
pub fn each_output()
    // Every list of bodies has an output, in every state of a script.
    ensures { (state : ScriptState) (bodies : List (List ℕ)) → (o : Output) × Outputs state bodies o }
{}

/// A script that stops within its input has written a prefix of an output for all of its frames,
/// in whatever state it started.
pub fn stops_at_a_front()
    // A script that stopped within its input has written a prefix of an output for all its frames,
    // in whatever state it started.
    ensures { (start : ScriptState) (bytes out : List ℕ) (bodies : List (List ℕ)) (state : State) →
        Frames bytes bodies state → StopsWithin bytes start out →
        (o : Output) × Outputs start bodies o × StartsWith o.bytes out }
{}

/// Where a text is the compact text of data, the response that has the text as its result is the
/// compact text of the response with that data.
pub fn symbols_spliced()
    // A response into which a printed text is put is the compact text of the response with that
    // data.
    ensures { (label : LabelModel) (d : Data) →
        symbols_text label (compact_text d) ≡ compact_text (reply_data (label_data label) d) }
{}

/// Where a text is the compact text of a descriptor, the response that has the text and a revision
/// is the compact text of the response with that descriptor and that revision.
pub fn descriptor_spliced()
    // A response into which a printed text is put is the compact text of the response with that
    // data.
    ensures { (label : LabelModel) (d : Data) (revision : ℕ) →
        descriptor_text label (compact_text d) revision
        ≡ compact_text (reply_data (label_data label) (descriptor_data d revision)) }
{}

/// Reading the URI that was printed of a text gives the text back exactly if the text is the name
/// of a file. Every name that a URI has is such a text.
pub fn uris_come_back()
    // `exact`, `names`: The URI that is printed of a text names it again exactly if it is the name
    // of a file, and every name that a URI has is one.
    ensures exact { (root_uri : Option (List ℕ)) (name : List ℕ) → IsUtf8 name →
        (file_of (root_of root_uri) (uri_of (root_of root_uri) name) ≡ Some name)
        ↔ (is_file_name (root_of root_uri) name ≡ true) }
    ensures names { (root_uri : Option (List ℕ)) (uri name : List ℕ) →
        file_of (root_of root_uri) uri ≡ Some name →
        IsUtf8 name × (is_file_name (root_of root_uri) name ≡ true) }
{}

/// A diagnostic that an editor is shown is the diagnostic of a report, but for the number of its
/// severity and for its message.
pub fn shown_but_severity()
    // `plain`, `shown`: A diagnostic that is shown is that of a report but for the number of its
    // severity and for its message.
    ensures plain { (file : ParsedFile) (f : Diagnostic) →
        diagnostic_data file f ≡ item_data (severity_number (severity f.code)) f.text file f }
    ensures shown { (unread : Bool) (looked : List ℕ) (file : ParsedFile) (f : Diagnostic) →
        shown_data unread looked file f
        ≡ item_data (shown_severity unread f.code) (shown_message looked f) file f }
{}

/// A diagnostic that an editor is shown has its own message, unless it is an import that is not found.
/// Then the message begins with its own.
pub fn messages_as_they_are()
    // `others`, `missing`: The message that is shown is that of the diagnostic, unless an import is not
    // found; then the text that says where it was looked for follows it.
    ensures others { (looked : List ℕ) (f : Diagnostic) → is_missing f.code ≡ false →
        shown_message looked f ≡ f.text }
    ensures missing { (looked : List ℕ) (f : Diagnostic) → is_missing f.code ≡ true →
        shown_message looked f ≡ f.text ++ looked }
{}

/// Where each import of a file is read, and no part of it is unread, the list of its diagnostics has
/// them as they are, if each import is found or nothing is said of the folders.
pub fn list_as_it_is()
    // `found`, `untold`: Where each import is read and no part is unread, the list has each diagnostic
    // as it is, if each import is found or the text about the folders is empty.
    ensures found { (looked : List ℕ) (d : Diagnosed) → has_unread d.diagnostics ≡ false →
        has_unsaid d.diagnostics ≡ false → has_missing d.diagnostics ≡ false →
        shown_list looked d ≡ compact_text (list_data (map (diagnostic_data d.file) d.diagnostics)) }
    ensures untold { (d : Diagnosed) → has_unread d.diagnostics ≡ false →
        has_unsaid d.diagnostics ≡ false →
        shown_list [] d ≡ compact_text (list_data (map (diagnostic_data d.file) d.diagnostics)) }
{}

/// Where each import of a file is read, and no part of it is unread, an editor gets the reply that any
/// other client gets, if each import is found or nothing is said of the folders.
pub fn reply_as_it_is<M>()
    // `found`, `untold`: Where each import is read and no part is unread, the reply has each diagnostic
    // as it is, if each import is found or the text about the folders is empty.
    ensures found { (uri looked root : List ℕ) (reply : ReplyView ProtoKey ProtoValue M) (d : Diagnosed) →
        answered_diagnostics reply ≡ Some d → has_unread d.diagnostics ≡ false →
        has_unsaid d.diagnostics ≡ false → has_missing d.diagnostics ≡ false →
        editor_reply_text uri looked reply ≡ reply_text root reply }
    ensures untold { (uri root : List ℕ) (reply : ReplyView ProtoKey ProtoValue M) (d : Diagnosed) →
        answered_diagnostics reply ≡ Some d → has_unread d.diagnostics ≡ false →
        has_unsaid d.diagnostics ≡ false →
        editor_reply_text uri [] reply ≡ reply_text root reply }
{}

/// An editor that is given the URI below a root gets the definition that any other client with that
/// root gets. A reply without diagnostics and without a location has no URI: it is the same for each
/// root.
pub fn located_as_it_is<M>()
    // `located`, `other`: Where the URI is that below a root, the reply of a definition is that of a
    // session with this root; a reply of no diagnostics and no location has the same text for each
    // URI and each root.
    ensures located { (looked root : List ℕ) (reply : ReplyView ProtoKey ProtoValue M) (l : Location) →
        answered_location reply ≡ Some l →
        editor_reply_text (uri_of root l.file) looked reply ≡ reply_text root reply }
    ensures other { (uri looked root : List ℕ) (reply : ReplyView ProtoKey ProtoValue M) →
        answered_diagnostics reply ≡ None → answered_location reply ≡ None →
        editor_reply_text uri looked reply ≡ reply_text root reply }
{}

/// Changes that all fit a text leave the same, whether their ranges are cut or not.
pub fn fitting_uncut()
    // Changes that all fit a text leave the text that they leave if no range is cut.
    ensures { (text after : List ℕ) (changes : List TextChangeView) →
        apply (Some text) changes ≡ Some after → after_cuts text changes ≡ after }
{}

/// Where a text is the compact text of data, the notification that has the text as its list is the
/// compact text of the notification with that data.
pub fn published_spliced()
    // The notification into which a printed list is put is the compact text of the notification
    // with that data.
    ensures { (uri : List ℕ) (version : Option ℤ) (d : Data) →
        published_text uri version (compact_text d) ≡ compact_text (published_data uri version d) }
{}

/// The plain form of a URI is plain, and a URI that names a path is in its plain form.
pub fn plain_uris_stay()
    // `twice`, `named`: The plain form of a plain form is itself, and a URI that names a path is its
    // plain form.
    ensures twice { (uri : List ℕ) → plain_uri (plain_uri uri) ≡ plain_uri uri }
    ensures named { (uri path : List ℕ) → path_of uri ≡ Some path → plain_uri uri ≡ uri }
{}
