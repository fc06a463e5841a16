//! Which lists of diagnostics are sent.
//!
//! Lists come from several threads. So a list may come after one of a later revision, and is then not
//! sent: after a list no list of an older revision is sent. A client may drop a list of an older
//! version of the document. So a list is sent again for another version.
ghost use Rattle.std.specs.Prelude.{◌≡◌, [], unwrap_or};
ghost use Rattle.pq_session.specs.Editor.{is_last as is_sent, is_news, after};

use crate::editor::lists::DiagnosticList;
use std::marker::Model;

/// The list of diagnostics that was sent last for a document with the version of the document, and
/// the revision of the last list that was taken.
#[derive(Debug, Drop)]
pub struct LastSent {
    revision: u64,
    version: Option<i64>,
    text: Option<String>,
}

impl Model for LastSent {
    ghost use Rattle.std.specs.Prelude.{option_map, string_bytes};
    ghost use Rattle.pq_session.specs.Editor.{LastView};

    ghost Value = { LastView };

    ghost view = { λ last. record { revision = last.revision; version = last.version; text = option_map string_bytes last.text } };
}

impl LastSent {
    /// What was sent for a document before its first list: nothing.
    pub fn new() -> LastSent
        // The revision is 0, and no version and no text were sent.
        ensures { result ≡ record { revision = 0; version = None; text = None } }
    {
        LastSent {
            revision: 0,
            version: None,
            text: None,
        }
    }

    /// The text that was sent last, `""` before the first.
    pub fn text(&self) -> &str
        // The text that was sent last; empty before the first.
        ensures { result.now ≡ unwrap_or self.now.text [] }
    {
        match &self.text {
            Some(text) => text.as_str(),
            None => "",
        }
    }

    /// Whether `text` was sent last, with `version`.
    fn is_last(&self, text: &str, version: Option<i64>) -> bool
        ensures { result ≡ is_sent self.now text.now version }
    {
        match &self.text {
            Some(sent) => sent.as_str() == text && self.version == version,
            None => false,
        }
    }

    /// Takes `list`, for the document at `version`, and returns whether it is to be sent: it is of no
    /// older revision than the last list that was taken, and its text or its version is not the one
    /// that was sent last. Before the first list each list is to be sent.
    ///
    /// An older list changes nothing. After another one the revision, the version and the text are
    /// those of the list.
    pub fn replace(&mut self, list: DiagnosticList, version: Option<i64>) -> bool
        // `news`, `after`: A list is to be sent exactly if it is of no older revision than the last
        // one taken and its text or its version is not the one sent last; an older list changes
        // nothing.
        ensures news { result ≡ is_news self.old list version }
        ensures after { self.new ≡ after self.old list version }
    {
        let DiagnosticList { revision, text } = list;
        if revision < self.revision {
            return false;
        }
        self.revision = revision;
        if self.is_last(text.as_str(), version) {
            return false;
        }
        self.version = version;
        self.text = Some(text);
        true
    }
}
