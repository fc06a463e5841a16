//! What serves one editor: lists of diagnostics that are sent without being asked for, and what the
//! session leaves to whoever holds the documents.
//!
//! `lists` prints the list of the diagnostics of a reply, and `last_sent` says whether it is news.
//! `looked` names the folders in which an import was looked for.
//! `published` has the messages that the server sends of itself. `shown` prints replies as an editor
//! is shown them. `edits` makes texts, changes and requests, and `cuts` makes texts of changes whose
//! ranges end past the text. `events` says what a message tells beside what it asks for.

pub(crate) mod cuts;
pub(crate) mod edits;
pub(crate) mod events;
pub(crate) mod last_sent;
pub(crate) mod lists;
pub(crate) mod looked;
pub(crate) mod published;
pub(crate) mod shown;
