//! A session of the language server, and the script that serves one client from a reader to a
//! writer.
//!
//! `script` starts without files, and `script_over` over inputs that its caller has filled. A script
//! reads frames (`run`), handles the bodies of each piece in order (`bodies`), and writes the response
//! to a request before it reads on (`send`). `state` has the server's state and what each message asks
//! of it, and `protocol` the methods, parameters and responses on the wire. One incremental engine
//! answers all queries. `counted` has the readers and writers whose calls are counted.
//!
//! `specs/Script` and `specs/Output` say which bytes are written for which input, `specs/Session`
//! with `specs/Items` what a message means, `specs/Uri` which file a URI names, `specs/Responses`
//! what the response to a message may be, and `specs/Replies` with `specs/Reply` its text.
//! `specs/Editor` says what an editor is shown, `specs/Plain` in which form its URIs are read, and
//! `specs/Cuts` which text its changes leave. What the files say is `Compiles` of `pq_proto`. `laws`
//! has the theorems about all of them.
#![tactic(auto)]

mod bodies;
mod counted;
mod editor;
mod fault;
mod laws;
mod protocol;
mod run;
mod send;
mod state;

pub use counted::Counted;
pub use editor::cuts::{CutFault, text_after_cuts};
pub use editor::edits::{asked_file, change_to, diagnostics_of, renamed, text_after};
pub use editor::events::{Event, Greeting, Previous, event_of, without_root};
pub use editor::last_sent::LastSent;
pub use editor::lists::{DiagnosticList, diagnostic_list};
pub use editor::looked::looked_in;
pub use editor::published::{WATCH_FILES, empty_list, published_text};
pub use editor::shown::{definition_file, editor_text};
pub use fault::ScriptFault;
pub use laws::{
    descriptor_spliced, each_output, fitting_uncut, list_as_it_is, located_as_it_is,
    messages_as_they_are, plain_uris_stay, published_spliced, reply_as_it_is, shown_but_severity,
    stops_at_a_front, symbols_spliced, uris_come_back,
};
pub use protocol::answers::reply_text;
pub use protocol::plain::with_plain_uri;
pub use protocol::replies::{editor_initialized_text, out_of_memory_text};
pub use protocol::results::result_text;
pub use protocol::root::Root;
pub use protocol::uris::{plain_uri, scheme_of};
pub use run::{MAX_READS, at_end, script, script_over};
pub use send::{write_all, write_frame};
pub use state::items::Item;
pub use state::notifications::UNREADABLE_PARAMETERS;
pub use state::sessions::Session;
pub use std::alloc::AllocError as Memory;
