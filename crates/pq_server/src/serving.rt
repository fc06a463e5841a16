//! The server over TCP: many sessions over one hall, each on its own connection.
//!
//! `listener` accepts connections and starts the workers. `arrivals` makes a connection a session, and
//! `failures` decides what a failed accept is. A session has three threads: `reader` posts what the
//! messages of the client say, `porter` carries the posts into the hall, and `writer` writes the
//! replies. `session` starts the last two, says how the session ended, and lingers. `roots` says where
//! the root of a session is not the folder of the library. `sessions` counts those that run, and bounds
//! those that linger. `floor` is what they ask of a hall, whatever names its marks.
//! `docs/ARCHITECTURE.md`, "Threads and locks", says who joins and who wakes whom.
//!
//! No contract says what a socket delivers, or that a thread gets on.
mod arrivals;
pub(crate) mod failures;
pub(crate) mod floor;
mod listener;
pub(crate) mod porter;
mod reader;
mod roots;
mod session;
pub(crate) mod sessions;
mod writer;

pub(crate) use listener::{OpenGate, Size, serve};
