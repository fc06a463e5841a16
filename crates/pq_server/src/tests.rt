//! Tests of the program: its command line, its statuses, sessions through devices that fail, and
//! sessions over sockets, with how they end and which connections become one.
//!
//! They cover what no contract says. All other tests are rows of `cases/`, or stand in crates of
//! tests alone.
mod accepting;
mod libraries;
mod lingering;
mod over_library;
mod program;
mod roots;
mod scratch;
mod sockets;
mod support;
