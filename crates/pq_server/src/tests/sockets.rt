//! Sessions over sockets of 127.0.0.1: what the server writes, byte for byte, and how it ends.
//!
//! A client takes turns: it sends the frames of the rows `> BODY`, and then reads as many bytes as the
//! frames of the rows `< BODY` have. So a reply shows that all messages before it were carried.
use super::over_library::{BEGIN, frames_of};
use super::scratch::{make, path_of};
use super::support::check_text;
use crate::library::{no_library, read_library};
use crate::serving::{OpenGate, Size, serve};
use crate::status::run_script;
use pq_core::{Stamp, Work};
use pq_frame::frame;
use pq_hall::{Gate, HallRules, Strict};
use pq_proto::ProtoKey;
use pq_session::Counted;
use std::io::{Read, Write};
use std::net::{Net, Shutdown, SocketAddr, TcpListener, TcpStream};
use std::process::Abort;
use std::sync::atomic::{AtomicBool, Ordering};
use std::test::Fail;
use std::time::{Clock, Duration};
use std::{fs, thread};

/// The stored session after its first request and reply.
const STORED: &str =
    r#"> {"jsonrpc":"2.0","method":"textDocument/didOpen","params":{"textDocument":{"uri":"file:///a.proto","text":"syntax = \"proto3\";\nmessage M { int32 x = 1; }"}}}
> {"id":1,"jsonrpc":"2.0","method":"textDocument/diagnostic","params":{"textDocument":{"uri":"file:///a.proto"}}}
< {"id":1,"jsonrpc":"2.0","result":{"items":[],"kind":"full","resultId":"1"}}
> {"id":2,"jsonrpc":"2.0","method":"shutdown"}
< {"id":2,"jsonrpc":"2.0","result":null}
> {"jsonrpc":"2.0","method":"exit"}"#;

/// A use of the one file of a library.
const USE: &str =
    r#"> {"jsonrpc":"2.0","method":"textDocument/didOpen","params":{"textDocument":{"uri":"file:///a.proto","text":"syntax = \"proto3\";\nimport \"x/l.proto\";\nmessage M { L l = 1; }"}}}
> {"id":1,"jsonrpc":"2.0","method":"textDocument/diagnostic","params":{"textDocument":{"uri":"file:///a.proto"}}}
< {"id":1,"jsonrpc":"2.0","result":{"items":[],"kind":"full","resultId":"2"}}
> {"jsonrpc":"2.0","method":"exit"}"#;

/// The open of a file without imports, and a request that shows that it was carried.
const OPEN_HELD: &str =
    r#"> {"jsonrpc":"2.0","method":"textDocument/didOpen","params":{"textDocument":{"uri":"file:///held.proto","text":"syntax = \"proto3\";"}}}
> {"id":"open","jsonrpc":"2.0","method":"none"}
< {"error":{"code":-32601,"message":"method not found"},"id":"open","jsonrpc":"2.0"}"#;

/// As `OPEN_HELD`, with another file.
const OPEN_OTHER: &str =
    r#"> {"jsonrpc":"2.0","method":"textDocument/didOpen","params":{"textDocument":{"uri":"file:///b.proto","text":"syntax = \"proto3\";"}}}
> {"id":"open","jsonrpc":"2.0","method":"none"}
< {"error":{"code":-32601,"message":"method not found"},"id":"open","jsonrpc":"2.0"}"#;

/// A change with a range of a line that its text does not have, and a request that is not answered.
const BAD_RANGE: &str =
    r#"> {"jsonrpc":"2.0","method":"textDocument/didChange","params":{"textDocument":{"uri":"file:///b.proto"},"contentChanges":[{"text":"x"},{"range":{"start":{"line":1,"character":0},"end":{"line":1,"character":0}},"text":"x"}]}}
> {"id":1,"jsonrpc":"2.0","method":"none"}"#;

/// The request whose work is held.
const ASK_HELD: &str =
    r#"> {"id":1,"jsonrpc":"2.0","method":"textDocument/diagnostic","params":{"textDocument":{"uri":"file:///held.proto"}}}"#;

/// Its reply.
const REPLY_HELD: &str =
    r#"< {"id":1,"jsonrpc":"2.0","result":{"items":[],"kind":"full","resultId":"2"}}"#;

/// A request that waits for the work that is held, its withdrawal, and its reply.
const WITHDRAWN: &str =
    r#"> {"id":1,"jsonrpc":"2.0","method":"textDocument/diagnostic","params":{"textDocument":{"uri":"file:///held.proto"}}}
> {"jsonrpc":"2.0","method":"$/cancelRequest","params":{"id":1}}
< {"error":{"code":-32800,"message":"request cancelled"},"id":1,"jsonrpc":"2.0"}"#;

/// A request of the other client, and its reply.
const ASK_OTHER: &str =
    r#"> {"id":1,"jsonrpc":"2.0","method":"textDocument/diagnostic","params":{"textDocument":{"uri":"file:///b.proto"}}}
< {"id":1,"jsonrpc":"2.0","result":{"items":[],"kind":"full","resultId":"2"}}"#;

/// A request, and its reply at the first revision.
const ASK_FIRST: &str =
    r#"> {"id":1,"jsonrpc":"2.0","method":"textDocument/diagnostic","params":{"textDocument":{"uri":"file:///b.proto"}}}
< {"id":1,"jsonrpc":"2.0","result":{"items":[],"kind":"full","resultId":"1"}}"#;

/// A session with a root folder. What comes after its `exit` is not answered.
const ROOTED: &str =
    r#"> {"id":0,"jsonrpc":"2.0","method":"initialize","params":{"rootUri":"file:///home/u"}}
< {"id":0,"jsonrpc":"2.0","result":{"capabilities":{"definitionProvider":true,"diagnosticProvider":{"interFileDependencies":true,"workspaceDiagnostics":false},"documentSymbolProvider":true,"positionEncoding":"utf-16","textDocumentSync":{"change":2,"openClose":true}},"serverInfo":{"name":"pq_server"}}}
> {"jsonrpc":"2.0","method":"textDocument/didOpen","params":{"textDocument":{"uri":"file:///home/u/a.proto","text":"syntax = \"proto3\";\nmessage M { M m = 1; }"}}}
> {"id":1,"jsonrpc":"2.0","method":"textDocument/definition","params":{"position":{"character":12,"line":1},"textDocument":{"uri":"file:///home/u/a.proto"}}}
< {"id":1,"jsonrpc":"2.0","result":{"range":{"end":{"character":9,"line":1},"start":{"character":8,"line":1}},"uri":"file:///home/u/a.proto"}}
> {"jsonrpc":"2.0","method":"exit"}
> {"id":2,"jsonrpc":"2.0","method":"none"}"#;

/// The frame of a request, and a header that has no length.
const BAD_HEADER: &str =
    "Content-Length: 40\r\n\r\n{\"id\":1,\"jsonrpc\":\"2.0\",\"method\":\"none\"}Content-Length: x\r\n\r\n";

/// The reply of that request.
const REPLY_NONE: &str =
    r#"< {"error":{"code":-32601,"message":"method not found"},"id":1,"jsonrpc":"2.0"}"#;

/// The end of a session.
const EXIT: &str = r#"> {"jsonrpc":"2.0","method":"exit"}"#;

/// How large the servers of these tests are.
fn two_workers(sessions: u32) -> Size {
    Size {
        workers: 2,
        sessions: Some(sessions),
    }
}

/// Sends the frames of the rows of a client, and checks that the rows of the server come.
fn take_turns(rt: &(impl Abort + AllocGlobal), stream: &TcpStream, rows: &str) {
    let sent = frames_of(rt, rows, ">").expect(rt, "memory");
    let wanted = frames_of(rt, rows, "<").expect(rt, "memory");
    let mut output = stream;
    output
        .write_all(sent.as_slice())
        .expect(rt, "the frames are sent");
    let mut found = vec![in rt.alloc(); 0u8; wanted.len()].expect(rt, "memory");
    let mut input = stream;
    input.read_exact(found.as_mut_slice()).expect(rt, rows);
    check_same(rt, found.as_slice(), wanted.as_slice(), rows);
}

/// Checks that `found` is `wanted`; `rows` names the session.
fn check_same(rt: &(impl Abort + AllocGlobal), found: &[u8], wanted: &[u8], rows: &str) {
    let found = String::from_utf8_lossy(rt.alloc(), found).expect(rt, "memory");
    let wanted = String::from_utf8_lossy(rt.alloc(), wanted).expect(rt, "memory");
    check_text(rt, found.as_str(), wanted.as_str(), rows);
}

/// Checks that the server has ended `stream`.
fn check_ended(rt: &impl Abort, stream: &TcpStream) {
    let mut input = stream;
    let mut byte = [0u8; 1];
    match input.read(&mut byte) {
        Ok(count) => assert_eq!(rt; count, 0, "the server has ended the stream"),
        Err(_) => {}
    }
}

/// A connection whose session has begun.
fn begun<R>(rt: &R, address: SocketAddr) -> TcpStream
where
    R: Abort + AllocGlobal + Net<Listener = TcpListener, Stream = TcpStream>,
{
    let stream = TcpStream::connect(rt, address).expect(rt, "a connection");
    take_turns(rt, &stream, BEGIN);
    stream
}

/// A session of `rows`.
fn talk<R>(rt: &R, address: SocketAddr, rows: &str)
where
    R: Abort + AllocGlobal + Net<Listener = TcpListener, Stream = TcpStream>,
{
    let stream = begun(rt, address);
    take_turns(rt, &stream, rows);
    check_ended(rt, &stream);
}

/// What `script` writes for the frames of `rows`.
fn scripted(rt: &(impl Abort + AllocGlobal), rows: &str) -> Vec<u8> {
    let sent = frames_of(rt, rows, ">").expect(rt, "memory");
    let mut written = Vec::new(rt.alloc());
    let mut reader = Counted::new(sent.as_slice());
    let mut writer = Counted::new(&mut written);
    let mut errors = Counted::new(Vec::new(rt.alloc()));
    let status = run_script(rt.alloc(), &mut reader, &mut writer, &mut errors);
    assert_eq!(rt; status, 0);
    written
}

// The bytes are those of `script`.
#[test]
fn the_stored_session(rt: HostRuntime) -> Result<(), Fail> {
    let rows = format!(in rt.alloc(); "{BEGIN}\n{STORED}")?;
    let wanted = frames_of(&rt, rows.as_str(), "<")?;
    let written = scripted(&rt, rows.as_str());
    check_same(&rt, written.as_slice(), wanted.as_slice(), "script");
    let listener = TcpListener::bind(&rt, "127.0.0.1:0")?;
    let address = listener.local_addr()?;
    let library = no_library(rt.alloc());
    let (status, ()) = thread::join(
        &rt,
        || serve(
            &rt,
            rt.alloc(),
            HallRules::<Strict>::new(),
            listener,
            library,
            None,
            two_workers(1),
            &OpenGate,
        ),
        || talk(&rt, address, STORED),
    );
    assert_eq!(rt; status, 0);
    Ok(())
}

#[test]
fn a_library(rt: HostRuntime) -> Result<(), Fail> {
    let base = path_of(&rt, rt.process(), "served")?;
    make(
        &rt,
        base.as_str(),
        "x/l.proto = syntax = \"proto3\"; message L {}",
    )?;
    let listener = TcpListener::bind(&rt, "127.0.0.1:0")?;
    let address = listener.local_addr()?;
    let library = read_library(&rt, base.as_str());
    let (status, ()) = thread::join(
        &rt,
        || serve(
            &rt,
            rt.alloc(),
            HallRules::<Strict>::new(),
            listener,
            library,
            None,
            two_workers(1),
            &OpenGate,
        ),
        || talk(&rt, address, USE),
    );
    assert_eq!(rt; status, 0);
    fs::remove_dir_all(&rt, base.as_str())?;
    let library = read_library(&rt, base.as_str());
    let listener = TcpListener::bind(&rt, "127.0.0.1:0")?;
    let status = serve(
        &rt,
        rt.alloc(),
        HallRules::<Strict>::new(),
        listener,
        library,
        None,
        two_workers(1),
        &OpenGate,
    );
    assert_eq!(rt; status, 4);
    Ok(())
}

/// A frame that opens a file of `count` spaces.
fn opened_spaces(rt: &(impl Abort + AllocGlobal), count: usize) -> Vec<u8> {
    let spaces = " ".repeat(rt.alloc(), count).expect(rt, "memory");
    let body = format!(in rt.alloc();
        r#"{{"jsonrpc":"2.0","method":"textDocument/didOpen","params":{{"textDocument":{{"uri":"file:///a","text":"{spaces}"}}}}}}"#
    );
    let body = body.expect(rt, "memory");
    frame(rt.alloc(), body.as_bytes()).expect(rt, "memory")
}

/// Three clients, of which two make edits that are refused: one has a bad range, and one is too long.
/// Returns the stream of this one.
fn two_are_refused<R>(rt: &R, address: SocketAddr) -> TcpStream
where
    R: Abort + AllocGlobal + Net<Listener = TcpListener, Stream = TcpStream>,
{
    let refused = begun(rt, address);
    let other = begun(rt, address);
    talk(rt, address, BAD_RANGE);
    take_turns(rt, &other, OPEN_OTHER);
    // A file may have one byte less.
    let frame = opened_spaces(rt, 1_048_577);
    let mut output = &refused;
    output
        .write_all(frame.as_slice())
        .expect(rt, "the frame is sent");
    check_ended(rt, &refused);
    take_turns(rt, &other, ASK_FIRST);
    other
        .shutdown(Shutdown::Write)
        .expect(rt, "the end is sent");
    check_ended(rt, &other);
    refused
}

// The clients whose edits are refused are closed, and the other one is served. The server ends
// though a stream that it has ended is open.
#[test]
fn a_refused_edit(rt: HostRuntime) -> Result<(), Fail> {
    let listener = TcpListener::bind(&rt, "127.0.0.1:0")?;
    let address = listener.local_addr()?;
    let library = no_library(rt.alloc());
    let (status, _refused) = thread::join(
        &rt,
        || serve(
            &rt,
            rt.alloc(),
            HallRules::<Strict>::new(),
            listener,
            library,
            None,
            two_workers(3),
            &OpenGate,
        ),
        || two_are_refused(&rt, address),
    );
    assert_eq!(rt; status, 0);
    Ok(())
}

/// Two clients: one has a root folder, and one sends a frame that no read takes in whole, and then a
/// header that ends its session. Returns the stream of this one.
fn two_end<R>(rt: &R, address: SocketAddr) -> TcpStream
where
    R: Abort + AllocGlobal + Net<Listener = TcpListener, Stream = TcpStream>,
{
    let rooted = TcpStream::connect(rt, address).expect(rt, "a connection");
    take_turns(rt, &rooted, ROOTED);
    check_ended(rt, &rooted);
    let bad = begun(rt, address);
    let frame = opened_spaces(rt, 20_000);
    let mut output = &bad;
    output
        .write_all(frame.as_slice())
        .expect(rt, "the frame is sent");
    output
        .write_all(BAD_HEADER.as_bytes())
        .expect(rt, "the header is sent");
    take_turns(rt, &bad, REPLY_NONE);
    check_ended(rt, &bad);
    bad
}

// A session ends by its `exit`, and by an error of its frames, after the replies to what came before.
// The server ends though the client has not closed its stream.
#[test]
fn two_ends(rt: HostRuntime) -> Result<(), Fail> {
    let listener = TcpListener::bind(&rt, "127.0.0.1:0")?;
    let address = listener.local_addr()?;
    let library = no_library(rt.alloc());
    let (status, _bad) = thread::join(
        &rt,
        || serve(
            &rt,
            rt.alloc(),
            HallRules::<Strict>::new(),
            listener,
            library,
            None,
            two_workers(2),
            &OpenGate,
        ),
        || two_end(&rt, address),
    );
    assert_eq!(rt; status, 0);
    Ok(())
}

/// Connections of `count` clients, whose sessions have begun.
fn begun_often<R>(rt: &R, address: SocketAddr, count: usize) -> Vec<TcpStream>
where
    R: Abort + AllocGlobal + Net<Listener = TcpListener, Stream = TcpStream>,
{
    let mut streams = Vec::new(rt.alloc());
    for _ in 0..count {
        streams.push(begun(rt, address)).expect(rt, "memory");
    }
    streams
}

/// As many clients as may be open, one more, and one after the first has ended.
fn all_seats<R>(rt: &R, address: SocketAddr)
where
    R: Abort + AllocGlobal + Net<Listener = TcpListener, Stream = TcpStream>,
{
    let first = begun(rt, address);
    let others = begun_often(rt, address, 63);
    let beyond = TcpStream::connect(rt, address).expect(rt, "a connection");
    check_ended(rt, &beyond);
    take_turns(rt, &first, EXIT);
    check_ended(rt, &first);
    talk(rt, address, EXIT);
    drop(others);
}

// A client beyond the 64 that may be open is turned away, and is no session. A session that has ended
// leaves its place to another one.
#[test]
fn one_client_too_many(rt: HostRuntime) -> Result<(), Fail> {
    let listener = TcpListener::bind(&rt, "127.0.0.1:0")?;
    let address = listener.local_addr()?;
    let library = no_library(rt.alloc());
    let (status, ()) = thread::join(
        &rt,
        || serve(
            &rt,
            rt.alloc(),
            HallRules::<Strict>::new(),
            listener,
            library,
            None,
            two_workers(65),
            &OpenGate,
        ),
        || all_seats(&rt, address),
    );
    assert_eq!(rt; status, 0);
    Ok(())
}

/// The turns for which the gate holds work at most.
const TURNS: u32 = 100_000;

/// A gate that holds the work on `held.proto` until it is opened.
#[derive(Drop)]
struct Held<'a, R> {
    rt: &'a R,
    is_open: &'a AtomicBool,
    /// Whether it holds work, or has held some.
    has_held: &'a AtomicBool,
    /// Whether it gave up waiting.
    gave_up: &'a AtomicBool,
}

impl<R: Clock> Gate<HallRules<Strict>> for Held<'_, R> {
    fn pass<M: Stamp>(&self, work: &Work<HallRules<Strict>, M>) {
        if !is_held(work.key()) {
            return;
        }
        self.has_held.store(true, Ordering::SeqCst);
        if !waited_for(self.rt, self.is_open) {
            self.gave_up.store(true, Ordering::SeqCst);
        }
    }
}

/// Whether the gate holds work of this key.
fn is_held(key: &ProtoKey) -> bool {
    match key {
        ProtoKey::Parse(file) => file.as_str() == "held.proto",
        _ => false,
    }
}

/// Waits until `flag` is set, or so many turns have passed. Returns whether it was seen.
fn waited_for(rt: &impl Clock, flag: &AtomicBool) -> bool {
    for _ in 0..TURNS {
        if flag.load(Ordering::SeqCst) {
            return true;
        }
        thread::sleep(rt, Duration::from_micros(100));
    }
    false
}

/// Three clients, of which one waits for work that is held while the others are answered: one by its
/// diagnostics, one since it withdraws its request.
fn one_is_held<R>(rt: &R, address: SocketAddr, gate: &Held<'_, R>)
where
    R: Abort + AllocGlobal + Clock + Net<Listener = TcpListener, Stream = TcpStream>,
{
    let held = begun(rt, address);
    let other = begun(rt, address);
    take_turns(rt, &held, OPEN_HELD);
    take_turns(rt, &other, OPEN_OTHER);
    take_turns(rt, &held, ASK_HELD);
    assert!(rt; waited_for(rt, gate.has_held), "a worker is held");
    take_turns(rt, &other, ASK_OTHER);
    let third = begun(rt, address);
    take_turns(rt, &third, WITHDRAWN);
    gate.is_open.store(true, Ordering::SeqCst);
    take_turns(rt, &held, REPLY_HELD);
    assert!(rt;
        !gate.gave_up.load(Ordering::SeqCst),
        "the gate was opened in time"
    );
}

// A worker that is held with the work of one client leaves the others to the other worker.
#[test]
fn two_clients(rt: HostRuntime) -> Result<(), Fail> {
    let listener = TcpListener::bind(&rt, "127.0.0.1:0")?;
    let address = listener.local_addr()?;
    let library = no_library(rt.alloc());
    let is_open = AtomicBool::new(false);
    let has_held = AtomicBool::new(false);
    let gave_up = AtomicBool::new(false);
    let gate = Held {
        rt: &rt,
        is_open: &is_open,
        has_held: &has_held,
        gave_up: &gave_up,
    };
    let (status, ()) = thread::join(
        &rt,
        || serve(
            &rt,
            rt.alloc(),
            HallRules::<Strict>::new(),
            listener,
            library,
            None,
            two_workers(3),
            &gate,
        ),
        || one_is_held(&rt, address, &gate),
    );
    assert_eq!(rt; status, 0);
    Ok(())
}
