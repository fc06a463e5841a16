//! Sessions that linger after their end.
use crate::serving::sessions::{Sessions, SharedStream};
use std::io::Read;
use std::net::{Net, TcpListener, TcpStream};
use std::process::Abort;
use std::sync::{Arc, Wait};
use std::test::Fail;
use std::time::Duration;

/// A connection: the end that its client has, and the end that was accepted.
#[derive(Drop)]
struct Pair {
    client: TcpStream,
    accepted: SharedStream,
}

/// Connections of `count` clients.
fn pairs<R>(rt: &R, count: usize) -> Result<Vec<Pair>, Fail>
where
    R: Abort + AllocGlobal + Net<Listener = TcpListener, Stream = TcpStream>,
{
    let listener = TcpListener::bind(rt, "127.0.0.1:0")?;
    let address = listener.local_addr()?;
    let mut pairs = Vec::new(rt.alloc());
    for _ in 0..count {
        let client = TcpStream::connect(rt, address)?;
        let (accepted, _) = listener.accept()?;
        let accepted = Arc::new(rt.alloc(), accepted).ok().expect(rt, "memory");
        pairs.push(Pair { client, accepted })?;
    }
    Ok(pairs)
}

/// The sessions that linger, and the connections that begin to, by their places.
#[derive(Drop)]
struct Bench {
    sessions: Sessions,
    pairs: Vec<Pair>,
}

impl Bench {
    /// The connection at this place.
    fn pair(&self, rt: &impl Abort, place: usize) -> &Pair {
        match self.pairs.get(place) {
            Some(pair) => pair,
            None => panic!(rt; "a pair"),
        }
    }

    /// The session of the connection at this place begins to linger.
    fn begin(&self, rt: &(impl Abort + Wait), place: usize) {
        let stream = &self.pair(rt, place).accepted;
        let number = self.sessions.begin_to_linger(rt, stream);
        assert!(rt; number.is_some(), "memory");
    }

    /// Whether the accepted end of the connection at this place was shut down. Nothing was sent to its
    /// client.
    fn is_shut(&self, rt: &impl Abort, place: usize) -> bool {
        let client = &self.pair(rt, place).client;
        client
            .set_read_timeout(Some(Duration::from_millis(20)))
            .expect(rt, "a timeout");
        let mut input = client;
        let mut byte = [0u8; 1];
        matches!(input.read(&mut byte), Ok(0))
    }
}

// The oldest of 65 is cut, and no other. One that has ended makes room.
#[test]
fn the_oldest_is_cut(rt: HostRuntime) -> Result<(), Fail> {
    let bench = Bench {
        sessions: Sessions::new(rt.alloc(), None)?,
        pairs: pairs(&rt, 67)?,
    };
    for place in 0..64 {
        bench.begin(&rt, place);
    }
    assert!(rt; !bench.is_shut(&rt, 0), "64 may linger");
    bench.begin(&rt, 64);
    assert!(rt; bench.is_shut(&rt, 0), "the oldest is cut");
    bench.sessions.end_to_linger(&rt, 0);
    bench.sessions.end_to_linger(&rt, 2);
    bench.begin(&rt, 65);
    assert!(rt; !bench.is_shut(&rt, 1), "there was room");
    bench.begin(&rt, 66);
    assert!(rt; bench.is_shut(&rt, 1), "the next one is cut");
    assert!(rt; !bench.is_shut(&rt, 2), "one that has ended is not cut");
    assert!(rt; !bench.is_shut(&rt, 66), "the newest is not cut");
    Ok(())
}
