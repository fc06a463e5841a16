//! The theorems about streams of frames, each the contract of a function with an empty body.
//!
//! Every stream is frames and a rest (`each_stream`), in one way only (`one_reading`). `feed` finds
//! them, however the stream is cut into pieces (`any_pieces`, from `empty_stream`). Frames once
//! found stay (`frames_of_prefix`). What `frame` writes is one frame (`written_reads`).
ghost use Rattle.std.specs.Prelude.{◌≡◌, ◌≤◌, ◌++◌, List, ℕ, length, []};
ghost use Rattle.pq_frame.specs.Frames.{Frames, IsFrame, State, Reading};
ghost use Rattle.pq_frame.specs.Header.{max_body};
ghost use Rattle.pq_frame.specs.Written.{written};
ghost use Rattle.pq_frame.specs.Runs.{Fed, Answer, taken_bytes, answered_bodies};

/// `feed` answers the bodies of the frames of a stream, however the stream is cut into pieces.
/// The reader is then in the state of the stream's rest. A piece to which `feed` answered `Memory`
/// was not taken: it is not part of the stream.
pub fn any_pieces()
    // However the stream is chunked, the bodies are those of the stream.
    ensures { (pieces : List (List ℕ)) (answers : List Answer) (state : State)
        → Fed (Reading []) pieces answers state
        → Frames (taken_bytes pieces answers) (answered_bodies answers) state }
{}

/// The bodies and the rest of a stream are unique.
pub fn one_reading()
    // Each stream of bytes is frames and a rest in exactly one way.
    ensures { (bytes : List ℕ) (bodies : List (List ℕ)) (state : State)
        (others : List (List ℕ)) (other : State)
        → Frames bytes bodies state → Frames bytes others other
        → (bodies ≡ others) × (state ≡ other) }
{}

/// `frame` writes one frame, if the body has at most 16,777,216 bytes.
pub fn written_reads()
    // What `frame` writes of a body of at most 16,777,216 bytes reads as that one body.
    ensures { (body : List ℕ) → length body ≤ max_body → IsFrame (written body) body }
{}

/// Each stream is frames and a rest.
pub fn each_stream()
    // Each stream of bytes is frames and a rest in exactly one way.
    ensures { (bytes : List ℕ)
        → (bodies : List (List ℕ)) × (state : State) × Frames bytes bodies state }
{}

/// The empty stream has no frames, and its rest is empty: the state of a new reader.
pub fn empty_stream()
    // No bytes are no frames.
    ensures { Frames [] [] (Reading []) }
{}

/// The frames of a prefix of a stream are the first frames of the stream.
pub fn frames_of_prefix()
    // The frames of a prefix are the first frames of the stream.
    ensures { (prefix later : List ℕ) (bodies : List (List ℕ)) (state : State)
        (all : List (List ℕ)) (end : State)
        → Frames prefix bodies state → Frames (prefix ++ later) all end
        → (others : List (List ℕ)) × (all ≡ bodies ++ others) }
{}
