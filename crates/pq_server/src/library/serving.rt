//! A script over a library.
ghost use Rattle.std.specs.Prelude.{◌≡◌, ◌+◌, ◌<◌, ◌^◌, ℕ, List, Result, IfOk, IfErr};
ghost use Rattle.std.specs.Io.KnownBytes.{Appends, Consumes, IsAtEnd};
ghost use Rattle.pq_session.specs.Counts.{inner_of, failed_of, reads_of};
ghost use Rattle.pq_session.specs.Responses.{started};
ghost use Rattle.pq_session.specs.Script.{Scripts, IsMemoryAlone, FailsToRead, FailsToWrite};
ghost use Rattle.pq_session.specs.declared.fault.ScriptFault.{ScriptFault};
ghost use Rattle.pq_server.specs.Status.{status_of, line_of, start_status, start_line};

use crate::library::fault::LibraryFault;
use crate::status::{line_of, not_started, status_of, write_line};
use pq_inputs::Inputs;
use pq_proto::ProtoRules;
use pq_session::{Counted, script_over};
use std::alloc::Global;
use std::io::{Read, Write};

/// Serves one client over the library that was read, by `rules`, as `run_script` does without files.
///
/// If no library was read, nothing is read of `reader` and nothing is written to `writer`. The line
/// of the error is written to `errors`, and its status is returned. A failed write of the line is
/// ignored.
pub fn run_library_script<R: Read, W: Write, E: Write>(
    alloc: Global,
    rules: ProtoRules,
    library: Result<Inputs, LibraryFault>,
    reader: &mut Counted<R>,
    writer: &mut Counted<W>,
    errors: &mut Counted<E>,
) -> u8
    requires reads_left { reads_of reader.old < 2 ^ 63 }
    requires reader_left { failed_of reader.old < 2 ^ 63 }
    requires writer_left { failed_of writer.old < 2 ^ 63 }
    requires errors_left { failed_of errors.old < 2 ^ 63 }
    // No library was read: the reader and the writer are as they were, and the status and the line
    // are those of the error.
    ensures refused { IfErr library (λ fault. (result ≡ start_status fault)
        × (reader.new ≡ reader.old) × (writer.new ≡ writer.old)
        × (failed_of errors.new ≡ failed_of errors.old → Appends (E.contents (inner_of errors.old)) (E.contents (inner_of errors.new)) (start_line fault))) }
    // What `run_script` says, over the sources and the revision of a library that was read.
    ensures serves { IfOk library (λ inputs. (bytes : List ℕ) × (out : List ℕ) × (outcome : Result ℕ ScriptFault)
        × Scripts (started rules.loose inputs) (IsAtEnd (R.remaining (inner_of reader.new))) (reads_of reader.new ≡ reads_of reader.old + 4294967296) bytes out outcome
        × Consumes (R.remaining (inner_of reader.old)) (R.remaining (inner_of reader.new)) bytes
        × Appends (W.contents (inner_of writer.old)) (W.contents (inner_of writer.new)) out
        × FailsToRead outcome (failed_of reader.old) (failed_of reader.new)
        × FailsToWrite outcome (failed_of writer.old) (failed_of writer.new)
        × IsMemoryAlone outcome
        × (result ≡ status_of outcome)
        × (failed_of errors.new ≡ failed_of errors.old → Appends (E.contents (inner_of errors.old)) (E.contents (inner_of errors.new)) (line_of outcome))) }
{
    match library {
        Ok(inputs) => {
            let outcome = script_over(alloc, rules, inputs, reader, writer);
            write_line(errors, line_of(outcome).as_bytes());
            status_of(outcome)
        }
        Err(fault) => {
            let (status, line) = not_started(fault);
            write_line(errors, line.as_bytes());
            status
        }
    }
}
