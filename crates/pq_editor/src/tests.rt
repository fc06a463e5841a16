//! Each public function as rows that one interpreter reads.
//!
//! A row is `WORD REST => WANT`, and `~` in a text of a file is a line feed. `imports` writes each import
//! as `NAME@START-END`, and `names` their names. `at LINE CHARACTER TEXT` writes the import there, or
//! `none`. `links` writes a list of the links that its words `LINE:CHARACTER-LINE:CHARACTER=URI` say, and
//! `workspace` the report of those files that its words `URI RESULT VERSION LIST` say, between `|`. A `-`
//! is no version or no list. All other words call the function of that name.
use crate::faults::{FileFault, fault_list, fault_report};
use crate::imports::{Import, imported_names, imports_of};
use crate::links::{Link, import_at, links_text, start_of_file_text};
use crate::reports::{FileReport, workspace_text};
use crate::said::{
    BEGIN_PROGRESS_REQUEST, Kind, REFRESH, begin_progress_request, log_message, progress_begun,
    progress_ended, refresh_request, show_message,
};
use pq_lex::Position;
use pq_names::{Memory, Text};
use std::alloc::Global;
use std::process::Abort;

/// The rows of imports.
const IMPORTS: &str = "\
imports =>
imports syntax = \"proto3\";~import \"a.proto\";~import public 'b' \"c\"; => a.proto@1:7-1:16 bc@2:14-2:21
imports syntax = \"proto3\";~import \"a\"; import weak \"a\"; => a@1:7-1:10 a@1:24-1:27
imports syntax = \"proto3\"; import \"\u{1F600}\"; import \"b\"; => \u{1F600}@0:26-0:30 b@0:39-0:42
imports syntax = \"proto3\"; import \"\\xff\"; import \"b\"; => b@0:41-0:44
imports import \"a\";~message M { x => a@0:7-0:10
imports message M {~import \"a\"~import \"b\"; => a@1:7-1:10 b@2:7-2:10
imports syntax = \"proto3\"; message M { string important = 1; } =>
names syntax = \"proto3\";~import \"a.proto\";~import public 'b' \"c\"; => a.proto bc
names import \"a\";~import \"a\";~message M { x => a a
at 0 25 syntax = \"proto3\"; import \"\u{1F600}\"; => none
at 0 26 syntax = \"proto3\"; import \"\u{1F600}\"; => \u{1F600}
at 0 30 syntax = \"proto3\"; import \"\u{1F600}\"; => \u{1F600}
at 0 31 syntax = \"proto3\"; import \"\u{1F600}\"; => none
at 1 0 import 'a'~'b'~; => ab
at 2 0 import 'a'~'b'~; => none
at 0 10 import 'a''b';import 'c' => ab
";

/// The rows of texts.
const TEXTS: &str = "\
log_message error a\"b => {\"jsonrpc\":\"2.0\",\"method\":\"window/logMessage\",\"params\":{\"message\":\"a\\\"b\",\"type\":1}}
log_message warning a => {\"jsonrpc\":\"2.0\",\"method\":\"window/logMessage\",\"params\":{\"message\":\"a\",\"type\":2}}
log_message info a => {\"jsonrpc\":\"2.0\",\"method\":\"window/logMessage\",\"params\":{\"message\":\"a\",\"type\":3}}
log_message log a => {\"jsonrpc\":\"2.0\",\"method\":\"window/logMessage\",\"params\":{\"message\":\"a\",\"type\":4}}
show_message error a b => {\"jsonrpc\":\"2.0\",\"method\":\"window/showMessage\",\"params\":{\"message\":\"a b\",\"type\":1}}
REFRESH => {\"id\":\"pq_server:refresh\",\"jsonrpc\":\"2.0\",\"method\":\"workspace/diagnostic/refresh\"}
refresh_request => {\"id\":\"pq_server:refresh\",\"jsonrpc\":\"2.0\",\"method\":\"workspace/diagnostic/refresh\"}
BEGIN_PROGRESS_REQUEST => {\"id\":\"pq_server:read\",\"jsonrpc\":\"2.0\",\"method\":\"window/workDoneProgress/create\",\"params\":{\"token\":\"pq_server:read\"}}
begin_progress_request => {\"id\":\"pq_server:read\",\"jsonrpc\":\"2.0\",\"method\":\"window/workDoneProgress/create\",\"params\":{\"token\":\"pq_server:read\"}}
progress_begun reading files => {\"jsonrpc\":\"2.0\",\"method\":\"$/progress\",\"params\":{\"token\":\"pq_server:read\",\"value\":{\"cancellable\":false,\"kind\":\"begin\",\"title\":\"reading files\"}}}
progress_ended => {\"jsonrpc\":\"2.0\",\"method\":\"$/progress\",\"params\":{\"token\":\"pq_server:read\",\"value\":{\"kind\":\"end\"}}}
fault_list long => [{\"message\":\"the file is not checked: its text has more than 1048576 bytes\",\"range\":{\"end\":{\"character\":0,\"line\":0},\"start\":{\"character\":0,\"line\":0}},\"severity\":1,\"source\":\"proto\"}]
fault_list utf8 => [{\"message\":\"the file is not checked: its text is not UTF-8\",\"range\":{\"end\":{\"character\":0,\"line\":0},\"start\":{\"character\":0,\"line\":0}},\"severity\":1,\"source\":\"proto\"}]
fault_report many => {\"items\":[{\"message\":\"the file is not checked: more than 65536 files are open or imported\",\"range\":{\"end\":{\"character\":0,\"line\":0},\"start\":{\"character\":0,\"line\":0}},\"severity\":1,\"source\":\"proto\"}],\"kind\":\"full\"}
start_of_file_text file:///a%20b => {\"range\":{\"end\":{\"character\":0,\"line\":0},\"start\":{\"character\":0,\"line\":0}},\"uri\":\"file:///a%20b\"}
links => []
links 1:7-1:16=file:///a => [{\"range\":{\"end\":{\"character\":16,\"line\":1},\"start\":{\"character\":7,\"line\":1}},\"target\":\"file:///a\"}]
links 1:7-2:0=a 3:1-3:2=b => [{\"range\":{\"end\":{\"character\":0,\"line\":2},\"start\":{\"character\":7,\"line\":1}},\"target\":\"a\"},{\"range\":{\"end\":{\"character\":2,\"line\":3},\"start\":{\"character\":1,\"line\":3}},\"target\":\"b\"}]
workspace => {\"items\":[]}
workspace a 7 - [] => {\"items\":[{\"items\":[],\"kind\":\"full\",\"resultId\":\"7\",\"uri\":\"a\",\"version\":null}]}
workspace a 7 -3 - => {\"items\":[{\"kind\":\"unchanged\",\"resultId\":\"7\",\"uri\":\"a\",\"version\":-3}]}
workspace a 1 2 [1]|b 18446744073709551615 - - => {\"items\":[{\"items\":[1],\"kind\":\"full\",\"resultId\":\"1\",\"uri\":\"a\",\"version\":2},{\"kind\":\"unchanged\",\"resultId\":\"18446744073709551615\",\"uri\":\"b\",\"version\":null}]}
";

/// The parts of `text` before and after the first `mark`, or all of it and nothing.
fn parts<'a>(text: &'a str, mark: &str) -> (&'a str, &'a str) {
    match text.split_once(mark) {
        Some(parts) => parts,
        None => (text, ""),
    }
}

/// The number that `word` is, or 0.
fn number(word: &str) -> usize {
    word.parse::<usize>().unwrap_or(0)
}

/// The position that `word` is.
fn position(word: &str) -> Position {
    let (line, character) = parts(word, ":");
    Position {
        line: number(line),
        character: number(character),
    }
}

/// The kind that `word` is.
fn kind(word: &str) -> Kind {
    match word {
        "error" => Kind::Error,
        "warning" => Kind::Warning,
        "info" => Kind::Info,
        _ => Kind::Log,
    }
}

/// The refusal that `word` is.
fn fault(word: &str) -> FileFault {
    match word {
        "long" => FileFault::TooLong,
        "utf8" => FileFault::NotUtf8,
        _ => FileFault::TooMany,
    }
}

/// The text of a file, with its lines.
fn file_text(alloc: Global, rest: &str) -> Result<String, Memory> {
    rest.replace(alloc, "~", "\n")
}

/// Adds `name` after a space, if it is not the first.
fn push_name(line: &mut String, name: &Text) -> Result<(), Memory> {
    if !line.is_empty() {
        line.push_str(" ")?;
    }
    line.push_str(name.as_str())
}

/// The places of an import.
fn places(alloc: Global, import: &Import) -> Result<String, Memory> {
    let start = import.start;
    let end = import.end;
    let (line, character) = (start.line, start.character);
    let (last, behind) = (end.line, end.character);
    format!(in alloc; "@{line}:{character}-{last}:{behind}")
}

/// The imports of a text, in one line.
fn imports_line(alloc: Global, text: &str) -> Result<String, Memory> {
    let mut line = String::new(alloc);
    for import in &imports_of(alloc, text)? {
        push_name(&mut line, &import.name)?;
        line.push_str(places(alloc, import)?.as_str())?;
    }
    Ok(line)
}

/// The names of the imports of a text, in one line.
fn names_line(alloc: Global, text: &str) -> Result<String, Memory> {
    let mut line = String::new(alloc);
    for name in &imported_names(alloc, text)? {
        push_name(&mut line, name)?;
    }
    Ok(line)
}

/// The import at a position of a text.
fn at_line(alloc: Global, line: &str, character: &str, text: &str) -> Result<String, Memory> {
    let imports = imports_of(alloc, text)?;
    match import_at(&imports, number(line), number(character)) {
        Some(import) => String::from_str(alloc, import.name.as_str()),
        None => String::from_str(alloc, "none"),
    }
}

/// What a row of imports asks for.
fn import_row(alloc: Global, word: &str, rest: &str) -> Result<String, Memory> {
    match word {
        "imports" => imports_line(alloc, file_text(alloc, rest)?.as_str()),
        "names" => names_line(alloc, file_text(alloc, rest)?.as_str()),
        _ => {
            let (line, rest) = parts(rest, " ");
            let (character, text) = parts(rest, " ");
            at_line(alloc, line, character, file_text(alloc, text)?.as_str())
        }
    }
}

/// The text of links.
fn links_row(alloc: Global, rest: &str) -> Result<String, Memory> {
    let mut links = Vec::new(alloc);
    for word in rest.split_whitespace() {
        let (range, uri) = parts(word, "=");
        let (start, end) = parts(range, "-");
        links.push(Link {
            start: position(start),
            end: position(end),
            uri: String::from_str(alloc, uri)?,
        })?;
    }
    links_text(alloc, &links)
}

/// The report of a file.
fn report(alloc: Global, words: &str) -> Result<FileReport, Memory> {
    let (uri, rest) = parts(words, " ");
    let (result, rest) = parts(rest, " ");
    let (version, list) = parts(rest, " ");
    Ok(FileReport {
        uri: String::from_str(alloc, uri)?,
        result: result.parse::<u64>().unwrap_or(0),
        list: if list == "-" {
            None
        } else {
            Some(String::from_str(alloc, list)?)
        },
        version: version.parse::<i64>().ok(),
    })
}

/// The report of all files.
fn workspace_row(alloc: Global, rest: &str) -> Result<String, Memory> {
    let mut reports = Vec::new(alloc);
    if !rest.is_empty() {
        for words in rest.split('|') {
            reports.push(report(alloc, words)?)?;
        }
    }
    workspace_text(alloc, &reports)
}

/// A message of the kind that the first word of `rest` is.
fn message_row(alloc: Global, word: &str, rest: &str) -> Result<String, Memory> {
    let (name, text) = parts(rest, " ");
    if word == "log_message" {
        log_message(alloc, kind(name), text)
    } else {
        show_message(alloc, kind(name), text)
    }
}

/// What a row of texts asks for.
fn text_row(alloc: Global, word: &str, rest: &str) -> Result<String, Memory> {
    match word {
        "log_message" | "show_message" => message_row(alloc, word, rest),
        "REFRESH" => String::from_str(alloc, REFRESH),
        "refresh_request" => String::from_str(alloc, refresh_request()),
        "BEGIN_PROGRESS_REQUEST" => String::from_str(alloc, BEGIN_PROGRESS_REQUEST),
        "begin_progress_request" => String::from_str(alloc, begin_progress_request()),
        "progress_begun" => progress_begun(alloc, rest),
        "progress_ended" => progress_ended(alloc),
        "fault_list" => fault_list(alloc, fault(rest)),
        "fault_report" => fault_report(alloc, fault(rest)),
        "start_of_file_text" => start_of_file_text(alloc, rest),
        "links" => links_row(alloc, rest),
        _ => workspace_row(alloc, rest),
    }
}

/// Checks a row.
fn check_row(rt: &(impl Abort + AllocGlobal), row: &str, found: Result<String, Memory>) {
    let (_, want) = row.split_once(" =>").expect(rt, row);
    let found = found.expect(rt, "out of memory");
    assert_eq!(rt; found.as_str(), want.trim(), "{row}");
}

#[test]
fn imports_hold(rt: HostRuntime) {
    for row in IMPORTS.lines() {
        let (asked, _) = parts(row, " =>");
        let (word, rest) = parts(asked, " ");
        check_row(&rt, row, import_row(rt.alloc(), word, rest));
    }
}

#[test]
fn texts_hold(rt: HostRuntime) {
    for row in TEXTS.lines() {
        let (asked, _) = parts(row, " =>");
        let (word, rest) = parts(asked, " ");
        check_row(&rt, row, text_row(rt.alloc(), word, rest));
    }
}
