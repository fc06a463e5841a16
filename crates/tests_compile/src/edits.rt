//! pq_memo with the rules of proto3 files: demands between edits.
//!
//! A script has a line for each event. `DURABILITY NAME: TEXT` sets a file to the syntax line and
//! then `TEXT`, `DURABILITY NAME= TEXT` to `TEXT` alone, and `DURABILITY NAME` makes it absent.
//! `QUERY NAME` demands a key, `Definition NAME LINE:CHARACTER` at a place. Each demand is compared
//! with `compile`. ` => DIAGNOSTICS` may follow a demand of diagnostics, each as
//! `CODE LINE:FIRST-END`, and ` | CARRIED`, with `KEY REVISION WHY;` for each rule that the demand
//! carries.

use crate::checks::{check_row_count, check_text, check_that, text_of};
use crate::keys::{add_key, key_in};
use crate::sets::{SYNTAX_LINE, whole_text};
use pq_checks::Diagnostic;
use pq_inputs::{Durability, Inputs};
use pq_links::ParsedFile;
use pq_memo::{Carried, Demanded, Engine, Why};
use pq_proto::{ProtoKey, ProtoRules, ProtoValue, compile, position_in};
use pq_rules::{Answer, Memory, same_answer};
use std::alloc::Global;
use std::process::Abort;
use test_support::Page;

/// The durability that a word names, `None` of another word.
fn durability_of(word: &str) -> Option<Durability> {
    match word {
        "high" => Some(Durability::High),
        "medium" => Some(Durability::Medium),
        "low" => Some(Durability::Low),
        _ => None,
    }
}

/// The calls of an engine.
///
/// The proof of a function that holds an engine is dear, since the engine's type has an invariant of
/// many parts. So only the short methods here hold one.
trait Demands {
    /// Sets a file, and returns whether it could be set.
    fn edited(&mut self, name: &str, text: Option<String>, durability: Durability) -> bool;

    /// Demands `key`, and writes what is answered as `CODES | CARRIED`. Returns whether the answer
    /// is what `key` compiles to.
    fn demanded(&mut self, page: &mut Page, key: &ProtoKey) -> bool;

    /// Demands `key`, and returns whether no rule was started for it.
    fn is_kept(&mut self, alloc: Global, key: &ProtoKey) -> bool;
}

impl Demands for Engine<ProtoRules> {
    fn edited(&mut self, name: &str, text: Option<String>, durability: Durability) -> bool {
        self.set(name, text, durability).is_ok()
    }

    fn demanded(&mut self, page: &mut Page, key: &ProtoKey) -> bool {
        let want = compile(page.alloc, self.inputs(), key);
        add_compared(page, self.demand(page.alloc, key), want)
    }

    fn is_kept(&mut self, alloc: Global, key: &ProtoKey) -> bool {
        is_empty(self.demand(alloc, key))
    }
}

/// Sets a file.
fn set<E: Demands>(
    rt: &impl Abort,
    engine: &mut E,
    name: &str,
    text: Option<String>,
    durability: Durability,
) {
    check_that(rt, engine.edited(name, text, durability), name);
}

/// Sets a file to `before` and then `text`, in which `|` means a line feed.
fn set_text<E: Demands>(
    rt: &(impl Abort + AllocGlobal),
    engine: &mut E,
    name: &str,
    before: &str,
    text: &str,
    durability: Durability,
) {
    let whole = whole_text(rt.alloc(), before, text).expect(rt, "memory");
    set(rt, engine, name, Some(whole), durability);
}

/// Makes the edit `file` of the durability `durability`.
fn edit<E: Demands>(
    rt: &(impl Abort + AllocGlobal),
    engine: &mut E,
    durability: Durability,
    file: &str,
) {
    if let Some((name, text)) = file.split_once(": ") {
        return set_text(rt, engine, name, SYNTAX_LINE, text, durability);
    }
    match file.split_once("= ") {
        Some((name, text)) => set_text(rt, engine, name, "", text, durability),
        None => set(rt, engine, file, None, durability),
    }
}

/// Writes why a rule was started: `fresh`, `ring`, or the read that changed.
fn add_why(page: &mut Page, why: &Why<ProtoKey>) {
    match why {
        Why::Fresh => page.add("fresh"),
        Why::Changed(key) => add_key(page, key),
        Why::Ring => page.add("ring"),
    }
}

/// Writes a rule that was started, as `KEY REVISION WHY;`.
fn add_start(page: &mut Page, start: &Carried<ProtoKey>) {
    add_key(page, &start.key);
    page.add(" ");
    page.wide(start.revision.number());
    page.add(" ");
    add_why(page, &start.why);
    page.add(";");
}

/// Writes `diagnostic`, in one line of `file`, as `CODE LINE:FIRST-END ` in UTF-16 columns.
pub(crate) fn add_diagnostic(page: &mut Page, file: &ParsedFile, diagnostic: &Diagnostic) {
    let start = position_in(file, diagnostic.start);
    page.add(diagnostic.code.as_str());
    page.add(" ");
    page.number(start.line);
    page.add(":");
    page.number(start.character);
    page.add("-");
    page.number(position_in(file, diagnostic.end).character);
    page.add(" ");
}

/// Writes the diagnostics of an answer, none of one of another query.
fn add_answer(page: &mut Page, answer: &Answer<ProtoKey, ProtoValue>) {
    if let Answer::Value(ProtoValue::Diagnostics(diagnosed)) = answer {
        let diagnosed = diagnosed.get();
        for diagnostic in diagnosed.diagnostics.as_slice() {
            add_diagnostic(page, diagnosed.file.get(), diagnostic);
        }
    }
}

/// Writes an answer and the rules that were started for it, as `DIAGNOSTICS | CARRIED`.
fn add_demanded(page: &mut Page, demanded: &Demanded<ProtoKey, ProtoValue>) {
    add_answer(page, demanded.answer.get());
    page.add("| ");
    for start in &demanded.carried {
        add_start(page, start);
    }
}

/// Whether a demand answers `want`.
fn is_answer(
    found: &Demanded<ProtoKey, ProtoValue>,
    want: Result<Answer<ProtoKey, ProtoValue>, Memory>,
) -> bool {
    match want {
        Ok(want) => same_answer(&ProtoRules { loose: false }, found.answer.get(), &want),
        Err(_) => false,
    }
}

/// Writes what a demand answers. Returns whether the answer is `want`.
fn add_compared(
    page: &mut Page,
    found: Result<Demanded<ProtoKey, ProtoValue>, Memory>,
    want: Result<Answer<ProtoKey, ProtoValue>, Memory>,
) -> bool {
    match found {
        Ok(found) => {
            add_demanded(page, &found);
            is_answer(&found, want)
        }
        Err(_) => false,
    }
}

/// Whether a demand started no rule.
fn is_empty(found: Result<Demanded<ProtoKey, ProtoValue>, Memory>) -> bool {
    match found {
        Ok(found) => found.carried.is_empty(),
        Err(_) => false,
    }
}

/// Checks that `found`, which is `DIAGNOSTICS | CARRIED`, is `want`, or that its diagnostics are.
fn check_shown(rt: &impl Abort, found: &str, want: &str, line: &str) {
    let diagnostics = found.split('|').next().unwrap_or("").trim();
    if want.contains("|") {
        check_text(rt, found.trim(), want, line);
    } else {
        check_text(rt, diagnostics, want, line);
    }
}

/// Checks what the demand of `line` answers, and what it carries where the line says so. A second
/// demand starts no rule.
fn check_line<E: Demands>(
    rt: &(impl Abort + AllocGlobal),
    engine: &mut E,
    line: &str,
    script: &str,
) {
    let (asked, want) = line.split_once(" => ").unwrap_or((line, ""));
    let key = key_in(rt, asked);
    let mut found = Page::new(rt.alloc());
    check_that(rt, engine.demanded(&mut found, &key), script);
    if line.contains(" => ") {
        check_shown(rt, text_of(rt, &found), want, line);
    }
    check_that(rt, engine.is_kept(rt.alloc(), &key), script);
}

/// Carries out the events of `script`, each demand checked.
fn check_lines<E: Demands>(rt: &(impl Abort + AllocGlobal), engine: &mut E, script: &str) {
    for line in script.lines() {
        let (word, rest) = line.split_once(" ").unwrap_or((line, ""));
        match durability_of(word) {
            Some(durability) => edit(rt, engine, durability, rest),
            None => check_line(rt, engine, line, script),
        }
    }
}

/// Runs a script, each of its demands checked.
fn check_script(rt: &(impl Abort + AllocGlobal), script: &str) {
    let inputs = Inputs::new(rt.alloc()).expect(rt, "memory");
    let mut engine = Engine::new(rt.alloc(), ProtoRules { loose: false }, inputs);
    check_lines(rt, &mut engine, script);
}

/// Runs the script `rows` of `count` lines.
fn check_rows(rt: &(impl Abort + AllocGlobal), count: usize, rows: &str) {
    check_row_count(rt, count, rows);
    check_script(rt, rows);
}

// A comment of the same length is parsed again, and nothing else. A text that is set again is a
// revision, and starts no rule.
#[test]
fn comments_and_equal_texts(rt: HostRuntime) {
    check_rows(
        &rt,
        7,
        "\
        low a.proto: // aaa|\n\
        Diagnostics a.proto => \n\
        low a.proto: // bbb|\n\
        Diagnostics a.proto => | Parse a.proto 2 Input a.proto;\n\
        low a.proto: // bbb|\n\
        Diagnostics a.proto => |\n\
        Checks a.proto => |\n\
        ",
    );
}

// A line before a message moves its statements. The tree without spans stays, and so does all that
// is made of it: only diagnostics look for the places again.
#[test]
fn moved_statements(rt: HostRuntime) {
    check_rows(
        &rt,
        6,
        "\
        low a.proto: message M { int32 x = 0; }|\n\
        Diagnostics a.proto => P120 1:22-23\n\
        Descriptor a.proto => \n\
        low a.proto: // note|message M { int32 x = 0; }|\n\
        Descriptor a.proto => | Parse a.proto 2 Input a.proto;Items a.proto 2 Parse a.proto;\n\
        Diagnostics a.proto => P120 2:22-23 | Diagnostics a.proto 2 Parse a.proto;\n\
        ",
    );
}

// A comment in an imported file starts its parse and its tree without spans, and no rule of the
// importer. A definition at a place is looked up in the tree as it is then.
#[test]
fn moved_imports(rt: HostRuntime) {
    check_rows(
        &rt,
        11,
        "\
        low a.proto: message A {}|\n\
        low b.proto: import \"a.proto\"; message B { A x = 1; }|\n\
        Diagnostics b.proto => \n\
        Descriptor b.proto => \n\
        Symbols b.proto => \n\
        Definition b.proto 1:30 => \n\
        low a.proto: // note|message A {}|\n\
        Diagnostics b.proto => | Parse a.proto 3 Input a.proto;Items a.proto 3 Parse a.proto;\n\
        Descriptor b.proto => |\n\
        Symbols b.proto => |\n\
        Definition b.proto 1:30 => | Definition b.proto 3 Parse a.proto;\n\
        ",
    );
}

// A syntax error that moves is found by the parse alone: without a tree no other rule starts.
#[test]
fn moved_errors(rt: HostRuntime) {
    check_rows(
        &rt,
        6,
        "\
        low a.proto: import 1;|\n\
        low b.proto: import \"a.proto\";|\n\
        Diagnostics b.proto => P104 1:7-16\n\
        Diagnostics a.proto => P012 1:7-8\n\
        low a.proto: // note|import 1;|\n\
        Diagnostics a.proto => P012 2:7-8 | Parse a.proto 3 Input a.proto;Diagnostics a.proto 3 Parse a.proto;\n\
        ",
    );
}

// A durability that is lowered and a text that is emptied count like each other edit.
#[test]
fn lowered_durability(rt: HostRuntime) {
    check_rows(
        &rt,
        6,
        "\
        high lib.proto: \n\
        Diagnostics lib.proto => \n\
        low lib.proto= \n\
        Diagnostics lib.proto => P010 0:0-0\n\
        low lib.proto: \n\
        Diagnostics lib.proto => \n\
        ",
    );
}

// A ring of imports that is cut and closed again.
#[test]
fn import_ring(rt: HostRuntime) {
    check_rows(
        &rt,
        13,
        "\
        low b.proto: import \"a.proto\";\n\
        low c.proto: import \"a.proto\";\n\
        low a.proto: import \"b.proto\";\n\
        Diagnostics c.proto => P105 1:7-16\n\
        Diagnostics b.proto => P105 1:7-16\n\
        low b.proto: \n\
        Diagnostics a.proto => \n\
        Diagnostics b.proto => \n\
        Diagnostics c.proto => \n\
        low b.proto: import \"a.proto\";\n\
        Diagnostics c.proto => P105 1:7-16\n\
        Diagnostics b.proto => P105 1:7-16\n\
        Diagnostics a.proto => P105 1:7-16\n\
        ",
    );
}
