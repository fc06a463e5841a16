//! pq_memo: demands between edits, their answers, and the rules that are started for them.
//!
//! A script has a line for each event. `DURABILITY NAME=TEXT` sets a file, and `DURABILITY NAME`
//! makes it absent. `Sum NAME` or `Total NAME` demands a key. ` => ANSWER | CARRIED` may follow a
//! demand, with `KEY REVISION WHY;` for each rule that it carries.
mod random;

use crate::checks::{check_number, check_page, check_pages, check_row_count, check_that, text_of};
use crate::rules::key_of;
use pq_inputs::{Durability, Inputs};
use pq_memo::{Carried, Demanded, Engine, Why};
use pq_rules::{Rules, SumsKey, SumsValue};
use std::cell::Cell;
use std::process::Abort;
use test_support::{Counted, Page, add_answer, add_key, add_sum, durability_of};

/// The calls of an engine.
///
/// The proof of a function that holds an engine is dear, since the engine's type has an invariant of
/// many parts. So only the short methods here hold one.
trait Demands {
    /// Sets a file, and returns whether it could be set.
    fn edited(&mut self, name: &str, text: Option<String>, durability: Durability) -> bool;

    /// Demands `key`, and writes its answer and the rules that were started. Returns their count.
    fn demanded(&mut self, answer: &mut Page, carried: &mut Page, key: &SumsKey) -> usize;

    /// Writes the answer of `key` from scratch.
    fn from_scratch(&self, page: &mut Page, key: &SumsKey);
}

impl<'a> Demands for Engine<Counted<'a>> {
    fn edited(&mut self, name: &str, text: Option<String>, durability: Durability) -> bool {
        self.set(name, text, durability).is_ok()
    }

    fn demanded(&mut self, answer: &mut Page, carried: &mut Page, key: &SumsKey) -> usize {
        match self.demand(answer.alloc, key) {
            Ok(demanded) => add_demanded(answer, carried, &demanded),
            Err(_) => {
                answer.cut();
                0
            }
        }
    }

    fn from_scratch(&self, page: &mut Page, key: &SumsKey) {
        add_sum(page, self.inputs(), key);
    }
}

/// Sets a file.
fn set<E: Demands>(
    rt: &impl Abort,
    engine: &mut E,
    name: &str,
    text: Option<String>,
    durability: Durability,
) {
    check_that(rt, engine.edited(name, text, durability), name);
}

/// Makes the edit of `line`.
fn edit<E: Demands>(rt: &(impl Abort + AllocGlobal), engine: &mut E, line: &str) {
    let (durability, file) = line.split_once(" ").unwrap_or((line, ""));
    let durability = durability_of(durability);
    match file.split_once("=") {
        Some((name, text)) => {
            let text = String::from_str(rt.alloc(), text).expect(rt, "memory");
            set(rt, engine, name, Some(text), durability);
        }
        None => set(rt, engine, file, None, durability),
    }
}

/// Writes why a rule was started: `fresh`, `ring`, or the read that changed.
fn add_why(page: &mut Page, why: &Why<SumsKey>) {
    match why {
        Why::Fresh => page.add("fresh"),
        Why::Changed(key) => add_key(page, key),
        Why::Ring => page.add("ring"),
    }
}

/// Writes the rules that were started, each as `KEY REVISION WHY;`.
fn add_carried(page: &mut Page, carried: &[Carried<SumsKey>]) {
    for start in carried {
        add_key(page, &start.key);
        page.add(" ");
        page.wide(start.revision.number());
        page.add(" ");
        add_why(page, &start.why);
        page.add(";");
    }
}

/// Writes an answer and the rules that were started for it. Returns their count.
fn add_demanded(
    answer: &mut Page,
    carried: &mut Page,
    demanded: &Demanded<SumsKey, SumsValue>,
) -> usize {
    add_answer(answer, demanded.answer.get());
    add_carried(carried, demanded.carried.as_slice());
    demanded.carried.len()
}

/// Demands `key`, and checks that as many rules are carried as started. Returns their count.
fn demand<E: Demands>(
    rt: &impl Abort,
    engine: &mut E,
    starts: &Cell<u32>,
    answer: &mut Page,
    carried: &mut Page,
    key: &SumsKey,
    script: &str,
) -> usize {
    starts.set(0);
    let count = engine.demanded(answer, carried, key);
    check_number(rt, count, starts.get() as usize, script);
    count
}

/// Checks that the answer of `key` from scratch is `found`.
fn check_answer<E: Demands>(
    rt: &(impl Abort + AllocGlobal),
    engine: &E,
    key: &SumsKey,
    found: &Page,
    script: &str,
) {
    let mut want = Page::new(rt.alloc());
    engine.from_scratch(&mut want, key);
    check_pages(rt, found, &want, script);
}

/// Checks that no rule is started for `key` when nothing changed.
fn check_again<E: Demands>(
    rt: &(impl Abort + AllocGlobal),
    engine: &mut E,
    starts: &Cell<u32>,
    key: &SumsKey,
    script: &str,
) {
    let mut answer = Page::new(rt.alloc());
    let mut carried = Page::new(rt.alloc());
    let count = demand(rt, engine, starts, &mut answer, &mut carried, key, script);
    check_number(rt, count, 0, script);
}

/// Checks a demand, and writes it to `page` as `ANSWER | CARRIED`.
fn check_demand<E: Demands>(
    rt: &(impl Abort + AllocGlobal),
    engine: &mut E,
    starts: &Cell<u32>,
    page: &mut Page,
    asked: &str,
    script: &str,
) {
    let key = key_of(rt, asked);
    let mut carried = Page::new(rt.alloc());
    let _count = demand(rt, engine, starts, page, &mut carried, &key, script);
    check_answer(rt, engine, &key, page, script);
    check_again(rt, engine, starts, &key, script);
    page.add(" | ");
    page.add(text_of(rt, &carried));
}

/// Checks what the demand of `line` answers and carries, where the line says what is wanted.
fn check_line<E: Demands>(
    rt: &(impl Abort + AllocGlobal),
    engine: &mut E,
    starts: &Cell<u32>,
    line: &str,
    script: &str,
) {
    let (asked, want) = line.split_once(" => ").unwrap_or((line, ""));
    let mut found = Page::new(rt.alloc());
    check_demand(rt, engine, starts, &mut found, asked, script);
    if asked.len() < line.len() {
        check_page(rt, &found, want, line);
    }
}

/// Carries out the events of `script`, each demand checked. The rules count in `starts`.
fn check_lines<E: Demands>(
    rt: &(impl Abort + AllocGlobal),
    engine: &mut E,
    starts: &Cell<u32>,
    script: &str,
) {
    for line in script.lines() {
        if line.starts_with("Sum ") || line.starts_with("Total ") {
            check_line(rt, engine, starts, line, script);
        } else {
            edit(rt, engine, line);
        }
    }
}

/// Runs a script with `rules`, which count in `starts`, each of its demands checked.
fn check_script_by<R: Rules<Key = SumsKey, Value = SumsValue>>(
    rt: &(impl Abort + AllocGlobal),
    rules: R,
    starts: &Cell<u32>,
    script: &str,
)
where
    Engine<R>: Demands,
{
    let inputs = Inputs::new(rt.alloc()).expect(rt, "memory");
    let mut engine = Engine::new(rt.alloc(), rules, inputs);
    check_lines(rt, &mut engine, starts, script);
}

/// Runs a script, each of its demands checked.
fn check_script(rt: &(impl Abort + AllocGlobal), script: &str) {
    let starts = Cell::new(0);
    check_script_by(rt, Counted { starts: &starts }, &starts, script);
}

/// Runs the script `rows` of `count` lines.
fn check_rows(rt: &(impl Abort + AllocGlobal), count: usize, rows: &str) {
    check_row_count(rt, count, rows);
    check_script(rt, rows);
}

// Durability confirms a ring of files that are set more rarely than the one that changed.
#[test]
fn durable_rings(rt: HostRuntime) {
    check_rows(
        &rt,
        5,
        "\
        high a=b\n\
        high b=a\n\
        Sum a => Sum a;Sum b; | Sum a 2 fresh;Sum b 2 fresh;\n\
        low d=x\n\
        Sum a => Sum a;Sum b; | \n\
        ",
    );
}

// Each rule of another ring starts again. A ring that closes again is met from its last edge.
#[test]
fn rings_cut_and_closed(rt: HostRuntime) {
    check_rows(
        &rt,
        12,
        "\
        low a=b\n\
        low b=a\n\
        Sum a => Sum a;Sum b; | Sum a 2 fresh;Sum b 2 fresh;\n\
        low d=x\n\
        Sum a => Sum a;Sum b; | Sum a 3 ring;Sum b 3 ring;\n\
        Total a => 0 | Total a 3 fresh;\n\
        low b\n\
        Total a => 2 | Sum a 4 ring;Sum b 4 ring;Total a 4 Sum a;\n\
        Sum b => 1 | \n\
        low b=a\n\
        Total a => 0 | Sum b 5 Text b;Total a 5 Sum a;\n\
        Sum a => Sum a;Sum b; | \n\
        ",
    );
}

// A rule that started again with the same value starts no rule that read it.
#[test]
fn backdates(rt: HostRuntime) {
    check_rows(
        &rt,
        7,
        "\
        low a=b\n\
        low b=c d\n\
        Sum a => 4 | Sum a 2 fresh;Sum b 2 fresh;Sum c 2 fresh;Sum d 2 fresh;\n\
        low b=d c\n\
        Sum a => 4 | Sum b 3 Text b;\n\
        low c=e\n\
        Sum a => 5 | Sum c 4 Text c;Sum e 4 fresh;Sum b 4 Sum c;Sum a 4 Sum b;\n\
        ",
    );
}

// An engine that starts a rule without listing it does not pass: the rules that count their starts
// start as many as are listed, and a demand after no change starts none.
#[test]
fn rule_started_uncounted(rt: HostRuntime) {
    check_rows(
        &rt,
        8,
        "\
        low a=b\n\
        low b=c d\n\
        Sum a => 4 | Sum a 2 fresh;Sum b 2 fresh;Sum c 2 fresh;Sum d 2 fresh;\n\
        Sum a => 4 | \n\
        low b=d c\n\
        Sum a => 4 | Sum b 3 Text b;\n\
        Sum b => 3 | \n\
        Sum a => 4 | \n\
        ",
    );
}

// A text that is set again changes nothing, but another durability does.
#[test]
fn durabilities(rt: HostRuntime) {
    check_rows(
        &rt,
        11,
        "\
        high lib=\n\
        low a=lib\n\
        Sum a => 2 | Sum a 2 fresh;Sum lib 2 fresh;\n\
        low z=lib\n\
        Sum a => 2 | \n\
        low a=lib lib\n\
        Sum a => 3 | Sum a 4 Text a;\n\
        low a=lib lib\n\
        Sum a => 3 | \n\
        medium lib=\n\
        Sum a => 3 | Sum lib 6 Text lib;\n\
        ",
    );
}
