//! An example to read first: a test parses a text and reads names in its tree. Then it asks the
//! query engine for the diagnostics of a file, edits the file that it imports, and asks again.
//! The contract of `Engine::demand` says that each answer is right at the sources now.
//!
//! Read on: `pq_syntax/src/tree.rt` (trees), `pq_proto/src/key.rt` (what can be asked),
//! `pq_memo/src/engine.rt` (the engine), `tests_compile/src/edits.rt` (more edits).
#![tactic(auto)]

#[cfg(test)]
mod tests {
    use pq_inputs::{Durability, Inputs};
    use pq_memo::{Demanded, Engine};
    use pq_proto::{ProtoKey, ProtoRules, ProtoValue};
    use pq_rules::{Answer, Text};
    use pq_syntax::{Parsed, Statement, parse};
    use std::process::Abort;

    /// The names of the fields of a file. A tree is the flat list of its statements.
    fn field_names(rt: &(impl Abort + AllocGlobal), parsed: &Parsed) -> String {
        let mut names = String::new(rt.alloc());
        if let Parsed::Tree(file) = parsed {
            for node in file.as_slice() {
                if let Statement::Field { name, .. } = &node.statement {
                    names.push_str(name.text.as_str()).expect(rt, "memory");
                    names.push_str(";").expect(rt, "memory");
                }
            }
        }
        names
    }

    /// Sets the file `name` to the text `to`. The engine keeps its answers.
    fn set(rt: &(impl Abort + AllocGlobal), engine: &mut Engine<ProtoRules>, name: &str, to: &str) {
        let text = String::from_str(rt.alloc(), to).expect(rt, "memory");
        assert!(rt; engine.set(name, Some(text), Durability::Low).is_ok());
    }

    /// Checks the first diagnostic of an answer, "" for none. Returns how many rules were started.
    fn check(rt: &impl Abort, demanded: Demanded<ProtoKey, ProtoValue>, want: &str) -> usize {
        let Answer::Value(ProtoValue::Diagnostics(found)) = demanded.answer.get() else {
            panic!(rt; "another answer");
        };
        let message = match found.get().diagnostics.as_slice().first() {
            Some(diagnostic) => diagnostic.text.as_str(),
            None => "",
        };
        assert_eq!(rt; message, want);
        demanded.carried.len()
    }

    /// Asks for the diagnostics of `b.proto`, and returns what `check` does.
    fn ask(rt: &(impl Abort + AllocGlobal), engine: &mut Engine<ProtoRules>, want: &str) -> usize {
        let name = Text::new(rt.alloc(), "b.proto").expect(rt, "memory");
        let demanded = engine.demand(rt.alloc(), &ProtoKey::Diagnostics(name));
        check(rt, demanded.expect(rt, "memory"), want)
    }

    #[test]
    fn asks_edits_and_asks_again(rt: HostRuntime) {
        let address = "syntax = 'proto3'; message Address { string road = 1; int32 zip = 2; }";
        let noted = "syntax = 'proto3'; message Address { string road = 1; int32 zip = 2; } // US";
        let place = "syntax = 'proto3'; message Place { string road = 1; int32 zip = 2; }";
        let person = "syntax = 'proto3'; import 'a.proto'; message Person { Address home = 1; }";
        let names = field_names(&rt, &parse(rt.alloc(), address).expect(&rt, "memory"));
        assert_eq!(rt; names.as_str(), "road;zip;");
        let inputs = Inputs::new(rt.alloc()).expect(&rt, "memory");
        let mut engine = Engine::new(rt.alloc(), ProtoRules { loose: false }, inputs);
        set(&rt, &mut engine, "b.proto", person);
        set(&rt, &mut engine, "a.proto", address);
        // The first demand starts each rule that the answer needs, and the next one none.
        assert_eq!(rt; ask(&rt, &mut engine, ""), 14);
        assert_eq!(rt; ask(&rt, &mut engine, ""), 0);
        // A comment: a.proto is parsed again, and its tree without spans is as before.
        set(&rt, &mut engine, "a.proto", noted);
        assert_eq!(rt; ask(&rt, &mut engine, ""), 2);
        // A new name: four rules of a.proto; scope, references, errors and diagnostics of b.proto.
        set(&rt, &mut engine, "a.proto", place);
        assert_eq!(rt; ask(&rt, &mut engine, "type \"Address\" is not found"), 8);
    }
}
