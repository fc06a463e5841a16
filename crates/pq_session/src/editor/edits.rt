//! The text that an edit makes, and requests about files of other names.
ghost use Rattle.std.specs.Prelude.{◌≡◌, ◌⊎◌, None, Some, option_map, string_bytes, IfOk, IfErr};
ghost use Rattle.std.specs.Option.{option_copied};
ghost use Rattle.pq_core.specs.Bodies.{body_view};
ghost use Rattle.pq_core.specs.Changes.{text_after as after, set};
ghost use Rattle.pq_core.specs.declared.values.label.Label.TheVariants as labels;
ghost use Rattle.pq_core.specs.declared.values.request.Want.TheVariants.{Demand};
ghost use Rattle.pq_proto.specs.Keys.{own_name};
ghost use Rattle.pq_proto.specs.declared.key.ProtoKey.TheVariants as keys;
ghost use Rattle.pq_session.specs.Editor.{with_file as about, asked_file as file_asked, renamed as want_renamed};

use crate::fault::ScriptFault;
use pq_core::{Body, Change, Label, Request, Want};
use pq_inputs::Durability;
use pq_lex::apply;
use pq_names::Text;
use pq_proto::ProtoKey;
use std::alloc::{AllocError, Global};

/// The text that `body` makes of `before` (LSP 3.17, "TextDocumentContentChangeEvent"). Both are
/// `None` for a file that is absent.
///
/// `BadRange` is a change with a range where there is no text, or where the text has no such range.
/// `Memory` is an allocation failure. There is no other error.
pub fn text_after(
    alloc: Global,
    before: Option<&str>,
    body: Body,
) -> Result<Option<String>, ScriptFault>
    // `ok`, `err`: The text that a body makes of a text. `BadRange` is answered only where it makes
    // none, and any other error is `Memory`.
    ensures ok { IfOk result (λ text. after (option_copied before.entry) (body_view body) ≡ Some (option_map string_bytes text)) }
    ensures err { IfErr result (λ fault.
        ((fault ≡ ScriptFault.BadRange) × (after (option_copied before.entry) (body_view body) ≡ None))
        ⊎ (fault ≡ ScriptFault.Memory)) }
{
    match body {
        Body::Set(text) => Ok(text),
        Body::Ranged(changes) => match apply(alloc, before, &changes)? {
            Some(text) => Ok(Some(text)),
            None => Err(ScriptFault::BadRange),
        },
    }
}

/// The change that sets the file `name` to `text`, or removes it, with this durability.
///
/// Only `Memory` is an error, after an allocation failure.
pub fn change_to(
    alloc: Global,
    name: &str,
    text: Option<String>,
    durability: Durability,
) -> Result<Change, AllocError>
    // A change of a file.
    ensures { IfOk result (λ change. change
        ≡ record { file = name.now; body = set (option_map string_bytes text); durability = durability }) }
{
    Ok(Change {
        file: Text::new(alloc, name)?,
        body: Body::Set(text),
        durability,
    })
}

/// A request for the diagnostics of the file `name`. It has no label.
///
/// Only `Memory` is an error, after an allocation failure.
pub fn diagnostics_of(alloc: Global, name: &str) -> Result<Request<ProtoKey>, AllocError>
    // A request for the diagnostics of a file.
    ensures { IfOk result (λ request. request
        ≡ record { label = labels.None; want = Demand (keys.Diagnostics name.now) }) }
{
    let key = ProtoKey::Diagnostics(Text::new(alloc, name)?);
    Ok(Request {
        label: Label::None,
        want: Want::Demand(key),
    })
}

/// The file of `key`.
fn file_of(key: &ProtoKey) -> &Text
    ensures { result.now ≡ own_name key.now }
{
    match key {
        ProtoKey::Input(file)
        | ProtoKey::Parse(file)
        | ProtoKey::Items(file)
        | ProtoKey::Imports(file)
        | ProtoKey::Linked(file)
        | ProtoKey::Defs(file)
        | ProtoKey::Scope(file)
        | ProtoKey::Resolved(file)
        | ProtoKey::Checks(file)
        | ProtoKey::Diagnostics(file)
        | ProtoKey::Descriptor(file)
        | ProtoKey::Symbols(file)
        | ProtoKey::Definition(file, _) => file,
    }
}

/// The name of the file that `request` asks about. A request with a fixed text asks about no file.
pub fn asked_file(request: &Request<ProtoKey>) -> Option<&str>
    // The file that a request asks about.
    ensures { option_map (λ name. name.now) result ≡ file_asked request.now.want }
{
    match &request.want {
        Want::Demand(key) => Some(file_of(key).as_str()),
        Want::Fixed(_) => None,
    }
}

/// The query of `key`, about the file `name`.
fn with_file(key: &ProtoKey, name: Text) -> ProtoKey
    ensures { result ≡ about key.now name }
{
    match key {
        ProtoKey::Input(_) => ProtoKey::Input(name),
        ProtoKey::Parse(_) => ProtoKey::Parse(name),
        ProtoKey::Items(_) => ProtoKey::Items(name),
        ProtoKey::Imports(_) => ProtoKey::Imports(name),
        ProtoKey::Linked(_) => ProtoKey::Linked(name),
        ProtoKey::Defs(_) => ProtoKey::Defs(name),
        ProtoKey::Scope(_) => ProtoKey::Scope(name),
        ProtoKey::Resolved(_) => ProtoKey::Resolved(name),
        ProtoKey::Checks(_) => ProtoKey::Checks(name),
        ProtoKey::Diagnostics(_) => ProtoKey::Diagnostics(name),
        ProtoKey::Descriptor(_) => ProtoKey::Descriptor(name),
        ProtoKey::Symbols(_) => ProtoKey::Symbols(name),
        ProtoKey::Definition(_, place) => ProtoKey::Definition(name, *place),
    }
}

/// What answers the same request about the file `name`.
fn want_about(want: Want<ProtoKey>, name: Text) -> Want<ProtoKey>
    ensures { result ≡ want_renamed want name }
{
    match want {
        Want::Demand(key) => Want::Demand(with_file(&key, name)),
        fixed => fixed,
    }
}

/// The request of the label of `request` that asks the same about the file `name`. A fixed text stays.
///
/// Only `Memory` is an error, after an allocation failure.
pub fn renamed(
    alloc: Global,
    request: Request<ProtoKey>,
    name: &str,
) -> Result<Request<ProtoKey>, AllocError>
    // The request of the same label that asks the same about another file.
    ensures { IfOk result (λ made. made
        ≡ record { label = request.label; want = want_renamed request.want name.now }) }
{
    let name = Text::new(alloc, name)?;
    let Request { label, want } = request;
    let want = want_about(want, name);
    Ok(Request { label, want })
}
