//! What stands at the first of some tokens: a statement that braces show, the end of a body, or
//! another token. One function for each definition of `specs/Loose`; a number of tokens counts from
//! the first.
ghost use Rattle.std.specs.Prelude.{◌≡◌, ◌+◌, ◌&&◌, ◌<◌, ◌∷◌, codes, drop, false, length, nat_lt, not, true};
ghost use Rattle.pq_syntax.specs.Loose.{before_body, before_texts, begins_after, begun_at, body_at, can_begin, dotted, ends_head, extend_at, extended_at, extended_name, file_statement, group_at, headed, held_group, held_statement, holds_groups, holds_statements, import_at, is_anew, is_at, is_name, is_word, keyword_at, kind_at, most_messages, other_at, other_words, package_at, sight, statement_at, taken, texts, texts_at};
ghost use Rattle.pq_syntax.specs.Words.{accepts, accepts_class, is_version, word, words};
ghost use Rattle.pq_syntax.specs.Words.Class.{OneOf};
ghost use Rattle.pq_syntax.specs.declared.terminal.Terminal.TheVariants.{OpenBrace};

use crate::loose::marks::{can_begin, is_anew, is_name, is_other, is_word};
use crate::loose::open::Holder;
use crate::terminal::{Terminal, accepts};
use crate::tree::ImportKind;
use pq_lex::Token;

/// What an open brace is of.
#[derive(Clone, Copy)]
pub(crate) enum Brace {
    /// A message or a group.
    Message,
    /// An enum.
    Enum,
    /// A service.
    Service,
    /// A oneof or an extend block: its groups are messages of what contains it.
    Block,
    /// No statement that has a body.
    Other,
}

/// What stands at the first of some tokens.
#[derive(Clone, Copy)]
pub(crate) enum Sight {
    /// A statement of the file, before which the body ends.
    Leaves,
    /// The `}` of the body.
    Closes,
    /// A package of this number of tokens.
    Package(usize),
    /// An import: the number of tokens before its strings, and the number of all.
    Import(usize, usize),
    /// A message: its keyword, its name and `{`.
    Message,
    /// An enum: its keyword, its name and `{`.
    Enum,
    /// A service: its keyword, its name and `{`.
    Service,
    /// The head of a oneof or of an extend block, of this number of tokens with its `{`.
    Block(usize),
    /// A group of this number of tokens up to its `{`, and whether it has one.
    Group(usize, bool),
    /// A `{` of no statement that has a body.
    Opens,
    /// Another token, and whether a statement can begin after it.
    Passes(bool),
}

/// A statement that more messages contain is not shown.
const MOST_MESSAGES: u8 = 63;

/// Whether the first of `tokens` is a keyword of the statements of a file but for `syntax`.
pub(crate) fn begins_other(text: &str, tokens: &[Token]) -> bool
    ensures { result ≡ is_at (accepts_class (OneOf other_words)) 0 (words text.now tokens.now) }
{
    0 < tokens.len() && is_other(text, tokens[0])
}

/// Whether the token of the number `at` is accepted by `terminal`.
pub(crate) fn is_at(text: &str, tokens: &[Token], at: usize, terminal: Terminal) -> bool
    requires { is_version terminal ≡ false }
    ensures is { result ≡ is_at (accepts terminal) at (words text.now tokens.now) }
    ensures within { result ≡ true → at < length tokens.now }
{
    at < tokens.len() && accepts(text, tokens[at], terminal)
}

/// Whether the token of the number `at` is the name `name`.
pub(crate) fn is_word_at(text: &str, tokens: &[Token], at: usize, name: &[u8]) -> bool
    ensures { result ≡ is_at (is_word name.now) at (words text.now tokens.now) }
{
    at < tokens.len() && is_word(text, tokens[at], name)
}

/// Whether the token of the number `at` is a name within a statement.
fn is_name_at(text: &str, tokens: &[Token], at: usize) -> bool
    ensures is { result ≡ is_at (is_name text.now) at (words text.now tokens.now) }
    ensures within { result ≡ true → at < length tokens.now }
{
    at < tokens.len() && is_name(text, tokens[at])
}

/// The number of the token after the parts of a dotted name that stand from number `from` on.
fn after_dotted(text: &str, tokens: &[Token], from: usize) -> usize
    ensures { result ≡ from + dotted text.now (drop from (words text.now tokens.now)) }
{
    let mut end = from;
    'parts: while is_at(text, tokens, end, Terminal::Dot) && is_name_at(text, tokens, end + 1) {
        end += 2;
    }
    end
}

/// The number of the token after the strings that stand from number `from` on.
fn after_texts(text: &str, tokens: &[Token], from: usize) -> usize
    ensures { result ≡ from + texts (drop from (words text.now tokens.now)) }
{
    let mut end = from;
    'strings: while is_at(text, tokens, end, Terminal::AnyText) {
        end += 1;
    }
    end
}

/// Whether a group's head ends before `token`: at a brace, a semicolon or a token that is anew.
fn ends_head(text: &str, token: Token) -> bool
    ensures { result ≡ ends_head text.now (word text.now token) }
{
    accepts(text, token, Terminal::OpenBrace)
        || accepts(text, token, Terminal::CloseBrace)
        || accepts(text, token, Terminal::Semicolon)
        || is_anew(text, token)
}

/// The number of the first token from number `from` on before which a group's head ends.
fn before_body(text: &str, tokens: &[Token], from: usize) -> usize
    ensures { result ≡ from + before_body text.now (drop from (words text.now tokens.now)) }
{
    let mut end = from;
    'head: while end < tokens.len() && !ends_head(text, tokens[end]) {
        end += 1;
    }
    end
}

/// The package that `tokens` begin with.
#[tactic(auto, unfolding(crate::specs::Loose::package_at))]
fn package_at(text: &str, tokens: &[Token]) -> Option<Sight>
    ensures { result ≡ package_at text.now (words text.now tokens.now) }
{
    if is_at(text, tokens, 0, Terminal::PackageWord) && is_name_at(text, tokens, 1) {
        return Some(Sight::Package(after_dotted(text, tokens, 2)));
    }
    None
}

/// The kind of the import `tokens`.
#[tactic(auto, unfolding(crate::specs::Loose::kind_at))]
pub(crate) fn kind_at(text: &str, tokens: &[Token]) -> ImportKind
    ensures { result ≡ kind_at (words text.now tokens.now) }
{
    if is_word_at(text, tokens, 1, b"public") {
        ImportKind::Public
    } else if is_word_at(text, tokens, 1, b"weak") {
        ImportKind::Weak
    } else {
        ImportKind::Plain
    }
}

/// The number of tokens before the strings of an import of the kind `kind`.
fn before_texts(kind: ImportKind) -> usize
    ensures { result ≡ before_texts kind }
{
    match kind {
        ImportKind::Plain => 1,
        ImportKind::Public | ImportKind::Weak => 2,
    }
}

/// The import `tokens` whose strings are from number `before` on, if there are some.
#[tactic(auto, unfolding(crate::specs::Loose::texts_at))]
fn texts_at(text: &str, tokens: &[Token], before: usize) -> Option<Sight>
    ensures { result ≡ texts_at before (words text.now tokens.now) }
{
    if is_at(text, tokens, before, Terminal::AnyText) {
        return Some(Sight::Import(before, after_texts(text, tokens, before)));
    }
    None
}

/// The import that `tokens` begin with.
#[tactic(auto, unfolding(crate::specs::Loose::import_at))]
fn import_at(text: &str, tokens: &[Token]) -> Option<Sight>
    ensures { result ≡ import_at (words text.now tokens.now) }
{
    if !is_at(text, tokens, 0, Terminal::ImportWord) {
        return None;
    }
    texts_at(text, tokens, before_texts(kind_at(text, tokens)))
}

/// The statement with a name and a body whose keyword is the first of `tokens`.
#[tactic(auto, unfolding(crate::specs::Loose::keyword_at))]
fn keyword_at(text: &str, tokens: &[Token]) -> Option<Sight>
    ensures { result ≡ keyword_at (words text.now tokens.now) }
{
    if is_at(text, tokens, 0, Terminal::MessageWord) {
        Some(Sight::Message)
    } else if is_at(text, tokens, 0, Terminal::EnumWord) {
        Some(Sight::Enum)
    } else if is_at(text, tokens, 0, Terminal::ServiceWord) {
        Some(Sight::Service)
    } else if is_at(text, tokens, 0, Terminal::OneofWord) {
        Some(Sight::Block(3))
    } else {
        None
    }
}

/// The statement with a name and a body that `tokens` begin with.
#[tactic(auto, unfolding(crate::specs::Loose::body_at))]
fn body_at(text: &str, tokens: &[Token]) -> Option<Sight>
    ensures { result ≡ body_at text.now (words text.now tokens.now) }
{
    if is_name_at(text, tokens, 1) && is_at(text, tokens, 2, Terminal::OpenBrace) {
        return keyword_at(text, tokens);
    }
    None
}

/// The extend block `tokens` whose type has its first name at number `name`.
#[tactic(auto, unfolding(crate::specs::Loose::extended_at))]
fn extended_at(text: &str, tokens: &[Token], name: usize) -> Option<Sight>
    ensures { result ≡ extended_at text.now name (words text.now tokens.now) }
{
    if !is_name_at(text, tokens, name) {
        return None;
    }
    let end = after_dotted(text, tokens, name + 1);
    if is_at(text, tokens, end, Terminal::OpenBrace) {
        return Some(Sight::Block(end + 1));
    }
    None
}

/// The number of the first name of the type of the extend block `tokens`.
fn extended_name(text: &str, tokens: &[Token]) -> usize
    ensures { result ≡ extended_name (words text.now tokens.now) }
{
    if is_at(text, tokens, 1, Terminal::Dot) {
        2
    } else {
        1
    }
}

/// The extend block that `tokens` begin with.
#[tactic(auto, unfolding(crate::specs::Loose::extend_at))]
fn extend_at(text: &str, tokens: &[Token]) -> Option<Sight>
    ensures { result ≡ extend_at text.now (words text.now tokens.now) }
{
    if !is_at(text, tokens, 0, Terminal::ExtendWord) {
        return None;
    }
    extended_at(text, tokens, extended_name(text, tokens))
}

/// The group whose `{` can be the token of the number `end`.
fn headed(text: &str, tokens: &[Token], end: usize) -> Sight
    ensures { result ≡ headed end (is_at (accepts OpenBrace) end (words text.now tokens.now)) }
{
    if is_at(text, tokens, end, Terminal::OpenBrace) {
        return Sight::Group(end + 1, true);
    }
    Sight::Group(end, false)
}

/// The group that `tokens` begin with.
#[tactic(auto, unfolding(crate::specs::Loose::group_at))]
fn group_at(text: &str, tokens: &[Token]) -> Option<Sight>
    ensures { result ≡ group_at text.now (words text.now tokens.now) }
{
    if is_word_at(text, tokens, 0, b"group")
        && is_name_at(text, tokens, 1)
        && is_at(text, tokens, 2, Terminal::Equals)
    {
        return Some(headed(text, tokens, before_body(text, tokens, 3)));
    }
    None
}

/// Whether statements with bodies stand in `holder`.
fn holds_statements(holder: Holder) -> bool
    ensures { result ≡ (holds_statements holder.brace && not (nat_lt most_messages holder.depth)) }
{
    matches!(holder.brace, None | Some(Brace::Message)) && holder.depth <= MOST_MESSAGES
}

/// Whether groups stand in `holder`.
fn holds_groups(holder: Holder) -> bool
    ensures { result ≡ (holds_groups holder.brace && not (nat_lt most_messages holder.depth)) }
{
    matches!(holder.brace, Some(Brace::Message | Brace::Block)) && holder.depth <= MOST_MESSAGES
}

/// The statement without a body that `tokens` begin with in `holder`.
#[tactic(auto, unfolding(crate::specs::Loose::file_statement))]
fn file_statement(text: &str, holder: Holder, tokens: &[Token]) -> Option<Sight>
    ensures { result ≡ file_statement text.now holder (words text.now tokens.now) }
{
    if holder.brace.is_some() {
        return None;
    }
    match package_at(text, tokens) {
        Some(sight) => Some(sight),
        None => import_at(text, tokens),
    }
}

/// The statement with a body that `tokens` begin with in `holder`.
#[tactic(auto, unfolding(crate::specs::Loose::held_statement))]
fn held_statement(text: &str, holder: Holder, tokens: &[Token]) -> Option<Sight>
    ensures { result ≡ held_statement text.now holder (words text.now tokens.now) }
{
    if !holds_statements(holder) {
        return None;
    }
    match body_at(text, tokens) {
        Some(sight) => Some(sight),
        None => extend_at(text, tokens),
    }
}

/// The group that `tokens` begin with in `holder`.
#[tactic(auto, unfolding(crate::specs::Loose::held_group))]
fn held_group(text: &str, holder: Holder, tokens: &[Token]) -> Option<Sight>
    ensures { result ≡ held_group text.now holder (words text.now tokens.now) }
{
    if !holds_groups(holder) {
        return None;
    }
    group_at(text, tokens)
}

/// The statement that `tokens` begin with in `holder` where one `begins`, but for a group.
#[tactic(auto, unfolding(crate::specs::Loose::begun_at))]
fn begun_at(text: &str, holder: Holder, begins: bool, tokens: &[Token]) -> Option<Sight>
    ensures { result ≡ begun_at text.now holder begins (words text.now tokens.now) }
{
    if !begins {
        return None;
    }
    match file_statement(text, holder, tokens) {
        Some(sight) => Some(sight),
        None => held_statement(text, holder, tokens),
    }
}

/// The statement that `tokens` begin with in `holder`. A group can stand after a label; any other
/// statement stands where one `begins`.
#[tactic(auto, unfolding(crate::specs::Loose::statement_at))]
fn statement_at(text: &str, holder: Holder, begins: bool, tokens: &[Token]) -> Option<Sight>
    ensures { result ≡ statement_at text.now holder begins (words text.now tokens.now) }
{
    match begun_at(text, holder, begins, tokens) {
        Some(sight) => Some(sight),
        None => held_group(text, holder, tokens),
    }
}

/// The first of `tokens`, which begins no statement.
#[tactic(auto, unfolding(crate::specs::Loose::other_at))]
fn other_at(text: &str, tokens: &[Token]) -> Sight
    ensures { result ≡ other_at (words text.now tokens.now) }
{
    if is_at(text, tokens, 0, Terminal::OpenBrace) {
        return Sight::Opens;
    }
    let begins = is_at(text, tokens, 0, Terminal::Semicolon)
        || is_at(text, tokens, 0, Terminal::CloseBrace);
    Sight::Passes(begins)
}

/// Whether the first of `tokens` is anew.
pub(crate) fn begins_anew(text: &str, tokens: &[Token]) -> bool
    ensures { result ≡ is_at (is_anew text.now) 0 (words text.now tokens.now) }
{
    0 < tokens.len() && is_anew(text, tokens[0])
}

/// Whether a statement can begin at the first of `tokens`, whatever is before it.
fn can_begin_at(text: &str, tokens: &[Token]) -> bool
    ensures { result ≡ is_at (can_begin text.now) 0 (words text.now tokens.now) }
{
    0 < tokens.len() && can_begin(text, tokens[0])
}

/// What stands at the first of `tokens` in `holder`, where a statement `begins` or not. One can begin
/// at the first token of a line too.
#[tactic(auto, unfolding(crate::specs::Loose::sight))]
pub(crate) fn sight_at(text: &str, holder: Holder, begins: bool, tokens: &[Token]) -> Sight
    ensures { result ≡ sight text.now holder begins (words text.now tokens.now) }
{
    let inside = holder.brace.is_some();
    if inside && begins_anew(text, tokens) {
        return Sight::Leaves;
    }
    if inside && is_at(text, tokens, 0, Terminal::CloseBrace) {
        return Sight::Closes;
    }
    match statement_at(text, holder, begins || can_begin_at(text, tokens), tokens) {
        Some(sight) => sight,
        None => other_at(text, tokens),
    }
}

/// The number of tokens of `sight`.
pub(crate) fn taken(sight: Sight) -> usize
    ensures { result ≡ taken sight }
{
    match sight {
        Sight::Leaves => 0,
        Sight::Package(count) => count,
        Sight::Import(_, count) => count,
        Sight::Message | Sight::Enum | Sight::Service => 3,
        Sight::Block(count) => count,
        Sight::Group(count, _) => count,
        Sight::Closes | Sight::Opens | Sight::Passes(_) => 1,
    }
}

/// Whether a statement can begin after `sight`.
pub(crate) fn begins_after(sight: Sight) -> bool
    ensures { result ≡ begins_after sight }
{
    match sight {
        Sight::Package(_) | Sight::Import(_, _) => false,
        Sight::Group(_, opens) => opens,
        Sight::Passes(begins) => begins,
        _ => true,
    }
}
