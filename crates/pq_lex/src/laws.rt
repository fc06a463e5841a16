//! The laws of the tokens and the positions of every text.
//! Each is the contract of a function with an empty body.
ghost use Rattle.std.specs.Prelude.{◌≡◌, ◌<◌, ◌≤◌, List, ℕ, Option, Some, true, false, length, slice_index};
ghost use Rattle.pq_lex.specs.declared.token.Token.{Token};
ghost use Rattle.pq_lex.specs.declared.token.Span.{Span};
ghost use Rattle.pq_lex.specs.declared.token.Code.{Code};
ghost use Rattle.pq_lex.specs.declared.position.Position.{Position};
ghost use Rattle.pq_lex.specs.Classes.{is_continuation};
ghost use Rattle.pq_lex.specs.Lines.{IsOffset, line_end, position_of};
ghost use Rattle.pq_lex.specs.aux.LineMarks.{LineMark, lines_of, offset_in, place_in, same_lines};
ghost use Rattle.pq_lex.specs.Order.{InOrder};
ghost use Rattle.pq_lex.specs.TextChanges.{offset_of};
ghost use Rattle.pq_lex.specs.Tokens.{Lexes};
ghost use Rattle.pq_lex.specs.aux.Reading.{tokens_of};

/// Each text has at most one lexing: one list of tokens, and one error or none.
pub fn one_lexing()
    // A text has at most one list of tokens and error.
    ensures { (text : List ℕ) (a b : List Token) (f g : Option (Span × Code)) → Lexes 0 text a f → Lexes 0 text b g → (a ≡ b) × (f ≡ g) }
{}

/// Each text has a lexing: the one that `tokens_of` computes.
pub fn each_text()
    // The value of `tokens_of` is the tokens of the text, so each text has one.
    ensures { (text : List ℕ) → Lexes 0 text (tokens_of text).tokens (tokens_of text).fault }
{}

/// The tokens lie in the text, in order and without overlap, and each has at least one byte.
/// An error's span has at least one byte, lies in the text, and starts at the last token's end or
/// after it.
pub fn tokens_in_order()
    // `tokens`, `fault`: Tokens are not empty, do not overlap, are in text order and lie in the
    // text. The error lies after every token and in the text.
    ensures tokens { (text : List ℕ) (tokens : List Token) (fault : Option (Span × Code)) → Lexes 0 text tokens fault → InOrder 0 (length text) tokens }
    ensures fault { (text : List ℕ) (tokens : List Token) (span : Span) (code : Code) → Lexes 0 text tokens (Some (span, code)) → InOrder 0 span.start tokens × (span.start < span.end) × (span.end ≤ length text) }
{}

/// A position of a text has one offset or none: `IsOffset` holds of at most one answer.
pub fn one_offset()
    // A position has at most one offset.
    ensures { (text : List ℕ) (p : Position) (a b : Option ℕ) → IsOffset text p a → IsOffset text p b → a ≡ b }
{}

/// `offset_of` a text and a position is the largest offset at or before that position, or `None` if
/// the text has no such line. `LineIndex::offset` answers it.
pub fn largest_offset()
    // `offset_of`, by which ranged changes are defined, is the largest offset at or before a
    // position, or `None` if the line does not exist.
    ensures { (text : List ℕ) (p : Position) → IsOffset text p (offset_of text p) }
{}

/// The position of an offset leads back to that offset, if a character starts there or the text
/// ends. The exception is an offset inside a line's terminator: its position is the terminator's.
/// A character starts at a byte that is not a continuation byte (RFC 3629).
pub fn offset_comes_back()
    // The offset of a character's start comes back from its position, except inside a line's
    // terminator.
    ensures { (text : List ℕ) (offset : ℕ) (answer : Option ℕ) → offset ≤ length text → is_continuation (slice_index text offset) ≡ false → offset ≤ line_end text offset → IsOffset text (position_of text offset) answer → answer ≡ Some offset }
{}

/// `place_in` the lines of a text is the position of each offset up to the end of that text.
/// `LineIndex::position` answers it.
pub fn positions_of_lines()
    // For the lines of a text the function by which `LineIndex::position` answers is the position
    // in the text.
    ensures { (text : List ℕ) (offset : ℕ) → offset ≤ length text → place_in (lines_of text) offset ≡ position_of text offset }
{}

/// `offset_in` the lines of a text is the largest offset at or before each position, or `None` if
/// the text has no such line. `LineIndex::offset` answers it.
pub fn offsets_of_lines()
    // For the lines of a text the function by which `LineIndex::offset` answers is the offset in
    // the text.
    ensures { (text : List ℕ) (p : Position) → IsOffset text p (offset_in (lines_of text) p) }
{}

/// `==` of indexes, also through a `T: PartialEq` bound, is equality of what contracts see of them.
pub fn equal_indexes()
    // `equal_are_same`, `same_are_equal`: `==` of two indexes holds exactly if their models are
    // equal, also through a bound.
    ensures equal_are_same { (a b : List LineMark) → same_lines a b ≡ true → a ≡ b }
    ensures same_are_equal { (a b : List LineMark) → a ≡ b → same_lines a b ≡ true }
{}
