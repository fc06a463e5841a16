//! Lists of changes of texts, as words of rows.
//!
//! A list is `CHANGE | CHANGE | ..`. A change is `LINE:COLUMN-LINE:COLUMN NEW`, or `all NEW` for the
//! whole text; `N of CHANGE` is that change N times. In a new text `\n` is LF and `\r` is CR, `''` is
//! the empty text, and `N*PIECE` is the piece N times. A word that is to be a number and is none is
//! the largest number.
use pq_lex::{Memory, Position, TextChange};
use std::alloc::Global;

/// The number that `word` writes.
fn number_of(word: &str) -> usize {
    word.parse::<usize>().unwrap_or(usize::MAX)
}

/// The text that a word of a row writes.
pub fn text_of_word(alloc: Global, word: &str) -> Result<String, Memory> {
    if word == "''" {
        return Ok(String::new(alloc));
    }
    if let Some((count, piece)) = word.split_once("*") {
        return piece.repeat(alloc, number_of(count));
    }
    let text = word.replace(alloc, "\\n", "\n")?;
    text.replace(alloc, "\\r", "\r")
}

/// The position that `LINE:COLUMN` writes.
fn position_of(word: &str) -> Position {
    let (line, character) = word.split_once(":").unwrap_or((word, ""));
    Position {
        line: number_of(line),
        character: number_of(character),
    }
}

/// The range that `LINE:COLUMN-LINE:COLUMN` writes, or `None` for `all`.
fn range_of(word: &str) -> Option<(Position, Position)> {
    let (start, end) = word.split_once("-")?;
    Some((position_of(start), position_of(end)))
}

/// The change that `RANGE NEW` writes.
fn change_of(alloc: Global, words: &str) -> Result<TextChange, Memory> {
    let (range, text) = words.split_once(" ").unwrap_or((words, ""));
    let text = text_of_word(alloc, text)?;
    Ok(TextChange {
        range: range_of(range),
        text,
    })
}

/// The changes that the words of a list write.
pub fn changes_of(alloc: Global, list: &str) -> Result<Vec<TextChange>, Memory> {
    let mut changes = Vec::new(alloc);
    for part in list.split(" | ") {
        let (count, words) = part.split_once(" of ").unwrap_or(("1", part));
        for _ in 0..number_of(count) {
            changes.push(change_of(alloc, words)?)?;
        }
    }
    Ok(changes)
}
