//! Texts that are written piece by piece.
use pq_lex::Span;
use std::alloc::Global;

/// A text that is written piece by piece.
///
/// Pieces have no result, so what writes one has no `?`, and its proof is short. A page for which
/// memory ran out is cut, and has no text to compare.
#[derive(Drop)]
pub struct Page {
    /// Where the page takes its memory from.
    pub alloc: Global,
    text: String,
    is_cut: bool,
}

impl Page {
    /// An empty page.
    pub fn new(alloc: Global) -> Page {
        Page {
            alloc,
            text: String::new(alloc),
            is_cut: false,
        }
    }

    /// Notes that memory ran out.
    pub fn cut(&mut self) {
        self.is_cut = true;
    }

    /// Writes `piece`.
    pub fn add(&mut self, piece: &str) {
        if self.text.push_str(piece).is_err() {
            self.is_cut = true;
        }
    }

    /// Writes a number.
    pub fn number(&mut self, number: usize) {
        match format!(in self.alloc; "{number}") {
            Ok(digits) => self.add(digits.as_str()),
            Err(_) => self.cut(),
        }
    }

    /// Writes a number with its sign.
    pub fn signed(&mut self, number: i64) {
        match format!(in self.alloc; "{number}") {
            Ok(digits) => self.add(digits.as_str()),
            Err(_) => self.cut(),
        }
    }

    /// Writes a number of 64 bits.
    pub fn wide(&mut self, number: u64) {
        match format!(in self.alloc; "{number}") {
            Ok(digits) => self.add(digits.as_str()),
            Err(_) => self.cut(),
        }
    }

    /// Writes `bytes`, with a mark for what is not UTF-8.
    pub fn bytes(&mut self, bytes: &[u8]) {
        match String::from_utf8_lossy(self.alloc, bytes) {
            Ok(text) => self.add(text.as_str()),
            Err(_) => self.cut(),
        }
    }

    /// Writes `piece` `count` times.
    pub fn repeat(&mut self, piece: &str, count: usize) {
        for _ in 0..count {
            self.add(piece);
        }
    }

    /// What `other` has, on which this page rests: it is cut if `other` is.
    pub fn rest_on<'a>(&mut self, other: &'a Page) -> &'a str {
        if other.is_cut {
            self.is_cut = true;
        }
        other.text.as_str()
    }

    /// Writes `span` as `START-END`.
    pub fn span(&mut self, span: Span) {
        self.number(span.start);
        self.add("-");
        self.number(span.end);
    }

    /// How many bytes are written.
    pub fn len(&self) -> usize {
        self.text.len()
    }

    /// Whether memory ran out for a piece.
    pub fn is_cut(&self) -> bool {
        self.is_cut
    }

    /// What is written. A page that is cut lacks a piece.
    pub fn text(&self) -> &str {
        self.text.as_str()
    }
}

/// A page with the text of three pieces.
pub fn page_of(alloc: Global, first: &str, second: &str, third: &str) -> Page {
    let mut page = Page::new(alloc);
    page.add(first);
    page.add(second);
    page.add(third);
    page
}
