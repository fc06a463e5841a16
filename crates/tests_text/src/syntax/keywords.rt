//! Keywords in the place of names, where they are names like any other.
use super::shown::add_tree;
use crate::checks::{check_number, check_page, check_that, text_of};
use pq_syntax::Memory;
use std::alloc::Global;
use std::process::Abort;
use test_support::Page;

/// A text with `word` in each place where the grammar allows any name.
fn with_word(alloc: Global, word: &str) -> Result<String, Memory> {
    "syntax='proto3';package @.@;option @.(@.@).(.@)=@.@;extend .@.@{}extend @{}\
     message @{extend @{}\
     optional @ @=1[@=@];repeated @.@ @=2;.@ @=3;map<string,@>@=4;map.@ @=5;\
     oneof @{option @=@;.@ @=1[@=@];}message @{}}\
     enum @{A=0[@=@];}service @{rpc @(.@)returns(stream @);rpc @(a.@)returns(stream.@);}"
        .replace(alloc, "@", word)
}

/// Writes the tree of that text, as lines.
fn add_with_word(page: &mut Page, word: &str) {
    match with_word(page.alloc, word) {
        Ok(text) => add_tree(page, text.as_str()),
        Err(_) => page.cut(),
    }
}

/// `lines` with `word` in the place of `plain`.
fn with_name(rt: &(impl Abort + AllocGlobal), lines: &str, plain: &str, word: &str) -> String {
    check_that(rt, lines.starts_with("0 16-"), lines);
    lines.replace(rt.alloc(), plain, word).expect(rt, "memory")
}

/// Checks that `word` is read as a plain name of its length is, in each place.
fn check_name(rt: &(impl Abort + AllocGlobal), word: &str) {
    let mut plain = Page::new(rt.alloc());
    plain.repeat("q", word.len());
    let mut tree = Page::new(rt.alloc());
    add_with_word(&mut tree, text_of(rt, &plain));
    let mut read = Page::new(rt.alloc());
    add_with_word(&mut read, word);
    let want = with_name(rt, text_of(rt, &tree), text_of(rt, &plain), word);
    check_page(rt, &read, want.as_str(), word);
}

/// Checks each of the `count` words by [`check_name`].
fn check_names(rt: &(impl Abort + AllocGlobal), count: usize, words: &str) {
    check_number(rt, words.split_whitespace().count(), count, words);
    for word in words.split_whitespace() {
        check_name(rt, word);
    }
}

#[test]
fn names_like_any_other(rt: HostRuntime) {
    check_names(
        &rt,
        29,
        "syntax import weak public package option message enum service rpc returns stream oneof map \
         reserved extend to max optional repeated required inf nan true group extensions int32 \
         string proto3",
    );
}
