//! The path that a URI names, the file at a path below a root, and the escapes of a path.
//!
//! A URI begins with `file://`, in lower case, and then a path that begins with `/`. The escapes of
//! the path are bytes of UTF-8, and a `%` without two hexadecimal digits is itself (RFC 3986,
//! section 2.1; RFC 8089, section 2).
//!
//! Other texts write the same: `plain_uri` makes one form of them.
ghost use Rattle.std.specs.Prelude.{◌≡◌, ◌++◌, option_map, string_bytes, IfOk, OnOk};
ghost use Rattle.std.specs.Cow.{cow_str_bytes};
ghost use Rattle.pq_session.specs.Uri.{strip_prefix as strip_prefix_of, is_absolute as is_absolute_path, path_of as path_of_uri, without_slashes, without_last_slashes, below as below_root, name_of as name_of_text, name_below as name_below_root, file_at as file_at_path, text_of, decoded_path as decoded_path_of, encoded, cut_at, scheme_of as scheme_of_uri, is_same_word, is_local as is_local_host, rest_after_host, local_rest, plain_rest, plain_uri as plain_uri_of, slash, colon};

use percent_encoding::{
    AsciiSet, DecodeError, NON_ALPHANUMERIC, ascii_set, percent_decode, utf8_percent_encode,
};
use std::alloc::{AllocError, Global};
use std::borrow::CowStr;

/// The ASCII bytes of a path that are printed with an escape. All others are letters, digits and
/// `-._~/` (RFC 3986, section 2.3).
const ESCAPED: AsciiSet = ascii_set!(
    NON_ALPHANUMERIC
        .remove(b'-')
        .remove(b'.')
        .remove(b'_')
        .remove(b'~')
        .remove(b'/')
);

/// `text` after `prefix`, if `text` begins with it.
fn strip_prefix<'a>(text: &'a str, prefix: &str) -> Option<&'a str>
    ensures { option_map (λ rest. rest.now) result ≡ strip_prefix_of prefix.now text.now }
{
    text.strip_prefix(prefix)
}

/// Whether `path` begins with `/`.
pub(crate) fn is_absolute(path: &str) -> bool
    ensures { result ≡ is_absolute_path path.now }
{
    strip_prefix(path, "/").is_some()
}

/// The path of `uri` with its escapes, if `uri` has the scheme `file` and no host.
fn path_of(uri: &str) -> Option<&str>
    ensures { option_map (λ path. path.now) result ≡ path_of_uri uri.now }
{
    let path = strip_prefix(uri, "file://")?;
    if is_absolute(path) { Some(path) } else { None }
}

/// `path` from its first byte that is not `/`.
fn trim_slashes(path: &str) -> &str
    ensures { result.now ≡ without_slashes path.now }
{
    path.trim_start_matches('/')
}

/// `path` up to its last byte that is not `/`.
pub(crate) fn trim_last_slashes(path: &str) -> &str
    ensures { result.now ≡ without_last_slashes path.now }
{
    path.trim_end_matches('/')
}

/// What follows `root` and `/` in `path`, if `path` begins with them.
fn below<'a>(root: &str, path: &'a str) -> Option<&'a str>
    ensures { option_map (λ rest. rest.now) result ≡ below_root root.now path.now }
{
    strip_prefix(strip_prefix(path, root)?, "/")
}

/// `text` without the slashes at its start, if something is left.
fn name_in(text: &str) -> Option<&str>
    ensures { option_map (λ name. name.now) result ≡ name_of_text (without_slashes text.now) }
{
    let name = trim_slashes(text);
    if name.is_empty() { None } else { Some(name) }
}

/// The name of the file at `path`, if `path` is below `root`.
pub(crate) fn name_below<'a>(root: &str, path: &'a str) -> Option<&'a str>
    ensures { option_map (λ name. name.now) result ≡ name_below_root root.now path.now }
{
    name_in(below(root, path)?)
}

/// The name of the file at `path`: the path below the root, or `path` itself if it is not there.
pub(crate) fn file_at<'a>(root: &str, path: &'a str) -> Option<&'a str>
    ensures { option_map (λ name. name.now) result ≡ file_at_path root.now path.now }
{
    match below(root, path) {
        Some(rest) => name_in(rest),
        None => Some(path),
    }
}

/// `path` with each escape replaced by its byte, if that is UTF-8.
fn decoded(alloc: Global, path: &str) -> Result<Option<CowStr<'_, Global>>, AllocError>
    ensures { IfOk result (λ text. option_map cow_str_bytes text ≡ text_of path.now) }
{
    match percent_decode(path.as_bytes()).decode_utf8(alloc) {
        Ok(text) => Ok(Some(text)),
        Err(DecodeError::OutOfMemory) => Err(AllocError),
        Err(DecodeError::Utf8(_)) => Ok(None),
    }
}

/// The path of `uri` without escapes, if `uri` names a path.
pub(crate) fn decoded_path(
    alloc: Global,
    uri: &str,
) -> Result<Option<CowStr<'_, Global>>, AllocError>
    ensures { IfOk result (λ path. option_map cow_str_bytes path ≡ decoded_path_of uri.now) }
{
    match path_of(uri) {
        Some(path) => decoded(alloc, path),
        None => Ok(None),
    }
}

/// Appends `path` to `uri`, with escapes.
pub(crate) fn push_encoded(uri: &mut String, path: &str) -> Result<(), AllocError>
    ensures { OnOk result (string_bytes uri.new ≡ string_bytes uri.old ++ encoded path.now) }
{
    utf8_percent_encode(path, ESCAPED).append_to(uri)
}

/// `uri` before its first `:`, and after it.
fn cut_scheme(uri: &str) -> Option<(&str, &str)>
    ensures { option_map (λ parts. (parts.0.now, parts.1.now)) result ≡ cut_at colon uri.now }
{
    uri.split_once(':')
}

/// `text` before its first `/`, and after it.
fn cut_host(text: &str) -> Option<(&str, &str)>
    ensures { option_map (λ parts. (parts.0.now, parts.1.now)) result ≡ cut_at slash text.now }
{
    text.split_once('/')
}

/// Whether `text` is `word` but for the case of ASCII letters.
fn is_same_word(text: &str, word: &str) -> bool
    ensures { result ≡ is_same_word text.now word.now }
{
    text.eq_ignore_ascii_case(word)
}

/// Whether `host` names this machine: it is empty, or `localhost` (RFC 8089, section 2).
fn is_local(host: &str) -> bool
    ensures { result ≡ is_local_host host.now }
{
    host.is_empty() || is_same_word(host, "localhost")
}

/// The path of `text` after its first slash, where `text` is a host of this machine and a path.
fn rest_after_host(text: &str) -> Option<&str>
    ensures { option_map (λ rest. rest.now) result ≡ rest_after_host text.now }
{
    let (host, rest) = cut_host(text)?;
    if is_local(host) { Some(rest) } else { None }
}

/// The path of `text` after its first slash, where `text` is what follows the scheme of a URI.
fn local_rest(text: &str) -> Option<&str>
    ensures { option_map (λ rest. rest.now) result ≡ local_rest text.now }
{
    match strip_prefix(text, "//") {
        Some(text) => rest_after_host(text),
        None => strip_prefix(text, "/"),
    }
}

/// The path of `uri` after its first slash, if `uri` names a file of this machine.
fn plain_rest(uri: &str) -> Option<&str>
    ensures { option_map (λ rest. rest.now) result ≡ plain_rest uri.now }
{
    let (scheme, text) = cut_scheme(uri)?;
    if is_same_word(scheme, "file") {
        local_rest(text)
    } else {
        None
    }
}

/// The scheme of `uri`: the text before its first `:` (RFC 3986, section 3.1). It is empty if there
/// is none.
pub fn scheme_of(uri: &str) -> &str
    // The text before the first colon, and the empty text if there is none.
    ensures { result.now ≡ scheme_of_uri uri.now }
{
    match cut_scheme(uri) {
        Some((scheme, _)) => scheme,
        None => "",
    }
}

/// The form of `uri` in which sessions read it. A URI of the scheme `file` in letters of any case,
/// with no host, an empty one or `localhost`, is `file://` and its path (RFC 8089, sections 2 and 3,
/// appendix B). Any other text is itself.
///
/// Only `Memory` is an error, after an allocation failure.
#[tactic(auto, unfolding(crate::specs::Uri::plain_uri))]
pub fn plain_uri(alloc: Global, uri: &str) -> Result<String, AllocError>
    // The plain form of a URI is that of the definitions. The law `plain_uris_stay` says which texts
    // it leaves as they are.
    ensures { IfOk result (λ plain. string_bytes plain ≡ plain_uri_of uri.now) }
{
    match plain_rest(uri) {
        Some(rest) => {
            let mut plain = String::from_str(alloc, "file:///")?;
            plain.push_str(rest)?;
            Ok(plain)
        }
        None => String::from_str(alloc, uri),
    }
}
