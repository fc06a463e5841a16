//! Prefixes of full names before their dots: the scopes that contain a scope.
ghost use Rattle.std.specs.Prelude.{◌≡◌, ◌<◌, length, IfSome};
ghost use Rattle.std.specs.Option.{option_copied};
ghost use Rattle.pq_schema.specs.Resolution.{prefixes, scopes};
ghost use Rattle.pq_schema.specs.aux.Scopes.{before, chain, first_of};

/// The prefix of `scope` before its last dot.
pub(crate) fn outer(scope: &str) -> Option<&str>
    ensures prefixes { prefixes scope.now ≡ before (option_copied result) }
    ensures shorter { IfSome result (λ s. length s.now < length scope.now) }
{
    match scope.rsplit_once('.') {
        Some((outer, _)) => Some(outer),
        None => None,
    }
}

/// The innermost scope of a reference in `within`, unless that is empty.
pub(crate) fn innermost(within: &str) -> Option<&str>
    ensures scopes { scopes within.now ≡ chain (option_copied result) }
{
    if within.is_empty() {
        None
    } else {
        Some(within)
    }
}

/// The scope `inner`; without one the empty scope.
pub(crate) fn scope_or_empty(inner: Option<&str>) -> &str
    ensures scope { result.now ≡ first_of (option_copied inner.entry) }
{
    inner.unwrap_or("")
}
