//! A request target in its two parts (RFC 3986, section 3).
ghost use Rattle.std.specs.Prelude.{◌≡◌};
ghost use Rattle.pol_routes.specs.Target as spec;

/// What stands before the query of a target.
pub fn path_of(target: &[u8]) -> &[u8]
    ensures { result.now ≡ spec.path_of target.now }
{
    match target.iter().position(|&byte| byte == b'?') {
        Some(end) => &target[..end],
        None => target,
    }
}

/// The query of a target: what stands behind its first `?`, or nothing where it has none.
pub fn query_of(target: &[u8]) -> &[u8]
    ensures { result.now ≡ spec.query_of target.now }
{
    match target.iter().position(|&byte| byte == b'?') {
        Some(end) => &target[end + 1..],
        None => b"",
    }
}
