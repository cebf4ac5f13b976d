//! The target of a request.
ghost use Rattle.std.specs.Prelude.{◌≡◌, ◌||◌, ◌≤◌, ◌⊎◌, true, [], length, take, drop, IfSome, IsNone};
ghost use Rattle.asgi_request.specs.Target as spec;

const OPTIONS: &[u8] = b"OPTIONS";

const HTTP: &[u8] = b"http://";

const HTTPS: &[u8] = b"https://";

const ROOT: &[u8] = b"/";

/// Whether the target has a form that is allowed with the method, which is in upper case:
/// origin-form, absolute-form of `http` or `https`, or `*` with OPTIONS alone (RFC 9112,
/// sections 3.2.1, 3.2.2 and 3.2.4).
pub fn is_target(method: &[u8], target: &[u8]) -> bool
    ensures { result ≡ spec.is_target method.now target.now }
{
    match target {
        [b'/', ..] => true,
        b"*" => method == OPTIONS,
        _ => is_absolute(target),
    }
}

/// Whether the target is a scheme and an authority, and perhaps more.
fn is_absolute(target: &[u8]) -> bool
    ensures { result ≡ (spec.has_authority target.now HTTP.now || spec.has_authority target.now HTTPS.now) }
{
    has_authority(target, HTTP) || has_authority(target, HTTPS)
}

/// Whether the target begins with the scheme in any case, and then a byte of an authority.
fn has_authority(target: &[u8], scheme: &[u8]) -> bool
    ensures { result ≡ spec.has_authority target.now scheme.now }
{
    target.len() > scheme.len()
        && target[..scheme.len()].eq_ignore_ascii_case(scheme)
        && target[scheme.len()] != b'/'
        && target[scheme.len()] != b'?'
}

/// The path as it was received, still percent-encoded and without the query; `/` if it is empty
/// (RFC 9110, section 4.2.3).
pub fn path_of(target: &[u8]) -> &[u8]
    ensures { result.now ≡ spec.path_of target.now }
{
    or_root(before_query(path_and_query(target)))
}

/// How many bytes the path has, if the target begins with it. `None` if it does not: a scheme comes
/// first, or the path is empty.
#[tactic(auto, using(crate::proofs::TargetLemmas::path_in_front))]
pub fn path_in_front(target: &[u8]) -> Option<usize>
    ensures front { IfSome result (λ n. (n ≤ length target.now) × (spec.path_of target.now ≡ take n target.now)) }
    ensures none { IsNone result → (spec.is_absolute_form target.now ≡ true) ⊎ (spec.before_query target.now ≡ []) }
{
    if is_absolute(target) {
        return None;
    }
    let n = before_query(target).len();
    if n == 0 {
        return None;
    }
    Some(n)
}

/// The path, or that of the root if it is empty.
fn or_root(path: &[u8]) -> &[u8]
    ensures { result.now ≡ spec.or_root path.now }
{
    match path {
        [] => ROOT,
        [_, ..] => path,
    }
}

/// The query as it was received, still percent-encoded and without the `?`; empty if there is none.
pub fn query_of(target: &[u8]) -> &[u8]
    ensures { result.now ≡ spec.query_of target.now }
{
    after_question_mark(path_and_query(target))
}

/// The target without a scheme and an authority.
fn path_and_query(target: &[u8]) -> &[u8]
    ensures { result.now ≡ spec.path_and_query target.now }
{
    if has_authority(target, HTTP) {
        return after_authority(target, HTTP.len());
    }
    if has_authority(target, HTTPS) {
        return after_authority(target, HTTPS.len());
    }
    target
}

/// The bytes from the first `/` or `?` on, from `from` on.
fn after_authority(target: &[u8], from: usize) -> &[u8]
    requires { from ≤ length target.now }
    ensures { result.now ≡ spec.after_authority (drop from target.now) }
{
    for i in from..target.len() {
        if target[i] == b'/' || target[i] == b'?' {
            return &target[i..];
        }
    }
    &[]
}

/// The bytes up to the first `?`.
fn before_query(bytes: &[u8]) -> &[u8]
    ensures { result.now ≡ spec.before_query bytes.now }
{
    for (i, b) in bytes.iter().enumerate() {
        if *b == b'?' {
            return &bytes[..i];
        }
    }
    bytes
}

/// The bytes after the first `?`.
fn after_question_mark(bytes: &[u8]) -> &[u8]
    ensures { result.now ≡ spec.after_question_mark bytes.now }
{
    for (i, b) in bytes.iter().enumerate() {
        if *b == b'?' {
            return &bytes[i + 1..];
        }
    }
    &[]
}
