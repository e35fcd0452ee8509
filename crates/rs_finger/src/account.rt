//! Which account a resource names.

ghost use Rattle.std.specs.Prelude.{◌≡◌, [], ◌∷◌, option_map, option_and_then};
ghost use Rattle.std.specs.List.{list_all};
ghost use Rattle.form_urlencoded.specs.Form.{split_once};
ghost use Rattle.rs_finger.specs.Accounts.{is_uri, is_scheme, is_scheme_byte, behind, host_named, is_same_host, is_named_host, user_named};

use rs_path::Bytes;

/// Whether the text is a scheme, a colon and at least one character (RFC 3986, section 3).
pub(crate) fn is_uri(text: &[u8]) -> bool
    ensures { result ≡ is_uri text.now }
{
    let (scheme, rest) = split_at_colon(text);
    is_scheme(scheme) && !rest.is_empty()
}

// What stands before the first colon, and behind it.
fn split_at_colon(text: &[u8]) -> (&[u8], &[u8])
    ensures before { result.0.now ≡ (split_once 58 text.now).0 }
    ensures after { result.1.now ≡ (split_once 58 text.now).1 }
{
    match text.iter().position(|&byte| byte == b':') {
        Some(place) => (&text[..place], &text[place + 1..]),
        None => (text, &[]),
    }
}

fn is_scheme(text: &[u8]) -> bool
    ensures { result ≡ is_scheme text.now }
{
    match text {
        [first, others @ ..] => first.is_ascii_alphabetic() && are_scheme_bytes(others),
        [] => false,
    }
}

fn are_scheme_bytes(text: &[u8]) -> bool
    ensures { result ≡ list_all is_scheme_byte text.now }
{
    text.iter().all(|byte| is_scheme_byte(*byte))
}

fn is_scheme_byte(byte: u8) -> bool
    ensures { result ≡ is_scheme_byte byte }
{
    byte.is_ascii_alphanumeric() || byte == b'+' || byte == b'-' || byte == b'.'
}

/// The first user whom the resource names at this host.
pub(crate) fn user_named<'a>(host: &[u8], resource: &[u8], users: &'a [Bytes]) -> Option<&'a Bytes>
    ensures { option_map (λ user. user.now) result ≡ user_named host.now resource.now users.now }
{
    for user in users {
        if is_named(host, resource, user.as_slice()) {
            return Some(user);
        }
    }
    None
}

fn is_named(host: &[u8], resource: &[u8], user: &[u8]) -> bool
    ensures { result ≡ is_named_host host.now (host_named user.now resource.now) }
{
    match host_named(resource, user) {
        Some(named) => is_same_host(named, host),
        None => false,
    }
}

// The host that the resource names behind this user.
fn host_named<'a>(resource: &'a [u8], user: &[u8]) -> Option<&'a [u8]>
    ensures { option_map (λ host. host.now) result ≡ host_named user.now resource.now }
{
    match behind(b"acct:", resource) {
        Some(account) => host_behind(account, user),
        None => None,
    }
}

fn host_behind<'a>(account: &'a [u8], user: &[u8]) -> Option<&'a [u8]>
    ensures { option_map (λ host. host.now) result ≡ option_and_then (behind (64 ∷ [])) (behind user.now account.now) }
{
    match behind(user, account) {
        Some(at) => behind(b"@", at),
        None => None,
    }
}

fn behind<'a>(front: &[u8], text: &'a [u8]) -> Option<&'a [u8]>
    ensures { option_map (λ rest. rest.now) result ≡ behind front.now text.now }
{
    match text.strip_prefix(front) {
        Some(rest) => Some(rest),
        None => None,
    }
}

fn is_same_host(host: &[u8], other: &[u8]) -> bool
    ensures { result ≡ is_same_host host.now other.now }
{
    host.eq_ignore_ascii_case(other)
}
