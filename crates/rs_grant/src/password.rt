//! The user's password.

ghost use Rattle.std.specs.Prelude.{◌≡◌, ◌+◌, ◌<◌, if◌then◌else◌};
ghost use Rattle.std.specs.Str.{bytes_eq};
ghost use Rattle.rs_grant.specs.Passwords.{password_fits};

use sha2::{Digest, Sha256};

/// Whether the password is the account's: SHA-256 of the salt followed by the password is the secret.
///
/// All 32 bytes of the digest are compared, whatever the first ones are.
pub fn password_fits(salt: &[u8], secret: &[u8; 32], password: &[u8]) -> bool
    ensures fits { result ≡ password_fits salt.now secret.now password.now }
{
    let mut hasher = Sha256::new();
    hasher.update(salt);
    hasher.update(password);
    let digest = hasher.finalize();
    is_same(&digest, secret)
}

fn is_same(digest: &[u8; 32], secret: &[u8; 32]) -> bool
    ensures { result ≡ bytes_eq digest.now secret.now }
{
    let mut differing = 0u32;
    for i in 0..32usize {
        differing = more_where(digest[i] != secret[i], differing);
    }
    differing == 0
}

fn more_where(apart: bool, count: u32) -> u32
    requires { count < 32 }
    ensures { result ≡ count + (if apart then 1 else 0) }
{
    if apart { count + 1 } else { count }
}
