//! What is kept of a secret.
ghost use Rattle.std.specs.Prelude.{◌≡◌, bytes_eq};
ghost use Rattle.es_cred.specs.Digest.{digest_of, differing_from};

use sha2::{Digest, Sha256};

/// A SHA-256 digest (FIPS 180-4).
pub type Hash32 = [u8; 32];

/// SHA-256 of the name, a zero byte and the secret.
#[tactic(auto, unfolding(crate::specs::Digest::digest_of))]
pub fn digest(name: &str, secret: &str) -> Hash32
    ensures { result ≡ digest_of name.now secret.now }
{
    let mut hasher = Sha256::new();
    hasher.update(name.as_bytes());
    hasher.update(&[0u8]);
    hasher.update(secret.as_bytes());
    hasher.finalize()
}

/// Whether two digests are equal. All bytes are looked at, wherever the first two that differ stand.
pub fn same(one: &Hash32, other: &Hash32) -> bool
    ensures { result ≡ bytes_eq one.now other.now }
{
    differing(one, other) == 0
}

/// The bits in which any two bytes at one place differ.
fn differing(one: &Hash32, other: &Hash32) -> u8
    ensures { result ≡ differing_from 0 one.now other.now }
{
    let mut bits = 0u8;
    for at in 0..one.len() {
        bits |= one[at] ^ other[at];
    }
    bits
}
