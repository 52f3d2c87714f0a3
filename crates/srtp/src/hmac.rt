//! HMAC-SHA-1 (RFC 2104).
ghost use Rattle.std.specs.Prelude.{◌≡◌, ◌≤◌, ◌-◌, ◌++◌, ℕ, List, length, replicate};
ghost use Rattle.sha1.specs.Sha1.{Holds};
ghost use Rattle.srtp.specs.Octets.{xor_octets};
ghost use Rattle.srtp.specs.Hmac.{block_key};

use crate::octets::xor_into;
use sha1::Sha1;

/// How many octets a block of SHA-1 has.
const BLOCK: usize = 64;

/// A key of HMAC-SHA-1: the two hashes as they stand after the key's block, which is hashed once and not for each message.
#[derive(Drop)]
pub struct HmacSha1 {
    inner: Sha1,
    outer: Sha1,
}

impl HmacSha1 {
    ghost use Rattle.srtp.specs.Hmac.{IsKeyed, hmac_sha1};

    /// The key of so many octets; a longer one than 64 octets is hashed first, as RFC 2104, section 2, has it.
    #[inline(never)]
    pub fn new(key: &[u8]) -> HmacSha1
        ensures { IsKeyed result key.now }
    {
        let key = block_of(key);
        HmacSha1 {
            inner: hash_of(key, &[0x36; BLOCK]),
            outer: hash_of(key, &[0x5c; BLOCK]),
        }
    }

    /// The code of 20 octets of a text that comes in two pieces.
    #[inline(never)]
    pub fn code(&self, text: &[u8], rest: &[u8]) -> [u8; 20]
        ensures { (key : List ℕ) → IsKeyed self.now key → result ≡ hmac_sha1 key (text.now ++ rest.now) }
    {
        let mut inner = copy_of(&self.inner);
        inner.update(text);
        inner.update(rest);
        let mut outer = copy_of(&self.outer);
        outer.update(&inner.finalize());
        outer.finalize()
    }
}

/// A key with zeros behind it, a block in all.
fn block_of(key: &[u8]) -> [u8; BLOCK]
    ensures { result ≡ block_key key.now }
{
    if key.len() > BLOCK {
        filled_up(&Sha1::digest(key))
    } else {
        filled_up(key)
    }
}

fn filled_up(key: &[u8]) -> [u8; BLOCK]
    requires { length key.now ≤ 64 }
    ensures { result ≡ key.now ++ replicate (64 - length key.now) 0 }
{
    let mut block = [0; BLOCK];
    block[..key.len()].copy_from_slice(key);
    block
}

/// The hash of a key's block by exclusive or with a pad.
fn hash_of(mut block: [u8; BLOCK], pad: &[u8; BLOCK]) -> Sha1
    ensures { Holds result (xor_octets block pad.now) }
{
    xor_into(&mut block, pad);
    let mut hash = Sha1::new();
    hash.update(&block);
    hash
}

/// A hash as it stands.
fn copy_of(hash: &Sha1) -> Sha1
    ensures { result ≡ hash.now }
{
    hash.clone().unwrap()
}
