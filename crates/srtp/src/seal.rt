//! How packets are protected (RFC 3711, sections 3.1 and 4).
ghost use Rattle.std.specs.Prelude.{◌≡◌, ◌≤◌, ◌<◌, ◌^◌, ◌++◌, length};
ghost use Rattle.srtp.specs.Derivation.{Keys, AreKeys};
ghost use Rattle.srtp.specs.Seal.{enciphered, tag_of, same_octets};

use crate::counter::{counter_base, encrypt};
use crate::keys::SessionKeys;

/// How many octets a tag has.
pub const TAG: usize = 10;

/// Encrypts what is behind so many octets where the keys encrypt, or decrypts it, which is the same.
#[tactic(auto, unfolding(crate::specs::Seal::enciphered))]
pub(crate) fn encipher(keys: &SessionKeys, clear: usize, ssrc: u32, index: u64, octets: &mut [u8])
    requires clear { clear ≤ length octets.old }
    requires len { length octets.old ≤ 2 ^ 20 }
    ensures { (k : Keys) → AreKeys keys.now k → octets.new ≡ enciphered k clear ssrc index octets.old }
{
    if keys.encrypts {
        let (_, behind) = octets.split_at_mut(clear);
        encrypt(&keys.aes, &counter_base(&keys.salt, ssrc, index), behind);
    }
}

/// The tag of octets with others put behind them.
#[tactic(auto, unfolding(crate::specs::Seal::tag_of))]
pub(crate) fn tag_of(keys: &SessionKeys, octets: &[u8], behind: &[u8]) -> [u8; TAG]
    ensures { (k : Keys) → AreKeys keys.now k → result ≡ tag_of k octets.now behind.now }
{
    let code = keys.hmac.code(octets, behind);
    let mut tag = [0; TAG];
    tag.copy_from_slice(&code[..TAG]);
    tag
}

/// Whether two tags are the same. All of their octets are looked at, whatever they are.
pub(crate) fn same_tag(a: &[u8; TAG], b: &[u8]) -> bool
    requires { length b.now ≡ 10 }
    ensures { result ≡ same_octets a.now b.now }
{
    let mut differing = 0;
    for i in 0..TAG {
        differing |= a[i] ^ b[i];
    }
    differing == 0
}
