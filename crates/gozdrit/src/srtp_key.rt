//! The profile and the master key by which C has datagrams protected (RFC 3711, section 8.2; RFC 5764, section 4.1.2).
ghost use Rattle.std.specs.Prelude.{◌≡◌};
ghost use Rattle.gozdrit.specs.Protection.{ReadsKey, profile_of};

use srtp::{MasterKey, Profile};

/// How many octets a master key has, and with its salt.
const KEY: usize = 16;

const WHOLE: usize = 30;

/// The profile of a number, as DTLS has them.
fn profile_of(number: u16) -> Option<Profile>
    ensures { result ≡ profile_of number }
{
    match number {
        1 => Some(Profile::Aes128CmHmacSha1),
        5 => Some(Profile::NullHmacSha1),
        _ => None,
    }
}

/// The profile, and the master key of these octets and its salt behind it. None: the profile is not known, or there are not 30 octets.
pub(crate) fn read_key(number: u16, octets: &[u8]) -> Option<(Profile, MasterKey)>
    ensures { ReadsKey number octets.now result }
{
    let profile = profile_of(number)?;
    if octets.len() != WHOLE {
        return None;
    }
    let (front, back) = octets.split_at(KEY);
    let mut key = [0; KEY];
    key.copy_from_slice(front);
    let mut salt = [0; WHOLE - KEY];
    salt.copy_from_slice(back);
    Some((profile, MasterKey::new(&key, &salt)))
}
