//! Master keys and the session keys that are derived from them (RFC 3711, section 4.3).
ghost use Rattle.std.specs.Prelude.{◌≡◌, ◌≤◌, ◌<◌, ◌^◌, ℕ, List, length};
ghost use Rattle.srtp.specs.Octets.{xor_octets};
ghost use Rattle.srtp.specs.Derivation.{key_id};

use crate::aes::{Aes128, BLOCK};
use crate::counter::{SALT, encrypt};
use crate::hmac::HmacSha1;
use crate::octets::xor_into;

/// How many octets the key of a tag has.
const AUTH_KEY: usize = 20;

/// How packets are protected (RFC 5764, section 4.1.2). Each has tags of 80 bits.
#[derive(Clone, Copy, Debug, PartialEq, Eq, Hash)]
pub enum Profile {
    /// `SRTP_NULL_HMAC_SHA1_80`: packets have tags and are not encrypted.
    NullHmacSha1,
    /// `SRTP_AES128_CM_HMAC_SHA1_80`: what is behind a packet's header is encrypted too.
    Aes128CmHmacSha1,
}

impl Profile {
    ghost use Rattle.srtp.specs.Derivation.{profile_encrypts};

    /// Whether it encrypts.
    pub fn encrypts(self) -> bool
        ensures { result ≡ profile_encrypts self }
    {
        match self {
            Profile::NullHmacSha1 => false,
            Profile::Aes128CmHmacSha1 => true,
        }
    }
}

/// A master key of 16 octets and its salt of 14.
#[derive(Drop)]
pub struct MasterKey {
    aes: Aes128,
    salt: [u8; SALT],
}

impl MasterKey {
    ghost use Rattle.srtp.specs.Derivation.{IsMaster, derived};

    /// The master key with this salt.
    pub fn new(key: &[u8; BLOCK], salt: &[u8; SALT]) -> MasterKey
        ensures { IsMaster result key.now salt.now }
    {
        MasterKey {
            aes: Aes128::new(key),
            salt: *salt,
        }
    }

    /// Writes what it gives under a label, as many octets as there is room for, at most 2^20.
    pub fn derive(&self, label: u8, out: &mut [u8])
        requires { length out.old ≤ 2 ^ 20 }
        ensures { (key salt : List ℕ) → IsMaster self.now key salt → out.new ≡ derived key salt label (length out.old) }
    {
        out.fill(0);
        encrypt(&self.aes, &with_label(&self.salt, label), out);
    }
}

/// A master salt by exclusive or with a label where the key's identifier has it.
fn with_label(salt: &[u8; SALT], label: u8) -> [u8; SALT]
    ensures { result ≡ xor_octets salt.now (key_id label) }
{
    let mut base = *salt;
    xor_into(&mut base, &[0, 0, 0, 0, 0, 0, 0, label, 0, 0, 0, 0, 0, 0]);
    base
}

/// What protects packets: of RTP, or of RTCP.
#[derive(Drop)]
pub struct SessionKeys {
    pub(crate) encrypts: bool,
    pub(crate) aes: Aes128,
    pub(crate) salt: [u8; SALT],
    pub(crate) hmac: HmacSha1,
}

impl SessionKeys {
    ghost use Rattle.srtp.specs.Derivation.{IsMaster, AreKeys, session_keys, rtp_keys, rtcp_keys};

    /// The keys of SRTP (labels 0 to 2).
    pub fn of_rtp(profile: Profile, master: &MasterKey) -> SessionKeys
        ensures { (key salt : List ℕ) → IsMaster master.now key salt → AreKeys result (rtp_keys profile key salt) }
    {
        SessionKeys::derived(profile, master, 0)
    }

    /// The keys of SRTCP (labels 3 to 5).
    pub fn of_rtcp(profile: Profile, master: &MasterKey) -> SessionKeys
        ensures { (key salt : List ℕ) → IsMaster master.now key salt → AreKeys result (rtcp_keys profile key salt) }
    {
        SessionKeys::derived(profile, master, 3)
    }

    #[inline(never)]
    fn derived(profile: Profile, master: &MasterKey, label: u8) -> SessionKeys
        requires { label < 4 }
        ensures { (key salt : List ℕ) → IsMaster master.now key salt → AreKeys result (session_keys profile key salt label) }
    {
        let mut cipher = [0; BLOCK];
        master.derive(label, &mut cipher);
        let mut auth = [0; AUTH_KEY];
        master.derive(label + 1, &mut auth);
        let mut salt = [0; SALT];
        master.derive(label + 2, &mut salt);
        SessionKeys {
            encrypts: profile.encrypts(),
            aes: Aes128::new(&cipher),
            salt,
            hmac: HmacSha1::new(&auth),
        }
    }
}
