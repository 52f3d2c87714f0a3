//! The key by which what passes the network is protected: a master key of 16 octets and its salt of 14 (RFC 3711,
//! section 8.2), in a file.
use base64::engine::general_purpose::STANDARD;
use contexts::{Inbound, Outbound};
use hex::FromHex;
use srtp::{MasterKey, Profile};
use std::alloc::Global;
use std::fs;
use std::fs::File;
use std::io::Read;
use std::os::unix::fs::PermissionsExt;

/// The names of the profiles (RFC 5764, section 4.1.2).
pub const AES_CM: &str = "SRTP_AES128_CM_HMAC_SHA1_80";

pub const NULL: &str = "SRTP_NULL_HMAC_SHA1_80";

/// How many octets a key has, and with its salt.
const KEY: usize = 16;

const WHOLE: usize = 30;

/// Those of a file's mode by which others than its owner may do something with it.
const OTHERS: u32 = 0o077;

/// What the system's randomness is read from.
pub const RANDOM: &str = "/dev/urandom";

/// Why a file has no key.
#[derive(Clone, Copy, Debug, PartialEq, Eq)]
pub enum KeyFault {
    /// It can't be read.
    Unread,
    /// Others than its owner may read or write it.
    Open,
    /// It has something else.
    Form,
}

impl KeyFault {
    /// What is said of it.
    pub fn text(&self) -> &'static str {
        match self {
            KeyFault::Unread => "it can't be read",
            KeyFault::Open => "others than its owner may read or write it, which chmod 600 ends",
            KeyFault::Form => {
                "a master key of 16 octets and its salt of 14 are wanted, by 40 characters of base64 or 60 of hex"
            }
        }
    }
}

/// A master key and its salt, in its octets.
#[derive(Clone, Copy)]
pub struct Key {
    octets: [u8; WHOLE],
}

impl Key {
    /// The key that a file has, in one line.
    pub fn read(rt: &HostRuntime, path: &str) -> Result<Key, KeyFault> {
        let Ok(metadata) = fs::metadata(rt, path) else {
            return Err(KeyFault::Unread);
        };
        if metadata.permissions().mode() & OTHERS != 0 {
            return Err(KeyFault::Open);
        }
        let Ok(text) = fs::read_to_string(rt, path) else {
            return Err(KeyFault::Unread);
        };
        match octets_of(text.trim()) {
            Some(octets) => Ok(Key { octets }),
            None => Err(KeyFault::Form),
        }
    }

    /// The key made ready.
    fn master(&self) -> MasterKey {
        let (front, back) = self.octets.split_at(KEY);
        let mut key = [0; KEY];
        key.copy_from_slice(front);
        let mut salt = [0; WHOLE - KEY];
        salt.copy_from_slice(back);
        MasterKey::new(&key, &salt)
    }

    /// What takes the protection off what comes under it, and protects what leaves. None: the allocator refused the
    /// memory.
    pub fn ends(&self, alloc: Global, profile: Profile) -> Option<(Inbound, Outbound)> {
        let inbound = Inbound::new(alloc, profile, self.master()).ok()?;
        let outbound = Outbound::new(alloc, profile, self.master()).ok()?;
        Some((inbound, outbound))
    }
}

/// The octets that a text spells, if these are as many as a key and its salt have: in hex, or in base64, as `srtpenc`
/// and ffmpeg take them.
fn octets_of(text: &str) -> Option<[u8; WHOLE]> {
    if let Ok(octets) = <[u8; WHOLE] as FromHex>::from_hex(text) {
        return Some(octets);
    }
    let mut octets = [0; WHOLE];
    match STANDARD.decode_slice(text.as_bytes(), &mut octets) {
        Ok(WHOLE) => Some(octets),
        _ => None,
    }
}

/// A number of the system's randomness. None: the system has none to be read.
pub fn drawn(rt: &HostRuntime) -> Option<u32> {
    let mut file = File::open(rt, RANDOM).ok()?;
    let mut octets = [0; 4];
    file.read_exact(&mut octets).ok()?;
    Some(u32::from_ne_bytes(octets))
}
