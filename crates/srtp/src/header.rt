//! The header of an RTP packet (RFC 3550, section 5.1).
ghost use Rattle.std.specs.Prelude.{◌≡◌, ◌≤◌, ◌<◌, ◌^◌, IfOk, length};
ghost use Rattle.std.specs.Result.{result_err};
ghost use Rattle.srtp.specs.Header.{header_len, header_fault, is_extended, sources_end, sequence_of, ssrc_of};

use crate::fault::SrtpFault;
use byteorder::{ByteOrder, NetworkEndian};

/// How many octets the fixed header has.
const FIXED: usize = 12;

/// How many octets the header has of a packet that begins so.
#[tactic(auto, unfolding(crate::specs::Header::header_fault))]
pub(crate) fn header_of(octets: &[u8]) -> Result<usize, SrtpFault>
    ensures len { IfOk result (λ len. len ≡ header_len octets.now) }
    ensures fits { IfOk result (λ len. (len ≤ length octets.now) × (12 ≤ len)) }
    ensures fault { result_err result ≡ header_fault octets.now }
{
    if octets.len() < FIXED {
        return Err(SrtpFault::Short);
    }
    if octets[0] >> 6 != 2 {
        return Err(SrtpFault::Version);
    }
    let len = len_of(octets);
    if octets.len() < len {
        Err(SrtpFault::Header)
    } else {
        Ok(len)
    }
}

/// How many octets the header has by what it says. One whose extension is cut off is longer than the octets.
#[tactic(auto, unfolding(crate::specs::Header::header_len))]
fn len_of(octets: &[u8]) -> usize
    requires { 12 ≤ length octets.now }
    ensures at_least { 12 ≤ result }
    ensures same { result ≤ length octets.now → result ≡ header_len octets.now }
    ensures long { length octets.now < result → length octets.now < header_len octets.now }
{
    let sources = sources_end(octets);
    if !is_extended(octets) {
        sources
    } else if octets.len() < sources + 4 {
        sources + 4
    } else {
        sources + 4 + 4 * usize::from(NetworkEndian::read_u16(&octets[sources + 2..]))
    }
}

/// Whether the header has an extension.
fn is_extended(octets: &[u8]) -> bool
    requires { 12 ≤ length octets.now }
    ensures { result ≡ is_extended octets.now }
{
    octets[0] >> 4 & 1 == 1
}

/// How many octets the fixed header and the sources have.
fn sources_end(octets: &[u8]) -> usize
    requires { 12 ≤ length octets.now }
    ensures same { result ≡ sources_end octets.now }
    ensures bounds { (12 ≤ result) × (result ≤ 72) }
{
    FIXED + 4 * usize::from(octets[0] & 15)
}

/// The sequence number of a packet.
pub(crate) fn sequence_of(octets: &[u8]) -> u16
    requires { 12 ≤ length octets.now }
    ensures { result ≡ sequence_of octets.now }
{
    NetworkEndian::read_u16(&octets[2..])
}

/// The SSRC of a packet.
pub(crate) fn ssrc_of(octets: &[u8]) -> u32
    requires { 12 ≤ length octets.now }
    ensures { result ≡ ssrc_of octets.now }
{
    NetworkEndian::read_u32(&octets[8..])
}
