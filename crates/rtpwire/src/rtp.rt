//! Reading an RTP packet.
ghost use Rattle.std.specs.Prelude.{◌≡◌, ℕ, ◌+◌, ◌-◌, ◌*◌, ◌/◌, ◌%◌, ◌<◌, ◌≤◌, ◌==◌, List, length, slice_get, slice_index, drop, ◌⊎◌, IfSome, IfOk, IfErr, MatchResult};
ghost use Rattle.byteorder.specs.Endian.{big_number};
ghost use Rattle.std.specs.Option.{option_map};
ghost use Rattle.std.specs.Result.{result_err};
ghost use Rattle.rtpwire.specs.Rtp.{RtpPacket, RtpSpells, IsExtension, word_octets};
ghost use Rattle.rtpwire.specs.RtpChecks.{rtp_fault};
ghost use Rattle.rtpwire.specs.Fault.{rtp_number};
ghost use Rattle.rtpwire.specs.FirstOf.{FirstOf};
ghost use Rattle.rtpwire.specs.RtpOrder.{rtp_order};
ghost use Rattle.rtpwire.specs.RtpReading.{words_at, packet_in};

use crate::fault::RtpFault;
use crate::first_octet::FirstOctet;
use crate::limits::MAX_SOURCES;
use crate::octets::{u16_at, u32_at};
use std::marker::Model;

/// How many octets the fixed header has.
pub(crate) const FIXED_HEADER: usize = 12;

/// An RTP packet in the octets that spell it, which it borrows. Nothing is copied.
#[derive(Drop)]
pub struct RtpView<'a> {
    octets: &'a [u8],
    payload_start: usize,
    payload_end: usize,
}

impl<'a> Model for RtpView<'a> {
    ghost use Rattle.rtpwire.specs.Rtp.{RtpPacket};
    ghost use Rattle.rtpwire.specs.RtpReading.{packet_in, IsView};

    ghost Value = { RtpPacket };

    ghost view = { λ v. packet_in v.octets.now };

    ghost invariant = { λ v. IsView v.octets.now v.payload_start v.payload_end };
}

impl<'a> RtpView<'a> {
    /// The packet that the octets spell, or the first check that they fail. A slice of any length is read.
    pub fn read(octets: &'a [u8]) -> Result<RtpView<'a>, RtpFault>
        // What is read is spelled so.
        ensures spelled { IfOk result (λ packet. RtpSpells packet octets.now) }
        // What is spelled so is read.
        ensures only { (packet : RtpPacket) → RtpSpells packet octets.now → result ≡ Ok packet }
        // Each refusal is the first check that fails.
        ensures fault { IfErr result (λ fault. rtp_fault octets.now ≡ Some fault) }
        ensures order { FirstOf (rtp_order octets.now) (option_map rtp_number (result_err result)) }
    {
        checked(octets)
    }

    /// The same view once more. No octet is copied.
    pub(crate) fn copy(&self) -> RtpView<'a>
        ensures { result ≡ self.now }
    {
        RtpView {
            octets: self.octets,
            payload_start: self.payload_start,
            payload_end: self.payload_end,
        }
    }

    /// The octets that spell it, as they were read.
    pub fn octets(&self) -> &'a [u8]
        ensures { RtpSpells self.now result.now }
    {
        self.octets
    }

    /// The marker bit.
    pub fn marker(&self) -> bool
        ensures { result ≡ self.now.marker }
    {
        self.octets[1] >= 128
    }

    /// The payload type, 0 to 127.
    pub fn payload_type(&self) -> u8
        ensures { result ≡ self.now.payload_type }
    {
        self.octets[1] & 0x7f
    }

    /// The sequence number.
    pub fn sequence(&self) -> u16
        ensures { result ≡ self.now.sequence }
    {
        u16_at(self.octets, 2)
    }

    /// The timestamp, in units of the media's clock.
    pub fn timestamp(&self) -> u32
        ensures { result ≡ self.now.timestamp }
    {
        u32_at(self.octets, 4)
    }

    /// The SSRC: the source of the stream.
    pub fn ssrc(&self) -> u32
        ensures { result ≡ self.now.ssrc }
    {
        u32_at(self.octets, 8)
    }

    /// How many CSRC identifiers there are.
    pub fn source_count(&self) -> usize
        ensures value { result ≡ length self.now.sources }
        ensures fits { result < 16 }
    {
        FirstOctet(self.octets[0]).source_count()
    }

    /// A CSRC identifier, counted from 0.
    pub fn source(&self, index: usize) -> u32
        requires { index < length self.now.sources }
        ensures { slice_get self.now.sources index ≡ Some result }
    {
        u32_at(self.octets, FIXED_HEADER + 4 * index)
    }

    /// The CSRC identifiers in the octets that spell them, four each.
    pub(crate) fn source_octets(&self) -> &'a [u8]
        ensures words { words_at (length result.now / 4) result.now ≡ self.now.sources }
        ensures few { length self.now.sources ≤ MAX_SOURCES }
    {
        let end = FIXED_HEADER + 4 * self.source_count();
        &self.octets[FIXED_HEADER..end]
    }

    /// The header extension, if there is one: the 16 bits that the profile defines, and the octets of
    /// its words of 32 bits.
    pub fn extension(&self) -> Option<(u16, &'a [u8])>
        ensures value { option_map {U = ℕ × List ℕ} (λ e. (e.0, e.1.now)) result ≡ option_map {U = ℕ × List ℕ} (λ e. (e.0, word_octets e.1)) self.now.extension }
        ensures fits { IfSome self.now.extension IsExtension }
    {
        let first = FirstOctet(self.octets[0]);
        if !first.is_extended() {
            return None;
        }
        let start = FIXED_HEADER + 4 * first.source_count();
        let profile = u16_at(self.octets, start);
        Some((profile, &self.octets[start + 4..self.payload_start]))
    }

    /// The payload, without padding.
    pub fn payload(&self) -> &'a [u8]
        ensures { result.now ≡ self.now.payload }
    {
        &self.octets[self.payload_start..self.payload_end]
    }

    /// How many octets of padding there are, their count included; 0 for none.
    pub fn padding(&self) -> u8
        ensures { result ≡ self.now.padding }
    {
        if FirstOctet(self.octets[0]).is_padded() {
            self.octets[self.octets.len() - 1]
        } else {
            0
        }
    }
}

/// The packet at the places where its fields are, once the checks have passed.
fn checked(octets: &[u8]) -> Result<RtpView<'_>, RtpFault>
    ensures { MatchResult result
        (λ packet. (rtp_fault octets.now ≡ None) × (packet ≡ packet_in octets.now))
        (λ fault. rtp_fault octets.now ≡ Some fault) }
{
    if octets.len() < FIXED_HEADER {
        return Err(RtpFault::Short);
    }
    let first = FirstOctet(octets[0]);
    if first.version() != 2 {
        return Err(RtpFault::Version);
    }
    let sources_end = FIXED_HEADER + 4 * first.source_count();
    if octets.len() < sources_end {
        return Err(RtpFault::CsrcList);
    }
    let header_end = if first.is_extended() {
        extension_end(octets, sources_end)?
    } else {
        sources_end
    };
    let padding = if first.is_padded() {
        padding_of(octets, header_end)?
    } else {
        0
    };
    Ok(RtpView {
        octets,
        payload_start: header_end,
        payload_end: octets.len() - padding,
    })
}

/// Where the header extension ends that begins at `start`.
fn extension_end(octets: &[u8], start: usize) -> Result<usize, RtpFault>
    requires { start ≤ length octets.now }
    ensures ok { IfOk result (λ end. (end ≡ start + 4 + 4 * big_number 2 (drop (start + 2) octets.now)) × (end ≤ length octets.now)) }
    ensures err { IfErr result (λ fault. (fault ≡ RtpFault.Extension) × (length octets.now < start + 4 + 4 * big_number 2 (drop (start + 2) octets.now))) }
{
    if octets.len() < start + 4 {
        return Err(RtpFault::Extension);
    }
    let words = usize::from(u16_at(octets, start + 2));
    let end = start + 4 + 4 * words;
    if octets.len() < end {
        return Err(RtpFault::Extension);
    }
    Ok(end)
}

/// How many octets of padding a padded packet has, whose header ends at `header_end`.
fn padding_of(octets: &[u8], header_end: usize) -> Result<usize, RtpFault>
    requires within { header_end ≤ length octets.now }
    requires some { 0 < length octets.now }
    ensures ok { IfOk result (λ count. (count ≡ slice_index octets.now (length octets.now - 1)) × (0 < count) × (header_end + count < length octets.now)) }
    ensures err { IfErr result (λ fault. (fault ≡ RtpFault.Padding)
        × ((slice_index octets.now (length octets.now - 1) ≡ 0) ⊎ (length octets.now ≤ header_end + slice_index octets.now (length octets.now - 1)))) }
{
    let count = usize::from(octets[octets.len() - 1]);
    if count == 0 || octets.len() - header_end <= count {
        return Err(RtpFault::Padding);
    }
    Ok(count)
}
