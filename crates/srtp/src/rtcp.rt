//! Packets of RTCP, protected and unprotected in place (RFC 3711, section 3.4).
ghost use Rattle.std.specs.Prelude.{◌≡◌, ◌≤◌, ◌<◌, ◌+◌, ◌-◌, ◌*◌, ◌^◌, ◌%◌, ◌++◌, ◌∷◌, [], ℕ, List, None, length, take, drop, IfOk, IsOk, OnOk, OnErr};
ghost use Rattle.std.specs.Result.{result_err};
ghost use Rattle.srtp.specs.Derivation.{Keys, AreKeys};
ghost use Rattle.srtp.specs.Stream.{body_of, tag_in};
ghost use Rattle.srtp.specs.Rtcp.{rtcp_fault, trailer, sender_of, before_trailer, trailer_in, is_rtcp_tagged, rtcp_turned, rtcp_protected, index_said, trailer_fault};

use crate::fault::{SrtpFault, of_replay};
use crate::keys::SessionKeys;
use crate::replay::Replay;
use crate::seal::{TAG, encipher, same_tag, tag_of};
use byteorder::{ByteOrder, NetworkEndian};

/// How many octets stay clear: the header and the sender's SSRC.
const CLEAR: usize = 8;

/// How many octets E and the index have.
const TRAILER: usize = 4;

/// How many octets a packet of RTCP grows by when it is protected.
pub const RTCP_GROWTH: usize = TRAILER + TAG;

/// How many packets a key is for.
const KEY_LIFE: u32 = 1 << 31;

/// What protects the packets of RTCP that one SSRC sends.
#[derive(Drop)]
pub struct RtcpSender {
    keys: SessionKeys,
    ssrc: u32,
    next: u32,
}

impl RtcpSender {
    ghost use Rattle.srtp.specs.Rtcp.{Sending, IsSending, sending_fault};

    /// The sender whose next packet has this index: 0 where a session begins.
    pub fn new(keys: SessionKeys, ssrc: u32, next: u32) -> RtcpSender
        ensures { (k : Keys) → AreKeys keys k → IsSending result (record { keys = k; ssrc = ssrc; next = next }) }
    {
        RtcpSender { keys, ssrc, next }
    }

    /// Protects a packet in place under the next index and writes E, the index and the tag behind it: the last fourteen octets are
    /// the room for them.
    ///
    /// The checks, in this order: [`SrtpFault::Short`] under eight octets, `Version`, `WrongSource`, and `KeyEnd` after 2^31 packets.
    pub fn protect(&mut self, packet: &mut [u8]) -> Result<(), SrtpFault>
        requires room { 14 ≤ length packet.old }
        requires len { length packet.old ≤ 2 ^ 20 }
        ensures ok { (sending : Sending) → IsSending self.old sending
            → OnOk result ((packet.new ≡ rtcp_protected sending.keys sending.next (before_trailer (body_of packet.old)))
            × IsSending self.new (record sending { next = sending.next + 1 })) }
        // Each refusal is the first check that fails.
        ensures fault { (sending : Sending) → IsSending self.old sending
            → result_err result ≡ sending_fault sending (before_trailer (body_of packet.old)) }
        ensures err { OnErr result ((self.new ≡ self.old) × (packet.new ≡ packet.old)) }
    {
        let (front, tag) = packet.split_at_mut(packet.len() - TAG);
        let (body, behind) = front.split_at_mut(front.len() - TRAILER);
        check(body, self.ssrc)?;
        if self.next >= KEY_LIFE {
            return Err(SrtpFault::KeyEnd);
        }
        let last = trailer(&self.keys, self.next);
        encipher(
            &self.keys,
            CLEAR,
            sender_of(body),
            u64::from(self.next),
            body,
        );
        behind.copy_from_slice(&last);
        tag.copy_from_slice(&tag_of(&self.keys, body, &last));
        self.next += 1;
        Ok(())
    }
}

/// What takes the protection off the packets of RTCP that one SSRC sent; of the indices that were taken the last N are known.
#[derive(Drop)]
pub struct RtcpReceiver<const N: usize> {
    keys: SessionKeys,
    ssrc: u32,
    replay: Replay<N>,
}

impl<const N: usize> RtcpReceiver<N> {
    ghost use Rattle.srtp.specs.Rtcp.{Receiving, IsReceiving, receiving_fault};

    /// The receiver before its first packet.
    pub fn new(keys: SessionKeys, ssrc: u32) -> RtcpReceiver<N>
        requires { 64 ≤ N }
        ensures { (k : Keys) → AreKeys keys k → IsReceiving N result (record { keys = k; ssrc = ssrc; len = N; taken = [] }) }
    {
        RtcpReceiver {
            keys,
            ssrc,
            replay: Replay::new(),
        }
    }

    /// The index that a packet's E and index say, where it may be taken.
    fn index_of(&self, octets: &[u8]) -> Result<u64, SrtpFault>
        requires { length octets.now ≡ 4 }
        ensures index { IfOk result (λ index. index ≡ index_said octets.now) }
        ensures fits { IfOk result (λ index. index < 2 ^ 31) }
        ensures fault { (receiving : Receiving) → IsReceiving N self.now receiving
            → result_err result ≡ trailer_fault receiving octets.now }
    {
        let word = NetworkEndian::read_u32(octets);
        if word / KEY_LIFE != u32::from(self.keys.encrypts) {
            return Err(SrtpFault::WrongFlag);
        }
        let index = u64::from(word % KEY_LIFE);
        match self.replay.check(index) {
            Ok(()) => Ok(index),
            Err(fault) => Err(of_replay(fault)),
        }
    }

    /// Takes the protection off a packet in place, and returns how many octets it has without E, the index and the tag, which stay
    /// behind it.
    ///
    /// The checks, in this order: [`SrtpFault::Short`] under 22 octets, `Version`, `WrongSource`, `WrongFlag` where E is not as the
    /// profile has it, `TooOld`, `TakenBefore`, and `WrongTag`. A packet that is refused changes nothing.
    pub fn unprotect(&mut self, packet: &mut [u8]) -> Result<usize, SrtpFault>
        requires { length packet.old ≤ 2 ^ 20 }
        ensures ok { (receiving : Receiving) → IsReceiving N self.old receiving
            → let front = body_of packet.old in
            let index = index_said (trailer_in front) in
            OnOk result ((packet.new ≡ (rtcp_turned receiving.keys index (before_trailer front) ++ trailer_in front) ++ tag_in packet.old)
            × IsReceiving N self.new (record receiving { taken = index ∷ receiving.taken })) }
        ensures len { IfOk result (λ len. len + 14 ≡ length packet.old) }
        // Each refusal is the first check that fails.
        ensures fault { (receiving : Receiving) → IsReceiving N self.old receiving
            → result_err result ≡ receiving_fault receiving packet.old }
        ensures err { OnErr result ((self.new ≡ self.old) × (packet.new ≡ packet.old)) }
    {
        let (front, tag) = packet.split_at_mut(packet.len().saturating_sub(TAG));
        let (body, behind) = front.split_at_mut(front.len().saturating_sub(TRAILER));
        check(body, self.ssrc)?;
        let index = self.index_of(behind)?;
        let expected = tag_of(&self.keys, body, behind);
        if !same_tag(&expected, tag) {
            return Err(SrtpFault::WrongTag);
        }
        encipher(&self.keys, CLEAR, sender_of(body), index, body);
        self.replay.take(index);
        Ok(body.len())
    }
}

/// Whether octets are a packet of RTCP of this sender, as far as SRTCP looks.
#[tactic(auto, unfolding(crate::specs::Rtcp::rtcp_fault))]
fn check(octets: &[u8], ssrc: u32) -> Result<(), SrtpFault>
    ensures len { OnOk result (8 ≤ length octets.now) }
    ensures fault { result_err result ≡ rtcp_fault ssrc octets.now }
{
    if octets.len() < CLEAR {
        return Err(SrtpFault::Short);
    }
    if octets[0] >> 6 != 2 {
        Err(SrtpFault::Version)
    } else if sender_of(octets) != ssrc {
        Err(SrtpFault::WrongSource)
    } else {
        Ok(())
    }
}

/// The SSRC of the sender of a protected packet of RTCP.
///
/// The checks, in this order: [`SrtpFault::Short`] under 22 octets, and `Version`.
#[tactic(auto, unfolding(crate::specs::Rtcp::rtcp_fault))]
pub fn rtcp_source_of(packet: &[u8]) -> Result<u32, SrtpFault>
    ensures source { IfOk result (λ ssrc. ssrc ≡ sender_of (before_trailer (body_of packet.now))) }
    ensures len { IfOk result (λ _. 22 ≤ length packet.now) }
    ensures found { (ssrc : ℕ) → rtcp_fault ssrc (before_trailer (body_of packet.now)) ≡ None → IsOk result }
{
    let front = &packet[..packet.len().saturating_sub(TAG)];
    let body = &front[..front.len().saturating_sub(TRAILER)];
    if body.len() < CLEAR {
        return Err(SrtpFault::Short);
    }
    if body[0] >> 6 != 2 {
        return Err(SrtpFault::Version);
    }
    Ok(sender_of(body))
}

/// Whether a protected packet of RTCP has the tag that these keys make of it.
pub fn has_rtcp_tag(keys: &SessionKeys, packet: &[u8]) -> bool
    requires { 22 ≤ length packet.now }
    ensures { (k : Keys) → AreKeys keys.now k → result ≡ is_rtcp_tagged k packet.now }
{
    let (front, tag) = packet.split_at(packet.len() - TAG);
    let (body, behind) = front.split_at(front.len() - TRAILER);
    same_tag(&tag_of(keys, body, behind), tag)
}

/// The SSRC of a packet's sender.
fn sender_of(octets: &[u8]) -> u32
    requires { 8 ≤ length octets.now }
    ensures { result ≡ sender_of octets.now }
{
    NetworkEndian::read_u32(&octets[4..])
}

/// E and an index.
fn trailer(keys: &SessionKeys, index: u32) -> [u8; TRAILER]
    requires { index < 2 ^ 31 }
    ensures { (k : Keys) → AreKeys keys.now k → result ≡ trailer k index }
{
    (u32::from(keys.encrypts) * KEY_LIFE + index).to_be_bytes()
}
