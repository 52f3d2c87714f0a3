//! Packets of one SSRC, protected and unprotected in place (RFC 3711, section 3.3).
ghost use Rattle.std.specs.Prelude.{◌≡◌, ◌≤◌, ◌<◌, ◌+◌, ◌-◌, ◌*◌, ◌^◌, ◌++◌, [], ℕ, List, length, take, drop, IfOk, OnOk, OnErr};
ghost use Rattle.std.specs.Result.{result_err};
ghost use Rattle.srtp.specs.Derivation.{Keys, AreKeys};
ghost use Rattle.srtp.specs.Seal.{rollover_octets};
ghost use Rattle.srtp.specs.Stream.{body_of, index_at, is_tagged};
ghost use Rattle.srtp.specs.Header.{header_fault, ssrc_of};

use crate::fault::{SrtpFault, of_replay};
use crate::header::{header_of, sequence_of, ssrc_of};
use crate::index::guess_index;
use crate::keys::SessionKeys;
use crate::replay::Replay;
use crate::seal::{TAG, encipher, same_tag, tag_of};

/// How far a guess that has gone round lies from the highest index.
const HALF: u64 = 1 << 47;

/// What protects the packets of one SSRC, or takes the protection off: its keys, and the indices that were taken, of which the
/// last N are known. One that sends and one that receives are two streams, even under one key.
#[derive(Drop)]
pub struct Stream<const N: usize> {
    keys: SessionKeys,
    ssrc: u32,
    rollover: u32,
    replay: Replay<N>,
}

/// Where a packet lies: how many octets of it stay clear, and its index.
#[derive(Clone, Copy)]
struct Spot {
    clear: usize,
    index: u64,
}

impl<const N: usize> Stream<N> {
    ghost use Rattle.srtp.specs.Replay.{next_of};
    ghost use Rattle.srtp.specs.Stream.{Context, IsStream, rollover_of, index_of, guess_fault, index_in, index_at, packet_fault, packet_fault_at, with_taken, turned, protected, body_of, tag_in, tag_fault, unprotect_fault, unprotect_fault_at};
    ghost use Rattle.srtp.specs.Header.{header_len};

    /// The stream of an SSRC before its first packet, which is to have this rollover counter: 0 where a session begins.
    pub fn new(keys: SessionKeys, ssrc: u32, rollover: u32) -> Stream<N>
        requires { 64 ≤ N }
        ensures { (k : Keys) → AreKeys keys k
            → IsStream N result (record { keys = k; ssrc = ssrc; rollover = rollover; len = N; taken = [] }) }
    {
        Stream {
            keys,
            ssrc,
            rollover,
            replay: Replay::new(),
        }
    }

    /// The rollover counter of the highest index so far, or that of the first packet where none came.
    pub fn rollover(&self) -> u32
        ensures { (context : Context) → IsStream N self.now context → result ≡ rollover_of context }
    {
        let next = self.replay.next();
        if next == 0 {
            self.rollover
        } else {
            ((next - 1) >> 16) as u32
        }
    }

    /// One more than the highest index so far, or 0 where no packet was taken.
    pub fn next_index(&self) -> u64
        ensures { (context : Context) → IsStream N self.now context → result ≡ next_of context.taken }
    {
        self.replay.next()
    }

    /// The index of the packet with this number.
    fn index_for(&self, seq: u16) -> Result<u64, SrtpFault>
        ensures index { (context : Context) → IsStream N self.now context
            → IfOk result (λ index. index ≡ index_of context.rollover context.taken seq) }
        ensures fits { IfOk result (λ index. index < 2 ^ 48) }
        ensures fault { (context : Context) → IsStream N self.now context
            → result_err result ≡ guess_fault context.taken (index_of context.rollover context.taken seq) }
    {
        let next = self.replay.next();
        if next == 0 {
            return Ok(index_behind(self.rollover, seq));
        }
        let index = guess_index(next - 1, seq);
        if index + HALF < next {
            Err(SrtpFault::KeyEnd)
        } else if next + HALF < index {
            Err(SrtpFault::TooOld)
        } else {
            Ok(index)
        }
    }

    /// Where a packet without its tag lies, or why it is refused.
    fn spot(&self, octets: &[u8]) -> Result<Spot, SrtpFault>
        ensures clear { IfOk result (λ spot. spot.clear ≡ header_len octets.now) }
        ensures fits { IfOk result (λ spot. (spot.clear ≤ length octets.now) × (12 ≤ spot.clear) × (spot.index < 2 ^ 48)) }
        ensures index { (context : Context) → IsStream N self.now context
            → IfOk result (λ spot. spot.index ≡ index_in context octets.now) }
        ensures fault { (context : Context) → IsStream N self.now context → result_err result ≡ packet_fault context octets.now }
    {
        let clear = header_of(octets)?;
        if ssrc_of(octets) != self.ssrc {
            return Err(SrtpFault::WrongSource);
        }
        let index = self.index_for(sequence_of(octets))?;
        match self.replay.check(index) {
            Ok(()) => Ok(Spot { clear, index }),
            Err(fault) => Err(of_replay(fault)),
        }
    }

    /// The same where the packet has this rollover counter.
    fn spot_at(&self, rollover: u32, octets: &[u8]) -> Result<Spot, SrtpFault>
        ensures clear { IfOk result (λ spot. spot.clear ≡ header_len octets.now) }
        ensures fits { IfOk result (λ spot. (spot.clear ≤ length octets.now) × (12 ≤ spot.clear) × (spot.index < 2 ^ 48)) }
        ensures index { IfOk result (λ spot. spot.index ≡ index_at rollover octets.now) }
        ensures fault { (context : Context) → IsStream N self.now context
            → result_err result ≡ packet_fault_at context (index_at rollover octets.now) octets.now }
    {
        let clear = header_of(octets)?;
        if ssrc_of(octets) != self.ssrc {
            return Err(SrtpFault::WrongSource);
        }
        let index = index_behind(rollover, sequence_of(octets));
        match self.replay.check(index) {
            Ok(()) => Ok(Spot { clear, index }),
            Err(fault) => Err(of_replay(fault)),
        }
    }

    /// Protects a packet in place and writes its tag behind it: the last ten octets are the room for the tag, and the packet is
    /// what stands before them. It has its index by its sequence number, as a receiver will find it.
    ///
    /// The checks, in this order: [`SrtpFault::Short`] under twelve octets, `Version`, `Header`, `WrongSource`, `KeyEnd` where its
    /// index would be 2^48 or more, `TooOld`, and `TakenBefore` where a packet was protected under its index.
    pub fn protect(&mut self, packet: &mut [u8]) -> Result<(), SrtpFault>
        requires room { 10 ≤ length packet.old }
        requires len { length packet.old ≤ 2 ^ 20 }
        ensures ok { (context : Context) → IsStream N self.old context → let index = index_in context (body_of packet.old) in
            OnOk result ((packet.new ≡ protected context index (body_of packet.old)) × IsStream N self.new (with_taken context index)) }
        // Each refusal is the first check that fails.
        ensures fault { (context : Context) → IsStream N self.old context → result_err result ≡ packet_fault context (body_of packet.old) }
        ensures err { OnErr result ((self.new ≡ self.old) × (packet.new ≡ packet.old)) }
    {
        let (body, tag) = packet.split_at_mut(packet.len() - TAG);
        let spot = self.spot(body)?;
        encipher(&self.keys, spot.clear, ssrc_of(body), spot.index, body);
        tag.copy_from_slice(&tag_of(&self.keys, body, &rollover_octets(spot.index)));
        self.replay.take(spot.index);
        Ok(())
    }

    /// Takes the protection off a packet in place, and returns how many octets it has without its tag, which stays behind it.
    ///
    /// The checks, in this order: [`SrtpFault::Short`] under 22 octets, `Version`, `Header`, `WrongSource`, `KeyEnd`, `TooOld`,
    /// `TakenBefore`, and `WrongTag`. A packet that is refused changes nothing: neither its octets nor the rollover counter nor the
    /// replay list (section 3.3).
    pub fn unprotect(&mut self, packet: &mut [u8]) -> Result<usize, SrtpFault>
        requires { length packet.old ≤ 2 ^ 20 }
        ensures ok { (context : Context) → IsStream N self.old context → let index = index_in context (body_of packet.old) in
            OnOk result ((packet.new ≡ turned context index (body_of packet.old) ++ tag_in packet.old)
            × IsStream N self.new (with_taken context index)) }
        ensures len { IfOk result (λ len. len + 10 ≡ length packet.old) }
        // Each refusal is the first check that fails.
        ensures fault { (context : Context) → IsStream N self.old context → result_err result ≡ unprotect_fault context packet.old }
        ensures err { OnErr result ((self.new ≡ self.old) × (packet.new ≡ packet.old)) }
    {
        let spot = self.spot(body_of(packet))?;
        self.open(spot, packet)
    }

    /// The same for a packet whose rollover counter is this one, and not the one that is guessed: as after a loss of half a cycle and more.
    ///
    /// The checks are the same, in their order, but for `KeyEnd`: the index is what it is said to be.
    pub fn unprotect_at(&mut self, rollover: u32, packet: &mut [u8]) -> Result<usize, SrtpFault>
        requires { length packet.old ≤ 2 ^ 20 }
        ensures ok { (context : Context) → IsStream N self.old context → let index = index_at rollover (body_of packet.old) in
            OnOk result ((packet.new ≡ turned context index (body_of packet.old) ++ tag_in packet.old)
            × IsStream N self.new (with_taken context index)) }
        ensures len { IfOk result (λ len. len + 10 ≡ length packet.old) }
        ensures fault { (context : Context) → IsStream N self.old context
            → result_err result ≡ unprotect_fault_at context (index_at rollover (body_of packet.old)) packet.old }
        ensures err { OnErr result ((self.new ≡ self.old) × (packet.new ≡ packet.old)) }
    {
        let spot = self.spot_at(rollover, body_of(packet))?;
        self.open(spot, packet)
    }

    /// Takes a packet that lies there, where its tag is right.
    fn open(&mut self, spot: Spot, packet: &mut [u8]) -> Result<usize, SrtpFault>
        requires len { length packet.old ≤ 2 ^ 20 }
        requires clear { spot.clear ≡ header_len (body_of packet.old) }
        requires fits { (spot.clear ≤ length (body_of packet.old)) × (12 ≤ spot.clear) × (spot.index < 2 ^ 48) }
        ensures ok { (context : Context) → IsStream N self.old context
            → OnOk result ((packet.new ≡ turned context spot.index (body_of packet.old) ++ tag_in packet.old)
            × IsStream N self.new (with_taken context spot.index)) }
        ensures len { IfOk result (λ len. len + 10 ≡ length packet.old) }
        ensures fault { (context : Context) → IsStream N self.old context → result_err result ≡ tag_fault context spot.index packet.old }
        ensures err { OnErr result ((self.new ≡ self.old) × (packet.new ≡ packet.old)) }
    {
        if !is_tagged(&self.keys, spot.index, packet) {
            return Err(SrtpFault::WrongTag);
        }
        let len = packet.len() - TAG;
        let (body, _tag) = packet.split_at_mut(len);
        encipher(&self.keys, spot.clear, ssrc_of(body), spot.index, body);
        self.replay.take(spot.index);
        Ok(len)
    }
}

/// The SSRC of a protected packet.
///
/// The checks, in this order: [`SrtpFault::Short`] under 22 octets, `Version`, and `Header`.
pub fn source_of(packet: &[u8]) -> Result<u32, SrtpFault>
    ensures source { IfOk result (λ ssrc. ssrc ≡ ssrc_of (body_of packet.now)) }
    ensures len { IfOk result (λ _. 22 ≤ length packet.now) }
    ensures fault { result_err result ≡ header_fault (body_of packet.now) }
{
    let body = body_of(packet);
    header_of(body)?;
    Ok(ssrc_of(body))
}

/// Whether a protected packet has the tag that these keys make of it where its rollover counter is this one.
pub fn has_tag(keys: &SessionKeys, rollover: u32, packet: &[u8]) -> bool
    requires { 22 ≤ length packet.now }
    ensures { (k : Keys) → AreKeys keys.now k → result ≡ is_tagged k (index_at rollover (body_of packet.now)) packet.now }
{
    let index = index_behind(rollover, sequence_of(body_of(packet)));
    is_tagged(keys, index, packet)
}

/// Whether a protected packet has the tag that these keys make of it under an index.
fn is_tagged(keys: &SessionKeys, index: u64, packet: &[u8]) -> bool
    requires len { 10 ≤ length packet.now }
    requires index { index < 2 ^ 48 }
    ensures { (k : Keys) → AreKeys keys.now k → result ≡ is_tagged k index packet.now }
{
    let body = body_of(packet);
    let expected = tag_of(keys, body, &rollover_octets(index));
    same_tag(&expected, &packet[body.len()..])
}

/// A protected packet without its tag.
fn body_of(packet: &[u8]) -> &[u8]
    ensures { result.now ≡ body_of packet.now }
{
    &packet[..packet.len().saturating_sub(TAG)]
}

/// The index of a number behind this rollover counter.
fn index_behind(rollover: u32, seq: u16) -> u64
    ensures value { result ≡ 65536 * rollover + seq }
    ensures fits { result < 2 ^ 48 }
{
    65536 * u64::from(rollover) + u64::from(seq)
}

/// The rollover counter of an index, as it stands behind a packet where its tag is made.
fn rollover_octets(index: u64) -> [u8; 4]
    requires { index < 2 ^ 48 }
    ensures { result ≡ rollover_octets index }
{
    ((index >> 16) as u32).to_be_bytes()
}
