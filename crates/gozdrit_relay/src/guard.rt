//! What stands between a relay and the network where there is a key: nothing comes by without a right tag, and nothing
//! leaves without one.
ghost use Rattle.std.specs.Prelude.{◌≡◌, ◌≤◌, ◌+◌, ◌-◌, ◌^◌, ℕ, Some, false, List, length, nat_eq, take, IfOk, OnOk};
ghost use Rattle.std.specs.Global.{Box};
ghost use Rattle.std.specs.Map.{lookup};
ghost use Rattle.contexts.specs.Heard.{LeavesSealed, LeavesSealedControl};
ghost use Rattle.contexts.specs.Inbound.{last_with};
ghost use Rattle.contexts.specs.Keyed.{IsKeyed};
ghost use Rattle.contexts.specs.Outbound.{IsSealedWith};
ghost use Rattle.contexts.specs.declared.inbound.TheConstants.{INDICES};
ghost use Rattle.contexts.specs.declared.outbound.TheConstants.{SENT};
ghost use Rattle.endpoint.specs.Demultiplex.{is_control};
ghost use Rattle.liveness.specs.Sent.{left};
ghost use Rattle.rtpwire.specs.declared.limits.TheConstants.{MAX_DATAGRAM};
ghost use Rattle.srtp.specs.Derivation.{rtp_keys, rtcp_keys};
ghost use Rattle.srtp.specs.Replay.{next_of};
ghost use Rattle.srtp.specs.Stream.{Context, IsStream};
ghost use Rattle.srtp.specs.declared.keys.Profile.{Profile};
ghost use Rattle.srtp.specs.declared.stream.Stream.{Stream};
ghost use Rattle.gozdrit_relay.specs.Guard.{HearsAs, Judges, JudgesAnybody, JudgesControl, JudgesPacket, LeavesAs, judgement_of};
ghost use Rattle.gozdrit_relay.specs.Known.{given};
ghost use Rattle.gozdrit_relay.specs.Newest.{number_in, source_in};

use byteorder::{ByteOrder, NetworkEndian};
use contexts::{ContextFault, Inbound, Outbound};
use endpoint::is_control;
use liveness::{Answer, Living, REFERENCE, ReferenceTime, Sent, Source};
use rtpwire::MAX_DATAGRAM;
use srtp::{RTCP_GROWTH, TAG};

/// How many octets a protected datagram has at most.
pub const SEALED: usize = MAX_DATAGRAM + RTCP_GROWTH;

/// What there is to do with a datagram whose tag is right.
#[derive(Clone, Copy, Debug, PartialEq, Eq)]
pub enum Judgement {
    /// The relay hears it.
    Heard,
    /// It may be a retransmission of a packet under this SSRC, which the relay hears where that is its session's media.
    Repairs(u32),
    /// It is an answer: that of an SSRC which now lives, or one more.
    Lives(Option<Source>),
    /// A receiver asks who lives.
    Asked(ReferenceTime),
    /// It is under this SSRC, which did not answer, and whose sender may be asked now, or not.
    Unanswered(u32, bool),
    /// It is of the past of an SSRC that lives.
    Past,
}

/// What takes the protection off what comes from the network, and protects what leaves for it.
#[derive(Drop)]
pub struct Guard {
    pub inbound: Inbound,
    pub outbound: Outbound,
    /// Who lives, where only their streams are heard.
    pub living: Option<Living>,
    /// How far the streams of this end had come a while ago.
    pub sent: Sent,
}

impl Guard {
    /// Takes the protection off a datagram in place, and answers how many octets it has then. One that is refused is
    /// nobody's.
    pub fn open(&mut self, datagram: &mut [u8], now: u64) -> Result<usize, ContextFault>
        requires { length datagram.old ≤ 2 ^ 20 }
        ensures heard { (profile : Profile) (key salt : List ℕ) → IsKeyed self.old.inbound profile key salt
            → OnOk result (HearsAs (is_control datagram.old) profile key salt datagram.old datagram.new) }
        ensures len { IfOk result (λ len. len ≤ length datagram.old) }
        ensures keyed { (profile : Profile) (key salt : List ℕ) → IsKeyed self.old.inbound profile key salt → IsKeyed self.new.inbound profile key salt }
        ensures outbound { self.new.outbound ≡ self.old.outbound }
        ensures living { self.new.living ≡ self.old.living }
        ensures sent { self.new.sent ≡ self.old.sent }
    {
        if is_control(datagram) {
            self.inbound.open_rtcp(datagram)
        } else {
            self.inbound.open_rtp(datagram, now)
        }
    }

    /// The index of a packet of RTP that was opened, or 0 of what is none.
    pub fn index_of(&self, octets: &[u8]) -> u64
        ensures { (stream : Box (Stream INDICES)) (context : Context) → lookup (nat_eq (source_in octets.now)) self.now.inbound.streams.entries ≡ Some stream
            → IsStream INDICES stream.value context → 12 ≤ length octets.now
            → result ≡ given (last_with (next_of context.taken) (number_in octets.now)) 0 }
    {
        if octets.len() < 12 {
            return 0;
        }
        let ssrc = NetworkEndian::read_u32(&octets[8..]);
        let number = NetworkEndian::read_u16(&octets[2..]);
        self.inbound.index_of(ssrc, number).unwrap_or(0)
    }

    /// What there is to do with an opened datagram that came at a moment, of RTP with this index. Where only the
    /// streams of those who live are heard, a packet of RTP is of one of them, and not of its past.
    pub fn judge(&mut self, octets: &[u8], index: u64, now: u64) -> Judgement
        ensures judges { Judges self.old.living octets.now index now result self.new.living }
        ensures inbound { self.new.inbound ≡ self.old.inbound }
        ensures outbound { self.new.outbound ≡ self.old.outbound }
        ensures sent { self.new.sent ≡ self.old.sent }
    {
        let Some(living) = &mut self.living else {
            return judge_anybody(octets);
        };
        if is_control(octets) {
            judge_control(living, octets)
        } else {
            judge_packet(living, octets, index, now)
        }
    }

    /// Writes a datagram to the front of `out` as it is protected, and answers how many octets it has then.
    pub fn seal(&mut self, datagram: &[u8], out: &mut [u8; SEALED]) -> Result<usize, ContextFault>
        requires { length datagram.now ≤ MAX_DATAGRAM }
        ensures sealed { (profile : Profile) (key salt : List ℕ) → IsSealedWith self.old.outbound profile key salt
            → IfOk result (λ len. LeavesAs (is_control datagram.now) profile key salt datagram.now (take len out.new)) }
        ensures len { IfOk result (λ len. len ≤ MAX_DATAGRAM + 14) }
        ensures keyed { (profile : Profile) (key salt : List ℕ) → IsSealedWith self.old.outbound profile key salt
            → IsSealedWith self.new.outbound profile key salt }
        ensures inbound { self.new.inbound ≡ self.old.inbound }
        ensures living { self.new.living ≡ self.old.living }
        ensures sent { self.new.sent ≡ self.old.sent }
    {
        if is_control(datagram) {
            let len = datagram.len() + RTCP_GROWTH;
            seal_control(&mut self.outbound, datagram, &mut out[..len])?;
            Ok(len)
        } else {
            let len = datagram.len() + TAG;
            seal_packet(&mut self.outbound, datagram, &mut out[..len])?;
            Ok(len)
        }
    }

    /// Keeps how far the stream of a packet of RTP came that left at a moment.
    pub fn keep_left(&mut self, datagram: &[u8], now: u64)
        ensures sent { (stream : Box (Stream SENT)) (context : Context) → lookup (nat_eq (source_in datagram.now)) self.old.outbound.streams.entries ≡ Some stream
            → IsStream SENT stream.value context → is_control datagram.now ≡ false → 12 ≤ length datagram.now
            → self.new.sent ≡ left self.old.sent (source_in datagram.now) (next_of context.taken - 1) now }
        ensures outbound { self.new.outbound ≡ self.old.outbound }
        ensures inbound { self.new.inbound ≡ self.old.inbound }
        ensures living { self.new.living ≡ self.old.living }
    {
        if is_control(datagram) || datagram.len() < 12 {
            return;
        }
        let ssrc = NetworkEndian::read_u32(&datagram[8..]);
        let highest = self.outbound.next_index(ssrc).saturating_sub(1);
        self.sent.leave(ssrc, highest, now);
    }
}

/// Protects a packet of RTP, with its tag behind it, into room for both.
fn seal_packet(outbound: &mut Outbound, packet: &[u8], room: &mut [u8]) -> Result<(), ContextFault>
    requires len { length packet.now ≤ MAX_DATAGRAM }
    requires room { length room.old ≡ length packet.now + 10 }
    ensures sealed { (profile : Profile) (key salt : List ℕ) → IsSealedWith outbound.old profile key salt
        → OnOk result (LeavesSealed (rtp_keys profile key salt) packet.now room.new) }
    ensures keyed { (profile : Profile) (key salt : List ℕ) → IsSealedWith outbound.old profile key salt
        → IsSealedWith outbound.new profile key salt }
{
    room[..packet.len()].copy_from_slice(packet);
    outbound.seal_rtp(room)
}

/// The same of one of RTCP, with E, its index and its tag behind it.
fn seal_control(outbound: &mut Outbound, packet: &[u8], room: &mut [u8]) -> Result<(), ContextFault>
    requires len { length packet.now ≤ MAX_DATAGRAM }
    requires room { length room.old ≡ length packet.now + 14 }
    ensures sealed { (profile : Profile) (key salt : List ℕ) → IsSealedWith outbound.old profile key salt
        → OnOk result (LeavesSealedControl (rtcp_keys profile key salt) packet.now room.new) }
    ensures keyed { (profile : Profile) (key salt : List ℕ) → IsSealedWith outbound.old profile key salt
        → IsSealedWith outbound.new profile key salt }
{
    room[..packet.len()].copy_from_slice(packet);
    outbound.seal_rtcp(room)
}

/// Where anybody is heard a receiver's question is answered, and all else is heard.
fn judge_anybody(octets: &[u8]) -> Judgement
    ensures { JudgesAnybody octets.now result }
{
    if !is_control(octets) {
        return Judgement::Heard;
    }
    match ReferenceTime::read(octets) {
        Some(time) => Judgement::Asked(time),
        None => Judgement::Heard,
    }
}

/// Of RTCP an answer is heard here.
fn judge_control(living: &mut Living, octets: &[u8]) -> Judgement
    ensures { JudgesControl living.old octets.now result living.new }
{
    if Answer::read(octets).is_none() {
        return Judgement::Heard;
    }
    Judgement::Lives(living.hear(octets))
}

/// A packet of RTP is heard where its SSRC lives and it is not of its past, as is what is too short for one; and
/// whoever sends as many octets as a question has may be asked.
fn judge_packet(living: &mut Living, octets: &[u8], index: u64, now: u64) -> Judgement
    ensures { JudgesPacket living.old octets.now index now result living.new }
{
    if octets.len() < 12 {
        return Judgement::Heard;
    }
    let ssrc = NetworkEndian::read_u32(&octets[8..]);
    if let Some(source) = living.source(ssrc) {
        return judge_source(&source, index);
    }
    let has_room = octets.len() + TAG >= REFERENCE + RTCP_GROWTH;
    Judgement::Unanswered(ssrc, has_room && living.may_ask(ssrc, now))
}

/// A packet with this index of an SSRC that lives is of its past, or one of the media, or one that repairs it.
fn judge_source(source: &Source, index: u64) -> Judgement
    ensures { result ≡ judgement_of source.now index }
{
    if index < source.first {
        Judgement::Past
    } else if source.media == source.ssrc {
        Judgement::Heard
    } else {
        Judgement::Repairs(source.media)
    }
}
