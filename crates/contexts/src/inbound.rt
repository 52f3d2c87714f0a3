//! What comes under a master key.
ghost use Rattle.std.specs.Prelude.{◌≡◌, ◌≤◌, ◌+◌, ◌^◌, ℕ, List, [], None, Some, true, nat_eq, length, IfErr, IfOk, IsOk, MatchResult, OnOk, OnErr};
ghost use Rattle.std.specs.Global.{Box};
ghost use Rattle.std.specs.Map.{lookup};
ghost use Rattle.srtp.specs.Derivation.{Keys, AreKeys, IsMaster, rtp_keys};
ghost use Rattle.srtp.specs.Replay.{next_of};
ghost use Rattle.srtp.specs.Stream.{Context, IsStream, body_of, index_at, is_tagged, unprotect_fault};
ghost use Rattle.srtp.specs.declared.keys.Profile.{Profile};
ghost use Rattle.srtp.specs.declared.stream.Stream.{Stream};
ghost use Rattle.contexts.specs.Heard.{Hears};
ghost use Rattle.contexts.specs.Inbound.{Begins, BeginsAt, BeginsSession, BeginsWith, TakenIn, last_with, source_in};
ghost use Rattle.contexts.specs.declared.fault.ContextFault.TheVariants.{OutOfMemory};

use crate::fault::ContextFault;
use crate::kept::keep;
use crate::opening::{found, open_in};
use crate::search::Search;
use lru::LruCache;
use srtp::{MasterKey, Profile, RtcpReceiver, SessionKeys, SrtpFault, Stream, source_of};
use std::alloc::{AllocError, Global};
use std::num::NonZeroUsize;

/// How many numbers there are.
const CYCLE: u64 = 65536;

/// How many SSRCs are known of at a time, of RTP and of RTCP each.
const SOURCES: usize = 16;

/// How many indices of packets are known of one SSRC: as many as a receiver has places at most, so that none is too old
/// that it waits for.
pub const INDICES: usize = 8192;

/// How many indices of packets of RTCP are known of one SSRC.
pub const RTCP_INDICES: usize = 128;

/// Takes the protection off all that comes under one master key, with a context for each SSRC, which a packet with a
/// right tag begins. Of each the last 8192 indices are known. Where there are more SSRCs than may be known, the one
/// that was used longest ago is forgotten: what was recorded of it may then be played again by whoever recorded it.
#[derive(Drop)]
pub struct Inbound {
    pub(crate) profile: Profile,
    pub(crate) master: MasterKey,
    rtp: SessionKeys,
    pub(crate) rtcp: SessionKeys,
    pub(crate) streams: LruCache<u32, Box<Stream<INDICES>>>,
    pub(crate) controls: LruCache<u32, Box<RtcpReceiver<RTCP_INDICES>>>,
    search: Search,
    pub(crate) alloc: Global,
}

impl Inbound {
    ghost use Rattle.contexts.specs.Keyed.{IsKeyed};

    /// What comes under a master key, of which nothing came so far.
    ///
    /// `AllocError`: the allocator refused the memory.
    pub fn new(alloc: Global, profile: Profile, master: MasterKey) -> Result<Inbound, AllocError>
        ensures keyed { (key salt : List ℕ) → IsMaster master key salt → IfOk result (λ inbound. IsKeyed inbound profile key salt) }
        ensures empty { IfOk result (λ inbound. (inbound.streams.entries ≡ []) × (inbound.controls.entries ≡ [])) }
    {
        let sources = NonZeroUsize::new(SOURCES).unwrap();
        Ok(Inbound {
            profile,
            rtp: SessionKeys::of_rtp(profile, &master),
            rtcp: SessionKeys::of_rtcp(profile, &master),
            master,
            streams: LruCache::sparse(alloc, sources)?,
            controls: LruCache::sparse(alloc, sources)?,
            search: Search::NONE,
            alloc,
        })
    }

    /// Takes the protection off a packet of RTP in place, and returns how many octets it has without its tag, which
    /// stays behind it.
    ///
    /// The checks, in this order: `Short` under 22 octets, `Version`, `Header`; of an SSRC that is not known `WrongTag`
    /// and `OutOfMemory`; then `KeyEnd`, `TooOld`, `TakenBefore` and `WrongTag`. A packet that is refused changes
    /// nothing that is known of any SSRC.
    pub fn open_rtp(&mut self, packet: &mut [u8], now: u64) -> Result<usize, ContextFault>
        requires { length packet.old ≤ 2 ^ 20 }
        // In the context of its SSRC,
        ensures known { (stream : Box (Stream INDICES)) (context : Context) → lookup (nat_eq (source_in packet.old)) self.old.streams.entries ≡ Some stream
            → IsStream INDICES stream.value context
            → OnOk result (TakenIn (source_in packet.old) context packet.old packet.new self.old.streams self.new.streams) }
        // or as the first of one that was not known.
        ensures begun { (profile : Profile) (key salt : List ℕ) → IsKeyed self.old profile key salt
            → lookup (nat_eq (source_in packet.old)) self.old.streams.entries ≡ None
            → OnOk result (BeginsWith (rtp_keys profile key salt) (source_in packet.old) packet.old packet.new self.old.streams self.new.streams) }
        // What SRTP takes is taken.
        ensures taken { (stream : Box (Stream INDICES)) (context : Context) → lookup (nat_eq (source_in packet.old)) self.old.streams.entries ≡ Some stream
            → IsStream INDICES stream.value context → unprotect_fault context packet.old ≡ None → IsOk result }
        // And so is the first one of a session, where there is memory for its SSRC.
        ensures first { (profile : Profile) (key salt : List ℕ) → IsKeyed self.old profile key salt
            → lookup (nat_eq (source_in packet.old)) self.old.streams.entries ≡ None → BeginsSession (rtp_keys profile key salt) packet.old
            → IfErr result (λ fault. fault ≡ OutOfMemory) }
        ensures len { IfOk result (λ len. len + 10 ≡ length packet.old) }
        // Whatever is taken has a tag that the key makes.
        ensures heard { (profile : Profile) (key salt : List ℕ) → IsKeyed self.old profile key salt
            → OnOk result (Hears (rtp_keys profile key salt) packet.old packet.new) }
        ensures keyed { (profile : Profile) (key salt : List ℕ) → IsKeyed self.old profile key salt → IsKeyed self.new profile key salt }
        ensures controls { self.new.controls ≡ self.old.controls }
        ensures err { OnErr result (packet.new ≡ packet.old) }
    {
        let ssrc = match source_of(packet) {
            Ok(ssrc) => ssrc,
            Err(fault) => return Err(ContextFault::Refused(fault)),
        };
        if self.streams.contains(&ssrc) {
            self.open_known(ssrc, packet, now)
        } else {
            self.open_new(ssrc, packet, now)
        }
    }

    /// The index of a packet of RTP that was taken, by its SSRC and its number: the greatest one with that number that is
    /// at most the highest of the SSRC. None: there is none, or the SSRC is not known.
    pub fn index_of(&self, ssrc: u32, number: u16) -> Option<u64>
        ensures known { (stream : Box (Stream INDICES)) (context : Context) → lookup (nat_eq ssrc) self.now.streams.entries ≡ Some stream
            → IsStream INDICES stream.value context → result ≡ last_with (next_of context.taken) number }
        ensures unknown { lookup (nat_eq ssrc) self.now.streams.entries ≡ None → result ≡ None }
    {
        let stream = self.streams.peek(&ssrc)?;
        last_with(stream.next_index(), number)
    }

    /// Takes the protection off the first packet of an SSRC.
    fn open_new(&mut self, ssrc: u32, packet: &mut [u8], now: u64) -> Result<usize, ContextFault>
        requires { (22 ≤ length packet.old) × (length packet.old ≤ 2 ^ 20) }
        ensures begun { (profile : Profile) (key salt : List ℕ) → IsKeyed self.old profile key salt
            → OnOk result (BeginsWith (rtp_keys profile key salt) ssrc packet.old packet.new self.old.streams self.new.streams) }
        ensures first { (profile : Profile) (key salt : List ℕ) → IsKeyed self.old profile key salt → ssrc ≡ source_in packet.old
            → BeginsSession (rtp_keys profile key salt) packet.old → IfErr result (λ fault. fault ≡ OutOfMemory) }
        ensures len { IfOk result (λ len. len + 10 ≡ length packet.old) }
        ensures heard { (profile : Profile) (key salt : List ℕ) → IsKeyed self.old profile key salt
            → OnOk result (Hears (rtp_keys profile key salt) packet.old packet.new) }
        ensures keyed { (profile : Profile) (key salt : List ℕ) → IsKeyed self.old profile key salt → IsKeyed self.new profile key salt }
        ensures controls { self.new.controls ≡ self.old.controls }
        ensures err { OnErr result (packet.new ≡ packet.old) }
    {
        self.begin(ssrc, packet, now)?;
        self.open_known(ssrc, packet, now)
    }

    /// Takes the protection off a packet of an SSRC that is known.
    fn open_known(&mut self, ssrc: u32, packet: &mut [u8], now: u64) -> Result<usize, ContextFault>
        requires { (22 ≤ length packet.old) × (length packet.old ≤ 2 ^ 20) }
        ensures known { (stream : Box (Stream INDICES)) (context : Context) → lookup (nat_eq ssrc) self.old.streams.entries ≡ Some stream
            → IsStream INDICES stream.value context → OnOk result (TakenIn ssrc context packet.old packet.new self.old.streams self.new.streams) }
        ensures taken { (stream : Box (Stream INDICES)) (context : Context) → lookup (nat_eq ssrc) self.old.streams.entries ≡ Some stream
            → IsStream INDICES stream.value context → unprotect_fault context packet.old ≡ None → IsOk result }
        ensures len { IfOk result (λ len. len + 10 ≡ length packet.old) }
        ensures heard { (profile : Profile) (key salt : List ℕ) → IsKeyed self.old profile key salt
            → OnOk result (Hears (rtp_keys profile key salt) packet.old packet.new) }
        ensures keyed { (profile : Profile) (key salt : List ℕ) → IsKeyed self.old profile key salt → IsKeyed self.new profile key salt }
        ensures controls { self.new.controls ≡ self.old.controls }
        ensures err { OnErr result ((packet.new ≡ packet.old) × (self.new.streams ≡ self.old.streams)) }
    {
        let Some(stream) = self.streams.peek_mut(&ssrc) else {
            return Err(ContextFault::Refused(SrtpFault::WrongTag));
        };
        match open_in(stream, &self.rtp, &mut self.search, packet, now) {
            Ok(len) => {
                self.streams.promote(&ssrc);
                Ok(len)
            }
            Err(fault) => Err(ContextFault::Refused(fault)),
        }
    }

    /// Begins the context of an SSRC that is not known, where a packet's tag is right.
    fn begin(&mut self, ssrc: u32, packet: &[u8], now: u64) -> Result<(), ContextFault>
        requires { 22 ≤ length packet.now }
        ensures begun { (profile : Profile) (key salt : List ℕ) → IsKeyed self.old profile key salt
            → OnOk result (Begins (rtp_keys profile key salt) ssrc self.old.streams self.new.streams) }
        ensures first { (profile : Profile) (key salt : List ℕ) → IsKeyed self.old profile key salt
            → BeginsSession (rtp_keys profile key salt) packet.now
            → MatchResult result (λ _. BeginsAt 0 (rtp_keys profile key salt) ssrc self.old.streams self.new.streams) (λ fault. fault ≡ OutOfMemory) }
        ensures keyed { (profile : Profile) (key salt : List ℕ) → IsKeyed self.old profile key salt → IsKeyed self.new profile key salt }
        ensures controls { self.new.controls ≡ self.old.controls }
        ensures err { OnErr result (self.new.streams ≡ self.old.streams) }
    {
        let Some(rollover) = self.first_rollover(packet, now) else {
            return Err(ContextFault::Refused(SrtpFault::WrongTag));
        };
        let keys = SessionKeys::of_rtp(self.profile, &self.master);
        let stream = Stream::new(keys, ssrc, rollover);
        keep(&mut self.streams, self.alloc, ssrc, stream)
    }

    /// The rollover counter of the first packet of an SSRC: 0 where a session begins, and others where it came in the
    /// middle of one.
    fn first_rollover(&mut self, packet: &[u8], now: u64) -> Option<u32>
        requires { 22 ≤ length packet.now }
        ensures first { (k : Keys) → AreKeys self.old.rtp k → is_tagged k (index_at 0 (body_of packet.now)) packet.now ≡ true → result ≡ Some 0 }
        ensures same { self.new ≡ record self.old { search = self.new.search } }
    {
        found(&self.rtp, 0, &mut self.search, packet, now)
    }
}

/// The greatest index with a number that lies below this one.
fn last_with(next: u64, number: u16) -> Option<u64>
    ensures { result ≡ last_with next number }
{
    let highest = next.checked_sub(1)?;
    let index = highest - highest % CYCLE + u64::from(number);
    if index <= highest {
        Some(index)
    } else {
        index.checked_sub(CYCLE)
    }
}
