//! What leaves under a master key.
ghost use Rattle.std.specs.Prelude.{◌≡◌, ◌≤◌, ◌<◌, ◌^◌, ℕ, List, [], None, Some, nat_eq, length, IfErr, IfOk, IsOk, OnOk, OnErr};
ghost use Rattle.std.specs.Global.{Box};
ghost use Rattle.std.specs.Map.{lookup};
ghost use Rattle.srtp.specs.Derivation.{IsMaster, rtp_keys};
ghost use Rattle.srtp.specs.Header.{header_fault};
ghost use Rattle.srtp.specs.Replay.{next_of};
ghost use Rattle.srtp.specs.Stream.{Context, IsStream, body_of, packet_fault};
ghost use Rattle.srtp.specs.declared.keys.Profile.{Profile};
ghost use Rattle.srtp.specs.declared.stream.Stream.{Stream};
ghost use Rattle.contexts.specs.Heard.{LeavesSealed};
ghost use Rattle.contexts.specs.Inbound.{source_in};
ghost use Rattle.contexts.specs.Outbound.{IsSealedWith, Remembers, Seals, SealsFirst, StreamBegins};
ghost use Rattle.contexts.specs.declared.fault.ContextFault.TheVariants.{OutOfMemory};

use crate::fault::ContextFault;
use crate::kept::keep;
use lru::LruCache;
use srtp::{MasterKey, Profile, RtcpSender, SessionKeys, SrtpFault, Stream, source_of};
use std::alloc::{AllocError, Global};
use std::num::NonZeroUsize;

/// Under how many SSRCs packets are protected at most, of RTP and of RTCP each.
const SOURCES: usize = 65536;

/// How many indices of packets are known of one SSRC: under none of these a second packet is protected, nor under an
/// older one.
pub const SENT: usize = 64;

/// Protects all that leaves under one master key, with a context for each SSRC. None is forgotten: a session that
/// begins anew has to have another SSRC, or another key.
#[derive(Drop)]
pub struct Outbound {
    pub(crate) profile: Profile,
    pub(crate) master: MasterKey,
    pub(crate) streams: LruCache<u32, Box<Stream<SENT>>>,
    pub(crate) controls: LruCache<u32, Box<RtcpSender>>,
    pub(crate) alloc: Global,
}

impl Outbound {
    /// What leaves under a master key, of which nothing left so far.
    ///
    /// `AllocError`: the allocator refused the memory.
    pub fn new(alloc: Global, profile: Profile, master: MasterKey) -> Result<Outbound, AllocError>
        ensures keyed { (key salt : List ℕ) → IsMaster master key salt → IfOk result (λ outbound. IsSealedWith outbound profile key salt) }
        ensures empty { IfOk result (λ outbound. (outbound.streams.entries ≡ []) × (outbound.controls.entries ≡ [])) }
    {
        let sources = NonZeroUsize::new(SOURCES).unwrap();
        Ok(Outbound {
            profile,
            master,
            streams: LruCache::sparse(alloc, sources)?,
            controls: LruCache::sparse(alloc, sources)?,
            alloc,
        })
    }

    /// Protects a packet of RTP in place and writes its tag behind it: the last ten octets are the room for the tag.
    ///
    /// The checks, in this order: `Short` under twelve octets, `Version`, `Header`; of an SSRC that is not known `Full`
    /// and `OutOfMemory`; then `KeyEnd`, `TooOld` and `TakenBefore`. A packet that is refused changes nothing that is
    /// known of any SSRC.
    pub fn seal_rtp(&mut self, packet: &mut [u8]) -> Result<(), ContextFault>
        requires room { 10 ≤ length packet.old }
        requires len { length packet.old ≤ 2 ^ 20 }
        // In the context of its SSRC,
        ensures known { (stream : Box (Stream SENT)) (context : Context) → lookup (nat_eq (source_in packet.old)) self.old.streams.entries ≡ Some stream
            → IsStream SENT stream.value context
            → OnOk result (Seals (source_in packet.old) context packet.old packet.new self.old.streams self.new.streams) }
        // or as the first of one that was not known.
        ensures begun { (profile : Profile) (key salt : List ℕ) → IsSealedWith self.old profile key salt
            → lookup (nat_eq (source_in packet.old)) self.old.streams.entries ≡ None
            → OnOk result (SealsFirst (rtp_keys profile key salt) (source_in packet.old) packet.old packet.new self.old.streams self.new.streams) }
        // What SRTP protects is protected.
        ensures taken { (stream : Box (Stream SENT)) (context : Context) → lookup (nat_eq (source_in packet.old)) self.old.streams.entries ≡ Some stream
            → IsStream SENT stream.value context → packet_fault context (body_of packet.old) ≡ None → IsOk result }
        // And so is the first one of an SSRC, where there is room and memory for that.
        ensures first { (profile : Profile) (key salt : List ℕ) → IsSealedWith self.old profile key salt
            → lookup (nat_eq (source_in packet.old)) self.old.streams.entries ≡ None → header_fault (body_of packet.old) ≡ None
            → length self.old.streams.entries < self.old.streams.cap → IfErr result (λ fault. fault ≡ OutOfMemory) }
        // No SSRC is forgotten.
        ensures remembers { Remembers self.old.streams self.new.streams }
        // Whatever leaves is what the key makes of the packet.
        ensures sealed { (profile : Profile) (key salt : List ℕ) → IsSealedWith self.old profile key salt
            → OnOk result (LeavesSealed (rtp_keys profile key salt) (body_of packet.old) packet.new) }
        ensures keyed { (profile : Profile) (key salt : List ℕ) → IsSealedWith self.old profile key salt → IsSealedWith self.new profile key salt }
        ensures controls { self.new.controls ≡ self.old.controls }
        ensures err { OnErr result (packet.new ≡ packet.old) }
    {
        let ssrc = match source_of(packet) {
            Ok(ssrc) => ssrc,
            Err(fault) => return Err(ContextFault::Refused(fault)),
        };
        if self.streams.contains(&ssrc) {
            self.seal_known(ssrc, packet)
        } else {
            self.seal_new(ssrc, packet)
        }
    }

    /// One more than the highest index of RTP under which a packet of an SSRC left, or 0 where none did.
    pub fn next_index(&self, ssrc: u32) -> u64
        ensures known { (stream : Box (Stream SENT)) (context : Context) → lookup (nat_eq ssrc) self.now.streams.entries ≡ Some stream
            → IsStream SENT stream.value context → result ≡ next_of context.taken }
        ensures unknown { lookup (nat_eq ssrc) self.now.streams.entries ≡ None → result ≡ 0 }
    {
        match self.streams.peek(&ssrc) {
            Some(stream) => stream.next_index(),
            None => 0,
        }
    }

    /// Protects the first packet of an SSRC.
    fn seal_new(&mut self, ssrc: u32, packet: &mut [u8]) -> Result<(), ContextFault>
        requires len { (10 ≤ length packet.old) × (length packet.old ≤ 2 ^ 20) }
        requires new { lookup (nat_eq ssrc) self.old.streams.entries ≡ None }
        ensures begun { (profile : Profile) (key salt : List ℕ) → IsSealedWith self.old profile key salt
            → OnOk result (SealsFirst (rtp_keys profile key salt) ssrc packet.old packet.new self.old.streams self.new.streams) }
        ensures first { (profile : Profile) (key salt : List ℕ) → IsSealedWith self.old profile key salt → ssrc ≡ source_in packet.old
            → header_fault (body_of packet.old) ≡ None → length self.old.streams.entries < self.old.streams.cap → IfErr result (λ fault. fault ≡ OutOfMemory) }
        ensures remembers { Remembers self.old.streams self.new.streams }
        ensures sealed { (profile : Profile) (key salt : List ℕ) → IsSealedWith self.old profile key salt
            → OnOk result (LeavesSealed (rtp_keys profile key salt) (body_of packet.old) packet.new) }
        ensures keyed { (profile : Profile) (key salt : List ℕ) → IsSealedWith self.old profile key salt → IsSealedWith self.new profile key salt }
        ensures controls { self.new.controls ≡ self.old.controls }
        ensures err { OnErr result (packet.new ≡ packet.old) }
    {
        self.begin(ssrc)?;
        self.seal_known(ssrc, packet)
    }

    /// Protects a packet of an SSRC that is known.
    fn seal_known(&mut self, ssrc: u32, packet: &mut [u8]) -> Result<(), ContextFault>
        requires { (10 ≤ length packet.old) × (length packet.old ≤ 2 ^ 20) }
        ensures known { (stream : Box (Stream SENT)) (context : Context) → lookup (nat_eq ssrc) self.old.streams.entries ≡ Some stream
            → IsStream SENT stream.value context → OnOk result (Seals ssrc context packet.old packet.new self.old.streams self.new.streams) }
        ensures taken { (stream : Box (Stream SENT)) (context : Context) → lookup (nat_eq ssrc) self.old.streams.entries ≡ Some stream
            → IsStream SENT stream.value context → packet_fault context (body_of packet.old) ≡ None → IsOk result }
        ensures remembers { Remembers self.old.streams self.new.streams }
        ensures sealed { (profile : Profile) (key salt : List ℕ) → IsSealedWith self.old profile key salt
            → OnOk result (LeavesSealed (rtp_keys profile key salt) (body_of packet.old) packet.new) }
        ensures keyed { (profile : Profile) (key salt : List ℕ) → IsSealedWith self.old profile key salt → IsSealedWith self.new profile key salt }
        ensures controls { self.new.controls ≡ self.old.controls }
        ensures err { OnErr result (packet.new ≡ packet.old) }
    {
        let Some(stream) = self.streams.peek_mut(&ssrc) else {
            return Err(ContextFault::Refused(SrtpFault::WrongSource));
        };
        match stream.protect(packet) {
            Ok(()) => Ok(()),
            Err(fault) => Err(ContextFault::Refused(fault)),
        }
    }

    /// Begins the context of an SSRC that is not known.
    fn begin(&mut self, ssrc: u32) -> Result<(), ContextFault>
        requires { lookup (nat_eq ssrc) self.old.streams.entries ≡ None }
        ensures begun { (profile : Profile) (key salt : List ℕ) → IsSealedWith self.old profile key salt
            → OnOk result (StreamBegins (rtp_keys profile key salt) ssrc self.old.streams self.new.streams) }
        ensures full { IfErr result (λ fault. length self.old.streams.entries < self.old.streams.cap → fault ≡ OutOfMemory) }
        ensures remembers { Remembers self.old.streams self.new.streams }
        ensures keyed { (profile : Profile) (key salt : List ℕ) → IsSealedWith self.old profile key salt → IsSealedWith self.new profile key salt }
        ensures controls { self.new.controls ≡ self.old.controls }
    {
        if self.streams.len() >= self.streams.cap().get() {
            return Err(ContextFault::Full);
        }
        let keys = SessionKeys::of_rtp(self.profile, &self.master);
        let stream = Stream::new(keys, ssrc, 0);
        keep(&mut self.streams, self.alloc, ssrc, stream)
    }
}
