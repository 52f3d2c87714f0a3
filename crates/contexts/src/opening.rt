//! How a packet is opened in the context of its SSRC, whose rollover counter may not be the one that is guessed.
ghost use Rattle.std.specs.Prelude.{◌≡◌, ◌≤◌, ◌+◌, ◌^◌, ◌%◌, None, Some, true, false, length, IfOk, IfSome, IsOk, OnOk, OnErr};
ghost use Rattle.srtp.specs.Derivation.{Keys, AreKeys};
ghost use Rattle.srtp.specs.Stream.{Context, IsStream, body_of, index_at, is_tagged, unprotect_fault};
ghost use Rattle.contexts.specs.Inbound.{Opens};
ghost use Rattle.contexts.specs.declared.inbound.TheConstants.{INDICES};

use crate::inbound::INDICES;
use crate::search::Search;
use srtp::{SessionKeys, SrtpFault, Stream, has_tag};

/// How many rollover counters are tried for a packet at most.
const AT_ONCE: u32 = 16;

/// Takes the protection off a packet in place, and returns how many octets it has without its tag, which stays behind
/// it. Where its tag is not right, or its index too old or taken, under the rollover counter that is guessed, others
/// are tried: that of the highest index, and from the one behind it on.
///
/// A packet that is refused changes nothing but the search.
pub(crate) fn open_in(
    stream: &mut Stream<INDICES>,
    keys: &SessionKeys,
    search: &mut Search,
    packet: &mut [u8],
    now: u64,
) -> Result<usize, SrtpFault>
    requires { (22 ≤ length packet.old) × (length packet.old ≤ 2 ^ 20) }
    ensures ok { (context : Context) → IsStream INDICES stream.old context → OnOk result (Opens context packet.old packet.new stream.new) }
    ensures taken { (context : Context) → IsStream INDICES stream.old context → unprotect_fault context packet.old ≡ None → IsOk result }
    ensures len { IfOk result (λ len. len + 10 ≡ length packet.old) }
    ensures err { OnErr result ((stream.new ≡ stream.old) × (packet.new ≡ packet.old)) }
{
    let fault = match stream.unprotect(packet) {
        Ok(len) => return Ok(len),
        Err(fault) => fault,
    };
    if !may_be_ahead(fault) {
        return Err(fault);
    }
    match found(
        keys,
        near(keys, stream.rollover(), packet),
        search,
        packet,
        now,
    ) {
        Some(rollover) => stream.unprotect_at(rollover, packet),
        None => Err(fault),
    }
}

/// The rollover counter that needs no search: that of the highest index where a packet's tag is right under it, as behind
/// a loss of half a cycle that ends in the same one, and otherwise the next one.
fn near(keys: &SessionKeys, own: u32, packet: &[u8]) -> u32
    requires { 22 ≤ length packet.now }
    ensures own { (k : Keys) → AreKeys keys.now k → is_tagged k (index_at own (body_of packet.now)) packet.now ≡ true → result ≡ own }
    ensures next { (k : Keys) → AreKeys keys.now k → is_tagged k (index_at own (body_of packet.now)) packet.now ≡ false → result ≡ (own + 1) % 2 ^ 32 }
{
    if has_tag(keys, own, packet) {
        own
    } else {
        own.wrapping_add(1)
    }
}

/// Whether a packet that is refused so may have another rollover counter than the one that is guessed.
fn may_be_ahead(fault: SrtpFault) -> bool {
    matches!(
        fault,
        SrtpFault::WrongTag | SrtpFault::TooOld | SrtpFault::TakenBefore
    )
}

/// A rollover counter under which a packet's tag is right: this one, or one from it on, of which as many are tried as a
/// packet and this span may have.
pub(crate) fn found(
    keys: &SessionKeys,
    first: u32,
    search: &mut Search,
    packet: &[u8],
    now: u64,
) -> Option<u32>
    requires { 22 ≤ length packet.now }
    ensures tagged { (k : Keys) → AreKeys keys.now k → IfSome result (λ r. is_tagged k (index_at r (body_of packet.now)) packet.now ≡ true) }
    ensures first { (k : Keys) → AreKeys keys.now k → is_tagged k (index_at first (body_of packet.now)) packet.now ≡ true → result ≡ Some first }
{
    if has_tag(keys, first, packet) {
        return Some(first);
    }
    for _trial in 0..AT_ONCE {
        if !search.may_try(now) {
            return None;
        }
        let rollover = first.wrapping_add(search.next());
        if has_tag(keys, rollover, packet) {
            search.end();
            return Some(rollover);
        }
    }
    None
}
