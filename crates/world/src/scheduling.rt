//! Packets that are sent one after the other, of which words of a random generator lose some.
ghost use Rattle.std.specs.Prelude.{◌≡◌, ◌+◌, ◌*◌, ◌≤◌, ◌^◌, ◌++◌, ◌∷◌, vec_len, IsOk, OnOk, OnErr};
ghost use Rattle.std.specs.Vec.{vec_capacity};
ghost use Rattle.world.specs.Schedule.{numbered_content, delivery, schedule, after_words};
ghost use Rattle.rand_core.specs.Stream.{next_u32};
ghost use Rattle.rand_core.specs.Steps.{first_words};

use crate::event::Event;
use arrayvec::ArrayVec;
use rand_core::Rng;
use rtpwire::{Content, push_u32};
use stores::OutOfMemory;

/// The content of a number. Its timestamp is the number's lowest 32 bits, and its payload these in network order. It
/// has no marker, no CSRC list and no header extension.
pub fn numbered_content(number: u64) -> Content
    ensures { result ≡ numbered_content number }
{
    let timestamp = (number % (1 << 32)) as u32;
    let mut payload = ArrayVec::new();
    push_u32(&mut payload, timestamp);
    Content {
        payload,
        timestamp,
        marker: false,
        sources: ArrayVec::new(),
        extension: None,
    }
}

/// Appends the events of so many packets: each is sent, and is delivered unless a word of the generator loses it.
/// The loss is in thousandths.
///
/// Packet `j`, counted from 0, is sent with no padding and with the content of the number `first_moment + j`. Then one
/// word is drawn. Where that word modulo 1000 is at least `loss` the packet is delivered, as the wire's datagram at
/// `first_index + j`, at the moment `first_moment + j`; else it is lost.
///
/// `OutOfMemory`: the list has no room for two events a packet, and could not grow. It is then as it was, and no word
/// was drawn.
pub fn schedule<R: Rng>(
    rng: &mut R,
    first_index: u64,
    first_moment: u64,
    packets: u32,
    loss: u32,
    out: &mut Vec<Event>,
) -> Result<(), OutOfMemory>
    requires loss { loss ≤ 1000 }
    // No index and no moment passes 2^64 - 1.
    requires indices { first_index + packets ≤ 2 ^ 64 }
    requires moments { first_moment + packets ≤ 2 ^ 64 }
    // One word is drawn for each packet, in their order, and none beside.
    ensures appended { OnOk result (out.new.items ≡ out.old.items
        ++ schedule loss first_index first_moment (first_words next_u32 packets (R.stream rng.old))) }
    ensures drawn { OnOk result (R.stream rng.new ≡ after_words packets (R.stream rng.old)) }
    ensures err { OnErr result (out.new.items ≡ out.old.items) }
    ensures undrawn { OnErr result (R.stream rng.new ≡ R.stream rng.old) }
    // Where there is room it takes no memory.
    ensures room { vec_len out.old + 2 * packets ≤ vec_capacity out.old → IsOk result }
{
    out.reserve(2 * packets as usize)?;
    for sent in 0..u64::from(packets) {
        schedule_one(rng, first_index + sent, first_moment + sent, loss, out);
    }
    Ok(())
}

/// Appends the events of one packet. There is room for both.
fn schedule_one<R: Rng>(rng: &mut R, index: u64, moment: u64, loss: u32, out: &mut Vec<Event>)
    requires room { vec_len out.old + 2 ≤ vec_capacity out.old }
    ensures appended { out.new.items ≡ out.old.items ++ Event.Send (numbered_content moment) 0 ∷ delivery loss index moment (next_u32 (R.stream rng.old)).0 }
    ensures drawn { R.stream rng.new ≡ (next_u32 (R.stream rng.old)).1 }
    ensures len { vec_len out.new ≤ vec_len out.old + 2 }
    ensures capacity { vec_capacity out.new ≡ vec_capacity out.old }
{
    out.push_reserved(Event::Send(numbered_content(moment), 0));
    let word = rng.next_u32();
    if word % 1000 >= loss {
        out.push_reserved(Event::Deliver(index, moment));
    }
}
