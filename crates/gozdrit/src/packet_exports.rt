//! What C asks of one RTP packet.
//!
//! Each export hands its pointers to a function that tests them for null, and then makes the call. What it answers is
//! defined in `specs/Lent.antt`, and said for C in `include/gozdrit.h`, with its refusals.
ghost use Rattle.std.specs.Prelude.{◌≡◌, ℕ, List, Option};
ghost use Rattle.std.specs.Borrow.{sem, u8, usize};
ghost use Rattle.gozdrit.specs.Lying.{slice_lies_at, value_lies_at};
ghost use Rattle.gozdrit.specs.contracts.packets.PacketFields.{the_row as packet_row};
ghost use Rattle.gozdrit.specs.declared.packets.PacketFields.{PacketFields};
ghost use Rattle.gozdrit.specs.Lent.{ReadFor, WriteFor};

use crate::code::NULL;
use crate::lent::{Lent, LentSlice};
use crate::packets::{PacketFields, rtp_read, rtp_write};

/// Reads an RTP packet. `packet` is told its header, and where its payload lies.
#[unsafe(no_mangle)]
pub unsafe extern "C" fn gozdrit_rtp_read(
    octets: *mut u8,
    length: usize,
    packet: *mut PacketFields,
) -> i32
    ghost before: { Option (List ℕ) × Option PacketFields }
    requires* { sem 𝓛 (slice_lies_at u8 octets length before.0)
        ∗ sem 𝓛 (value_lies_at packet_row packet before.1) }
    ensures* { ∃ₛ (λ (after : Option (List ℕ) × Option PacketFields).
        sem 𝓛 (slice_lies_at u8 octets length after.0)
        ∗ sem 𝓛 (value_lies_at packet_row packet after.1)
        ∗ ⌜ ReadFor before.0 before.1 result after.0 after.1 ⌝) }
{
    rtp_read_lent(
        LentSlice {
            at: octets,
            len: length,
        },
        Lent { at: packet },
    )
    .0
}

fn rtp_read_lent(
    mut octets: LentSlice<u8>,
    mut packet: Lent<PacketFields>,
) -> (i32, LentSlice<u8>, Lent<PacketFields>)
    ensures { ((result.1.at ≡ octets.at) × (result.1.len ≡ octets.len) × (result.2.at ≡ packet.at))
        × ReadFor octets.items packet.value result.0 result.1.items result.2.value }
{
    if octets.is_missing() || packet.is_null() {
        return (NULL, octets, packet);
    }
    let code = rtp_read(octets.get(), packet.get());
    (code, octets, packet)
}

/// Writes the RTP packet of a header and a payload to the front of `out`. `written` is told how many octets it has.
#[unsafe(no_mangle)]
pub unsafe extern "C" fn gozdrit_rtp_write(
    packet: *mut PacketFields,
    payload: *mut u8,
    length: usize,
    written: *mut usize,
    out: *mut u8,
    room: usize,
) -> i32
    ghost before: { Option PacketFields × Option (List ℕ) × Option ℕ × Option (List ℕ) }
    requires* { sem 𝓛 (value_lies_at packet_row packet before.0)
        ∗ sem 𝓛 (slice_lies_at u8 payload length before.1)
        ∗ sem 𝓛 (value_lies_at usize written before.2)
        ∗ sem 𝓛 (slice_lies_at u8 out room before.3) }
    ensures* { ∃ₛ (λ (after : Option PacketFields × Option (List ℕ) × Option ℕ × Option (List ℕ)).
        sem 𝓛 (value_lies_at packet_row packet after.0)
        ∗ sem 𝓛 (slice_lies_at u8 payload length after.1)
        ∗ sem 𝓛 (value_lies_at usize written after.2)
        ∗ sem 𝓛 (slice_lies_at u8 out room after.3)
        ∗ ⌜ WriteFor before.0 before.1 before.2 before.3 result after.0 after.1 after.2 after.3 ⌝) }
{
    rtp_write_lent(
        Lent { at: packet },
        LentSlice {
            at: payload,
            len: length,
        },
        Lent { at: written },
        LentSlice { at: out, len: room },
    )
    .0
}

fn rtp_write_lent(
    mut packet: Lent<PacketFields>,
    mut payload: LentSlice<u8>,
    mut written: Lent<usize>,
    mut out: LentSlice<u8>,
) -> (
    i32,
    Lent<PacketFields>,
    LentSlice<u8>,
    Lent<usize>,
    LentSlice<u8>,
)
    ensures { ((result.1.at ≡ packet.at) × (result.2.at ≡ payload.at) × (result.2.len ≡ payload.len) × (result.3.at ≡ written.at) × (result.4.at ≡ out.at) × (result.4.len ≡ out.len))
        × WriteFor packet.value payload.items written.value out.items result.0 result.1.value result.2.items result.3.value result.4.items }
{
    if packet.is_null() || payload.is_missing() || written.is_null() || out.is_missing() {
        return (NULL, packet, payload, written, out);
    }
    let code = rtp_write(packet.get(), payload.get(), written.get(), out.get());
    (code, packet, payload, written, out)
}
