//! What a play gives to C.
ghost use Rattle.std.specs.Prelude.{◌≡◌, ◌≢◌, ◌≤◌, length};
ghost use Rattle.receiver.specs.declared.answer.Played.TheVariants.{Packet};
ghost use Rattle.gozdrit.specs.Codes.{ok, no_room};
ghost use Rattle.gozdrit.specs.Following.{PassesAs, next_play};
ghost use Rattle.gozdrit.specs.Told.{HasRoom, TellsPlayed};

use crate::answers::PlayedPacket;
use crate::code::{NO_ROOM, OK};
use crate::following::MeteredReceiver;
use endpoint::Passed;
use places::Place;
use receiver::Peeked;
use rtpwire::{Content, fill_front};

/// Plays, and tells what came. A content is copied once, from where the window keeps it.
pub(crate) fn play_to(
    receiver: &mut MeteredReceiver,
    now: u64,
    played: &mut PlayedPacket,
    payload: &mut [u8],
) -> i32
    ensures plays { HasRoom (next_play receiver.old now) payload.old
        → (result ≡ ok) × PassesAs receiver.old now receiver.new × TellsPlayed (next_play receiver.old now) played.old payload.old played.new payload.new }
    ensures short { (HasRoom (next_play receiver.old now) payload.old → ⊥) → result ≡ no_room }
    ensures refused { result ≢ ok → (receiver.new ≡ receiver.old) × (played.new ≡ played.old) × (payload.new ≡ payload.old) }
{
    let patience = receiver.patience_left();
    let core = receiver.endpoint.endpoint().core();
    let passed = match core.peek_within(patience, now) {
        Peeked::Wait => {
            played.kind = 0;
            Passed::Nothing
        }
        Peeked::Packet(place, content) => {
            if payload.len() < content.payload.len() {
                return NO_ROOM;
            }
            tell_packet(place, content, played, payload);
            Passed::Packet(place)
        }
        Peeked::Gap(place) => {
            played.kind = 2;
            played.sequence = place.value();
            Passed::Gap(place)
        }
    };
    receiver.pass(passed, patience, now);
    OK
}

/// Tells a packet that is played.
fn tell_packet(place: Place, content: &Content, played: &mut PlayedPacket, payload: &mut [u8])
    requires { length content.now.payload.items ≤ length payload.old }
    ensures { TellsPlayed (Packet place content.now) played.old payload.old played.new payload.new }
{
    played.kind = 1;
    played.sequence = place.value();
    played.length = content.payload.len();
    played.header.tell(content);
    fill_front(payload, content.payload.as_slice());
}
