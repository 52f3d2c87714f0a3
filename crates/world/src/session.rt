//! The session that is tried out: of scripts, of drawn runs, and of runs over sockets.
ghost use Rattle.std.specs.Prelude.{◌≡◌};
ghost use Rattle.world.specs.Session.{trial_session};

use rtpwire::Session;

/// The SSRC of the media.
pub const MEDIA_SSRC: u32 = 0x1111_1111;

/// The payload type of the media.
pub const MEDIA_TYPE: u8 = 96;

/// The SSRC of the retransmissions.
pub const REPAIR_SSRC: u32 = 0x2222_2222;

/// The payload type of the retransmissions.
pub const REPAIR_TYPE: u8 = 97;

/// The SSRC of the receiver.
pub const RECEIVER_SSRC: u32 = 0x3333_3333;

/// The session of these.
pub fn trial_session() -> Session
    ensures { result ≡ trial_session }
{
    Session::new(
        MEDIA_SSRC,
        MEDIA_TYPE,
        REPAIR_SSRC,
        REPAIR_TYPE,
        RECEIVER_SSRC,
    )
    .unwrap()
}
