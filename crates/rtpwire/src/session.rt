//! Which streams the two ends send.
ghost use Rattle.std.specs.Prelude.{◌≡◌, ◌↔◌, IsTrue, IsOk, IfOk};
ghost use Rattle.std.specs.Option.{option_map};
ghost use Rattle.std.specs.Result.{result_err};
ghost use Rattle.rtpwire.specs.Fault.{config_number};
ghost use Rattle.rtpwire.specs.FirstOf.{FirstOf};
ghost use Rattle.rtpwire.specs.Session.{IsDynamic, IsMediaType, HasTypes, HasAnyMediaType, HasSsrcs, streams, session_order, any_media_order};

use crate::fault::ConfigFault;
use std::marker::Model;

/// The streams of a session: media and its retransmissions go one way, each under an SSRC and a payload
/// type of its own (RFC 4588, section 5.3, SSRC multiplexing), and the receiver's feedback the other way.
#[derive(Clone, Copy, Debug, PartialEq, Eq)]
pub struct Session {
    media_ssrc: u32,
    media_type: u8,
    repair_ssrc: u32,
    repair_type: u8,
    receiver_ssrc: u32,
}

impl Model for Session {
    ghost use Rattle.rtpwire.specs.Session.{Streams, HasAnyMediaType, HasSsrcs, streams};

    ghost Value = { Streams };

    ghost view = { λ s. streams s.media_ssrc s.media_type s.repair_ssrc s.repair_type s.receiver_ssrc };

    ghost invariant = { λ s. HasAnyMediaType (streams s.media_ssrc s.media_type s.repair_ssrc s.repair_type s.receiver_ssrc)
        × HasSsrcs (streams s.media_ssrc s.media_type s.repair_ssrc s.repair_type s.receiver_ssrc) };

    ghost inverse = { λ s. record { media_ssrc = s.media_ssrc; media_type = s.media_type; repair_ssrc = s.repair_ssrc; repair_type = s.repair_type; receiver_ssrc = s.receiver_ssrc } };
}

impl Session {
    /// A session with these streams. Both types are dynamic ones, 96 to 127 (RFC 3551, section 3). The types are refused
    /// first.
    pub fn new(
        media_ssrc: u32,
        media_type: u8,
        repair_ssrc: u32,
        repair_type: u8,
        receiver_ssrc: u32,
    ) -> Result<Session, ConfigFault>
        ensures ok { IfOk result (λ session.
            session ≡ streams media_ssrc media_type repair_ssrc repair_type receiver_ssrc) }
        ensures succeeds { IsOk result
            ↔ (HasTypes (streams media_ssrc media_type repair_ssrc repair_type receiver_ssrc)
            × HasSsrcs (streams media_ssrc media_type repair_ssrc repair_type receiver_ssrc)) }
        ensures bad_type { (result ≡ Err ConfigFault.BadType)
            ↔ (HasTypes (streams media_ssrc media_type repair_ssrc repair_type receiver_ssrc) → ⊥) }
        ensures same_ssrc { (result ≡ Err ConfigFault.SameSsrc)
            ↔ (HasTypes (streams media_ssrc media_type repair_ssrc repair_type receiver_ssrc)
            × (HasSsrcs (streams media_ssrc media_type repair_ssrc repair_type receiver_ssrc) → ⊥)) }
        ensures order { FirstOf (session_order (streams media_ssrc media_type repair_ssrc repair_type receiver_ssrc))
            (option_map config_number (result_err result)) }
    {
        if !is_dynamic(media_type) {
            return Err(ConfigFault::BadType);
        }
        Session::with_any_media_type(
            media_ssrc,
            media_type,
            repair_ssrc,
            repair_type,
            receiver_ssrc,
        )
    }

    /// A session whose media may have a static payload type too, as 33 for MPEG-2 transport streams (RFC 3551, section 6): any
    /// of 0 to 127 but 64 to 95, which are taken for RTCP where that shares the port (RFC 5761, section 4). The type of the
    /// retransmissions is a dynamic one, 96 to 127. The types are refused first.
    ///
    /// What [`Session::new`] makes it makes too, the same session; and of a dynamic media type it makes no other.
    pub fn with_any_media_type(
        media_ssrc: u32,
        media_type: u8,
        repair_ssrc: u32,
        repair_type: u8,
        receiver_ssrc: u32,
    ) -> Result<Session, ConfigFault>
        ensures ok { IfOk result (λ session.
            session ≡ streams media_ssrc media_type repair_ssrc repair_type receiver_ssrc) }
        ensures succeeds { IsOk result
            ↔ (HasAnyMediaType (streams media_ssrc media_type repair_ssrc repair_type receiver_ssrc)
            × HasSsrcs (streams media_ssrc media_type repair_ssrc repair_type receiver_ssrc)) }
        ensures bad_type { (result ≡ Err ConfigFault.BadType)
            ↔ (HasAnyMediaType (streams media_ssrc media_type repair_ssrc repair_type receiver_ssrc) → ⊥) }
        ensures same_ssrc { (result ≡ Err ConfigFault.SameSsrc)
            ↔ (HasAnyMediaType (streams media_ssrc media_type repair_ssrc repair_type receiver_ssrc)
            × (HasSsrcs (streams media_ssrc media_type repair_ssrc repair_type receiver_ssrc) → ⊥)) }
        ensures order { FirstOf (any_media_order (streams media_ssrc media_type repair_ssrc repair_type receiver_ssrc))
            (option_map config_number (result_err result)) }
        // Where `new` makes a session this is it, and of a dynamic media type there is no other.
        ensures as_new { HasTypes (streams media_ssrc media_type repair_ssrc repair_type receiver_ssrc)
            → HasSsrcs (streams media_ssrc media_type repair_ssrc repair_type receiver_ssrc)
            → result ≡ Ok (streams media_ssrc media_type repair_ssrc repair_type receiver_ssrc) }
        ensures no_more { IsDynamic media_type → IsOk result
            → HasTypes (streams media_ssrc media_type repair_ssrc repair_type receiver_ssrc) }
    {
        if !is_media_type(media_type) || !is_dynamic(repair_type) || media_type == repair_type {
            return Err(ConfigFault::BadType);
        }
        if media_ssrc == repair_ssrc
            || media_ssrc == receiver_ssrc
            || repair_ssrc == receiver_ssrc
        {
            return Err(ConfigFault::SameSsrc);
        }
        Ok(Session {
            media_ssrc,
            media_type,
            repair_ssrc,
            repair_type,
            receiver_ssrc,
        })
    }

    /// The SSRC of the media stream.
    pub fn media_ssrc(&self) -> u32
        ensures { result ≡ self.now.media_ssrc }
    {
        self.media_ssrc
    }

    /// The payload type of the media stream: any of 0 to 127 but 64 to 95, and of 96 to 127 where [`Session::new`] made it.
    pub fn media_type(&self) -> u8
        ensures value { result ≡ self.now.media_type }
        ensures allowed { IsMediaType result }
    {
        self.media_type
    }

    /// The SSRC of the retransmission stream.
    pub fn repair_ssrc(&self) -> u32
        ensures { result ≡ self.now.repair_ssrc }
    {
        self.repair_ssrc
    }

    /// The payload type of the retransmission stream, 96 to 127.
    pub fn repair_type(&self) -> u8
        ensures value { result ≡ self.now.repair_type }
        ensures dynamic { IsDynamic result }
    {
        self.repair_type
    }

    /// The SSRC under which the receiver sends feedback.
    pub fn receiver_ssrc(&self) -> u32
        ensures { result ≡ self.now.receiver_ssrc }
    {
        self.receiver_ssrc
    }
}

fn is_dynamic(payload_type: u8) -> bool
    ensures { IsTrue result ↔ IsDynamic payload_type }
{
    (96..=127).contains(&payload_type)
}

fn is_media_type(payload_type: u8) -> bool
    ensures { IsTrue result ↔ IsMediaType payload_type }
{
    payload_type <= 127 && !(64..=95).contains(&payload_type)
}
