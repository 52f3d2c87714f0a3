//! What is known of a session.
ghost use Rattle.std.specs.Prelude.{◌≡◌};
ghost use Rattle.gozdrit_relay.specs.Known.{BeginsUnder, IsSessionOf, beside, is_of_type, own_for, own_ssrc, renewed};

use crate::command_line::Options;
use crate::machine::Beginning;
use rtpwire::{RtpView, Session};

/// How far the SSRCs of two sessions lie apart: each has up to four of its own.
const APART: u32 = 4;

/// What the options say of a session, and what is learnt where they say nothing.
#[derive(Clone, Copy)]
pub struct Known {
    pub ssrc: Option<u32>,
    pub rtx_ssrc: Option<u32>,
    pub media_type: Option<u8>,
    pub rtx_type: Option<u8>,
    /// The receiver's own SSRC, where it was drawn.
    pub own: Option<u32>,
}

impl Known {
    /// What the options say.
    pub fn of(options: &Options<'_>) -> Known {
        Known {
            ssrc: options.ssrc,
            rtx_ssrc: options.rtx_ssrc,
            media_type: options.media_type,
            rtx_type: options.rtx_type,
            own: None,
        }
    }

    /// The same under a key, where SSRCs are drawn at a start: under none a second session begins, so that no index
    /// comes twice under the key (RFC 3711, section 9.1). A sender's next session has the SSRC behind those of this
    /// one.
    pub fn drawn(self, is_sender: bool, drawn: u32) -> Known {
        let mut known = self;
        if is_sender {
            known.ssrc = Some(drawn);
        } else {
            known.own = Some(drawn);
        }
        known
    }

    /// What is known of the session behind this one, which has the next SSRC where there has to be another one.
    pub fn renewed(self, renews: bool) -> Known
        ensures { result ≡ renewed renews self }
    {
        match self.ssrc {
            Some(ssrc) if renews => Known {
                ssrc: Some(ssrc.wrapping_add(APART)),
                ..self
            },
            _ => self,
        }
    }

    /// Which session a packet may begin under this SSRC. None: it has another type, or there is no such session.
    pub fn beginning(&self, view: &RtpView<'_>, ssrc: u32) -> Option<Beginning>
        ensures { BeginsUnder self.now view.now ssrc result }
    {
        let session = self.session(view, ssrc)?;
        Some(Beginning {
            session,
            ssrc: view.ssrc(),
            number: view.sequence(),
        })
    }

    /// The session of a packet, under this SSRC. None: it has another type, or there is no such session.
    fn session(&self, view: &RtpView<'_>, ssrc: u32) -> Option<Session>
        ensures { IsSessionOf self.now view.now ssrc result }
    {
        let media_type = view.payload_type();
        if !is_of_type(self.media_type, media_type) {
            return None;
        }
        let repair = self.rtx_ssrc.unwrap_or(ssrc.wrapping_add(1));
        let own = own_for(self.own, ssrc, repair);
        let repair_type = self.rtx_type.unwrap_or(beside(media_type));
        Session::with_any_media_type(ssrc, media_type, repair, repair_type, own).ok()
    }
}

/// Whether a payload type is the wanted one, if one is.
fn is_of_type(wanted: Option<u8>, media_type: u8) -> bool
    ensures { result ≡ is_of_type wanted media_type }
{
    match wanted {
        Some(wanted) => wanted == media_type,
        None => true,
    }
}

/// The receiver's own SSRC: the one that was drawn, if it is neither the media's nor that of the retransmissions.
fn own_for(drawn: Option<u32>, ssrc: u32, repair: u32) -> u32
    ensures { result ≡ own_for drawn ssrc repair }
{
    match drawn {
        Some(drawn) if drawn != ssrc && drawn != repair => drawn,
        _ => own_ssrc(ssrc, repair),
    }
}

/// The receiver's own SSRC: one that is neither the media's nor that of the retransmissions.
fn own_ssrc(ssrc: u32, repair: u32) -> u32
    ensures { result ≡ own_ssrc ssrc repair }
{
    if repair == ssrc.wrapping_add(2) {
        ssrc.wrapping_add(3)
    } else {
        ssrc.wrapping_add(2)
    }
}

/// The type of the retransmissions of a payload type: the dynamic one behind it, or 97 for one that is static.
fn beside(media_type: u8) -> u8
    ensures { result ≡ beside media_type }
{
    if media_type < 96 {
        97
    } else if media_type <= 126 {
        media_type + 1
    } else {
        126
    }
}
