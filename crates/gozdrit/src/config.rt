//! How C says the configurations of both ends.
ghost use Rattle.std.specs.Prelude.{◌≡◌, ⊤, MatchResult};
ghost use Rattle.gozdrit.specs.Config.{IsCapacity, IsSession, HasSenderLimits, HasReceiverLimits, Fails, streams_of, sender_config, receiver_config, probation_of, rule_of, or_usual, usual_dropout, interval_of, following_of};

use endpoint::{Probation, ResendRule};
use receiver::ReceiverConfig;
use rtpwire::{ConfigFault, Session};
use sender::SenderConfig;

/// How many packets a history, or places a window, keeps at most.
const MAX_STORE: u32 = 8192;

/// How many milliseconds lie between two NACKs for one packet where nothing is said, until a round trip was measured.
const INTERVAL: u64 = 40;

/// What follows the path at most: the times of asks, and how long a place is waited for.
pub(crate) const MAX_FOLLOWS: u8 = 2;

/// The streams of a session.
#[repr(C)]
#[derive(Drop)]
pub struct SessionFields {
    pub media_ssrc: u32,
    pub rtx_ssrc: u32,
    pub receiver_ssrc: u32,
    pub media_payload_type: u8,
    pub rtx_payload_type: u8,
    /// 0 where the media's payload type is a dynamic one; else it may be a static one too.
    pub any_media_payload_type: u8,
}

/// How a sender works, and how many packets its history keeps.
#[repr(C)]
#[derive(Drop)]
pub struct SenderFields {
    /// How many octets C's struct has.
    pub size: usize,
    pub session: SessionFields,
    pub history: u32,
    pub first_sequence: u16,
    pub rtx_first_sequence: u16,
    pub max_retransmissions: u8,
    /// 0 where the session's receiver alone is heard; else every reporter is.
    pub any_reporter: u8,
    /// How long nothing is retransmitted again, and until how long after it was sent it is retransmitted at all, in milliseconds; 0:
    /// as long as the history has it.
    pub min_resend: u64,
    pub deadline: u64,
}

/// How a receiver works, and how many places its window keeps. Spans of time are in milliseconds.
#[repr(C)]
#[derive(Drop)]
pub struct ReceiverFields {
    /// How many octets C's struct has.
    pub size: usize,
    pub session: SessionFields,
    pub latency: u64,
    /// 0: the usual time between two NACKs, which follows the path.
    pub nack_interval: u64,
    pub window: u32,
    pub max_nacks: u8,
    /// 0 where the session's SSRC of the retransmissions is used; else it is learnt.
    pub learn_rtx_ssrc: u8,
    /// The probation of a sequence number that has jumped; 0 is the usual number of each.
    pub max_dropout: u16,
    pub max_misorder: u16,
    pub min_sequential_ahead: u16,
    pub min_sequential_behind: u16,
    pub reorder_delay: u64,
    /// For how long a stream is silent of which nothing is taken; 0: what has jumped is believed in sequence.
    pub idle_after: u64,
    /// 0 where the times of asks stay as `nack_interval` says, 1 where they follow what is measured of the path, and 2 where a place is given up
    /// by when its packet was sent, too.
    pub adaptive: u8,
}

impl SessionFields {
    fn session(&self) -> Result<Session, ConfigFault>
        ensures { MatchResult result
            (λ session. IsSession self.now × (session ≡ streams_of self.now))
            (λ fault. Fails self.now ⊤ fault) }
    {
        if self.any_media_payload_type == 0 {
            Session::new(
                self.media_ssrc,
                self.media_payload_type,
                self.rtx_ssrc,
                self.rtx_payload_type,
                self.receiver_ssrc,
            )
        } else {
            Session::with_any_media_type(
                self.media_ssrc,
                self.media_payload_type,
                self.rtx_ssrc,
                self.rtx_payload_type,
                self.receiver_ssrc,
            )
        }
    }
}

impl SenderFields {
    /// The sender's configuration, or the first check that these fail.
    pub(crate) fn config(&self) -> Result<SenderConfig, ConfigFault>
        ensures { MatchResult result
            (λ made. IsSession self.now.session × HasSenderLimits self.now × (made ≡ sender_config self.now))
            (λ fault. Fails self.now.session (HasSenderLimits self.now) fault) }
    {
        let session = self.session.session()?;
        if self.history == 0 || self.history > MAX_STORE {
            return Err(ConfigFault::BadLimit);
        }
        let made = SenderConfig::new(
            session,
            self.first_sequence,
            self.rtx_first_sequence,
            self.max_retransmissions,
        )?;
        Ok(if self.any_reporter == 0 {
            made
        } else {
            made.with_any_reporter()
        })
    }

    /// Which retransmissions fit the time.
    pub(crate) fn rule(&self) -> ResendRule
        ensures { result ≡ rule_of self.now }
    {
        ResendRule {
            min_resend: self.min_resend,
            deadline: if self.deadline == 0 {
                None
            } else {
                Some(self.deadline)
            },
        }
    }
}

impl ReceiverFields {
    /// The receiver's configuration, or the first check that these fail.
    pub(crate) fn config(&self) -> Result<ReceiverConfig, ConfigFault>
        ensures { MatchResult result
            (λ made. IsSession self.now.session × HasReceiverLimits self.now × (made ≡ receiver_config self.now))
            (λ fault. Fails self.now.session (HasReceiverLimits self.now) fault) }
    {
        let session = self.session.session()?;
        if self.window == 0 || self.window > MAX_STORE || self.adaptive > MAX_FOLLOWS {
            return Err(ConfigFault::BadLimit);
        }
        let made = if self.learn_rtx_ssrc == 0 {
            ReceiverConfig::new(session, self.latency, self.interval(), self.max_nacks)?
        } else {
            ReceiverConfig::learning(session, self.latency, self.interval(), self.max_nacks)?
        };
        Ok(made.with_delay(self.reorder_delay))
    }

    /// The time between two NACKs for one packet.
    fn interval(&self) -> u64
        ensures { result ≡ interval_of self.now.nack_interval }
    {
        if self.nack_interval == 0 {
            INTERVAL
        } else {
            self.nack_interval
        }
    }

    /// What follows the path: as is said, and all that can where neither that nor a time between two NACKs is said.
    pub(crate) fn following(&self) -> u8
        ensures { result ≡ following_of self.now }
    {
        if self.nack_interval == 0 && self.adaptive == 0 {
            MAX_FOLLOWS
        } else {
            self.adaptive
        }
    }

    /// Its probation.
    pub(crate) fn probation(&self) -> Result<Probation, ConfigFault>
        ensures { MatchResult result (λ made. made ≡ probation_of self.now) (λ fault. ⊥) }
    {
        let made = Probation::new(
            or_usual(self.max_dropout, usual_dropout(self.window)),
            or_usual(self.max_misorder, Probation::MISORDER),
            or_usual(self.min_sequential_ahead, Probation::AHEAD),
            or_usual(self.min_sequential_behind, Probation::BEHIND),
        )?;
        Ok(if self.idle_after == 0 {
            made
        } else {
            made.with_silence(self.idle_after)
        })
    }
}

/// The usual jump ahead: 3000, or as many as the window keeps. A gap that a window bridges is no restart.
fn usual_dropout(window: u32) -> u16
    ensures { result ≡ usual_dropout window }
{
    (window.min(MAX_STORE) as u16).max(Probation::DROPOUT)
}

/// A number, or the usual one in the place of 0.
fn or_usual(number: u16, usual: u16) -> u16
    ensures { result ≡ or_usual number usual }
{
    if number == 0 { usual } else { number }
}
