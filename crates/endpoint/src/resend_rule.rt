//! Which retransmissions fit the time.
ghost use Rattle.std.specs.Prelude.{◌≡◌, ◌↔◌, IsTrue};
ghost use Rattle.endpoint.specs.Resending.{always, is_early, is_expired, verdict};

/// When a packet is retransmitted once more, and until when. Spans of time are in milliseconds.
#[derive(Clone, Copy, Debug, PartialEq, Eq)]
pub struct ResendRule {
    /// How long after its last retransmission a packet is not retransmitted again: feedback that names it so soon finds
    /// its answer on the way. About a round trip suits. With 0 it is retransmitted as often as it is named.
    pub min_resend: u64,
    /// How long after it was sent a packet is still retransmitted: what comes later is no use to a player that waits no
    /// longer. Without one it is retransmitted as long as the history has it.
    pub deadline: Option<u64>,
}

/// The moments of one packet, in milliseconds.
#[derive(Clone, Copy, Debug, PartialEq, Eq)]
pub struct Times {
    /// When it was sent.
    pub sent: u64,
    /// When it was last retransmitted, if it was.
    pub resent: Option<u64>,
}

/// Whether a packet that feedback named may be retransmitted.
#[derive(Clone, Copy, Debug, PartialEq, Eq)]
pub enum Verdict {
    /// It may.
    Go,
    /// It was retransmitted too short a while ago.
    Early,
    /// It was sent too long ago.
    Expired,
}

impl ResendRule {
    /// Each packet that is named may be retransmitted, whatever the time.
    pub const ALWAYS: ResendRule = ResendRule {
        min_resend: 0,
        deadline: None,
    };

    /// Whether it is [`ALWAYS`](ResendRule::ALWAYS).
    pub fn is_always(&self) -> bool
        ensures { IsTrue result ↔ (self.now ≡ always) }
    {
        self.min_resend == 0 && self.deadline.is_none()
    }

    /// Whether a packet with these moments may be retransmitted at the moment `now`. One that was sent too long ago is
    /// expired, whenever it was retransmitted. A moment that is still to come is no time ago.
    pub fn verdict(&self, times: Times, now: u64) -> Verdict
        ensures { result ≡ verdict self.now times now }
    {
        if is_expired(self.deadline, times.sent, now) {
            Verdict::Expired
        } else if is_early(self.min_resend, times.resent, now) {
            Verdict::Early
        } else {
            Verdict::Go
        }
    }
}

/// Whether a packet was sent more than so long ago.
fn is_expired(deadline: Option<u64>, sent: u64, now: u64) -> bool
    ensures { result ≡ is_expired deadline sent now }
{
    match deadline {
        Some(span) => now.saturating_sub(sent) > span,
        None => false,
    }
}

/// Whether a packet was retransmitted less than so long ago.
fn is_early(span: u64, resent: Option<u64>, now: u64) -> bool
    ensures { result ≡ is_early span resent now }
{
    match resent {
        Some(resent) => now.saturating_sub(resent) < span,
        None => false,
    }
}
