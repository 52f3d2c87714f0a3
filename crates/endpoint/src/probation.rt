ghost use Rattle.std.specs.Prelude.{◌≡◌, ◌↔◌, ◌<◌, IsOk, IsTrue, IfOk, OnErr, None, Some, if◌then◌else◌};
ghost use Rattle.endpoint.specs.Probation.{wanted_for, has_jumped, goes_on, wanted_of_run, wanted_now, is_silent};

use places::Place;
use rtpwire::ConfigFault;

/// When the sequence number of a media packet is believed (RFC 3550, appendix A.1). A packet that lies `dropout` or more ahead
/// of the highest one, or `misorder` or more behind it, has jumped: it is held back until so many in sequence have come,
/// and then the receiver restarts with them.
///
/// The two numbers of packets differ: a network repeats old packets, even many in their order, but it can't send what is
/// still to come. So a jump ahead is believed as soon as the next one in sequence has come, and a jump behind later.
///
/// That is the rule in sequence. By the stream ([`with_silence`](Probation::with_silence)) what is held back goes on with whatever lies near
/// its own highest number, in any order and with losses, and is believed after `behind` packets, whichever way it has jumped; or
/// after `ahead` of them where nothing of the stream before was taken for so long.
#[derive(Clone, Copy, Debug, PartialEq, Eq)]
pub struct Probation {
    dropout: u16,
    misorder: u16,
    ahead: u16,
    behind: u16,
    silence: Option<u64>,
}

impl Probation {
    /// How far ahead a packet is believed, less one: MAX_DROPOUT of appendix A.1.
    pub const DROPOUT: u16 = 3000;

    /// How far behind a packet is believed, less one: MAX_MISORDER of appendix A.1.
    pub const MISORDER: u16 = 100;

    /// How many in sequence are believed after a jump ahead: MIN_SEQUENTIAL of appendix A.1.
    pub const AHEAD: u16 = 2;

    /// How many in sequence are believed after a jump behind.
    pub const BEHIND: u16 = 256;

    /// After how many milliseconds without a media packet that was taken a stream is silent.
    pub const SILENCE: u64 = 200;

    /// A probation with these numbers.
    ///
    /// `BadLimit` (53), and no other: one of them is 0, so that every packet would have jumped, or none were ever believed.
    pub fn new(
        dropout: u16,
        misorder: u16,
        ahead: u16,
        behind: u16,
    ) -> Result<Probation, ConfigFault>
        ensures ok { IfOk result (λ made. made ≡ record { dropout = dropout; misorder = misorder; ahead = ahead; behind = behind; silence = None }) }
        ensures succeeds { IsOk result ↔ ((0 < dropout) × (0 < misorder) × (0 < ahead) × (0 < behind)) }
        ensures err { OnErr result (result ≡ Err ConfigFault.BadLimit) }
    {
        if dropout == 0 || misorder == 0 || ahead == 0 || behind == 0 {
            return Err(ConfigFault::BadLimit);
        }
        Ok(Probation {
            dropout,
            misorder,
            ahead,
            behind,
            silence: None,
        })
    }

    /// The numbers above.
    pub fn usual() -> Probation
        ensures { result ≡ record { dropout = 3000; misorder = 100; ahead = 2; behind = 256; silence = None } }
    {
        Probation {
            dropout: Probation::DROPOUT,
            misorder: Probation::MISORDER,
            ahead: Probation::AHEAD,
            behind: Probation::BEHIND,
            silence: None,
        }
    }

    /// The same by the stream, which is silent after so many milliseconds without a media packet that was taken.
    pub fn with_silence(self, silence: u64) -> Probation
        ensures { result ≡ record self { silence = Some silence } }
    {
        Probation {
            silence: Some(silence),
            ..self
        }
    }

    /// Whether a run whose next number and whose highest place are these goes on with this number.
    pub(crate) fn goes_on(&self, highest: Option<Place>, next: u16, seq: u16) -> bool
        ensures { result ≡ goes_on self.now.silence self.now highest next seq }
    {
        match (self.silence, highest) {
            (None, _) => next == seq,
            (Some(_), None) => false,
            (Some(_), Some(highest)) => !self.has_jumped(seq.wrapping_sub(highest.number())),
        }
    }

    /// How many a run wants as it begins, where its first number wants so many.
    pub(crate) fn wanted_of_run(&self, wanted: u16) -> u16
        ensures { result ≡ wanted_of_run self.now.silence self.now wanted }
    {
        match self.silence {
            None => wanted,
            Some(_) => self.behind,
        }
    }

    /// How many a run wants at this moment, where media was last taken at that one.
    pub(crate) fn wanted_now(&self, wanted: u16, last: u64, now: u64) -> u16
        ensures { result ≡ wanted_now self.now wanted last now }
    {
        if self.is_silent(last, now) {
            self.ahead.min(wanted)
        } else {
            wanted
        }
    }

    /// Whether nothing was taken for so long.
    fn is_silent(&self, last: u64, now: u64) -> bool
        ensures { result ≡ is_silent self.now.silence last now }
    {
        match self.silence {
            None => false,
            Some(silence) => now >= last && now - last >= silence,
        }
    }

    /// Whether a refusal ends a run.
    pub(crate) fn is_in_sequence(&self) -> bool
        ensures { IsTrue result ↔ (self.now.silence ≡ None) }
    {
        self.silence.is_none()
    }

    /// How many packets in sequence are wanted from this number on before it is believed, from the highest place. 0: it is
    /// believed as it is.
    pub fn wanted(&self, highest: Place, seq: u16) -> u16
        ensures { result ≡ wanted_for self.now highest seq }
    {
        let distance = seq.wrapping_sub(highest.number());
        if !self.has_jumped(distance) {
            0
        } else if distance < 32768 {
            self.ahead
        } else {
            self.behind
        }
    }

    /// Whether a number so far ahead of the highest one, modulo 65536, has jumped.
    fn has_jumped(&self, distance: u16) -> bool
        ensures { result ≡ has_jumped self.now distance }
    {
        distance >= self.dropout && u32::from(distance) + u32::from(self.misorder) <= 65536
    }
}
