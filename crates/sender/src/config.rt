ghost use Rattle.std.specs.Prelude.{◌≡◌, ◌↔◌, IsOk, IfOk, OnErr};
ghost use Rattle.std.specs.Option.{option_map};
ghost use Rattle.std.specs.Result.{result_err};
ghost use Rattle.rtpwire.specs.Fault.{config_number};
ghost use Rattle.rtpwire.specs.FirstOf.{FirstOf};
ghost use Rattle.sender.specs.Order.{config_order};
ghost use Rattle.sender.specs.Config.{IsConfig, config, hearing_anyone};

use rtpwire::{ConfigFault, Session};
use std::marker::Model;

/// How a sender works: its session, the numbers that its two streams begin with, and how often it retransmits
/// one packet.
#[derive(Clone, Copy, Debug, PartialEq, Eq)]
pub struct SenderConfig {
    session: Session,
    first: u16,
    repair_first: u16,
    repeats: u8,
    any_reporter: bool,
}

impl Model for SenderConfig {
    ghost use Rattle.sender.specs.Config.{Config, IsConfig, config_of};

    ghost Value = { Config };

    ghost view = { λ c. config_of c.session c.first c.repair_first c.repeats c.any_reporter };

    ghost invariant = { λ c. IsConfig (config_of c.session c.first c.repair_first c.repeats c.any_reporter) };

    ghost inverse = { λ c. record { session = c.session; first = c.first; repair_first = c.repair_first; repeats = c.repeats; any_reporter = c.any_reporter } };
}

impl SenderConfig {
    /// A sender of this session. Its first packet has the sequence number `first`, its first retransmission
    /// `repair_first`, and each packet is retransmitted at most `repeats` times.
    ///
    /// `BadLimit` (53), and no other: `repeats` is 0.
    pub fn new(
        session: Session,
        first: u16,
        repair_first: u16,
        repeats: u8,
    ) -> Result<SenderConfig, ConfigFault>
        ensures ok { IfOk result (λ made. made ≡ config session first repair_first repeats) }
        ensures succeeds { IsOk result ↔ IsConfig (config session first repair_first repeats) }
        ensures err { OnErr result (result ≡ Err ConfigFault.BadLimit) }
        ensures order { FirstOf (config_order repeats) (option_map config_number (result_err result)) }
    {
        if repeats == 0 {
            return Err(ConfigFault::BadLimit);
        }
        Ok(SenderConfig {
            session,
            first,
            repair_first,
            repeats,
            any_reporter: false,
        })
    }

    /// The same sender, but every reporter is taken as the session's receiver: no feedback is refused with
    /// `WrongReporter` (19). It is for a receiver whose SSRC is not known, as where the far side draws it
    /// (RFC 3550, section 8.1). Feedback for other media is refused as before.
    pub fn with_any_reporter(self) -> SenderConfig
        ensures { result ≡ hearing_anyone self }
    {
        SenderConfig {
            any_reporter: true,
            ..self
        }
    }

    /// The session whose streams it sends.
    pub fn session(&self) -> Session
        ensures { result ≡ self.now.session }
    {
        self.session
    }

    /// The sequence number of the first packet.
    pub fn first(&self) -> u16
        ensures { result ≡ self.now.first }
    {
        self.first
    }

    /// The sequence number of the first retransmission.
    pub fn repair_first(&self) -> u16
        ensures { result ≡ self.now.repair_first }
    {
        self.repair_first
    }

    /// How often one packet is retransmitted at most: 1 to 255 times.
    pub fn repeats(&self) -> u8
        ensures value { result ≡ self.now.repeats }
        ensures is_config { IsConfig self.now }
    {
        self.repeats
    }

    /// Whether every reporter is taken as the session's receiver.
    pub fn any_reporter(&self) -> bool
        ensures { result ≡ self.now.any_reporter }
    {
        self.any_reporter
    }
}
