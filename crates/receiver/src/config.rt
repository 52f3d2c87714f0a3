ghost use Rattle.std.specs.Prelude.{◌≡◌, ◌↔◌, ◌^◌, ◌<◌, IsOk, IfOk, OnErr};
ghost use Rattle.std.specs.Option.{option_map};
ghost use Rattle.std.specs.Result.{result_err};
ghost use Rattle.rtpwire.specs.Fault.{config_number};
ghost use Rattle.rtpwire.specs.FirstOf.{FirstOf};
ghost use Rattle.receiver.specs.Order.{config_order};
ghost use Rattle.receiver.specs.Config.{IsConfig, config, config_of, learning, delayed, timed};

use rtpwire::{ConfigFault, Session};
use std::marker::Model;
use stores::AskRule;

/// How a receiver works: its session, how long it waits for a missing place, and how often and at what
/// distance it asks for one. Spans of time are in milliseconds.
#[derive(Clone, Copy, Debug, PartialEq, Eq)]
pub struct ReceiverConfig {
    session: Session,
    patience: u64,
    rule: AskRule,
    learns: bool,
}

impl Model for ReceiverConfig {
    ghost use Rattle.receiver.specs.Config.{Config, IsConfig, config_with};

    ghost Value = { Config };

    ghost view = { λ c. config_with c.session c.patience c.rule.delay c.rule.retry c.rule.asks c.learns };

    ghost invariant = { λ c. IsConfig (config_with c.session c.patience c.rule.delay c.rule.retry c.rule.asks c.learns) };

    ghost inverse = { λ c. record { session = c.session; patience = c.patience; rule = record { delay = c.delay; retry = c.retry; asks = c.asks }; learns = c.learns } };
}

impl ReceiverConfig {
    /// A receiver of this session. A missing place is given up by a play once `patience` milliseconds have passed
    /// since it was noticed, so 0 gives it up at once; until then it is asked for at most `asks` times,
    /// at least `retry` milliseconds apart.
    ///
    /// `BadLimit` (53), and no other: `retry` or `asks` is 0.
    pub fn new(
        session: Session,
        patience: u64,
        retry: u64,
        asks: u8,
    ) -> Result<ReceiverConfig, ConfigFault>
        ensures ok { IfOk result (λ made. made ≡ config session patience retry asks) }
        ensures succeeds { IsOk result ↔ IsConfig (config session patience retry asks) }
        ensures err { OnErr result (result ≡ Err ConfigFault.BadLimit) }
        ensures order { FirstOf (config_order retry asks) (option_map config_number (result_err result)) }
    {
        ReceiverConfig::checked(session, patience, retry, asks, false)
    }

    /// The same, but for a receiver that does not use the session's SSRC of the retransmissions: it learns
    /// it from the first retransmission of a place that it asked for.
    ///
    /// `BadLimit` (53), and no other: `retry` or `asks` is 0.
    pub fn learning(
        session: Session,
        patience: u64,
        retry: u64,
        asks: u8,
    ) -> Result<ReceiverConfig, ConfigFault>
        ensures ok { IfOk result (λ made. made ≡ learning session patience retry asks) }
        ensures succeeds { IsOk result ↔ IsConfig (learning session patience retry asks) }
        ensures err { OnErr result (result ≡ Err ConfigFault.BadLimit) }
        ensures order { FirstOf (config_order retry asks) (option_map config_number (result_err result)) }
    {
        ReceiverConfig::checked(session, patience, retry, asks, true)
    }

    /// A receiver of one of both kinds, if its limits are above 0.
    fn checked(
        session: Session,
        patience: u64,
        retry: u64,
        asks: u8,
        learns: bool,
    ) -> Result<ReceiverConfig, ConfigFault>
        ensures ok { IfOk result (λ made. made ≡ config_of session patience retry asks learns) }
        ensures succeeds { IsOk result ↔ IsConfig (config_of session patience retry asks learns) }
        ensures err { OnErr result (result ≡ Err ConfigFault.BadLimit) }
        ensures order { FirstOf (config_order retry asks) (option_map config_number (result_err result)) }
    {
        if retry == 0 || asks == 0 {
            return Err(ConfigFault::BadLimit);
        }
        Ok(ReceiverConfig {
            session,
            patience,
            rule: AskRule {
                delay: 0,
                retry,
                asks,
            },
            learns,
        })
    }

    /// The same receiver with a reorder delay: a missing place is asked for the first time once `delay` milliseconds
    /// have passed since it was noticed, so that a packet that the network only reordered has time to come. With 0,
    /// which is what a new configuration has, it is asked for at once.
    pub fn with_delay(self, delay: u64) -> ReceiverConfig
        ensures { result ≡ delayed self delay }
    {
        ReceiverConfig {
            rule: AskRule { delay, ..self.rule },
            ..self
        }
    }

    /// The same receiver with other times, in milliseconds, as [`new`](ReceiverConfig::new) and
    /// [`with_delay`](ReceiverConfig::with_delay) tell them.
    ///
    /// `BadLimit` (53), and no other: `retry` is 0.
    pub fn with_times(
        self,
        patience: u64,
        delay: u64,
        retry: u64,
    ) -> Result<ReceiverConfig, ConfigFault>
        ensures ok { IfOk result (λ made. made ≡ timed self patience delay retry) }
        ensures succeeds { IsOk result ↔ (0 < retry) }
        ensures err { OnErr result (result ≡ Err ConfigFault.BadLimit) }
    {
        if retry == 0 {
            return Err(ConfigFault::BadLimit);
        }
        Ok(ReceiverConfig {
            patience,
            rule: AskRule {
                delay,
                retry,
                asks: self.rule.asks,
            },
            ..self
        })
    }

    /// The session whose streams it receives.
    pub fn session(&self) -> Session
        ensures { result ≡ self.now.session }
    {
        self.session
    }

    /// How long a missing place is waited for, in milliseconds from the moment it was noticed.
    pub fn patience(&self) -> u64
        ensures { result ≡ self.now.patience }
    {
        self.patience
    }

    /// How long a place is missing before it is asked for the first time, in milliseconds, or 0.
    pub fn delay(&self) -> u64
        ensures { result ≡ self.now.delay }
    {
        self.rule.delay
    }

    /// How long until a missing place is asked for again, in milliseconds from its last ask.
    pub fn retry(&self) -> u64
        ensures { result ≡ self.now.retry }
    {
        self.rule.retry
    }

    /// How often a missing place may be asked for.
    pub fn asks(&self) -> u8
        ensures { result ≡ self.now.asks }
    {
        self.rule.asks
    }

    /// When it asks: the three above.
    pub(crate) fn rule(&self) -> AskRule
        ensures value { result ≡ record { delay = self.now.delay; retry = self.now.retry; asks = self.now.asks } }
        ensures few { self.now.asks < 2 ^ 8 }
    {
        let asks = self.asks();
        AskRule { asks, ..self.rule }
    }

    /// Whether the SSRC of the retransmissions is learnt.
    pub fn learns(&self) -> bool
        ensures { result ≡ self.now.learns }
    {
        self.learns
    }
}
