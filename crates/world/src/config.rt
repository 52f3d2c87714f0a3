ghost use Rattle.std.specs.Prelude.{◌≡◌, ◌↔◌, ◌≤◌, IsTrue, IsOk, IfOk, OnErr};
ghost use Rattle.receiver.specs.Config.{config as receiving, learning};
ghost use Rattle.world.specs.Config.{IsConfig, config, delayed, sending};

use receiver::ReceiverConfig;
use rtpwire::{ConfigFault, Session};
use sender::SenderConfig;
use std::marker::Model;

/// How both ends of a world work.
#[derive(Clone, Copy, Debug, PartialEq, Eq)]
pub struct Config {
    sender: SenderConfig,
    receiver: ReceiverConfig,
    history: usize,
    window: usize,
}

impl Model for Config {
    ghost use Rattle.std.specs.Prelude.{◌≡◌, false};
    ghost use Rattle.world.specs.Config.{Config as Value_of, IsConfig, config, sending};

    ghost Value = { Value_of };

    ghost view = { λ c. config c.receiver c.sender.first c.sender.repair_first c.history c.window c.sender.repeats };

    ghost invariant = { λ c. (c.sender.session ≡ c.receiver.session) × (c.sender.any_reporter ≡ false) × IsConfig (config c.receiver c.sender.first c.sender.repair_first c.history c.window c.sender.repeats) };

    ghost inverse = { λ c. record { sender = sending c; receiver = c.receiver; history = c.history; window = c.window } };
}

impl Config {
    /// Two ends of this session. The first send has the sequence number `first`, the first retransmission
    /// `repair_first`. The sender keeps the latest `history` contents and sends each again at most `repeats`
    /// times; the receiver keeps up to `window` places, gives a missing one up by a play once `patience` milliseconds
    /// have passed since it was noticed, and until then asks for it at most `asks` times, at least `retry`
    /// milliseconds apart.
    ///
    /// `BadLimit` (53): `history` or `window` is not in 1 to 8192, or `retry`, `asks` or `repeats` is 0.
    #[allow(clippy::too_many_arguments)]
    pub fn new(
        session: Session,
        first: u16,
        repair_first: u16,
        history: usize,
        window: usize,
        patience: u64,
        retry: u64,
        asks: u8,
        repeats: u8,
    ) -> Result<Config, ConfigFault>
        ensures ok { IfOk result (λ made.
            made ≡ config (receiving session patience retry asks) first repair_first history window repeats) }
        ensures succeeds { IsOk result
            ↔ IsConfig (config (receiving session patience retry asks) first repair_first history window repeats) }
        ensures err { OnErr result (result ≡ Err ConfigFault.BadLimit) }
    {
        let receiver = ReceiverConfig::new(session, patience, retry, asks)?;
        Config::checked(receiver, first, repair_first, history, window, repeats)
    }

    /// The same, but for a receiver that does not use the session's SSRC of the retransmissions: it learns it from
    /// the first retransmission of a place that it asked for.
    #[allow(clippy::too_many_arguments)]
    pub fn learning(
        session: Session,
        first: u16,
        repair_first: u16,
        history: usize,
        window: usize,
        patience: u64,
        retry: u64,
        asks: u8,
        repeats: u8,
    ) -> Result<Config, ConfigFault>
        ensures ok { IfOk result (λ made.
            made ≡ config (learning session patience retry asks) first repair_first history window repeats) }
        ensures succeeds { IsOk result
            ↔ IsConfig (config (learning session patience retry asks) first repair_first history window repeats) }
        ensures err { OnErr result (result ≡ Err ConfigFault.BadLimit) }
    {
        let receiver = ReceiverConfig::learning(session, patience, retry, asks)?;
        Config::checked(receiver, first, repair_first, history, window, repeats)
    }

    /// The same world, but that its receiver asks for a missing place for the first time once `delay` milliseconds have
    /// passed since it was noticed. With 0, which is what a new configuration has, it asks at once.
    pub fn with_delay(self, delay: u64) -> Config
        ensures { result ≡ delayed self delay }
    {
        Config {
            receiver: self.receiver.with_delay(delay),
            ..self
        }
    }

    /// Two ends with this receiver, if the limits are met.
    fn checked(
        receiver: ReceiverConfig,
        first: u16,
        repair_first: u16,
        history: usize,
        window: usize,
        repeats: u8,
    ) -> Result<Config, ConfigFault>
        ensures ok { IfOk result (λ made. made ≡ config receiver first repair_first history window repeats) }
        ensures succeeds { IsOk result ↔ IsConfig (config receiver first repair_first history window repeats) }
        ensures err { OnErr result (result ≡ Err ConfigFault.BadLimit) }
    {
        let sender = SenderConfig::new(receiver.session(), first, repair_first, repeats)?;
        if !is_capacity(history) || !is_capacity(window) {
            return Err(ConfigFault::BadLimit);
        }
        Ok(Config {
            sender,
            receiver,
            history,
            window,
        })
    }

    /// It is within the limits of a world. This computes nothing.
    pub(crate) fn limits(&self)
        ensures { IsConfig self.now }
    {
        let _ = &self.sender;
    }

    /// How its sender works.
    pub(crate) fn sender(&self) -> SenderConfig
        ensures { result ≡ sending self.now }
    {
        self.sender
    }

    /// How its receiver works.
    pub(crate) fn receiver(&self) -> ReceiverConfig
        ensures { result ≡ self.now.receiver }
    {
        self.receiver
    }

    /// How many of the latest contents the sender keeps.
    pub(crate) fn history(&self) -> usize
        ensures value { result ≡ self.now.history }
        ensures limits { IsConfig self.now }
    {
        self.history
    }

    /// How many places the receiver keeps.
    pub(crate) fn window(&self) -> usize
        ensures value { result ≡ self.now.window }
        ensures limits { IsConfig self.now }
    {
        self.window
    }
}

/// Whether a store may have so much room.
fn is_capacity(room: usize) -> bool
    ensures { IsTrue result ↔ ((1 ≤ room) × (room ≤ 8192)) }
{
    (1..=8192).contains(&room)
}
