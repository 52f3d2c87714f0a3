//! How soon packets are retransmitted again, as what is measured of the path says.
ghost use Rattle.std.specs.Prelude.{◌≡◌};
ghost use Rattle.endpoint.specs.ResendMetering.{HearsTime, meter_fixed, meter_following, meter_resent, meter_sent, rule_by};

use crate::resend_rule::ResendRule;
use crate::timely::TimelyEndpoint;
use sender::SenderConfig;
use stores::History;
use timing::ResendInterval;

/// What a sending endpoint measures of the path, so that no packet is retransmitted again while the answer to its last retransmission may
/// wait in a queue ([`timing::ResendInterval`]); or nothing, where a rule is to hold as it is.
///
/// It is handed what its endpoint did: each packet that was sent, each that was retransmitted, and each datagram of the far side, before
/// the endpoint hears that. Moments are in milliseconds.
#[derive(Clone, Copy, Debug, PartialEq, Eq)]
pub struct ResendMeter {
    interval: Option<ResendInterval>,
}

impl ResendMeter {
    /// Nothing is measured, and a rule holds as it is.
    pub fn fixed() -> ResendMeter
        ensures { result ≡ meter_fixed }
    {
        ResendMeter { interval: None }
    }

    /// Nothing was measured so far.
    pub fn following() -> ResendMeter
        ensures { result ≡ meter_following }
    {
        ResendMeter {
            interval: Some(ResendInterval::new()),
        }
    }

    /// The endpoint sent a packet at the moment `now`.
    pub fn send(&mut self, now: u64)
        ensures { self.new ≡ meter_sent self.old now }
    {
        if let Some(interval) = &mut self.interval {
            interval.send(now);
        }
    }

    /// It retransmitted one.
    pub fn resend(&mut self, now: u64)
        ensures { self.new ≡ meter_resent self.old now }
    {
        if let Some(interval) = &mut self.interval {
            interval.resend(now);
        }
    }

    /// A datagram of the far side came, which the endpoint of this configuration is still to hear.
    pub fn hear<H: History>(
        &mut self,
        endpoint: &TimelyEndpoint<H>,
        config: &SenderConfig,
        octets: &[u8],
        now: u64,
    )
        ensures { HearsTime config.now endpoint.now.endpoint.core.past endpoint.now.moments octets.now now self.old.interval self.new.interval }
    {
        if let Some(interval) = &mut self.interval {
            if let Some(answer) = endpoint.answer_time(config, octets, now) {
                interval.hear(answer, now);
            }
        }
    }

    /// The rule that holds at the moment `now` where this one is the endpoint's: packets are retransmitted again no sooner than it has it.
    pub fn rule(&self, rule: ResendRule, now: u64) -> ResendRule
        ensures { result ≡ rule_by self.now.interval rule now }
    {
        match &self.interval {
            Some(interval) => ResendRule {
                min_resend: interval.at(rule.min_resend, now),
                deadline: rule.deadline,
            },
            None => rule,
        }
    }
}
