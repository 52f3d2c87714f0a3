//! Laws on how a sender is configured, field by field. These functions compute nothing: their contracts are the laws.
ghost use Rattle.std.specs.Prelude.{◌≡◌, ℕ, ◌+◌, Bool, true, false};
ghost use Rattle.rtpwire.specs.Session.{Streams};
ghost use Rattle.stores.specs.Past.{Past};
ghost use Rattle.sender.specs.Config.{Config, config, config_of, hearing_anyone};
ghost use Rattle.sender.specs.Sender.{new_sending};

/// What a configuration is made of is what it has, and what changes a part of it leaves the rest.
pub fn configurations_keep_their_fields()
    // Each number stands under its own name.
    ensures named { (s : Streams) (first repair_first repeats : ℕ) (any_reporter : Bool) → let c = config_of s first repair_first repeats any_reporter in
        (c.session ≡ s) × (c.first ≡ first) × (c.repair_first ≡ repair_first) × (c.repeats ≡ repeats) × (c.any_reporter ≡ any_reporter) }
    // A new one listens to the session's receiver alone.
    ensures new { (s : Streams) (first repair_first repeats : ℕ) → let c = config s first repair_first repeats in
        (c.session ≡ s) × (c.first ≡ first) × (c.repair_first ≡ repair_first) × (c.repeats ≡ repeats) × (c.any_reporter ≡ false) }
    // That every reporter is heard changes nothing else.
    ensures any_reporter { (c : Config) → let d = hearing_anyone c in
        (d.session ≡ c.session) × (d.first ≡ c.first) × (d.repair_first ≡ c.repair_first) × (d.repeats ≡ c.repeats) × (d.any_reporter ≡ true) }
{}

/// A new sender works as it was configured: its two streams begin with the two first numbers, the media one cycle above its.
pub fn new_senders_are_as_configured()
    ensures { (c : Config) (past : Past) → let s = new_sending c past in
        (s.config ≡ c) × (s.next ≡ 65536 + c.first) × (s.repair ≡ c.repair_first) × (s.past ≡ past) }
{}
