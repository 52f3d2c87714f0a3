//! Laws on how a world is configured, field by field. This function computes nothing: its contract is the laws.
ghost use Rattle.std.specs.Prelude.{◌≡◌, ℕ, false};
ghost use Rattle.receiver.specs.Config.{Config as Receiving};
ghost use Rattle.world.specs.Config.{Config, config, delayed, sending};

/// What a configuration is made of is what it has, and what changes a part of it leaves the rest.
pub fn configurations_keep_their_fields()
    // Each number stands under its own name.
    ensures named { (r : Receiving) (first repair_first history window repeats : ℕ) → let c = config r first repair_first history window repeats in
        (c.receiver ≡ r) × (c.first ≡ first) × (c.repair_first ≡ repair_first) × (c.history ≡ history) × (c.window ≡ window) × (c.repeats ≡ repeats) }
    // Another delay is the receiver's new one, and changes nothing else of the receiver,
    ensures delay { (c : Config) (delay : ℕ) → let r = c.receiver in let s = (delayed c delay).receiver in
        (s.session ≡ r.session) × (s.patience ≡ r.patience) × (s.delay ≡ delay) × (s.retry ≡ r.retry) × (s.asks ≡ r.asks) × (s.learns ≡ r.learns) }
    // and nothing else of the world.
    ensures delayed { (c : Config) (delay : ℕ) → let d = delayed c delay in
        (d.first ≡ c.first) × (d.repair_first ≡ c.repair_first) × (d.history ≡ c.history) × (d.window ≡ c.window) × (d.repeats ≡ c.repeats) }
    // Its sender has the same session, its own numbers, and listens to the session's receiver alone.
    ensures sending { (c : Config) → let s = sending c in
        (s.session ≡ c.receiver.session) × (s.first ≡ c.first) × (s.repair_first ≡ c.repair_first) × (s.repeats ≡ c.repeats) × (s.any_reporter ≡ false) }
{}
