//! Laws on how a receiver is configured, field by field. These functions compute nothing: their contracts are the laws.
ghost use Rattle.std.specs.Prelude.{◌≡◌, ◌↔◌, ℕ, ◌+◌, ◌<◌, ◌≤◌, Bool, true, false, Option, Some, None, IsTrue};
ghost use Rattle.arrayvec.specs.ArrayVec.{ArrayVec};
ghost use Rattle.places.specs.Among.{is_among};
ghost use Rattle.rtpwire.specs.Session.{Streams};
ghost use Rattle.stores.specs.Span.{Span};
ghost use Rattle.receiver.specs.declared.answer.Played.{Played};
ghost use Rattle.receiver.specs.Config.{Config, config, config_with, learning, delayed, timed};
ghost use Rattle.receiver.specs.Window.{Missed, ReceiverState, PlaysAny};
ghost use Rattle.receiver.specs.Asks.{AsksAny};
ghost use Rattle.receiver.specs.Receiver.{Receiving, state_of, begun, restarted, unlearnt, with_times};

/// What a configuration is made of is what it has, and what changes a part of it leaves the rest.
pub fn configurations_keep_their_fields()
    // Each number stands under its own name.
    ensures named { (s : Streams) (patience delay retry asks : ℕ) (learns : Bool) → let c = config_with s patience delay retry asks learns in
        (c.session ≡ s) × (c.patience ≡ patience) × (c.delay ≡ delay) × (c.retry ≡ retry) × (c.asks ≡ asks) × (c.learns ≡ learns) }
    // A new one has no delay, and uses the session's SSRC of the retransmissions,
    ensures new { (s : Streams) (patience retry asks : ℕ) → let c = config s patience retry asks in
        (c.session ≡ s) × (c.patience ≡ patience) × (c.delay ≡ 0) × (c.retry ≡ retry) × (c.asks ≡ asks) × (c.learns ≡ false) }
    // or learns it.
    ensures learning { (s : Streams) (patience retry asks : ℕ) → let c = learning s patience retry asks in
        (c.session ≡ s) × (c.patience ≡ patience) × (c.delay ≡ 0) × (c.retry ≡ retry) × (c.asks ≡ asks) × (c.learns ≡ true) }
    // Another delay is the new one, and changes nothing else.
    ensures delayed { (c : Config) (delay : ℕ) → let d = delayed c delay in
        (d.session ≡ c.session) × (d.patience ≡ c.patience) × (d.delay ≡ delay) × (d.retry ≡ c.retry) × (d.asks ≡ c.asks) × (d.learns ≡ c.learns) }
    // Other times are the new ones, all three, and change nothing else.
    ensures timed { (c : Config) (patience delay retry : ℕ) → let d = timed c patience delay retry in
        (d.session ≡ c.session) × (d.patience ≡ patience) × (d.delay ≡ delay) × (d.retry ≡ retry) × (d.asks ≡ c.asks) × (d.learns ≡ c.learns) }
{}

/// What changes a receiver from outside leaves the rest of it.
pub fn receivers_keep_the_rest()
    // Other times change neither what it holds and misses nor what it learnt.
    ensures timed { (r : Receiving) (patience delay retry : ℕ) → let s = with_times r patience delay retry in
        (s.span ≡ r.span) × (s.learnt ≡ r.learnt)
        × (s.config.session ≡ r.config.session) × (s.config.asks ≡ r.config.asks) × (s.config.learns ≡ r.config.learns) }
    // One that begins at a place, or anew, is configured as it was and keeps as many places.
    ensures begun { (r : Receiving) (first : ℕ) → let s = begun r first in
        (s.config ≡ r.config) × (s.span.capacity ≡ r.span.capacity) × (s.span.cursor ≡ Some first) × (s.learnt ≡ None) }
    ensures restarted { (r : Receiving) → let s = restarted r in
        (s.config ≡ r.config) × (s.span.capacity ≡ r.span.capacity) × (state_of s ≡ None) × (s.learnt ≡ None) }
    // One that forgets the SSRC that it learnt holds and misses what it did.
    ensures unlearnt { (r : Receiving) → let s = unlearnt r in (s.config ≡ r.config) × (s.span ≡ r.span) × (s.learnt ≡ None) }
{}

/// A receiver whose times were set goes by them from then on, for the places too that were missing before.
pub fn set_times_are_followed()
    // The next place to play is given up exactly where the new patience has passed since it was noticed.
    ensures given_up { (r : Receiving) (patience delay retry now : ℕ) (w : ReceiverState) (m : Missed) (answer : Played) (new : Option ReceiverState)
        → let s = with_times r patience delay retry in
        state_of s ≡ Some w → w.held w.cursor ≡ None → w.missing w.cursor ≡ Some m
        → PlaysAny s.config.patience (state_of s) now answer new
        → (answer ≡ Played.Gap w.cursor) ↔ (m.noticed + patience ≤ now) }
    // A place that was not asked for is due exactly where the new delay is over since it was noticed,
    ensures first { (r : Receiving) (patience delay retry now k : ℕ) (w : ReceiverState) (m : Missed) (answer : Option (ArrayVec ℕ))
        (new : Option ReceiverState) → let s = with_times r patience delay retry in
        0 < delay → 0 < r.config.asks → w.missing k ≡ Some m → m.asks ≡ 0 → (asked : AsksAny s.config (Some w) now answer new)
        → IsTrue (is_among asked.due k) ↔ (m.noticed + delay ≤ now) }
    // and one that was, and may be again, where the new time between two asks is over since the last one.
    ensures again { (r : Receiving) (patience delay retry now k : ℕ) (w : ReceiverState) (m : Missed) (answer : Option (ArrayVec ℕ))
        (new : Option ReceiverState) → let s = with_times r patience delay retry in
        0 < m.asks → m.asks < r.config.asks → w.missing k ≡ Some m → (asked : AsksAny s.config (Some w) now answer new)
        → IsTrue (is_among asked.due k) ↔ (m.last + retry ≤ now) }
{}
