//! The world: two ends, the wire and the log.
ghost use Rattle.std.specs.Prelude.{◌≡◌, ◌↔◌, ◌<◌, ◌≤◌, ◌^◌, ℕ, ◌++◌, [], ◌∷◌, length, reverse, slice_get, List, IsTrue, Some, IsSomeAnd, IsNone, MatchOption, IfOk, OnOk, OnErr};
ghost use Rattle.sender.specs.Sender.{RepeatsWithin};
ghost use Rattle.receiver.specs.Asks.{AsksWithin};
ghost use Rattle.receiver.specs.Receiver.{state_of};
ghost use Rattle.world.specs.declared.event.Entry.{Entry};
ghost use Rattle.world.specs.Config.{IsConfig};
ghost use Rattle.world.specs.Counts.{counts_of};
ghost use Rattle.world.specs.Answers.{Step, Answers};
ghost use Rattle.world.specs.Close.{IsClose, IsUninjected, TellsCloseness};
ghost use Rattle.world.specs.Good.{IsGood, KeepsPromises};
ghost use Rattle.world.specs.World.{IsLogged, stand_of, empty};

use crate::closeness::Closeness;
use crate::config::Config;
use crate::counts::Counts;
use crate::ends::answered;
use crate::event::{Entry, Event, Label};
use crate::last_entry::LastEntry;
use crate::laws::{logs_are_good, logs_keep_promises};
use crate::log::Log;
use crate::packed_wire::PackedWire;
use crate::wire::Wire;
use receiver::Receiver;
use rtpwire::Datagram;
use sender::Sender;
use std::alloc::Global;
use std::marker::Model;
use stores::{History, OutOfMemory, Window};

/// Both ends, what lies between them, and what happened.
///
/// Its wire and its log are lists that it lends, where nothing else is said. A [`LeanWorld`](crate::LeanWorld) keeps less of them.
#[derive(Drop)]
pub struct World<H: History, W: Window, N: Wire = Vec<(Label, Datagram)>, L: Log = Vec<Entry>> {
    config: Config,
    sender: Sender<H>,
    wire: N,
    receiver: Receiver<W>,
    log: L,
    closeness: Closeness,
}

/// A world that keeps of its log the last entry alone, and of its wire no more than the datagrams are long. It answers as any other.
pub type LeanWorld<H, W> = World<H, W, PackedWire, LastEntry>;

impl<H: History, W: Window, N: Wire, L: Log> Model for World<H, W, N, L> {
    ghost use Rattle.std.specs.Prelude.{◌≡◌, reverse};
    ghost use Rattle.world.specs.Config.{sending};
    ghost use Rattle.world.specs.Close.{TellsCloseness};
    ghost use Rattle.world.specs.World.{Recorded, IsLogged, stand_at};

    ghost Value = { Recorded };

    ghost view = { λ w. record { config = w.config; sender = w.sender; wire = N.items w.wire; receiver = w.receiver; log = L.entries w.log } };

    ghost invariant = { λ w. (w.sender.config ≡ sending w.config) × (w.sender.past.capacity ≡ w.config.history)
        × (w.receiver.config ≡ w.config.receiver) × (w.receiver.span.capacity ≡ w.config.window)
        × IsLogged w.config (L.entries w.log) (stand_at w.sender (N.items w.wire) w.receiver)
        × TellsCloseness w.closeness.highest w.closeness.holds (reverse (L.entries w.log)) };
}

impl<H: History, W: Window> World<H, W> {
    /// A world in which nothing happened.
    ///
    /// `OutOfMemory`: the allocator refused the sender's history or the receiver's window.
    pub fn new(alloc: Global, config: &Config) -> Result<World<H, W>, OutOfMemory>
        ensures { IfOk result (λ world. world ≡ empty config.now) }
    {
        World::empty(alloc, config)
    }

    /// The wire: each datagram that was put on it, under its label.
    pub fn wire(&self) -> &[(Label, Datagram)]
        ensures { result.now ≡ self.now.wire }
    {
        self.wire.as_slice()
    }

    /// The log: one entry for each event.
    pub fn log(&self) -> &[Entry]
        ensures { result.now ≡ self.now.log }
    {
        self.log.as_slice()
    }
}

impl<H: History, W: Window, N: Wire, L: Log> World<H, W, N, L> {
    /// A world in which nothing happened, whatever it keeps of its wire and its log.
    ///
    /// `OutOfMemory`: the allocator refused the sender's history or the receiver's window.
    pub fn empty(alloc: Global, config: &Config) -> Result<World<H, W, N, L>, OutOfMemory>
        ensures { IfOk result (λ world. world ≡ empty config.now) }
    {
        let history = H::new(alloc, config.history())?;
        let window = W::new(alloc, config.window())?;
        Ok(World {
            config: *config,
            sender: Sender::new(config.sender(), history),
            wire: N::empty(alloc),
            receiver: Receiver::new(config.receiver(), window),
            log: L::empty(alloc),
            closeness: Closeness::new(),
        })
    }

    /// Does one event, keeps its entry in the log and answers a copy of it. [`happen`](World::happen) makes no copy.
    ///
    /// `OutOfMemory`: the log or the wire could not grow. The world is then as it was.
    pub fn step(&mut self, event: &Event) -> Result<Entry, OutOfMemory>
        ensures step { IfOk result (λ entry. Step self.old.config (stand_of self.old) event.now entry (stand_of self.new)) }
        ensures log { IfOk result (λ entry. self.new.log ≡ self.old.log ++ entry ∷ []) }
        ensures config { self.new.config ≡ self.old.config }
        ensures capacity { self.new.receiver.span.capacity ≡ self.new.config.window }
        ensures kept { self.new.sender.past.capacity ≡ self.new.config.history }
        ensures err { OnErr result (self.new ≡ self.old) }

        // The log answers the events so far, and keeps to what such logs promise.
        ensures logged { OnOk result (IsLogged self.new.config self.new.log (stand_of self.new)) }
        ensures promises { OnOk result (KeepsPromises self.new.config self.new.log (stand_of self.new)) }
    {
        self.happen(event)?;
        Ok(self.last().unwrap().copy())
    }

    /// Does one event, and keeps its entry as the log's last one, which [`last`](World::last) lends.
    ///
    /// `OutOfMemory`: the log or the wire could not grow. The world is then as it was.
    pub fn happen(&mut self, event: &Event) -> Result<(), OutOfMemory>
        ensures step { OnOk result ((entry : Entry) × Step self.old.config (stand_of self.old) event.now entry (stand_of self.new)
            × (self.new.log ≡ self.old.log ++ entry ∷ [])) }
        ensures config { self.new.config ≡ self.old.config }
        ensures capacity { self.new.receiver.span.capacity ≡ self.new.config.window }
        ensures kept { self.new.sender.past.capacity ≡ self.new.config.history }
        ensures err { OnErr result (self.new ≡ self.old) }

        // As after each step: the log answers the events so far, and keeps to what such logs promise.
        ensures logged { OnOk result (IsLogged self.new.config self.new.log (stand_of self.new)) }
        ensures promises { OnOk result (KeepsPromises self.new.config self.new.log (stand_of self.new)) }
    {
        logs_keep_promises();
        self.config.limits();
        self.log.make_room()?;
        self.wire.make_room()?;
        answered(
            &self.config,
            &mut self.sender,
            &mut self.wire,
            &mut self.receiver,
            &mut self.log,
            event,
        );
        if let Some(entry) = self.log.last_entry() {
            self.closeness = self.closeness.after(entry);
        }
        Ok(())
    }

    /// The entry of what happened last, if anything did.
    pub fn last(&self) -> Option<&Entry>
        ensures some { (before : List Entry) (entry : Entry) → self.now.log ≡ before ++ entry ∷ [] → IsSomeAnd result (λ last. last.now ≡ entry) }
        ensures none { self.now.log ≡ [] → IsNone result }
    {
        self.log.last_entry()
    }

    /// Its configuration is within the limits, its stores have the room that this says, and its log answers some events.
    /// This computes nothing.
    pub(crate) fn keeps_log(&self)
        ensures limits { IsConfig self.now.config }
        ensures logged { IsLogged self.now.config self.now.log (stand_of self.now) }
        ensures capacity { self.now.receiver.span.capacity ≡ self.now.config.window }
        ensures kept { self.now.sender.past.capacity ≡ self.now.config.history }
    {
        self.config.limits();
    }

    /// The label and the octets of the wire's datagram at an index, counted from 0, if there is one.
    pub fn datagram(&self, index: u64) -> Option<(Label, &[u8])>
        ensures { MatchOption result (length self.now.wire ≤ index)
            (λ found. slice_get self.now.wire index ≡ Some (found.0, record { items = found.1.now })) }
    {
        self.wire.get(index)
    }

    /// How many datagrams were put on the wire. No memory holds 2^63 of them.
    pub fn datagrams(&self) -> u64
        ensures count { result ≡ length self.now.wire }
        ensures few { result < 2 ^ 63 }
    {
        self.wire.count()
    }

    /// How many entries of its log are of the kinds that are counted.
    pub fn counts(&self) -> Counts
        ensures { result ≡ counts_of self.now.log }
    {
        self.log.counts()
    }

    /// Whether the log is close and nothing was injected: each packet that was delivered lay less than 49153 from
    /// the greatest place taken before it. It takes no memory, and walks no log.
    ///
    /// As long as it is so, the log is good: what the receiver played is what was sent.
    pub fn close(&self) -> bool
        ensures exact { IsTrue result ↔ (IsClose (reverse self.now.log) × IsUninjected (reverse self.now.log)) }
        ensures good { IsTrue result → IsGood self.now.config (reverse self.now.log) (stand_of self.now) }
    {
        logs_are_good();
        self.config.limits();
        self.closeness.holds()
    }

    /// What it keeps of its log.
    pub(crate) fn closeness(&self) -> Closeness
        ensures { TellsCloseness result.highest result.holds (reverse self.now.log) }
    {
        self.closeness
    }

    /// The sender's history. It has no more entries than the configuration says, and none that was retransmitted more often.
    pub fn history(&self) -> &H
        ensures past { H.meaning result.now ≡ self.now.sender.past }
        ensures capacity { self.now.sender.past.capacity ≡ self.now.config.history }
        ensures limit { RepeatsWithin self.now.config.repeats self.now.sender.past }
    {
        self.sender.history()
    }

    /// The receiver's window. It has no more slots than the configuration says, and no place that was asked for more often.
    pub fn window(&self) -> &W
        ensures span { W.meaning result.now ≡ self.now.receiver.span }
        ensures capacity { self.now.receiver.span.capacity ≡ self.now.config.window }
        ensures limit { AsksWithin self.now.config.receiver.asks (state_of self.now.receiver) }
    {
        self.receiver.window()
    }
}

/// A new world after these events.
///
/// `OutOfMemory`: the allocator refused the history, the window, or a growth of the log or the wire.
pub fn run<H: History, W: Window>(
    alloc: Global,
    config: &Config,
    events: &[Event],
) -> Result<World<H, W>, OutOfMemory>
    ensures config { IfOk result (λ world. world.config ≡ config.now) }
    // The receiver's window is that of the configuration.
    ensures capacity { IfOk result (λ world. world.receiver.span.capacity ≡ config.now.window) }
    ensures kept { IfOk result (λ world. world.sender.past.capacity ≡ config.now.history) }
    // One entry for each event, each the answer of its end in the state that those before it left.
    ensures answers { IfOk result (λ world. Answers config.now (reverse events.now) (reverse world.log) (stand_of world)) }
    // What is played or given up rises, and is played never again; what lies on the wire was sent; no place is
    // retransmitted more often than the configuration allows; and, the headline, each beginning of the log that is close and
    // honest is good, and answers the first of these events: the receiver plays what was sent at each place, gives up and
    // waits for cause alone, and refuses lawfully.
    ensures promises { IfOk result (λ world. KeepsPromises config.now world.log (stand_of world)) }
{
    logs_keep_promises();
    config.limits();
    let mut world = World::new(alloc, config)?;
    for event in events {
        world.happen(event)?;
    }
    Ok(world)
}
