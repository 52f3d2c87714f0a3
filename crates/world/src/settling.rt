//! One undisturbed round that settles a world.
ghost use Rattle.std.specs.Prelude.{◌≡◌, ◌↔◌, ◌≤◌, ◌+◌, ◌*◌, ◌++◌, [], ◌∷◌, ℕ, length, reverse, IfOk, IsTrue, OnOk, OnErr, MatchOption};
ghost use Rattle.world.specs.Answers.{Step};
ghost use Rattle.world.specs.Good.{KeepsPromises};
ghost use Rattle.world.specs.Reach.{highest_taken, shift_of};
ghost use Rattle.world.specs.Close.{IsClose, IsHonest};
ghost use Rattle.world.specs.Round.{GoesOn, IsRound, IsRoundBegun, IsMarkedUpTo, IsMendable, IsMended};
ghost use Rattle.world.specs.World.{IsLogged, stand_of};

use crate::event::{Entry, Event};
use crate::laws::{logs_keep_promises, rounds_mend};
use crate::log::Log;
use crate::marks::is_marked_up_to;
use crate::wire::Wire;
use crate::world::World;
use fbwire::{compound_is_determined, nack_is_determined};
use receiver::hearing_is_determined;
use sender::feedback_is_determined;
use stores::{History, OutOfMemory, Window};

impl<H: History, W: Window, N: Wire, L: Log> World<H, W, N, L> {
    /// One round at the moment `now`, in which nothing is lost: the receiver asks until no place is due, and each ask
    /// reaches the sender at once; then the sender retransmits until no place is marked, and each retransmission reaches
    /// the receiver at once. The answer is how many events that were. They are in the log as any others.
    ///
    /// Where the log is close and honest, and no place is marked above the greatest one taken, each place is held
    /// afterwards that was missing and due, that the history has, and that may be retransmitted once more.
    ///
    /// `OutOfMemory`: the log or the wire could not grow. The world then stands after a beginning of the round.
    pub fn settle(&mut self, now: u64) -> Result<u64, OutOfMemory>
        ensures config { self.new.config ≡ self.old.config }
        ensures capacity { self.new.receiver.span.capacity ≡ self.new.config.window }
        ensures kept { self.new.sender.past.capacity ≡ self.new.config.history }
        // What was done is a round, or a beginning of one.
        ensures round { OnOk result (GoesOn self.old.config (IsRound now) (stand_of self.old) (stand_of self.new) self.old.log self.new.log) }
        ensures err { OnErr result (GoesOn self.old.config (IsRoundBegun now) (stand_of self.old) (stand_of self.new) self.old.log self.new.log) }
        // The answer counts its events, and they are few.
        ensures count { IfOk result (λ count. length self.new.log ≡ length self.old.log + count) }
        ensures few { IfOk result (λ count. count ≤ 2 * self.old.config.window + 2 * self.old.config.history + 2) }
        // It mends what can be mended, and the log stays close.
        ensures mended { OnOk result ((place : ℕ) → IsClose (reverse self.old.log) → IsHonest (reverse self.old.log)
            → IsMarkedUpTo (highest_taken (reverse self.old.log)) (stand_of self.old).sender
            → IsMendable self.old.config (shift_of (reverse self.old.log)) (stand_of self.old) place now
            → IsMended self.old.config (reverse self.new.log) (stand_of self.new) place × IsClose (reverse self.new.log)) }

        // As after each event: the log answers events, and keeps to what such logs promise.
        ensures logged { IsLogged self.new.config self.new.log (stand_of self.new) }
        ensures promises { KeepsPromises self.new.config self.new.log (stand_of self.new) }
    {
        logs_keep_promises();
        let done = self.ask_and_repair(now);
        self.keeps_log();
        done
    }

    /// Whether no place is marked above the greatest one taken. Where the log is close too, which [`close`](World::close) tells, a
    /// round mends all that [`settle`](World::settle) speaks of. It looks at each sequence number, and takes no memory.
    pub fn is_settled(&self) -> bool
        ensures { IsTrue result ↔ IsMarkedUpTo (highest_taken (reverse self.now.log)) (stand_of self.now).sender }
    {
        match self.closeness().highest() {
            None => true,
            Some(highest) => is_marked_up_to(self.history(), highest),
        }
    }

    /// The round.
    fn ask_and_repair(&mut self, now: u64) -> Result<u64, OutOfMemory>
        ensures config { self.new.config ≡ self.old.config }
        ensures round { OnOk result (GoesOn self.old.config (IsRound now) (stand_of self.old) (stand_of self.new) self.old.log self.new.log) }
        ensures err { OnErr result (GoesOn self.old.config (IsRoundBegun now) (stand_of self.old) (stand_of self.new) self.old.log self.new.log) }
        ensures count { IfOk result (λ count. length self.new.log ≡ length self.old.log + count) }
        ensures few { IfOk result (λ count. count ≤ 2 * self.old.config.window + 2 * self.old.config.history + 2) }
        ensures mended { OnOk result ((place : ℕ) → IsClose (reverse self.old.log) → IsHonest (reverse self.old.log)
            → IsMarkedUpTo (highest_taken (reverse self.old.log)) (stand_of self.old).sender
            → IsMendable self.old.config (shift_of (reverse self.old.log)) (stand_of self.old) place now
            → IsMended self.old.config (reverse self.new.log) (stand_of self.new) place × IsClose (reverse self.new.log)) }
    {
        compound_is_determined();
        nack_is_determined();
        hearing_is_determined();
        feedback_is_determined();
        rounds_mend();
        self.keeps_log();
        let mut count = 0;
        while let Some(ask) = self.ask_once(now)? {
            self.advance(&Event::Deliver(ask, now))?;
            count += 2;
        }
        count += 1;
        while let Some(repair) = self.repair_once()? {
            self.advance(&Event::Deliver(repair, now))?;
            count += 2;
        }
        Ok(count + 1)
    }

    /// Asks, and answers the index of the ask on the wire.
    fn ask_once(&mut self, now: u64) -> Result<Option<u64>, OutOfMemory>
        ensures asked { IfOk result (λ told. MatchOption told
            (Step self.old.config (stand_of self.old) (Event.Ask now) (Entry.NoAsk now) (stand_of self.new) × (self.new.log ≡ self.old.log ++ Entry.NoAsk now ∷ []))
            (λ index. Step self.old.config (stand_of self.old) (Event.Ask now) (Entry.Asked index now) (stand_of self.new) × (self.new.log ≡ self.old.log ++ Entry.Asked index now ∷ []))) }
        ensures config { self.new.config ≡ self.old.config }
        ensures err { OnErr result (self.new ≡ self.old) }
    {
        self.happen(&Event::Ask(now))?;
        match self.last() {
            Some(Entry::Asked { index, .. }) => Ok(Some(*index)),
            _ => Ok(None),
        }
    }

    /// Retransmits, and answers the place and the index of the retransmission on the wire.
    fn repair_once(&mut self) -> Result<Option<u64>, OutOfMemory>
        ensures repaired { IfOk result (λ told. MatchOption told
            (Step self.old.config (stand_of self.old) Event.Repair Entry.NoRepair (stand_of self.new) × (self.new.log ≡ self.old.log ++ Entry.NoRepair ∷ []))
            (λ index. (place : ℕ) × Step self.old.config (stand_of self.old) Event.Repair (Entry.Repaired place index) (stand_of self.new) × (self.new.log ≡ self.old.log ++ Entry.Repaired place index ∷ []))) }
        ensures config { self.new.config ≡ self.old.config }
        ensures err { OnErr result (self.new ≡ self.old) }
    {
        self.happen(&Event::Repair)?;
        match self.last() {
            Some(Entry::Repaired { index, .. }) => Ok(Some(*index)),
            _ => Ok(None),
        }
    }

    /// Does one event, and tells no more of it than what a round needs.
    fn advance(&mut self, event: &Event) -> Result<(), OutOfMemory>
        ensures step { OnOk result ((entry : Entry) × Step self.old.config (stand_of self.old) event.now entry (stand_of self.new)
            × (self.new.log ≡ self.old.log ++ entry ∷ [])) }
        ensures config { self.new.config ≡ self.old.config }
        ensures err { OnErr result (self.new ≡ self.old) }
    {
        self.happen(event)
    }
}
