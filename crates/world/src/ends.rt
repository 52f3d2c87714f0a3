//! What both ends of a world do with an event.
//!
//! An entry is as large as a content, and a function blanks each one that it may make as soon as it is entered. So what happens often
//! pays for no other entry: those of sends, refusals and plays are made in functions of their own, each where it is put into the log.
ghost use Rattle.std.specs.Prelude.{◌≡◌, ◌++◌, [], ◌∷◌, List, MatchOption};
ghost use Rattle.receiver.specs.Receiver.{Receiving};
ghost use Rattle.receiver.specs.Peeking.{played_of};
ghost use Rattle.sender.specs.Sender.{Sending};
ghost use Rattle.world.specs.Config.{Config as Setup, sending};
ghost use Rattle.world.specs.Answers.{Item, HearsAt, Step};
ghost use Rattle.world.specs.World.{stand_at};

use crate::config::Config;
use crate::event::{Answer, End, Entry, Event, Label};
use crate::log::Log;
use crate::pairs::pairs_in;
use crate::wire::Wire;
use places::Place;
use receiver::{Peeked, Played, Receiver};
use rtpwire::{Carried, Content, Datagram, MAX_DATAGRAM};
use sender::{SendFault, Sender};
use stores::{History, Window};

/// What the ends do with an event, whose entry is put into the log. There is room on the wire and in the log.
pub(crate) fn answered<H: History, W: Window, N: Wire, L: Log>(
    config: &Config,
    sender: &mut Sender<H>,
    wire: &mut N,
    receiver: &mut Receiver<W>,
    log: &mut L,
    event: &Event,
)
    requires room { N.has_room wire.old }
    requires log_room { L.has_room log.old }
    requires sender { sender.old.config ≡ sending config.now }
    requires history { sender.old.past.capacity ≡ config.now.history }
    requires receiver { receiver.old.config ≡ config.now.receiver }
    requires window { receiver.old.span.capacity ≡ config.now.window }
    ensures step { (entry : Entry) × Step config.now (stand_at sender.old (N.items wire.old) receiver.old) event.now entry
        (stand_at sender.new (N.items wire.new) receiver.new) × (L.entries log.new ≡ L.entries log.old ++ entry ∷ []) }
    ensures sender { sender.new.config ≡ sender.old.config }
    ensures history { sender.new.past.capacity ≡ sender.old.past.capacity }
    ensures receiver { receiver.new.config ≡ receiver.old.config }
    ensures window { receiver.new.span.capacity ≡ receiver.old.span.capacity }
{
    match event {
        Event::Send(content, padding) => sent(sender, wire, log, content, *padding),
        Event::Repair => repaired(sender, wire, log),
        Event::Ask(now) => asked(wire, receiver, log, *now),
        Event::Deliver(index, now) => { delivered(wire, sender, receiver, log, *index, *now) }
        Event::Play(now) => played(receiver, log, *now),
        Event::Inject(end, datagram, now) => {
            injected(sender, receiver, log, *end, datagram, *now)
        }
    }
}

/// Sends a content. There is room on the wire and in the log.
fn sent<H: History, N: Wire, L: Log>(
    sender: &mut Sender<H>,
    wire: &mut N,
    log: &mut L,
    content: &Content,
    padding: u8,
)
    requires room { N.has_room wire.old }
    requires log_room { L.has_room log.old }
    ensures step { (entry : Entry) × ((c : Setup) (receiver : Receiving) → sender.old.config ≡ sending c → sender.old.past.capacity ≡ c.history
        → Step c (stand_at sender.old (N.items wire.old) receiver) (Event.Send content.now padding) entry
        (stand_at sender.new (N.items wire.new) receiver)) × (L.entries log.new ≡ L.entries log.old ++ entry ∷ []) }
    ensures sender { sender.new.config ≡ sender.old.config }
    ensures history { sender.new.past.capacity ≡ sender.old.past.capacity }
{
    let index = wire.count();
    // A content that is lent needs no copy of its own, as one that is passed would.
    let mut octets = [0; MAX_DATAGRAM];
    let carried = Carried::of_content(content);
    match sender.send_into(&mut octets, &carried, padding).unwrap() {
        Err(fault) => log_refused(log, fault),
        Ok((place, len)) => {
            wire.put(Label::Media(place), &octets[..len]);
            log_sent(log, place, index, content);
        }
    }
}

/// Logs that a content was sent. There is room in the log.
fn log_sent<L: Log>(log: &mut L, place: Place, index: u64, content: &Content)
    requires room { L.has_room log.old }
    ensures { L.entries log.new ≡ L.entries log.old ++ Entry.Sent place index content.now ∷ [] }
{
    log.add(Entry::Sent {
        place,
        index,
        content: content.copy(),
    });
}

/// Logs that a send was refused. There is room in the log.
fn log_refused<L: Log>(log: &mut L, fault: SendFault)
    requires room { L.has_room log.old }
    ensures { L.entries log.new ≡ L.entries log.old ++ Entry.SendRefused fault ∷ [] }
{
    log.add(Entry::SendRefused(fault));
}

/// Retransmits. There is room on the wire and in the log.
fn repaired<H: History, N: Wire, L: Log>(sender: &mut Sender<H>, wire: &mut N, log: &mut L)
    requires room { N.has_room wire.old }
    requires log_room { L.has_room log.old }
    ensures step { (entry : Entry) × ((c : Setup) (receiver : Receiving) → sender.old.config ≡ sending c
        → Step c (stand_at sender.old (N.items wire.old) receiver) Event.Repair entry
        (stand_at sender.new (N.items wire.new) receiver)) × (L.entries log.new ≡ L.entries log.old ++ entry ∷ []) }
    ensures sender { sender.new.config ≡ sender.old.config }
    ensures history { sender.new.past.capacity ≡ sender.old.past.capacity }
{
    let index = wire.count();
    let mut octets = [0; MAX_DATAGRAM];
    match sender.next_repair_into(&mut octets).unwrap() {
        None => log.add(Entry::NoRepair),
        Some((place, len)) => {
            wire.put(Label::Repair(place), &octets[..len]);
            log.add(Entry::Repaired { place, index });
        }
    }
}

/// Asks. There is room on the wire and in the log.
fn asked<W: Window, N: Wire, L: Log>(
    wire: &mut N,
    receiver: &mut Receiver<W>,
    log: &mut L,
    now: u64,
)
    requires room { N.has_room wire.old }
    requires log_room { L.has_room log.old }
    ensures step { (entry : Entry) × ((c : Setup) (sender : Sending) → c.receiver ≡ receiver.old.config
        → Step c (stand_at sender (N.items wire.old) receiver.old) (Event.Ask now) entry
        (stand_at sender (N.items wire.new) receiver.new)) × (L.entries log.new ≡ L.entries log.old ++ entry ∷ []) }
    ensures receiver { receiver.new.config ≡ receiver.old.config }
    ensures window { receiver.new.span.capacity ≡ receiver.old.span.capacity }
{
    let index = wire.count();
    match receiver.ask(now) {
        None => log.add(Entry::NoAsk { now }),
        Some(datagram) => {
            let pairs = pairs_in(datagram.as_slice());
            wire.put(Label::Feedback(pairs), datagram.as_slice());
            log.add(Entry::Asked { index, now });
        }
    }
}

/// Hands the datagram at an index to the end that its label names. There is room in the log.
fn delivered<H: History, W: Window, N: Wire, L: Log>(
    wire: &N,
    sender: &mut Sender<H>,
    receiver: &mut Receiver<W>,
    log: &mut L,
    index: u64,
    now: u64,
)
    requires log_room { L.has_room log.old }
    ensures step { (entry : Entry) × ((c : Setup) → sender.old.config ≡ sending c → c.receiver ≡ receiver.old.config → c.window ≡ receiver.old.span.capacity
        → Step c (stand_at sender.old (N.items wire.now) receiver.old) (Event.Deliver index now) entry (stand_at sender.new (N.items wire.now) receiver.new))
        × (L.entries log.new ≡ L.entries log.old ++ entry ∷ []) }
    ensures sender { sender.new.config ≡ sender.old.config }
    ensures history { sender.new.past.capacity ≡ sender.old.past.capacity }
    ensures receiver { receiver.new.config ≡ receiver.old.config }
    ensures window { receiver.new.span.capacity ≡ receiver.old.span.capacity }
{
    match wire.get(index) {
        None => log_nothing(log),
        Some((label, octets)) => {
            let answer = heard(label.end(), sender, receiver, octets, now);
            log.add(Entry::Delivered {
                index,
                label,
                now,
                answer,
            });
        }
    }
}

/// Logs that nothing is on the wire at an index. There is room in the log.
fn log_nothing<L: Log>(log: &mut L)
    requires room { L.has_room log.old }
    ensures { L.entries log.new ≡ L.entries log.old ++ Entry.Nothing ∷ [] }
{
    log.add(Entry::Nothing);
}

/// Plays. There is room in the log.
fn played<W: Window, L: Log>(receiver: &mut Receiver<W>, log: &mut L, now: u64)
    requires log_room { L.has_room log.old }
    ensures step { (entry : Entry) × ((c : Setup) (sender : Sending) (wire : List Item) → c.receiver ≡ receiver.old.config
        → Step c (stand_at sender wire receiver.old) (Event.Play now) entry (stand_at sender wire receiver.new))
        × (L.entries log.new ≡ L.entries log.old ++ entry ∷ []) }
    ensures receiver { receiver.new.config ≡ receiver.old.config }
    ensures window { receiver.new.span.capacity ≡ receiver.old.span.capacity }
{
    log_played(log, now, receiver.peek(now));
    receiver.pass(now);
}

/// Logs what is played. There is room in the log.
fn log_played<L: Log>(log: &mut L, now: u64, peeked: Peeked<'_>)
    requires room { L.has_room log.old }
    ensures { L.entries log.new ≡ L.entries log.old ++ Entry.Played now (played_of peeked.entry) ∷ [] }
{
    match peeked {
        Peeked::Packet(place, content) => log_packet(log, now, place, content),
        Peeked::Gap(place) => log_unplayed(log, now, Some(place)),
        Peeked::Wait => log_unplayed(log, now, None),
    }
}

/// Logs that a packet was played, with a copy of its content from where that lies. There is room in the log.
fn log_packet<L: Log>(log: &mut L, now: u64, place: Place, content: &Content)
    requires room { L.has_room log.old }
    ensures { L.entries log.new ≡ L.entries log.old ++ Entry.Played now (Played.Packet place content.now) ∷ [] }
{
    log.add(Entry::Played {
        now,
        played: Played::Packet(place, content.copy()),
    });
}

/// Logs that no packet was played: a place was given up, or else the receiver waits. There is room in the log.
fn log_unplayed<L: Log>(log: &mut L, now: u64, gap: Option<Place>)
    requires room { L.has_room log.old }
    ensures { MatchOption gap (L.entries log.new ≡ L.entries log.old ++ Entry.Played now Played.Wait ∷ [])
        (λ place. L.entries log.new ≡ L.entries log.old ++ Entry.Played now (Played.Gap place) ∷ []) }
{
    log.add(Entry::Played {
        now,
        played: match gap {
            Some(place) => Played::Gap(place),
            None => Played::Wait,
        },
    });
}

/// Hands a datagram that nobody sent to an end. There is room in the log.
fn injected<H: History, W: Window, L: Log>(
    sender: &mut Sender<H>,
    receiver: &mut Receiver<W>,
    log: &mut L,
    end: End,
    datagram: &Datagram,
    now: u64,
)
    requires log_room { L.has_room log.old }
    ensures step { (entry : Entry) × ((c : Setup) (wire : List Item) → sender.old.config ≡ sending c → c.receiver ≡ receiver.old.config
        → c.window ≡ receiver.old.span.capacity
        → Step c (stand_at sender.old wire receiver.old) (Event.Inject end datagram.now now) entry (stand_at sender.new wire receiver.new))
        × (L.entries log.new ≡ L.entries log.old ++ entry ∷ []) }
    ensures sender { sender.new.config ≡ sender.old.config }
    ensures history { sender.new.past.capacity ≡ sender.old.past.capacity }
    ensures receiver { receiver.new.config ≡ receiver.old.config }
    ensures window { receiver.new.span.capacity ≡ receiver.old.span.capacity }
{
    log.add(Entry::Injected {
        end,
        now,
        answer: heard(end, sender, receiver, datagram.as_slice(), now),
    });
}

/// Hands octets to an end.
fn heard<H: History, W: Window>(
    end: End,
    sender: &mut Sender<H>,
    receiver: &mut Receiver<W>,
    octets: &[u8],
    now: u64,
) -> Answer
    ensures hears { (c : Setup) (wire : List Item) → sender.old.config ≡ sending c → c.receiver ≡ receiver.old.config → c.window ≡ receiver.old.span.capacity
        → HearsAt c end (stand_at sender.old wire receiver.old) octets.now now result (stand_at sender.new wire receiver.new) }
    ensures sender { sender.new.config ≡ sender.old.config }
    ensures history { sender.new.past.capacity ≡ sender.old.past.capacity }
    ensures receiver { receiver.new.config ≡ receiver.old.config }
    ensures window { receiver.new.span.capacity ≡ receiver.old.span.capacity }
{
    match end {
        End::Sender => match sender.on_feedback(octets) {
            Ok(marked) => Answer::Marked(marked),
            Err(fault) => Answer::FeedbackRefused(fault),
        },
        End::Receiver => match receiver.on_media(octets, now) {
            Ok(taken) => Answer::Taken(taken),
            Err(fault) => Answer::Refused(fault),
        },
    }
}
