//! A relay is made as the command line asks for, and runs.
ghost use Rattle.std.specs.Prelude.{◌≤◌, ◌<◌};

use crate::addresses::{bound, found, is_loop, leaving, toward};
use crate::admission::peers;
use crate::clients::Doors;
use crate::command_line::{Choice, Options};
use crate::control::doors;
use crate::ctl::ask;
use crate::draws::Draws;
use crate::fault::Fault;
use crate::greeting::{push_kept, push_metrics, push_sockets};
use crate::guard::Guard;
use crate::handed::{descriptor, handed};
use crate::host::{Change, Host, Sockets};
use crate::journal::Journal;
use crate::keys::{Key, RANDOM, drawn};
use crate::known::Known;
use crate::learners::{ReceiveLearner, SendLearner};
use crate::load::Store;
use crate::machine::{Learner, Machine};
use crate::notify::tell_ready;
use crate::sockets::{Kept, keep, kept_for, reach};
use crate::stream_form::{StreamForm, longest};
use crate::way::Way;
use endpoint::ResendRule;
use liveness::{Living, Sent};
use mio::net::UdpSocket;
use relays::{Bounds, Peers, Rate, ReceiveRelay, Relay, SendRelay, run};
use srtp::Profile;
use std::fs;
use std::io::{IsTerminal, Write};
use std::net::SocketAddr;
use stores::{RingHistory, RingWindow};

/// Runs the relay that was chosen, until one of its bounds, or asks one that runs. It answers the exit status.
pub fn relay<'a>(rt: &HostRuntime, choice: &Choice<'a>) -> Result<u8, Fault<'a>> {
    match choice {
        Choice::Send {
            options,
            rate,
            rule,
            follows,
            history,
            rtx_first,
        } => {
            let key = key(rt, options, true)?;
            let peers = peers(rt, options.peers)?;
            let Sides {
                to,
                listening: near,
                leaving: far,
                kept,
                doors,
            } = opened(rt, options)?;
            let known = known(rt, options, true)?;
            let learner = sender(
                rt, options, known, *rate, *rule, *follows, *history, *rtx_first, to,
            );
            let store = Store::History(*history as u64);
            let sockets = Sockets {
                way: Way::new(near.local_addr().ok(), to),
                near,
                far,
                kept,
                doors,
            };
            let guard = guard(rt, key, options.profile, None)?;
            go::<SendRelay<RingHistory>, SendLearner>(
                rt, options, learner, peers, sockets, store, guard,
            )
        }
        Choice::Receive {
            options,
            latency,
            window,
            hold,
            challenges,
        } => {
            let key = key(rt, options, false)?;
            let peers = peers(rt, options.peers)?;
            let Sides {
                to,
                listening: far,
                leaving: near,
                kept,
                doors,
            } = opened(rt, options)?;
            let known = known(rt, options, false)?;
            let asks = if *challenges { known.own } else { None };
            let guard = guard(rt, key, options.profile, asks)?;
            let learner = receiver(rt, options, known, *latency, *window, *hold, to);
            let store = Store::Window {
                places: *window as u64,
                latency: *latency,
            };
            let sockets = Sockets {
                way: Way::new(far.local_addr().ok(), to),
                near,
                far,
                kept,
                doors,
            };
            go::<ReceiveRelay<RingWindow>, ReceiveLearner>(
                rt, options, learner, peers, sockets, store, guard,
            )
        }
        Choice::Ctl {
            path,
            request,
            value,
        } => match ask(rt, path, request, *value)? {
            true => Ok(0),
            false => Ok(1),
        },
    }
}

/// The address that a relay sends to, the socket that it listens at, the one that it sends from, what the system keeps for either, and
/// where its clients come to.
#[derive(Drop)]
struct Sides {
    to: SocketAddr,
    listening: UdpSocket,
    leaving: UdpSocket,
    kept: Option<Kept>,
    doors: Doors,
}

/// The key that the options name, where they do. Under one a sender draws the SSRCs of its sessions.
fn key<'a>(
    rt: &HostRuntime,
    options: &Options<'a>,
    is_sender: bool,
) -> Result<Option<Key>, Fault<'a>> {
    let Some(path) = options.key_file else {
        return Ok(None);
    };
    if is_sender && options.ssrc.is_some() {
        return Err(Fault::Drawn("ssrc"));
    }
    if is_sender && options.rtx_ssrc.is_some() {
        return Err(Fault::Drawn("rtx-ssrc"));
    }
    match Key::read(rt, path) {
        Ok(key) => Ok(Some(key)),
        Err(why) => Err(Fault::Key(path, why)),
    }
}

/// What is known of a session before its first packet. Under a key no SSRC may come again at another start, so it is drawn.
fn known<'a>(rt: &HostRuntime, options: &Options<'a>, is_sender: bool) -> Result<Known, Fault<'a>> {
    let known = Known::of(options);
    if options.key_file.is_none() {
        return Ok(known);
    }
    match drawn(rt) {
        Some(number) => Ok(known.drawn(is_sender, number)),
        None => Err(Fault::Open(RANDOM)),
    }
}

/// What makes the relay before a network, once its session is known.
fn sender(
    rt: &HostRuntime,
    options: &Options<'_>,
    known: Known,
    rate: Rate,
    rule: ResendRule,
    follows: bool,
    history: usize,
    rtx_first: u16,
    far: SocketAddr,
) -> SendLearner {
    SendLearner {
        alloc: rt.alloc(),
        known,
        first: options.first,
        rtx_first,
        rate,
        rule,
        follows,
        history: within(history),
        far,
        renews: options.key_file.is_some(),
        bounds: bounds(options),
        passed: 0,
    }
}

/// What makes the relay behind a network, once its session is known.
fn receiver(
    rt: &HostRuntime,
    options: &Options<'_>,
    known: Known,
    latency: u64,
    window: usize,
    hold: Option<u32>,
    player: SocketAddr,
) -> ReceiveLearner {
    ReceiveLearner {
        alloc: rt.alloc(),
        known,
        first: options.first,
        latency,
        window: within(window),
        hold,
        player,
        bounds: bounds(options),
        passed: 0,
    }
}

/// A capacity of a store. The command line has no other ones.
fn within(capacity: usize) -> usize
    ensures some { 0 < result }
    ensures limit { result ≤ 8192 }
{
    capacity.max(1).min(8192)
}

/// Opens all sockets, and tells of them.
fn opened<'a>(rt: &HostRuntime, options: &Options<'a>) -> Result<Sides, Fault<'a>> {
    are_of_a_session(options)?;
    let from = match options.from {
        Some(name) => found(rt, name)?,
        None => Vec::new(rt.alloc()),
    };
    let Some(to) = toward(rt, &found(rt, options.to)?, &from) else {
        return Err(nowhere(options));
    };
    let listening = listening(rt, options.listen)?;
    if let Ok(at) = listening.local_addr() {
        if is_loop(at, to) {
            return Err(Fault::Loop(options.listen, options.to));
        }
    }
    let leaving = leaving(rt, &from, to, options.from.unwrap_or(options.to))?;
    set_reach(options, to, &leaving)?;
    let doors = doors(rt, options)?;
    let kept = make_room(options, &listening, &leaving);
    greet(
        rt,
        &listening,
        to,
        &leaving,
        longest(options.types.is_some()),
    );
    greet_metrics(rt, &doors);
    tell_room(rt, options.socket_buffer, kept);
    Ok(Sides {
        to,
        listening,
        leaving,
        kept,
        doors,
    })
}

/// The socket that a relay listens at: one that was handed over, or one of its own.
fn listening<'a>(rt: &HostRuntime, name: &'a str) -> Result<UdpSocket, Fault<'a>> {
    match descriptor(name) {
        Some(number) => handed(name, number),
        None => bound(rt, &found(rt, name)?, name),
    }
}

/// Nothing that a relay sends to has the family of what it sends from, or nothing is found there.
fn nowhere<'a>(options: &Options<'a>) -> Fault<'a> {
    match options.from {
        Some(from) => Fault::Families(from, options.to),
        None => Fault::Find(options.to),
    }
}

/// Whether the options are those of a session.
fn are_of_a_session<'a>(options: &Options<'a>) -> Result<(), Fault<'a>> {
    let are_ssrcs_equal = options.ssrc.is_some() && options.ssrc == options.rtx_ssrc;
    let are_types_equal = options.media_type.is_some() && options.media_type == options.rtx_type;
    let is_control = matches!(options.media_type, Some(64..=95));
    if are_ssrcs_equal || are_types_equal || is_control {
        return Err(Fault::Session);
    }
    Ok(())
}

/// Sets how far what goes to a group goes, where that is said.
fn set_reach<'a>(
    options: &Options<'a>,
    to: SocketAddr,
    leaving: &UdpSocket,
) -> Result<(), Fault<'a>> {
    let Some(ttl) = options.ttl else {
        return Ok(());
    };
    if !to.is_ipv4() || !to.ip().is_multicast() {
        return Err(Fault::Group(options.to));
    }
    if !reach(leaving, ttl) {
        return Err(Fault::Outside);
    }
    Ok(())
}

/// Asks the system to keep as many octets for both sockets as are wanted, each way, and gives how many it keeps for either, where it tells.
/// That is done before anybody is told that the relay listens: what comes then is kept. A socket that was handed over has the room that it
/// has, which may be more than the system grants to this program.
fn make_room(options: &Options<'_>, listening: &UdpSocket, leaving: &UdpSocket) -> Option<Kept> {
    let one = match descriptor(options.listen) {
        Some(_) => kept_for(listening)?,
        None => keep(listening, options.socket_buffer)?,
    };
    let other = keep(leaving, options.socket_buffer)?;
    Some(one.least(&other))
}

/// Tells where the system keeps fewer octets than are wanted.
fn tell_room(rt: &HostRuntime, wanted: i32, kept: Option<Kept>) {
    let Some(kept) = kept else {
        return;
    };
    let wanted = u64::from(wanted.unsigned_abs());
    let mut line = Vec::new(rt.alloc());
    if kept.is_less_than(wanted) && push_kept(&mut line, wanted, &kept).is_ok() {
        let _ = rt.stderr().write_all(&line);
    }
}

/// Runs a relay over its sockets, and writes the last line of counts.
fn go<'a, R: Relay + Drop, L: Learner<R> + Drop>(
    rt: &HostRuntime,
    options: &Options<'a>,
    learner: L,
    peers: Peers,
    sockets: Sockets,
    store: Store,
    guard: Option<Guard>,
) -> Result<u8, Fault<'a>> {
    let shows_repair = store.is_history() || options.rtx_ssrc.is_some();
    let journal = journal(rt, options, shows_repair)?;
    let stats = match options.stats {
        None if rt.stderr().is_terminal() => Some(1),
        None => Some(60),
        stats => stats,
    };
    let draws = Draws::new(options.seed, options.loss);
    let stream = StreamForm::of(rt, options, store.is_history());
    let Ok(mut host) = Host::new(
        rt,
        sockets,
        draws,
        journal,
        stats,
        store,
        stream,
        shows_repair,
        guard,
    ) else {
        return Err(Fault::Outside);
    };
    let mut machine = Machine::<L, R>::new(
        rt.alloc(),
        learner,
        peers,
        options.stream,
        bounds(options).until,
    );
    tell_ready(rt);
    let mut outcome = run(&mut host, &mut machine);
    for _change in 0..u64::MAX {
        let Some(change) = host.take_change() else {
            break;
        };
        match change {
            Change::Peers(peers) => machine.admit(peers),
            Change::Lives => machine.free(),
            Change::Far(far) => {
                if machine.lead(far) {
                    host.move_far(far);
                }
            }
        }
        outcome = run(&mut host, &mut machine);
    }
    host.end();
    if let Some(path) = options.control {
        let _ = fs::remove_file(rt, path);
    }
    if let (Some(journal), Some(file)) = (&host.journal, options.log) {
        if journal.lost() > 0 {
            return Err(Fault::Write(file, journal.lost()));
        }
    }
    if machine.is_out_of_memory() {
        return Err(Fault::Memory);
    }
    match outcome {
        Err(_) if !host.is_stopped() => Err(Fault::Outside),
        _ => Ok(0),
    }
}

/// What stands between the relay and the network, where there is a key. A receiver asks under its own SSRC who lives, where it does.
fn guard<'a>(
    rt: &HostRuntime,
    key: Option<Key>,
    profile: Profile,
    asks: Option<u32>,
) -> Result<Option<Guard>, Fault<'a>> {
    let Some(key) = key else {
        return Ok(None);
    };
    let living = match asks {
        Some(own) => Some(living(rt, own)?),
        None => None,
    };
    match key.ends(rt.alloc(), profile) {
        Some((inbound, outbound)) => Ok(Some(Guard {
            inbound,
            outbound,
            living,
            sent: Sent::new(),
        })),
        None => Err(Fault::Memory),
    }
}

/// Who lives: nobody before he answers a number that is drawn now.
fn living<'a>(rt: &HostRuntime, own: u32) -> Result<Living, Fault<'a>> {
    let Some(number) = drawn(rt) else {
        return Err(Fault::Open(RANDOM));
    };
    match Living::new(rt.alloc(), own, number) {
        Ok(living) => Ok(living),
        Err(_) => Err(Fault::Memory),
    }
}

/// The bounds of a run that begins now.
fn bounds(options: &Options<'_>) -> Bounds {
    Bounds {
        packets: options.packets,
        until: match options.seconds {
            Some(seconds) => Some(seconds.saturating_mul(1000)),
            None => None,
        },
    }
}

/// The log, where there is to be one.
fn journal<'a>(
    rt: &HostRuntime,
    options: &Options<'a>,
    shows_repair: bool,
) -> Result<Option<Journal<'a>>, Fault<'a>> {
    let Some(path) = options.log else {
        return Ok(None);
    };
    match Journal::open(rt, path, options.log_form, shows_repair) {
        Ok(journal) => Ok(Some(journal)),
        Err(_) => Err(Fault::Open(path)),
    }
}

/// Tells the sockets on standard error.
fn greet(
    rt: &HostRuntime,
    listening: &UdpSocket,
    to: SocketAddr,
    leaving: &UdpSocket,
    longest: usize,
) {
    let (Ok(listening), Ok(leaving)) = (listening.local_addr(), leaving.local_addr()) else {
        return;
    };
    let mut line = Vec::new(rt.alloc());
    if push_sockets(rt, &mut line, listening, to, leaving, longest).is_ok() {
        let _ = rt.stderr().write_all(&line);
    }
}

/// Tells where the metrics are.
fn greet_metrics(rt: &HostRuntime, doors: &Doors) {
    let Some(metrics) = &doors.metrics else {
        return;
    };
    let Ok(at) = metrics.local_addr() else {
        return;
    };
    let mut line = Vec::new(rt.alloc());
    if push_metrics(rt, &mut line, at).is_ok() {
        let _ = rt.stderr().write_all(&line);
    }
}
