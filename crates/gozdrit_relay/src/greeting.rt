//! What a relay tells at the start, and where it learnt a session.
use crate::foreign::Foreign;
use crate::journal::shown;
use crate::sockets::Kept;
use contexts::ContextFault;
use lines::{Word, push_line};
use rtpwire::Session;
use srtp::SrtpFault;
use std::io;
use std::net::SocketAddr;
use stores::OutOfMemory;

/// The line of the sockets: where datagrams are waited for, and from where and to where they leave; with the longest payload that they carry.
pub fn push_sockets(
    rt: &HostRuntime,
    line: &mut Vec<u8>,
    listening: SocketAddr,
    to: SocketAddr,
    from: SocketAddr,
    longest: usize,
) -> Result<(), OutOfMemory> {
    let told = format!(in rt.alloc();
        "listening at {listening} sending to {to} from {from} carrying payloads of up to {longest} octets\n"
    )?;
    line.extend_from_slice(told.as_bytes())?;
    Ok(())
}

/// The line of the metrics' address.
pub fn push_metrics(
    rt: &HostRuntime,
    line: &mut Vec<u8>,
    at: SocketAddr,
) -> Result<(), OutOfMemory> {
    let told = format!(in rt.alloc(); "metrics at http://{at}/metrics\n")?;
    line.extend_from_slice(told.as_bytes())?;
    Ok(())
}

/// The line of a session that was learnt, with its far side.
pub fn push_session(
    rt: &HostRuntime,
    line: &mut Vec<u8>,
    session: &Session,
    first: u16,
    far: SocketAddr,
    shows_repair: bool,
) -> Result<(), OutOfMemory> {
    let far = format!(in rt.alloc(); "{far}")?;
    let media = session.media_ssrc().to_be_bytes();
    let repair = session.repair_ssrc().to_be_bytes();
    let shown = shown(shows_repair);
    push_line(
        line,
        &[
            Word::Text(b"session"),
            Word::Octets(&media),
            Word::Text(b"type"),
            Word::Decimal(u64::from(session.media_type())),
            Word::Text(b"rtx-ssrc"),
            Word::Octets(&repair[..shown]),
            Word::Text(b"rtx-type"),
            Word::Decimal(u64::from(session.repair_type())),
            Word::Text(b"first"),
            Word::Decimal(u64::from(first)),
            Word::Text(b"with"),
            Word::Text(far.as_bytes()),
        ],
    )
}

/// The line of datagrams that came from elsewhere, with the address of the last one.
pub fn push_strays(
    rt: &HostRuntime,
    line: &mut Vec<u8>,
    count: u64,
    from: SocketAddr,
) -> Result<(), OutOfMemory> {
    let from = format!(in rt.alloc(); "{from}")?;
    push_line(
        line,
        &[
            Word::Text(b"turned away"),
            Word::Decimal(count),
            Word::Text(b"from"),
            Word::Text(from.as_bytes()),
        ],
    )
}

/// The line of packets that were left out since their payload is longer than this program carries, with what to do.
pub fn push_too_long(line: &mut Vec<u8>, count: u64, longest: usize) -> Result<(), OutOfMemory> {
    push_line(
        line,
        &[
            Word::Text(b"left out"),
            Word::Decimal(count),
            Word::Text(b"packets whose payload has more than"),
            Word::Decimal(longest as u64),
            Word::Text(b"octets: make relay PAYLOAD=N builds a relay that carries N"),
        ],
    )
}

/// The line of what was left out since it is no RTP, with what to do.
pub fn push_foreign(line: &mut Vec<u8>, count: u64, what: Foreign) -> Result<(), OutOfMemory> {
    let (name, hint): (&[u8], &[u8]) = match what {
        Foreign::Control => (
            b"datagrams of RTCP,",
            b"which does not pass: it has to reach the player by another way",
        ),
        Foreign::TransportStream => (
            b"datagrams of MPEG-TS without RTP,",
            b"which want --input ts, or RTP (RFC 2250), as ffmpeg makes it by -f rtp_mpegts",
        ),
        Foreign::NoTransportStream => (
            b"datagrams that are no MPEG-TS,",
            b"which alone --input ts takes",
        ),
    };
    push_line(
        line,
        &[
            Word::Text(b"left out"),
            Word::Decimal(count),
            Word::Text(name),
            Word::Text(hint),
        ],
    )
}

/// The line of a log that takes nothing more.
pub fn push_full(line: &mut Vec<u8>) -> Result<(), OutOfMemory> {
    push_line(
        line,
        &[Word::Text(b"the log can't be written, and loses lines until it can")],
    )
}

/// The line of a log that can't be opened anew, with what the system says of it.
pub fn push_unopened(
    rt: &HostRuntime,
    line: &mut Vec<u8>,
    error: &io::Error,
) -> Result<(), OutOfMemory> {
    let told = format!(in rt.alloc();
        "the log can't be opened anew, and goes on where it is: {error}\n"
    )?;
    line.extend_from_slice(told.as_bytes())?;
    Ok(())
}

/// The line of those before that standard error did not take.
pub fn push_unsaid(line: &mut Vec<u8>, count: u64) -> Result<(), OutOfMemory> {
    push_line(
        line,
        &[
            Word::Text(b"standard error took none of"),
            Word::Decimal(count),
            Word::Text(b"lines before the last one"),
        ],
    )
}

/// The line of a far side that is heard at another address.
pub fn push_moved(
    rt: &HostRuntime,
    line: &mut Vec<u8>,
    far: SocketAddr,
) -> Result<(), OutOfMemory> {
    let far = format!(in rt.alloc(); "{far}")?;
    push_line(
        line,
        &[
            Word::Text(b"moved"),
            Word::Text(b"to"),
            Word::Text(far.as_bytes()),
        ],
    )
}

/// The line of another address that what leaves goes to.
pub fn push_way(rt: &HostRuntime, line: &mut Vec<u8>, to: SocketAddr) -> Result<(), OutOfMemory> {
    let to = format!(in rt.alloc(); "{to}")?;
    push_line(
        line,
        &[Word::Text(b"sending to"), Word::Text(to.as_bytes())],
    )
}

/// The line of datagrams that the system did not take, with the address of the last one and what the system says of it.
pub fn push_failed(
    rt: &HostRuntime,
    line: &mut Vec<u8>,
    count: u64,
    to: SocketAddr,
    error: &io::Error,
) -> Result<(), OutOfMemory> {
    let told = format!(in rt.alloc(); "could not send {count}, the last one to {to}: {error}\n")?;
    line.extend_from_slice(told.as_bytes())?;
    Ok(())
}

/// The line of datagrams of the network that SRTP refuses, with the address of the last one and why that is refused.
pub fn push_denied(
    rt: &HostRuntime,
    line: &mut Vec<u8>,
    count: u64,
    from: SocketAddr,
    fault: &ContextFault,
) -> Result<(), OutOfMemory> {
    let why = denied_for(fault);
    let told = format!(in rt.alloc();
        "refused {count} by SRTP, the last one from {from}: {why}\n"
    )?;
    line.extend_from_slice(told.as_bytes())?;
    Ok(())
}

/// The line of packets whose sender did not answer, or that are of its past, with the address of the last one.
pub fn push_unanswered(
    rt: &HostRuntime,
    line: &mut Vec<u8>,
    count: u64,
    from: SocketAddr,
) -> Result<(), OutOfMemory> {
    let told = format!(in rt.alloc();
        "unheard {count} of who did not answer, or of a stream's past, the last one from {from}: no relay, which --challenge off hears, or a recording\n"
    )?;
    line.extend_from_slice(told.as_bytes())?;
    Ok(())
}

/// The line of datagrams that SRTP could not protect, and that did not leave, with why the last one is not.
pub fn push_withheld(
    rt: &HostRuntime,
    line: &mut Vec<u8>,
    count: u64,
    fault: &ContextFault,
) -> Result<(), OutOfMemory> {
    let why = denied_for(fault);
    let told = format!(in rt.alloc(); "withheld {count} that SRTP could not protect: {why}\n")?;
    line.extend_from_slice(told.as_bytes())?;
    Ok(())
}

/// Why SRTP refuses a datagram.
fn denied_for(fault: &ContextFault) -> &'static str {
    match fault {
        ContextFault::Full => "more SSRCs than a key is for: another key is wanted",
        ContextFault::OutOfMemory => "out of memory",
        ContextFault::Refused(SrtpFault::KeyEnd) =>
            "the key has come to its end: another one is wanted",
        ContextFault::Refused(SrtpFault::TooOld) => "too old",
        ContextFault::Refused(SrtpFault::TakenBefore) => "taken before",
        ContextFault::Refused(SrtpFault::WrongFlag) => "another profile",
        ContextFault::Refused(SrtpFault::WrongTag) => "the tag is wrong: another key, or none",
        ContextFault::Refused(_) => "no packet",
    }
}

/// The line of sockets for which the system keeps fewer octets than were asked for.
pub fn push_kept(line: &mut Vec<u8>, wanted: u64, kept: &Kept) -> Result<(), OutOfMemory> {
    push_line(
        line,
        &[
            Word::Text(b"the system keeps"),
            Word::Decimal(kept.come),
            Word::Text(b"octets of what comes and"),
            Word::Decimal(kept.leave),
            Word::Text(b"of what leaves, where"),
            Word::Decimal(wanted),
            Word::Text(b"are wanted: raise net.core.rmem_max and net.core.wmem_max"),
        ],
    )
}
