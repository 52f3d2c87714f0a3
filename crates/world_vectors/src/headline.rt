//! What the headline says, in sessions over lists and over rings: how far a packet may come from the others, what an injection
//! does to it, and a worked run. A session of 49154 sends needs more than the usual time where each access is checked, under
//! `rt try --test`: `--seconds 600`.

use crate::sessions::goes;
use std::test::Fail;

/// The places 65537 to 114690.
#[test]
fn distances_up_to_49152(rt: HostRuntime) -> Result<(), Fail> {
    goes(
        rt.alloc(),
        "config 1 5 8 8 100 20 3 2\n\
         times 49154 S 0 0 0 - - -\n\
         close\n\
         D 0 0 => taken 65537 0\n\
         close\n\
         D 16384 0 => refused 34\n\
         close\n\
         D 49152 0 => refused 34\n\
         close\n\
         D 16383 0 => taken 81920 16376\n\
         close\n\
         D 0 0 => refused 35\n\
         close",
    )
}

/// Its sequence number is that of the place 16383 below the first.
#[test]
fn a_distance_of_49153(rt: HostRuntime) -> Result<(), Fail> {
    goes(
        rt.alloc(),
        "config 1 5 8 8 100 20 3 2\n\
         times 49154 S 0 0 0 - - -\n\
         D 0 0 => taken 65537 0\n\
         close\n\
         D 49153 0 => refused 35\n\
         open\n\
         P 0 => play 65537 0 0 - - -\n\
         open\n\
         D 1 0 => taken 65538 0\n\
         open",
    )
}

/// What lies beyond: the last of 65538 packets, whose sequence number is that of the second one again, comes next to the first.
/// So the receiver plays at its place 65538 what was sent at 131074, and `close` tells of it before the play. All else stays as
/// promised: places are played in rising order, the second packet comes too late for the place that was played, and a place that
/// was given up is not played later.
#[test]
fn a_distance_of_65537(rt: HostRuntime) -> Result<(), Fail> {
    goes(
        rt.alloc(),
        "config 1 5 8 8 100 20 3 2\n\
         times 65537 S 0 0 0 aa - -\n\
         S 1 0 0 bb - - => sent 131074 65537 806000020000000111111111bb\n\
         D 0 0 => taken 65537 0\n\
         close\n\
         D 65537 0 => taken 65538 0\n\
         open\n\
         P 0 => play 65537 0 0 aa - -\n\
         P 0 => play 65538 1 0 bb - -\n\
         P 0 => wait\n\
         D 1 0 => refused 35\n\
         D 3 10 => taken 65540 0\n\
         P 109 => wait\n\
         P 110 => gap 65539\n\
         D 2 111 => refused 35\n\
         P 112 => play 65540 0 0 aa - -\n\
         P 113 => wait\n\
         open",
    )
}

#[test]
fn an_injection(rt: HostRuntime) -> Result<(), Fail> {
    goes(
        rt.alloc(),
        "config 1 5 8 8 100 20 3 2\n\
         S 0 0 0 aa - - => sent 65537 0 806000010000000011111111aa\n\
         close\n\
         D 9 0 => nothing\n\
         close\n\
         I r - 0 => refused 1\n\
         open\n\
         D 0 0 => taken 65537 0\n\
         open",
    )
}

/// Where feedback was injected at the sender `close` is false too. It does no harm.
#[test]
fn a_refused_injection_at_the_sender(rt: HostRuntime) -> Result<(), Fail> {
    goes(
        rt.alloc(),
        "config 1 5 8 8 100 20 3 2\n\
         S 0 0 0 aa - - => sent 65537 0 806000010000000011111111aa\n\
         close\n\
         I s - 0 => refused 11\n\
         open\n\
         D 0 0 => taken 65537 0\n\
         open\n\
         P 0 => play 65537 0 0 aa - -\n\
         open",
    )
}

/// The same where it was not refused.
#[test]
fn an_injection_at_the_sender(rt: HostRuntime) -> Result<(), Fail> {
    goes(
        rt.alloc(),
        "config 1 5 8 8 100 20 3 2\n\
         S 0 0 0 aa - - => sent 65537 0 806000010000000011111111aa\n\
         close\n\
         I s 81cd0003333333331111111100010000 0 => marked 1\n\
         open\n\
         D 0 0 => taken 65537 0\n\
         open\n\
         P 0 => play 65537 0 0 aa - -\n\
         open",
    )
}

/// Twelve sends across a wrap, at the places 131070 to 131081, whose sequence numbers are 65534, 65535 and 0 to
/// 9. The window has 4 places, and a patience of 100.
///
/// The second packet comes first, so that is where the receiver starts. One packet is repeated, and one comes late, but in
/// time. From the moment 50 on one packet is lost, and given up when its patience has passed. From 160 on five packets are
/// missing when a higher one comes, which overruns two of them; three come after it, one of them too late, and one is given up.
#[test]
fn a_worked_run(rt: HostRuntime) -> Result<(), Fail> {
    goes(
        rt.alloc(),
        "config 65534 5 8 4 100 20 3 2\n\
         S 0 0 0 00 - - => sent 131070 0 8060fffe000000001111111100\n\
         S 1 0 0 01 - - => sent 131071 1 8060ffff000000011111111101\n\
         S 2 0 0 02 - - => sent 131072 2 80600000000000021111111102\n\
         S 3 1 0 0304 0000000700000008 bede00000001ffffffff => sent 131073 3 92e0000100000003111111110000000700000008bede000200000001ffffffff0304\n\
         S 4 0 0 04 - - => sent 131074 4 80600002000000041111111104\n\
         S 5 0 0 05 - - => sent 131075 5 80600003000000051111111105\n\
         S 6 0 0 06 - - => sent 131076 6 80600004000000061111111106\n\
         S 7 0 0 07 - - => sent 131077 7 80600005000000071111111107\n\
         S 8 0 0 08 - - => sent 131078 8 80600006000000081111111108\n\
         S 9 0 0 09 - - => sent 131079 9 80600007000000091111111109\n\
         S 10 0 0 0a - - => sent 131080 10 806000080000000a111111110a\n\
         S 11 0 0 0b - - => sent 131081 11 806000090000000b111111110b\n\
         D 1 10 => taken 131071 0\n\
         D 0 11 => refused 35\n\
         P 12 => play 131071 1 0 01 - -\n\
         D 3 20 => taken 131073 0\n\
         D 3 21 => refused 36\n\
         P 30 => wait\n\
         D 2 40 => taken 131072 0\n\
         P 41 => play 131072 2 0 02 - -\n\
         P 42 => play 131073 3 1 0304 0000000700000008 bede00000001ffffffff\n\
         P 43 => wait\n\
         D 5 50 => taken 131075 0\n\
         P 149 => wait\n\
         P 150 => gap 131074\n\
         D 4 151 => refused 35\n\
         P 152 => play 131075 5 0 05 - -\n\
         D 11 160 => taken 131081 2\n\
         D 6 161 => refused 35\n\
         D 8 162 => taken 131078 0\n\
         P 163 => play 131078 8 0 08 - -\n\
         P 259 => wait\n\
         P 260 => gap 131079\n\
         D 10 261 => taken 131080 0\n\
         P 262 => play 131080 10 0 0a - -\n\
         P 263 => play 131081 11 0 0b - -\n\
         P 264 => wait\n\
         D 12 270 => nothing\n\
         close",
    )
}
