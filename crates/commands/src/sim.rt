//! A script in, a log out.
ghost use Rattle.std.specs.Prelude.{◌≡◌, IfOk, IfErr, IfSome, OnErr, OnOk};
ghost use Rattle.std.specs.Io.KnownBytes.{IsAtEnd, Keeps, prepend_known};
ghost use Rattle.commands.specs.Found.{Found};
ghost use Rattle.commands.specs.Reading.{Continues, EndsAt, FailsAt, FailsFirst, IfBoth, IsNoLine, Leaves, TakesConfig};
ghost use Rattle.commands.specs.Sim.{Advances, AnswersRead, IsDone, IsStopped, WroteOfRead};
ghost use Rattle.lines.specs.LogText.{octets_at, written_octets};

use crate::fault::SimFault;
use crate::output::{flush, write_text};
use crate::pending::Pending;
use lines::{LONGEST_LINE, find_byte, parse_config, parse_event, push_entry_octets};
use std::alloc::Global;
use std::io::{Read, Write};
use stores::{OutOfMemory, RingHistory, RingWindow};
use world::{Config, Entry, Event, LeanWorld};

/// What stands at the front of the octets that are pending.
#[derive(Clone, Copy)]
pub enum Next {
    /// A line of so many octets, and its line feed.
    Line(usize),
    /// Nothing: the input is at its end.
    End,
    /// A line that is too long, or that lacks its line feed.
    Refused,
}

/// Reads until the octets that are pending begin with a line, or are seen to begin with none. What was
/// written is out before each read, which may have to wait.
fn next_line<R: Read, W: Write>(
    pending: &mut Pending,
    input: &mut R,
    output: &mut W,
) -> Result<Next, SimFault>
    ensures keeps { OnOk result (Keeps (prepend_known pending.old (R.remaining input.old)) (prepend_known pending.new (R.remaining input.new))) }
    ensures found { IfOk result (λ next. Found next pending.new (R.remaining input.new)) }
    ensures fault { IfErr result IsNoLine }
    ensures lost { IfErr result (λ fault. Leaves fault (prepend_known pending.old (R.remaining input.old)) (R.remaining input.new)) }
    ensures written { Keeps (W.contents output.old) (W.contents output.new) }
{
    while pending.octets().len() <= LONGEST_LINE {
        if let Some(at) = find_byte(pending.octets(), b'\n') {
            return Ok(Next::Line(at));
        }
        flush(output)?;
        if !pending.fill(input)? {
            return Ok(if pending.octets().is_empty() {
                Next::End
            } else {
                Next::Refused
            });
        }
    }
    match find_byte(pending.octets(), b'\n') {
        Some(at) => Ok(Next::Line(at)),
        None => Ok(Next::Refused),
    }
}

/// Reads the config line.
fn read_config<R: Read, W: Write>(
    pending: &mut Pending,
    input: &mut R,
    output: &mut W,
) -> Result<Config, SimFault>
    ensures ok { IfOk result (λ config. IfBoth (prepend_known pending.old (R.remaining input.old)) (prepend_known pending.new (R.remaining input.new)) (TakesConfig config)) }
    ensures err { IfErr result (λ fault. IfSome (prepend_known pending.old (R.remaining input.old)) (FailsFirst fault)) }
    ensures lost { IfErr result (λ fault. Leaves fault (prepend_known pending.old (R.remaining input.old)) (R.remaining input.new)) }
    ensures written { Keeps (W.contents output.old) (W.contents output.new) }
{
    match next_line(pending, input, output) {
        Ok(Next::Line(at)) => match parse_config(&pending.octets()[..at]) {
            Some(config) => {
                pending.skip(at + 1);
                Ok(config)
            }
            None => Err(SimFault::BadLine(1)),
        },
        Ok(Next::End) => Err(SimFault::BadLine(1)),
        Ok(Next::Refused) => Err(SimFault::BadLine(1)),
        Err(fault) => Err(fault),
    }
}

/// Reads the event of the line with this number, or finds that there is no further line: then it is none. The event is
/// put where the caller has it, since it is as large as a datagram.
fn read_event<R: Read, W: Write>(
    pending: &mut Pending,
    input: &mut R,
    output: &mut W,
    number: u64,
    event: &mut Option<Event>,
) -> Result<(), SimFault>
    ensures ok { OnOk result (IfBoth (prepend_known pending.old (R.remaining input.old)) (prepend_known pending.new (R.remaining input.new)) (Continues event.new)) }
    ensures end { OnOk result (EndsAt event.new (R.remaining input.new)) }
    ensures err { IfErr result (λ fault. IfSome (prepend_known pending.old (R.remaining input.old)) (FailsAt number fault)) }
    ensures lost { IfErr result (λ fault. Leaves fault (prepend_known pending.old (R.remaining input.old)) (R.remaining input.new)) }
    ensures written { Keeps (W.contents output.old) (W.contents output.new) }
{
    match next_line(pending, input, output) {
        Ok(Next::Line(at)) => {
            *event = parse_event(&pending.octets()[..at]);
            if event.is_none() {
                return Err(SimFault::BadLine(number));
            }
            pending.skip(at + 1);
            Ok(())
        }
        Ok(Next::End) => {
            *event = None;
            Ok(())
        }
        Ok(Next::Refused) => Err(SimFault::BadLine(number)),
        Err(fault) => Err(fault),
    }
}

/// The world of a script. It keeps no more of the log than the line that is written next needs.
type ScriptWorld = LeanWorld<RingHistory, RingWindow>;

/// The octets of the datagram at an index of the wire.
fn octets_at(world: &ScriptWorld, index: u64) -> &[u8]
    ensures { result.now ≡ octets_at world.now.wire index }
{
    match world.datagram(index) {
        Some((_, octets)) => octets,
        None => &[],
    }
}

/// The octets of the datagram that an entry tells was put on the wire; none where it tells of none.
fn written_octets<'a>(world: &'a ScriptWorld, entry: &Entry) -> &'a [u8]
    ensures { result.now ≡ written_octets world.now.wire entry.now }
{
    match entry {
        Entry::Sent { index, .. } => octets_at(world, *index),
        Entry::Repaired { index, .. } => octets_at(world, *index),
        Entry::Asked { index, .. } => octets_at(world, *index),
        _ => &[],
    }
}

/// Does an event, and puts the line of its entry in the place of `line`.
fn advance(world: &mut ScriptWorld, event: &Event, line: &mut Vec<u8>) -> Result<(), OutOfMemory>
    ensures { OnOk result (Advances world.old event.now world.new line.new.items) }
{
    world.happen(event)?;
    line.clear();
    match world.last() {
        Some(entry) => push_entry_octets(line, entry, written_octets(world, entry)),
        // An event has always its entry.
        None => Ok(()),
    }
}

/// Reads a script and writes its log, a line for each event as soon as that was done; answers the number of
/// events. It keeps one line of the script and one piece of it, and no list of events. Before each read it
/// flushes the writer.
///
/// `BadLine`: the first line that is no configuration or no event; the log of the events before it was
/// written. `Read`: the reader failed; the log of each whole line that it gave was written. `Write`: the
/// writer failed or took nothing. `OutOfMemory`: the allocator refused a growth. After these two a
/// beginning of the log was written.
pub fn sim_text<R: Read, W: Write>(
    alloc: Global,
    input: &mut R,
    output: &mut W,
) -> Result<u64, SimFault>
    ensures all_read { OnOk result (IsAtEnd (R.remaining input.new)) }
    ensures whole_log { IfOk result (λ count. IfSome (R.remaining input.old) (λ text. IsDone count text (W.contents output.old) (W.contents output.new))) }
    ensures first_bad_line { IfErr result (λ fault. IfSome (R.remaining input.old) (λ text. IsStopped fault text (W.contents output.old) (W.contents output.new))) }
    ensures all_answered { IfErr result (λ fault. AnswersRead fault (W.contents output.old) (W.contents output.new) (R.remaining input.old) (R.remaining input.new)) }
    ensures a_beginning { OnErr result (IfBoth (R.remaining input.old) (R.remaining input.new) (WroteOfRead (W.contents output.old) (W.contents output.new))) }
{
    let mut pending = Pending::new(alloc)?;
    let mut line = Vec::new(alloc);
    let config = read_config(&mut pending, input, output)?;
    let mut world = ScriptWorld::empty(alloc, &config)?;
    let mut event = None;
    // A log of 2^64 entries has no room in any memory, so the loop ends before its range does.
    for count in 0..u64::MAX - 2 {
        read_event(&mut pending, input, output, count + 2, &mut event)?;
        let Some(event) = &event else {
            return Ok(count);
        };
        advance(&mut world, event, &mut line)?;
        write_text(output, &line)?;
    }
    Err(SimFault::OutOfMemory)
}
