//! What the program does with a command line, over whatever it reads and writes.
ghost use Rattle.std.specs.Prelude.{◌≡◌, ◌⊎◌, ◌≤◌, ℕ, List, Option, IfErr, IfSome, None, OnErr, OnOk, is_some, map, true};
ghost use Rattle.std.specs.Io.Buffered.{writer_contents, writer_inner};
ghost use Rattle.std.specs.Io.KnownBytes.{Appends, Keeps};
ghost use Rattle.commands.specs.Pack.{WrotePacking};
ghost use Rattle.commands.specs.TallyText.{tally_line};
ghost use Rattle.lines.specs.Sink.{AppendsFront};
ghost use Rattle.rtxtool.specs.CommandLine.{IsWithin, said_by};
ghost use Rattle.rtxtool.specs.Printing.{CameOut, ComesOut, FailsToDraw, FailsToLoop, Known, MayBe, PrintedAll, PrintedBefore, PrintedLoop, PrintedTally, RefusesPacking, RefusesTrace, ShowedAll, unknown};
ghost use Rattle.rtxtool.specs.Program.{Does, Ends, Helps, HelpsNot, Stops, Succeeds};
ghost use Rattle.rtxtool.specs.Status.{status_of};

use crate::command_line::{Choice, ChooseFault, choose};
use crate::tell::{ToolFault, tell};
use commands::{
    PackFault, ShowFault, SimFault, Stream, WriteFailed, drop_list, loopback, pack_text,
    push_tally, scripts_are_read, show_trace, sim_text,
};
use places::Place;
use runs::{Link, Tally, soak_seed};
use std::alloc::Global;
use std::convert::AsStr;
use std::io::{BufWriter, Read, Write};
use stores::{RingHistory, RingWindow};

/// Where the program runs: the files of a command line, the output, and the link of a run.
pub trait Outside {
    type Input: Read + Drop;

    type Link: Link + Drop;

    // What is known of it. One that tells nothing is held to nothing there.
    ghost known: { Self → Known } = { λ _. unknown };

    /// Opens a file. None: it can't be opened, so nobody knows what stands in it.
    fn open(&self, path: &str) -> Option<Self::Input>
        ensures octets { IfSome result (λ input. Self.Input.remaining input ≡ (known self.now).files path.now) }
        ensures there { IfSome ((known self.now).files path.now) (λ _. is_some result ≡ true) }
        ensures opens { IfSome ((known self.now).opens path.now) (λ opens. is_some result ≡ opens) };

    /// Whether there is an output. Where the program was started with none, the next file or socket that it opens would
    /// be taken for it.
    fn has_output(&self) -> bool
        ensures { IfSome (known self.now).output (λ there. result ≡ there) };

    /// Opens a link, which has not failed yet. None: there is none to be had.
    fn link(&self) -> Option<Self::Link>
        ensures unfailed { IfSome result (λ link. Self.Link.failed link ≡ 0) }
        ensures there { IfSome (known self.now).link (λ there. is_some result ≡ there) };
}

/// Does what a command line asks for, and answers the exit status. The first word is the program's name. With the
/// statuses 0 and 1 all that was printed has reached the writer behind the buffer. With 3, where a file, a socket or the
/// output fails, a beginning of what would be printed has reached it; with 4, where memory is refused, a script's log so
/// far, and else nothing. When a device fails or memory is refused, no contract can say.
pub fn program<S: AsStr, O: Outside, W: Write + Drop, E: Write>(
    alloc: Global,
    words: &[S],
    outside: &O,
    output: &mut Stream<BufWriter<W>>,
    error: &mut E,
) -> u8
    ensures { Ends result (O.known outside.now) (map S.text words.now) (writer_contents W.contents output.old.writer) (W.contents (writer_inner output.new.writer)) }
{
    match run(alloc, words, outside, output) {
        Ok(()) => 0,
        Err(fault) => tell(&fault, error),
    }
}

fn run<S: AsStr, O: Outside, W: Write + Drop>(
    alloc: Global,
    words: &[S],
    outside: &O,
    output: &mut Stream<BufWriter<W>>,
) -> Result<(), ToolFault>
    ensures ok { OnOk result (Succeeds (O.known outside.now) (map S.text words.now) (writer_contents W.contents output.old.writer) (W.contents (writer_inner output.new.writer))) }
    ensures err { IfErr result (λ fault. Ends (status_of fault) (O.known outside.now) (map S.text words.now) (writer_contents W.contents output.old.writer) (W.contents (writer_inner output.new.writer))) }
{
    match choose(alloc, words) {
        Ok(choice) => does(alloc, &choice, outside, output),
        Err(ChooseFault::Line(text)) => help(text, output),
        Err(fault) => Err(ToolFault::Choose(fault)),
    }
}

/// Does what was chosen.
fn does<O: Outside, W: Write + Drop>(
    alloc: Global,
    choice: &Choice<'_>,
    outside: &O,
    output: &mut Stream<BufWriter<W>>,
) -> Result<(), ToolFault>
    requires { IsWithin choice.now }
    ensures ok { OnOk result (Does (said_by choice.now) (O.known outside.now) (writer_contents W.contents output.old.writer) (W.contents (writer_inner output.new.writer))) }
    ensures err { IfErr result (λ fault. Stops (status_of fault) (said_by choice.now) (O.known outside.now) (writer_contents W.contents output.old.writer) (W.contents (writer_inner output.new.writer))) }
{
    match choice {
        Choice::Sim(path) => match outside.open(path) {
            Some(mut input) => match sim(alloc, &mut input, output) {
                Ok(()) => Ok(()),
                Err(fault) => Err(ToolFault::Sim(fault)),
            },
            None => Err(ToolFault::Input),
        },
        Choice::Show(path) => match outside.open(path) {
            Some(mut input) => match show(&mut input, output) {
                Ok(()) => Ok(()),
                Err(fault) => Err(ToolFault::Show(fault)),
            },
            None => Err(ToolFault::Input),
        },
        Choice::Pack(places) => match pack(places, output) {
            Ok(()) => Ok(()),
            Err(fault) => Err(ToolFault::Pack(fault)),
        },
        Choice::Soak {
            seed,
            packets,
            loss,
        } => soak(alloc, *seed, *packets, *loss, output),
        Choice::Loopback { packets, drop } => over_link(alloc, *packets, drop, outside, output),
    }
}

/// Prints the log of a script. That it can't be brought out is told before a fault of the script.
fn sim<R: Read, W: Write + Drop>(
    alloc: Global,
    input: &mut R,
    output: &mut Stream<BufWriter<W>>,
) -> Result<(), SimFault>
    ensures ok { OnOk result (IfSome (R.remaining input.old) (λ text. PrintedAll text (writer_contents W.contents output.old.writer) (W.contents (writer_inner output.new.writer)))) }
    ensures err { IfErr result (λ fault. IfSome (R.remaining input.old) (λ text. PrintedBefore fault text (writer_contents W.contents output.old.writer) (W.contents (writer_inner output.new.writer)))) }
{
    scripts_are_read();
    let outcome = sim_text(alloc, input, &mut output.writer);
    match (bring_out(output), outcome) {
        (Ok(()), Ok(_)) => Ok(()),
        (Ok(()), Err(fault)) => Err(fault),
        (Err(WriteFailed), _) => Err(SimFault::Write),
    }
}

/// Prints the lines of a trace. That they can't be brought out is told before a fault of the trace.
fn show<R: Read, W: Write + Drop>(
    input: &mut R,
    output: &mut Stream<BufWriter<W>>,
) -> Result<(), ShowFault>
    ensures ok { OnOk result (IfSome (R.remaining input.old) (λ trace. ShowedAll trace (writer_contents W.contents output.old.writer) (W.contents (writer_inner output.new.writer)))) }
    ensures err { IfErr result (λ fault. IfSome (R.remaining input.old) (λ trace. RefusesTrace fault trace (writer_contents W.contents output.old.writer) (W.contents (writer_inner output.new.writer)))) }
{
    let outcome = show_trace(input, output);
    match (bring_out(output), outcome) {
        (Ok(()), Ok(_)) => Ok(()),
        (Ok(()), Err(fault)) => Err(fault),
        (Err(WriteFailed), _) => Err(ShowFault::Write),
    }
}

/// Prints the feedback that asks for places.
fn pack<W: Write + Drop>(
    places: &[Place],
    output: &mut Stream<BufWriter<W>>,
) -> Result<(), PackFault>
    ensures ok { OnOk result (WrotePacking places.now (writer_contents W.contents output.old.writer) (W.contents (writer_inner output.new.writer))) }
    ensures err { IfErr result (λ fault. RefusesPacking fault places.now (writer_contents W.contents output.old.writer) (W.contents (writer_inner output.new.writer))) }
{
    let outcome = pack_text(places, output);
    match (bring_out(output), outcome) {
        (Ok(()), Ok(())) => Ok(()),
        (Ok(()), Err(fault)) => Err(fault),
        (Err(WriteFailed), _) => Err(PackFault::Write),
    }
}

/// Prints the tally of a drawn run.
fn soak<W: Write + Drop>(
    alloc: Global,
    seed: u64,
    packets: u32,
    loss: u32,
    output: &mut Stream<BufWriter<W>>,
) -> Result<(), ToolFault>
    requires { loss ≤ 1000 }
    ensures ok { OnOk result (PrintedTally seed packets loss (writer_contents W.contents output.old.writer) (W.contents (writer_inner output.new.writer))) }
    ensures err { IfErr result (λ fault. FailsToDraw fault seed packets loss (writer_contents W.contents output.old.writer) (W.contents (writer_inner output.new.writer))) }
{
    let Ok(tally) = soak_seed::<RingHistory, RingWindow>(alloc, seed, packets, loss) else {
        return Err(ToolFault::Memory);
    };
    match print_tally("lost", &tally, output) {
        Ok(()) => Ok(()),
        Err(WriteFailed) => Err(ToolFault::Output),
    }
}

/// Prints the tally of a run over a link. The list of packets is read before the link is opened.
fn over_link<O: Outside, W: Write + Drop>(
    alloc: Global,
    packets: u32,
    drops: &str,
    outside: &O,
    output: &mut Stream<BufWriter<W>>,
) -> Result<(), ToolFault>
    ensures ok { OnOk result (MayBe (O.known outside.now).output × MayBe (O.known outside.now).link × PrintedLoop packets drops.now (writer_contents W.contents output.old.writer) (W.contents (writer_inner output.new.writer))) }
    ensures err { IfErr result (λ fault. FailsToLoop fault packets drops.now (O.known outside.now) (writer_contents W.contents output.old.writer) (W.contents (writer_inner output.new.writer))) }
{
    let list = match drop_list(alloc, drops, packets) {
        Ok(list) => list,
        Err(fault) => {
            return match bring_out(output) {
                Ok(()) => Err(ToolFault::List(fault)),
                Err(WriteFailed) => Err(ToolFault::Output),
            };
        }
    };
    if !outside.has_output() {
        return Err(ToolFault::Output);
    }
    let Some(mut link) = outside.link() else {
        return Err(ToolFault::Link);
    };
    let tally = match loopback(alloc, &mut link, packets, &list) {
        Ok(tally) => tally,
        Err(fault) => return Err(ToolFault::Drive(fault)),
    };
    match print_tally("dropped", &tally, output) {
        Ok(()) => Ok(()),
        Err(WriteFailed) => Err(ToolFault::Output),
    }
}

/// Prints the line of a tally.
fn print_tally<W: Write + Drop>(
    dropped: &str,
    tally: &Tally,
    output: &mut Stream<BufWriter<W>>,
) -> Result<(), WriteFailed>
    ensures ok { OnOk result (Appends (writer_contents W.contents output.old.writer) (W.contents (writer_inner output.new.writer)) (tally_line dropped.now tally.now)) }
    ensures err { OnErr result (ComesOut (λ total. AppendsFront (writer_contents W.contents output.old.writer) total (tally_line dropped.now tally.now)) (W.contents (writer_inner output.new.writer))) }
{
    let pushed = push_tally(output, dropped, tally);
    match (bring_out(output), pushed) {
        (Ok(()), Ok(())) => Ok(()),
        _ => Err(WriteFailed),
    }
}

/// Brings out what the buffer holds. Where that fails, a beginning of what was put in has come out.
fn bring_out<W: Write + Drop>(output: &mut Stream<BufWriter<W>>) -> Result<(), WriteFailed>
    ensures came { CameOut (writer_contents W.contents output.old.writer) (W.contents (writer_inner output.new.writer)) }
    ensures ok { OnOk result (Keeps (writer_contents W.contents output.old.writer) (W.contents (writer_inner output.new.writer))) }
{
    match output.writer.flush() {
        Ok(()) => Ok(()),
        Err(_) => Err(WriteFailed),
    }
}

/// Prints the help or the version that was asked for; any other text of `clap` is a fault.
fn help<W: Write>(text: clap::Error, output: &mut Stream<W>) -> Result<(), ToolFault>
    ensures ok { OnOk result (Helps text) }
    ensures err { IfErr result (HelpsNot text) }
{
    if text.use_stderr() {
        return Err(ToolFault::Choose(ChooseFault::Line(text)));
    }
    if write!(&mut output.writer, "{text}").is_err() || output.writer.flush().is_err() {
        return Err(ToolFault::Output);
    }
    Ok(())
}
