//! What the program says where it could not do its work, and its exit status.
ghost use Rattle.std.specs.Prelude.{◌≡◌};
ghost use Rattle.rtxtool.specs.Status.{status_of};

use crate::command_line::ChooseFault;
use commands::{ListFault, PackFault, ShowFault, SimFault};
use runs::DriveFault;
use std::io::Write;
use thiserror::Error;

/// Why the program did not do its work.
#[derive(Debug, Drop, Error)]
pub enum ToolFault {
    /// The file can't be opened.
    #[error("fault input")]
    Input,
    /// What was written could not be brought out.
    #[error("fault output")]
    Output,
    /// The command line asks for nothing that the program does.
    #[error(transparent)]
    Choose(#[from] ChooseFault),
    /// The script was not done to its end.
    #[error(transparent)]
    Sim(#[from] SimFault),
    /// The trace was not shown to its end.
    #[error(transparent)]
    Show(#[from] ShowFault),
    /// The feedback for places was not written.
    #[error(transparent)]
    Pack(#[from] PackFault),
    /// The list of packets that are dropped was not read.
    #[error(transparent)]
    List(#[from] ListFault),
    /// There is no link to run over.
    #[error("fault link")]
    Link,
    /// The run over a link was not done to its end.
    #[error(transparent)]
    Drive(#[from] DriveFault),
    /// The allocator refused a growth.
    #[error("out of memory")]
    Memory,
}

/// Writes the line of a fault, or the text of `clap`, and answers the exit status, whatever the writer does:
/// 1 for an input that is refused, 2 for a command line, 3 for a file or a socket, 4 for memory.
pub fn tell<W: Write>(fault: &ToolFault, error: &mut W) -> u8
    ensures { result ≡ status_of fault.now }
{
    let _ = match fault {
        // It ends in a line feed of its own.
        ToolFault::Choose(ChooseFault::Line(text)) => write!(error, "{text}"),
        _ => writeln!(error, "{fault}"),
    };
    match fault {
        ToolFault::Sim(SimFault::BadLine(_)) => 1,
        ToolFault::Show(ShowFault::Frame(..)) => 1,
        ToolFault::Pack(PackFault::NotRising) | ToolFault::List(ListFault::BadList) => 1,
        ToolFault::Choose(ChooseFault::Line(_) | ChooseFault::Value) => 2,
        ToolFault::Input | ToolFault::Output => 3,
        ToolFault::Sim(SimFault::Read | SimFault::Write) => 3,
        ToolFault::Show(ShowFault::Read | ShowFault::Write) => 3,
        ToolFault::Pack(PackFault::Write) => 3,
        ToolFault::Link | ToolFault::Drive(DriveFault::Link) => 3,
        ToolFault::List(ListFault::OutOfMemory) | ToolFault::Drive(DriveFault::OutOfMemory) => 4,
        ToolFault::Choose(ChooseFault::OutOfMemory) => 4,
        ToolFault::Sim(SimFault::OutOfMemory) | ToolFault::Memory => 4,
    }
}
