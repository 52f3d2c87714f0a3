//! The line of a tally.
ghost use Rattle.commands.specs.TallyText.{tally_line};
ghost use Rattle.lines.specs.Sink.{Pushes};

use lines::{Sink, Word, push_line};
use runs::Tally;

/// Pushes the line of a tally, in which the packets that were dropped are called so.
pub fn push_tally<S: Sink>(sink: &mut S, dropped: &str, tally: &Tally) -> Result<(), S::Fault>
    ensures { Pushes result (S.contents sink.old) (S.contents sink.new) (tally_line dropped.now tally.now) }
{
    let words = [
        Word::Text(b"sent"),
        Word::Decimal(tally.sent),
        Word::Text(dropped.as_bytes()),
        Word::Decimal(tally.dropped),
        Word::Text(b"repaired"),
        Word::Decimal(tally.repaired),
        Word::Text(b"played"),
        Word::Decimal(tally.played),
        Word::Text(b"gaps"),
        Word::Decimal(tally.gaps),
    ];
    push_line(sink, &words)
}
