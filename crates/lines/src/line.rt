//! Lines, made of words.
ghost use Rattle.std.specs.Prelude.{map};
ghost use Rattle.std.specs.List.{flat_map};
ghost use Rattle.lines.specs.Line.{behind_space, joined, line_of, refused_line};
ghost use Rattle.lines.specs.Sink.{Pushes};
ghost use Rattle.lines.specs.WordText.{word_text};

use crate::sink::Sink;
use crate::word::{Word, push_word};

/// Pushes a line of these words, with its line feed.
pub fn push_line<S: Sink>(sink: &mut S, words: &[Word<'_>]) -> Result<(), S::Fault>
    ensures { Pushes result (S.contents sink.old) (S.contents sink.new) (line_of (map word_text words.now)) }
{
    push_words(sink, words)?;
    sink.push(b"\n")
}

/// Pushes words with one space between them.
pub(crate) fn push_words<S: Sink>(sink: &mut S, words: &[Word<'_>]) -> Result<(), S::Fault>
    ensures { Pushes result (S.contents sink.old) (S.contents sink.new) (joined (map word_text words.now)) }
{
    let Some((first, others)) = words.split_first() else {
        return Ok(());
    };
    push_word(sink, *first)?;
    push_more(sink, others)
}

/// Pushes words, each behind a space.
pub(crate) fn push_more<S: Sink>(sink: &mut S, words: &[Word<'_>]) -> Result<(), S::Fault>
    ensures { Pushes result (S.contents sink.old) (S.contents sink.new) (flat_map behind_space (map word_text words.now)) }
{
    for word in words {
        sink.push(b" ")?;
        push_word(sink, *word)?;
    }
    Ok(())
}

/// Pushes the line of a refusal.
pub(crate) fn push_refused<S: Sink>(sink: &mut S, number: u8) -> Result<(), S::Fault>
    ensures { Pushes result (S.contents sink.old) (S.contents sink.new) (refused_line number) }
{
    push_line(
        sink,
        &[Word::Text(b"refused"), Word::Decimal(u64::from(number))],
    )
}
