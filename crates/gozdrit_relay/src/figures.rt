//! What is told of a run, figure by figure: in the line of counts, to who asks, and in the metrics.
ghost use Rattle.std.specs.Prelude.{◌≡◌, ◌++◌, OnOk};
ghost use Rattle.std.specs.List.{flat_map};
ghost use Rattle.lines.specs.Line.{line_of};
ghost use Rattle.lines.specs.WordText.{word_text};
ghost use Rattle.gozdrit_relay.specs.Figures.{amount_text, figure_words};

use lines::{Word, push_line};
use std::alloc::Global;
use stores::OutOfMemory;

/// How much a figure comes to.
#[derive(Clone, Copy, Debug, PartialEq, Eq)]
pub enum Amount {
    /// So often it happened.
    Count(u64),
    /// So many milliseconds it lasts, where that is known.
    Time(Option<u64>),
    /// So many octets it has.
    Size(u64),
}

/// A figure by its name in the line of counts, and what it is.
#[derive(Clone, Copy)]
pub struct Figure<'a> {
    pub name: &'a str,
    pub what: &'a str,
    pub amount: Amount,
}

/// Pushes the line of these figures.
pub fn push_figures(
    alloc: Global,
    line: &mut Vec<u8>,
    figures: &[Figure<'_>],
) -> Result<(), OutOfMemory>
    ensures { OnOk result (line.new.items ≡ line.old.items ++ line_of (flat_map figure_words figures.now)) }
{
    let mut words = Vec::new(alloc);
    for figure in figures {
        words.push(Word::Text(figure.name.as_bytes()))?;
        words.push(word_of(figure.amount))?;
    }
    push_line(line, &words)
}

/// A number, or a dash where none is known.
fn word_of<'x>(amount: Amount) -> Word<'x>
    ensures { word_text result ≡ amount_text amount }
{
    match amount {
        Amount::Count(count) | Amount::Size(count) => Word::Decimal(count),
        Amount::Time(Some(time)) => Word::Decimal(time),
        Amount::Time(None) => Word::Text(b"-"),
    }
}
