//! Generic NACKs as text.
ghost use Rattle.std.specs.Prelude.{◌≡◌, map};
ghost use Rattle.std.specs.List.{flat_map};
ghost use Rattle.lines.specs.Line.{behind_space};
ghost use Rattle.lines.specs.ShowText.{nack_text, nacks_line, pair_text};
ghost use Rattle.lines.specs.Sink.{Pushes};

use crate::line::push_words;
use crate::sink::Sink;
use crate::word::Word;
use fbwire::{NackView, Nacks, Pair, Pairs};

/// Pushes the line of the NACKs of a datagram, with its line feed.
pub(crate) fn push_nacks<S: Sink>(sink: &mut S, nacks: Nacks<'_>) -> Result<(), S::Fault>
    ensures { Pushes result (S.contents sink.old) (S.contents sink.new) (nacks_line nacks.entry) }
{
    let mut others = nacks;
    if let Some(first) = others.next() {
        push_nack(sink, &first)?;
        push_more_nacks(sink, others)?;
    }
    sink.push(b"\n")
}

/// Pushes NACKs, each behind a space.
fn push_more_nacks<S: Sink>(sink: &mut S, nacks: Nacks<'_>) -> Result<(), S::Fault>
    ensures { Pushes result (S.contents sink.old) (S.contents sink.new) (flat_map behind_space (map nack_text nacks.entry)) }
{
    for nack in nacks {
        sink.push(b" ")?;
        push_nack(sink, &nack)?;
    }
    Ok(())
}

/// Pushes a NACK: `nack REPORTER MEDIA PID:BLP ..`.
fn push_nack<S: Sink>(sink: &mut S, nack: &NackView<'_>) -> Result<(), S::Fault>
    ensures { Pushes result (S.contents sink.old) (S.contents sink.new) (nack_text nack.now) }
{
    let reporter = nack.reporter().to_be_bytes();
    let media = nack.media().to_be_bytes();
    let words = [
        Word::Text(b"nack"),
        Word::Octets(&reporter),
        Word::Octets(&media),
    ];
    push_words(sink, &words)?;
    push_pairs(sink, nack.pairs())
}

/// Pushes pairs, each behind a space.
fn push_pairs<S: Sink>(sink: &mut S, pairs: Pairs<'_>) -> Result<(), S::Fault>
    ensures { Pushes result (S.contents sink.old) (S.contents sink.new) (flat_map behind_space (map pair_text pairs.entry)) }
{
    for pair in pairs {
        sink.push(&spaced_pair(pair))?;
    }
    Ok(())
}

/// A pair behind a space: `PID:BLP`, by four hexadecimal digits each.
fn spaced_pair(pair: Pair) -> [u8; 10]
    ensures { result ≡ behind_space (pair_text pair) }
{
    let [a, b] = pair.pid.to_be_bytes();
    let [c, d] = pair.blp.to_be_bytes();
    let mut digits = [0; 8];
    hex::encode_to_slice(&[a, b, c, d], &mut digits).unwrap();
    let [a, b, c, d, e, f, g, h] = digits;
    [b' ', a, b, c, d, b':', e, f, g, h]
}
