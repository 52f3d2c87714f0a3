//! The figures of a run in the text form of Prometheus.
ghost use Rattle.std.specs.Prelude.{◌≡◌, ◌++◌, ◌+◌, ◌%◌, IfOk, OnOk};
ghost use Rattle.lines.specs.WordText.{word_text};
ghost use Rattle.gozdrit_relay.specs.Metrics.{metric_text, metrics_text, sample_text, seconds_text};

use crate::figures::{Amount, Figure};
use lines::{Word, push_line};
use std::alloc::Global;
use stores::OutOfMemory;

/// The metrics of these figures, whose names begin with a prefix.
pub fn metrics_of(
    alloc: Global,
    prefix: &str,
    figures: &[Figure<'_>],
) -> Result<Vec<u8>, OutOfMemory>
    ensures { IfOk result (λ text. text.items ≡ metrics_text prefix.now figures.now) }
{
    let mut text = Vec::new(alloc);
    for figure in figures {
        push_metric(alloc, &mut text, prefix, figure)?;
    }
    Ok(text)
}

/// Pushes the metric of a figure. What is not known is left out.
fn push_metric(
    alloc: Global,
    text: &mut Vec<u8>,
    prefix: &str,
    figure: &Figure<'_>,
) -> Result<(), OutOfMemory>
    ensures { OnOk result (text.new.items ≡ text.old.items ++ metric_text prefix.now figure.now) }
{
    match figure.amount {
        Amount::Count(count) => {
            let name = joined(alloc, prefix, figure.name, "_total")?;
            push_sample(text, &name, figure.what, "counter", Word::Decimal(count))
        }
        Amount::Time(Some(time)) => {
            let name = joined(alloc, prefix, figure.name, "_seconds")?;
            let seconds = seconds_of(alloc, time)?;
            push_sample(text, &name, figure.what, "gauge", Word::Text(&seconds))
        }
        Amount::Time(None) => Ok(()),
        Amount::Size(octets) => {
            let name = joined(alloc, prefix, figure.name, "_bytes")?;
            push_sample(text, &name, figure.what, "gauge", Word::Decimal(octets))
        }
    }
}

/// A name of three parts.
fn joined(alloc: Global, prefix: &str, name: &str, suffix: &str) -> Result<Vec<u8>, OutOfMemory>
    ensures { IfOk result (λ text. text.items ≡ (prefix.now ++ name.now) ++ suffix.now) }
{
    let mut text = Vec::new(alloc);
    text.extend_from_slice(prefix.as_bytes())?;
    text.extend_from_slice(name.as_bytes())?;
    text.extend_from_slice(suffix.as_bytes())?;
    Ok(text)
}

/// Pushes the lines of a metric: what it is, of which kind, and how much.
fn push_sample<'x>(
    text: &mut Vec<u8>,
    name: &'x [u8],
    what: &'x str,
    kind: &'x str,
    amount: Word<'x>,
) -> Result<(), OutOfMemory>
    ensures { OnOk result (text.new.items ≡ text.old.items ++ sample_text name.now what.now kind.now (word_text amount.entry)) }
{
    push_line(
        text,
        &[
            Word::Text(b"# HELP"),
            Word::Text(name),
            Word::Text(what.as_bytes()),
        ],
    )?;
    push_line(
        text,
        &[
            Word::Text(b"# TYPE"),
            Word::Text(name),
            Word::Text(kind.as_bytes()),
        ],
    )?;
    push_line(text, &[Word::Text(name), amount])
}

/// Milliseconds as seconds, with three digits behind the point.
fn seconds_of(alloc: Global, time: u64) -> Result<Vec<u8>, OutOfMemory>
    ensures { IfOk result (λ text. text.items ≡ seconds_text time) }
{
    let whole = time / 1000;
    let mut text = format!(in alloc; "{whole}")?.into_bytes();
    text.extend_from_slice(&[b'.', digit(time / 100), digit(time / 10), digit(time)])?;
    Ok(text)
}

/// The last digit of a number.
fn digit(number: u64) -> u8
    ensures { result ≡ 48 + number % 10 }
{
    b'0' + (number % 10) as u8
}
