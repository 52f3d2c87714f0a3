//! All counts as one JSON object.
ghost use Rattle.std.specs.Prelude.{◌≡◌, IfOk, string_bytes};
ghost use Rattle.serde_json.specs.View.{view};
ghost use Rattle.serde_json.specs.Written.{compact_text};
ghost use Rattle.gozdrit_relay.specs.Stats.{data_of, object_of};

use crate::figures::{Amount, Figure};
use serde_json::{Map, Value, put};
use std::alloc::{AllocError, Global};

/// The text of an object with each figure under its name.
pub fn stats_text(alloc: Global, figures: &[Figure<'_>]) -> Result<String, AllocError>
    ensures { IfOk result (λ text. string_bytes text ≡ compact_text (object_of figures.now)) }
{
    object_of(alloc, figures)?.to_string(alloc)
}

fn object_of(alloc: Global, figures: &[Figure<'_>]) -> Result<Value, AllocError>
    ensures { IfOk result (λ value. view value ≡ object_of figures.now) }
{
    let mut members = Map::new(alloc);
    for figure in figures {
        put(&mut members, alloc, figure.name, value_of(figure.amount))?;
    }
    Ok(Value::Object(members))
}

/// A number, or null where none is known.
fn value_of(amount: Amount) -> Value
    ensures { view result ≡ data_of amount }
{
    match amount {
        Amount::Count(count) | Amount::Size(count) => Value::from(count),
        Amount::Time(Some(time)) => Value::from(time),
        Amount::Time(None) => Value::Null,
    }
}
