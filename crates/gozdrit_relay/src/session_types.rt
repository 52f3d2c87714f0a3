//! What the options say of a session's payload types.
use crate::fault::Fault;
use crate::units::Form;
use arrayvec::ArrayVec;
use clap::ArgMatches;
use lines::parse_between;
use payload_types::{MAX_TYPES, PayloadTypes, TypePair};

/// The type of the media and that of their retransmissions, as far as they are given; and all pairs, where there are several.
#[derive(Clone, Copy)]
pub struct SessionTypes<'a> {
    pub media: Option<u8>,
    pub repair: Option<u8>,
    pub pairs: Option<&'a str>,
}

/// What `--type` and `--rtx-type` say.
pub fn session_types<'a>(matches: &ArgMatches<'a>) -> Result<SessionTypes<'a>, Fault<'a>> {
    match matches.get_str("type") {
        Some(text) if text.contains(':') => of_pairs(matches, text),
        _ => Ok(SessionTypes {
            media: type_from(matches, "type", 0)?,
            repair: type_from(matches, "rtx-type", 96)?,
            pairs: None,
        }),
    }
}

/// What pairs say, beside which there is no other word of retransmissions.
fn of_pairs<'a>(matches: &ArgMatches<'a>, text: &'a str) -> Result<SessionTypes<'a>, Fault<'a>> {
    let Some(types) = types_in(text) else {
        return Err(Fault::Value("type", text, Form::Types));
    };
    if let Some(repair) = matches.get_str("rtx-type") {
        return Err(Fault::Paired(repair));
    }
    let first = types.first();
    Ok(SessionTypes {
        media: Some(first.media),
        repair: Some(first.repair),
        pairs: if types.count() > 1 { Some(text) } else { None },
    })
}

/// The pairs of a list with commas, if it is one of a session's types.
pub fn types_in(text: &str) -> Option<PayloadTypes> {
    let mut pairs = ArrayVec::<TypePair, MAX_TYPES>::new();
    for word in text.split(',') {
        let pair = pair_in(word)?;
        if pairs.try_push(pair).is_err() {
            return None;
        }
    }
    PayloadTypes::new(&pairs).ok()
}

/// A type of media, and behind a colon that of their retransmissions.
fn pair_in(word: &str) -> Option<TypePair> {
    let (media, repair) = word.split_once(':')?;
    Some(TypePair {
        media: type_in(media)?,
        repair: type_in(repair)?,
    })
}

fn type_in(digits: &str) -> Option<u8> {
    let number = parse_between(digits.as_bytes(), 0, 127)?;
    Some(number.min(127) as u8)
}

/// A payload type from `least` on.
fn type_from<'a>(
    matches: &ArgMatches<'a>,
    id: &'a str,
    least: u64,
) -> Result<Option<u8>, Fault<'a>> {
    let Some(text) = matches.get_str(id) else {
        return Ok(None);
    };
    match parse_between(text.as_bytes(), least, 127) {
        Some(number) => Ok(Some(number.min(127) as u8)),
        None => Err(Fault::Value(id, text, Form::Number(least, 127))),
    }
}
