use arrayvec::ArrayVec;
use fbwire::*;
use places::Place;
use rtpwire::Datagram;
use std::test::Fail;

/// The SSRCs of the rows: who asks, and who is asked.
const REPORTER: u32 = 0x33333333;

const MEDIA: u32 = 0x11111111;

/// The octets of words of 32 bits.
fn octets(words: &[u32]) -> Result<Datagram, Fail> {
    let mut octets = ArrayVec::new();
    for word in words {
        octets
            .try_extend_from_slice(&word.to_be_bytes())
            .map_err(|_| "a datagram holds them")?;
    }
    Ok(octets)
}

/// The pairs of these places, and how many places they cover.
fn packing(values: &[u64]) -> Result<(ArrayVec<Pair, 64>, usize), Fail> {
    let mut places: ArrayVec<Place, 65> = ArrayVec::new();
    for value in values {
        let place = Place::new(*value).ok_or("a place is below 2^48")?;
        places.try_push(place).map_err(|_| "at most 65 places")?;
    }
    if !can_pack(&places) {
        return Err("the places rise within their span".into());
    }
    Ok(pack(&places))
}

/// NACKs, in words, that are refused with a number.
const REFUSED_NACKS: [(&[u32], u8); 13] = [
    (&[0x41cd0003, REPORTER, MEDIA, 0x00010000], 12),
    (&[0xa1cd0003, REPORTER, MEDIA, 0x00010000], 13),
    (&[0x81ce0003, REPORTER, MEDIA, 0x00010000], 14),
    (&[0x82cd0003, REPORTER, MEDIA, 0x00010000], 15),
    (&[0x81cd0004, REPORTER, MEDIA, 0x00010000], 16),
    (&[0x81cd0002, REPORTER, MEDIA], 17),
    (&[], 11),
    // Each fails the check after it too.
    (&[0x40cd0000, REPORTER], 11),
    (&[0x61cd0003, REPORTER, MEDIA, 0x00010000], 12),
    (&[0xa1ce0003, REPORTER, MEDIA, 0x00010000], 13),
    (&[0x82ce0003, REPORTER, MEDIA, 0x00010000], 14),
    (&[0x82cd0004, REPORTER, MEDIA, 0x00010000], 15),
    (&[0x81cd0003, REPORTER, MEDIA], 16),
];

/// The refusal number of octets as a NACK, or 0 where they are read.
fn refusal_of(octets: &[u8]) -> u8 {
    match NackView::read(octets) {
        Ok(_) => 0,
        Err(fault) => fault.number(),
    }
}

#[test]
fn refused_nacks(rt: HostRuntime) -> Result<(), Fail> {
    for (words, want) in REFUSED_NACKS {
        assert_eq!(rt; refusal_of(&octets(words)?), want, "{words:?}");
    }
    Ok(())
}

#[test]
fn named_numbers(rt: HostRuntime) -> Result<(), Fail> {
    for (pair, wanted) in [(0x00010005, [1, 2, 4]), (0xffff8001, [65535, 0, 15])] {
        let octets = octets(&[0x81cd0003, REPORTER, MEDIA, pair])?;
        let nack = NackView::read(&octets).map_err(|_| "it is read")?;
        assert_eq!(rt; (nack.reporter(), nack.media()), (REPORTER, MEDIA));
        assert_eq!(rt; nack.pairs().count(), 1);
        let mut numbers = nack.numbers();
        for want in wanted {
            assert_eq!(rt; numbers.next(), Some(want));
        }
        assert_eq!(rt; numbers.next(), None);
    }
    Ok(())
}

#[test]
fn the_most_pairs(rt: HostRuntime) -> Result<(), Fail> {
    assert_eq!(rt; packing(&[])?, (ArrayVec::new(), 0));
    let mut values = [0; 65];
    for index in 0..65 {
        values[index] = 17 * index as u64;
    }
    let (pairs, covered) = packing(&values)?;
    assert_eq!(rt; (pairs.len(), covered), (64, 64));
    prove!(!pairs.is_empty());
    let written = write_nack(REPORTER, MEDIA, &pairs);
    assert!(rt; written.starts_with(&[0x81, 0xcd, 0x00, 0x42]));
    Ok(())
}

#[test]
fn no_compound(rt: HostRuntime) {
    assert_eq!(rt;
        Compound::read(b"").map_err(|fault| fault.number()).err(),
        Some(11)
    );
}

#[test]
fn faults_of_a_session(rt: HostRuntime) {
    assert_eq!(rt; FeedbackFault::WrongMedia.number(), 18);
    assert_eq!(rt; FeedbackFault::WrongReporter.number(), 19);
}

/// The laws, which run nothing.
#[test]
fn the_laws_of_feedback() {
    nack_is_determined();
    packing_is_determined();
    compound_is_determined();
}
