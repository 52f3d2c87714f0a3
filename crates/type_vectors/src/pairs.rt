//! Which pairs are the payload types of a session, and by which number others are refused.
use payload_types::{PayloadTypes, TypePair};
use std::test::Fail;

fn pair(media: u8, repair: u8) -> TypePair {
    TypePair { media, repair }
}

/// The number of their refusal, 0 for none.
fn number(pairs: &[TypePair]) -> u8 {
    match PayloadTypes::new(pairs) {
        Ok(_) => 0,
        Err(fault) => fault.number(),
    }
}

#[test]
fn sixteen_pairs_at_most(_rt: HostRuntime) -> Result<(), Fail> {
    let many = [
        pair(0, 112),
        pair(1, 113),
        pair(2, 114),
        pair(3, 115),
        pair(4, 116),
        pair(5, 117),
        pair(6, 118),
        pair(7, 119),
        pair(8, 120),
        pair(9, 121),
        pair(10, 122),
        pair(11, 123),
        pair(12, 124),
        pair(13, 125),
        pair(14, 126),
        pair(15, 127),
        pair(16, 111),
    ];
    if number(&many[..16]) == 0 && number(&many) == 54 && number(&[]) == 54 {
        Ok(())
    } else {
        Err(Fail::from("how many"))
    }
}

#[test]
fn types_have_a_range(_rt: HostRuntime) -> Result<(), Fail> {
    let rows = [
        (pair(0, 96), 0),
        (pair(63, 127), 0),
        (pair(96, 97), 0),
        (pair(127, 126), 0),
        // RTCP (RFC 5761, section 4)
        (pair(64, 97), 55),
        (pair(95, 97), 55),
        (pair(128, 97), 55),
        (pair(255, 97), 55),
        (pair(96, 95), 55),
        (pair(96, 0), 55),
        (pair(96, 128), 55),
    ];
    for (one, wanted) in rows {
        // By itself, and as one of several
        if number(&[one]) != wanted || number(&[pair(110, 111), one]) != wanted {
            return Err(Fail::from("a type"));
        }
    }
    Ok(())
}

#[test]
fn no_type_stands_twice(_rt: HostRuntime) -> Result<(), Fail> {
    let rows = [
        ([pair(96, 97), pair(98, 99), pair(100, 101)], 0),
        ([pair(96, 96), pair(98, 99), pair(100, 101)], 56),
        ([pair(96, 97), pair(96, 99), pair(100, 101)], 56),
        ([pair(96, 97), pair(98, 97), pair(100, 101)], 56),
        ([pair(96, 97), pair(97, 99), pair(100, 101)], 56),
        ([pair(96, 97), pair(98, 96), pair(100, 101)], 56),
        ([pair(96, 97), pair(98, 99), pair(98, 101)], 56),
        ([pair(96, 97), pair(98, 99), pair(100, 96)], 56),
        ([pair(96, 97), pair(98, 99), pair(101, 101)], 56),
        // A type of no range is found first, whichever it is.
        ([pair(96, 97), pair(96, 97), pair(64, 101)], 55),
    ];
    for (pairs, wanted) in rows {
        if number(&pairs) != wanted {
            return Err(Fail::from("a type that stands twice"));
        }
    }
    Ok(())
}

#[test]
fn a_pair_is_found_by_each_type(_rt: HostRuntime) -> Result<(), Fail> {
    let Ok(types) = PayloadTypes::new(&[pair(96, 97), pair(0, 99), pair(100, 101)]) else {
        return Err(Fail::from("the pairs"));
    };
    let media = types.of_media(96) == Some(pair(96, 97))
        && types.of_media(0) == Some(pair(0, 99))
        && types.of_media(100) == Some(pair(100, 101))
        && types.of_media(97) == None
        && types.of_media(1) == None;
    let repairs = types.of_repair(97) == Some(pair(96, 97))
        && types.of_repair(99) == Some(pair(0, 99))
        && types.of_repair(101) == Some(pair(100, 101))
        && types.of_repair(100) == None;
    if media && repairs && types.first() == pair(96, 97) && types.count() == 3 {
        Ok(())
    } else {
        Err(Fail::from("which pair"))
    }
}

#[test]
fn pairs_are_two_octets_each(_rt: HostRuntime) -> Result<(), Fail> {
    let rows: [(&[u8], u8); 8] = [
        (&[96, 97], 0),
        (&[96, 97, 0, 99, 100, 101], 0),
        (&[], 54),
        (&[96], 54),
        (&[96, 97, 98], 54),
        (&[64, 97], 55),
        (&[96, 97, 97, 98], 56),
        (&[96; 34], 54),
    ];
    for (octets, wanted) in rows {
        let number = match PayloadTypes::of_octets(octets) {
            Ok(_) => 0,
            Err(fault) => fault.number(),
        };
        if number != wanted {
            return Err(Fail::from("octets"));
        }
    }
    let Ok(types) = PayloadTypes::of_octets(&[96, 97, 0, 99, 100, 101]) else {
        return Err(Fail::from("the pairs"));
    };
    let second = types.of_media(0) == Some(pair(0, 99));
    let third = types.of_media(100) == Some(pair(100, 101));
    if types.first() == pair(96, 97) && second && third && types.count() == 3 {
        Ok(())
    } else {
        Err(Fail::from("which pairs"))
    }
}
