use places::*;
use std::test::Fail;

fn place(value: u64) -> Result<Place, Fail> {
    Ok(Place::new(value).ok_or("a place is below 2^48")?)
}

#[test]
fn near_places(rt: HostRuntime) -> Result<(), Fail> {
    for (highest, seq, want) in [
        (131066, 3, Ok(131075)),
        (131072, 16383, Ok(147455)),
        (131072, 16384, Err(34)),
        (131072, 49152, Err(34)),
        (131072, 49153, Ok(114689)),
        (281474976710655, 0, Err(39)),
        (281474976710655, 65535, Ok(281474976710655)),
        (5, 65535, Err(39)),
        (5, 0, Ok(0)),
    ] {
        let found = match near(place(highest)?, seq) {
            Ok(found) => Ok(found.value()),
            Err(fault) => Err(fault.number()),
        };
        assert_eq!(rt; found, want, "from {highest} the number {seq}");
    }
    Ok(())
}

#[test]
fn first_places(rt: HostRuntime) {
    for (number, value) in [(0, 65536), (65535, 131071)] {
        assert_eq!(rt; Place::first(number).value(), value);
    }
}

/// The number of a place, and the place after it.
fn number_and_next(value: u64) -> Result<(u16, Option<Place>), Fail> {
    let place = place(value)?;
    Ok((place.number(), place.next()))
}

#[test]
fn numbers_and_next_places(rt: HostRuntime) -> Result<(), Fail> {
    for (value, number, next) in [
        (131075, 3, Place::new(131076)),
        (65535, 65535, Place::new(65536)),
        (281474976710655, 65535, None),
    ] {
        assert_eq!(rt; number_and_next(value)?, (number, next));
    }
    Ok(())
}

#[test]
fn the_order_and_the_end_of_places(rt: HostRuntime) -> Result<(), Fail> {
    assert_eq!(rt; Place::new(281474976710656), None);
    assert!(rt; place(7)? < place(65536)?);
    near_is_determined();
    Ok(())
}
