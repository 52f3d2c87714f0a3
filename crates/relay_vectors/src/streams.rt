//! Which packets are of an application's stream, or of one that takes its place.
use crate::script::local;
use relays::Stream;
use std::test::Fail;

/// A packet from the application at this port, under this SSRC, at this moment, and whether it is followed. If so it is sent on.
type Row = (u16, u32, u64, bool);

fn holds(mut stream: Stream, rows: &[Row]) -> Result<(), Fail> {
    for row in rows {
        if stream.follows(local(row.0), row.1, row.2) != row.3 {
            return Err(Fail::from("which packets are followed"));
        }
        if row.3 {
            stream.follow(local(row.0), row.1, row.2);
        }
    }
    Ok(())
}

#[test]
fn another_one_behind_a_second_of_silence(_rt: HostRuntime) -> Result<(), Fail> {
    holds(
        Stream::new(7),
        &[
            (1, 7, 0, true),
            (1, 7, 10, true),
            (2, 7, 1009, false),
            (1, 8, 1009, false),
            (2, 8, 1009, false),
            (2, 9, 1010, true),
            // It has taken the place.
            (1, 7, 1011, false),
            (2, 9, 1500, true),
            (1, 7, 2499, false),
            (1, 7, 2500, true),
        ],
    )
}

#[test]
fn the_first_one_under_any_ssrc(_rt: HostRuntime) -> Result<(), Fail> {
    holds(Stream::new(7), &[(2, 8, 0, true), (1, 7, 1, false)])
}

#[test]
fn none_of_another_ssrc_where_it_is_bound(_rt: HostRuntime) -> Result<(), Fail> {
    holds(
        Stream::bound(7),
        &[
            (1, 8, 0, false),
            (1, 7, 0, true),
            (2, 7, 999, false),
            (1, 8, 1500, false),
            (2, 7, 1500, true),
            (1, 7, 1501, false),
        ],
    )
}

#[test]
fn whom_it_keeps_out(rt: HostRuntime) -> Result<(), Fail> {
    let bound = Stream::bound(7);
    assert!(rt; bound.keeps_out(8) && !bound.keeps_out(7));
    assert!(rt; !Stream::new(7).keeps_out(8));
    Ok(())
}
