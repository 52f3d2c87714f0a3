//! RFC 3711, section 3.3.1: the index of a packet, at the edges of the guess.
use srtp::{guess_index, guesses_are_places};

fn guessed(highest: u64, seq: u16) -> Option<u64> {
    if highest < 1 << 48 {
        Some(guess_index(highest, seq))
    } else {
        None
    }
}

#[test]
fn guesses(rt: HostRuntime) {
    for (highest, seq, index) in [
        // The same cycle, up and down.
        (0, 1, 1),
        (100, 99, 99),
        (65536, 1, 65537),
        // In the lower half of a cycle a number more than 32768 above is of the cycle before.
        (65536 + 10, 32778, 65536 + 32778),
        (65536 + 10, 32779, 32779),
        (65536, 65535, 65535),
        // In the upper half a number more than 32768 below is of the next cycle.
        (40000, 7232, 7232),
        (40000, 7231, 65536 + 7231),
        (65535, 0, 65536),
        (32768, 0, 0),
        (32769, 0, 65536),
        // Both ends: modulo 2^48.
        (5, 65535, 281474976710655),
        (281474976710655, 0, 0),
    ] {
        assert_eq!(rt;
            guessed(highest, seq),
            Some(index),
            "from {highest} the number {seq}"
        );
    }
    guesses_are_places();
}
