//! Rounds that settle a world, over lists and over rings.

use crate::sessions::goes;
use std::test::Fail;

#[test]
fn a_round_mends_a_loss(rt: HostRuntime) -> Result<(), Fail> {
    goes(
        rt.alloc(),
        "config 65535 5 16 8 100 20 3 2\n\
         S 100 1 0 aa - - => sent 131071 0 80e0ffff0000006411111111aa\n\
         S 200 0 0 bb - - => sent 131072 1 80600000000000c811111111bb\n\
         S 300 0 0 cc - - => sent 131073 2 806000010000012c11111111cc\n\
         D 0 0 => taken 131071 0\n\
         D 2 5 => taken 131073 0\n\
         settle 5\n\
         => ask 3 81cd0003333333331111111100000000\n\
         => marked 1\n\
         => ask none\n\
         => repair 131072 4 80610005000000c8222222220000bb\n\
         => taken 131072 0\n\
         => repair none\n\
         close\n\
         P 7 => play 131071 100 1 aa - -\n\
         P 7 => play 131072 200 0 bb - -\n\
         P 7 => play 131073 300 0 cc - -\n\
         P 7 => wait",
    )
}

/// What the receiver asked for, it takes, and learns its SSRC.
#[test]
fn a_round_in_which_the_receiver_learns(rt: HostRuntime) -> Result<(), Fail> {
    goes(
        rt.alloc(),
        "config 1 5 8 8 100 20 3 2 learn\n\
         S 1 0 0 aa - - => sent 65537 0 806000010000000111111111aa\n\
         S 2 0 0 bb - - => sent 65538 1 806000020000000211111111bb\n\
         S 3 0 0 cc - - => sent 65539 2 806000030000000311111111cc\n\
         D 0 0 => taken 65537 0\n\
         D 2 5 => taken 65539 0\n\
         settle 5\n\
         => ask 3 81cd0003333333331111111100020000\n\
         => marked 1\n\
         => ask none\n\
         => repair 65538 4 8061000500000002222222220002bb\n\
         => taken 65538 0\n\
         => repair none\n\
         close\n\
         I r 8061000900000000555555550002bb 6 => refused 31\n\
         D 4 6 => refused 36\n\
         P 6 => play 65537 1 0 aa - -\n\
         P 6 => play 65538 2 0 bb - -",
    )
}

#[test]
fn a_round_in_which_nothing_is_due(rt: HostRuntime) -> Result<(), Fail> {
    goes(
        rt.alloc(),
        "config 1 5 8 8 100 20 3 2\n\
         settle 5\n\
         => ask none\n\
         => repair none\n\
         close\n\
         P 5 => wait",
    )
}
