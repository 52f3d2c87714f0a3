//! Sessions line by line, over plain lists and over rings. The built program runs many more of them, over rings.

use crate::sessions::goes;
use std::test::Fail;

/// The second of three packets is lost, and its number is the first after the wrap.
pub(crate) const LOSS_ACROSS_THE_WRAP: &str = "\
     config 65535 5 16 8 100 20 3 2\n\
     S 100 1 0 aa - - => sent 131071 0 80e0ffff0000006411111111aa\n\
     S 200 0 0 bb - - => sent 131072 1 80600000000000c811111111bb\n\
     S 300 0 0 cc - - => sent 131073 2 806000010000012c11111111cc\n\
     D 0 0 => taken 131071 0\n\
     D 2 5 => taken 131073 0\n\
     A 5 => ask 3 81cd0003333333331111111100000000\n\
     D 3 6 => marked 1\n\
     R => repair 131072 4 80610005000000c8222222220000bb\n\
     D 4 7 => taken 131072 0\n\
     P 7 => play 131071 100 1 aa - -\n\
     P 7 => play 131072 200 0 bb - -\n\
     P 7 => play 131073 300 0 cc - -\n\
     P 7 => wait";

#[test]
fn a_loss_across_the_wrap(rt: HostRuntime) -> Result<(), Fail> {
    goes(rt.alloc(), LOSS_ACROSS_THE_WRAP)
}

/// The receiver refuses a retransmission that it didn't ask for, and learns the SSRC of the one that it asked for.
#[test]
fn a_receiver_that_learns(rt: HostRuntime) -> Result<(), Fail> {
    goes(
        rt.alloc(),
        "config 1 5 8 8 100 20 3 2 learn\n\
         S 100 0 0 aa - - => sent 65537 0 806000010000006411111111aa\n\
         S 200 0 0 bb - - => sent 65538 1 80600002000000c811111111bb\n\
         S 300 0 0 cc - - => sent 65539 2 806000030000012c11111111cc\n\
         D 0 0 => taken 65537 0\n\
         D 2 5 => taken 65539 0\n\
         I s 81cd0003333333331111111100020000 5 => marked 1\n\
         R => repair 65538 3 80610005000000c8222222220002bb\n\
         D 3 5 => refused 38\n\
         I r 806000090000000055555555 5 => refused 32\n\
         I r 8061000900000000333333330002bb 5 => refused 31\n\
         A 5 => ask 4 81cd0003333333331111111100020000\n\
         D 3 6 => taken 65538 0\n\
         I r 8061000900000000555555550002bb 6 => refused 31",
    )
}

/// A place is given up, and a held one is overrun.
#[test]
fn a_place_given_up_and_one_overrun(rt: HostRuntime) -> Result<(), Fail> {
    goes(
        rt.alloc(),
        "config 1 5 8 3 100 20 3 2\n\
         S 0 0 0 aa - - => sent 65537 0 806000010000000011111111aa\n\
         S 0 0 0 bb - - => sent 65538 1 806000020000000011111111bb\n\
         S 0 0 0 cc - - => sent 65539 2 806000030000000011111111cc\n\
         D 0 0 => taken 65537 0\n\
         D 2 5 => taken 65539 0\n\
         P 5 => play 65537 0 0 aa - -\n\
         P 104 => wait\n\
         P 105 => gap 65538\n\
         D 1 106 => refused 35\n\
         I r 806000060000000011111111ee 106 => taken 65542 1\n\
         A 106 => ask 3 81cd0003333333331111111100040001\n\
         D 3 106 => marked 0\n\
         P 106 => wait",
    )
}
