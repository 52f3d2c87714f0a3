//! How many places are missing, and asks for many of them, over lists and over rings.

use crate::sessions::goes;
use std::test::Fail;

#[test]
fn one_is_missing_until_it_is_given_up(rt: HostRuntime) -> Result<(), Fail> {
    goes(
        rt.alloc(),
        "config 1 5 8 8 100 20 3 2\n\
         times 3 S 0 0 0 aa - -\n\
         D 0 0 => taken 65537 0\n\
         missing 0\n\
         D 2 5 => taken 65539 0\n\
         missing 1\n\
         P 5 => play 65537 0 0 aa - -\n\
         missing 1\n\
         P 104 => wait\n\
         missing 1\n\
         P 105 => gap 65538\n\
         missing 0",
    )
}

/// The window's slots fill more than two words of a bit index.
#[test]
fn many_are_missing(rt: HostRuntime) -> Result<(), Fail> {
    goes(
        rt.alloc(),
        "config 1 5 200 130 100 20 3 2\n\
         times 130 S 0 0 0 aa - -\n\
         D 0 0 => taken 65537 0\n\
         missing 0\n\
         D 129 0 => taken 65666 0\n\
         missing 128\n\
         A 0 => ask 130 81cd000a33333333111111110002ffff0013ffff0024ffff0035ffff0046ffff0057ffff0068ffff007900ff\n\
         missing 128\n\
         D 64 1 => taken 65601 0\n\
         missing 127\n\
         A 20 => ask 131 81cd000a33333333111111110002ffff0013ffff0024ffff0035f7ff0046ffff0057ffff0068ffff007900ff\n\
         missing 127",
    )
}
