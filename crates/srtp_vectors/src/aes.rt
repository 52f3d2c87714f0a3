//! FIPS 197: the example of appendix B, and that of appendix C.1.
use crate::octets::block;
use srtp::Aes128;
use std::test::Fail;

#[test]
fn blocks(rt: HostRuntime) -> Result<(), Fail> {
    for (key, plain, secret) in [
        (
            "2b7e151628aed2a6abf7158809cf4f3c",
            "3243f6a8885a308d313198a2e0370734",
            "3925841d02dc09fbdc118597196a0b32",
        ),
        (
            "000102030405060708090a0b0c0d0e0f",
            "00112233445566778899aabbccddeeff",
            "69c4e0d86a7b0430d8cdb78070b4c55a",
        ),
    ] {
        assert_eq!(rt;
            Aes128::new(&block(key)?).encrypt(&block(plain)?),
            block(secret)?
        );
    }
    Ok(())
}
