//! RFC 3711, appendix B.2 and B.3: the keystream of AES in counter mode, and the keys of a master key.
use crate::octets::{block, salt};
use srtp::{Aes128, MasterKey};
use std::test::Fail;

/// The master key and the salt of appendix B.3.
pub fn master() -> Result<MasterKey, Fail> {
    Ok(MasterKey::new(
        &block("e1f97a0d3e018be0d64fa32c06de4139")?,
        &salt("0ec675ad498afeebb6960b3aabe6")?,
    ))
}

#[test]
fn keystream(rt: HostRuntime) -> Result<(), Fail> {
    let aes = Aes128::new(&block("2b7e151628aed2a6abf7158809cf4f3c")?);
    for (counter, stream) in [
        (
            "f0f1f2f3f4f5f6f7f8f9fafbfcfd0000",
            "e03ead0935c95e80e166b16dd92b4eb4",
        ),
        (
            "f0f1f2f3f4f5f6f7f8f9fafbfcfd0001",
            "d23513162b02d0f72a43a2fe4a5f97ab",
        ),
        (
            "f0f1f2f3f4f5f6f7f8f9fafbfcfd0002",
            "41e95b3bb0a2e8dd477901e4fca894c0",
        ),
        (
            "f0f1f2f3f4f5f6f7f8f9fafbfcfdfeff",
            "ec8cdf7398607cb0f2d21675ea9ea1e4",
        ),
        (
            "f0f1f2f3f4f5f6f7f8f9fafbfcfdff00",
            "362b7c3c6773516318a077d7fc5073ae",
        ),
        (
            "f0f1f2f3f4f5f6f7f8f9fafbfcfdff01",
            "6a2cc3787889374fbeb4c81b17ba6c44",
        ),
    ] {
        assert_eq!(rt; aes.encrypt(&block(counter)?), block(stream)?);
    }
    Ok(())
}

#[test]
fn keys(rt: HostRuntime) -> Result<(), Fail> {
    let master = master()?;
    for (label, key) in [
        (0, "c61e7a93744f39ee10734afe3ff7a087"),
        (2, "30cbbc08863d8c85d49db34a9ae1"),
        (
            1,
            "cebe321f6ff7716b6fd4ab49af256a156d38baa48f0a0acf3c34e2359e6cdbcee049646c43d9327ad175578ef72270986371c10c9a369ac2f94a8c5fbcdddc256d6e919a48b610ef17c2041e474035766b68642c59bbfc2f34db60dbdfb2dc68",
        ),
    ] {
        let want = hex::decode(rt.alloc(), key)?;
        let mut got = [0; 94];
        let len = want.len().min(94);
        master.derive(label, &mut got[..len]);
        assert_eq!(rt; &got[..len], &want[..len], "label {label}");
    }
    Ok(())
}
