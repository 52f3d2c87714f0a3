//! Octets from their text in hex.
use hex::FromHex;
use std::test::Fail;

pub fn block(text: &str) -> Result<[u8; 16], Fail> {
    Ok(
        <[u8; 16] as FromHex>::from_hex(text)
            .ok()
            .ok_or("a block is 16 octets in hex")?,
    )
}

pub fn salt(text: &str) -> Result<[u8; 14], Fail> {
    Ok(
        <[u8; 14] as FromHex>::from_hex(text)
            .ok()
            .ok_or("a salt is 14 octets in hex")?,
    )
}
