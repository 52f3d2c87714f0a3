//! Packets as libsrtp protects them, by its own examples, and packets that are refused.
ghost use Rattle.std.specs.Prelude.{◌≤◌, length};

use crate::derivation::master;
use hex::FromHex;
use srtp::{Profile, RtcpReceiver, RtcpSender, SessionKeys, SrtpFault, Stream};
use std::test::Fail;

const SSRC: u32 = 0xcafebabe;

fn stream(profile: Profile) -> Result<Stream<128>, Fail> {
    Ok(Stream::new(SessionKeys::of_rtp(profile, &master()?), SSRC, 0))
}

fn plain_rtp() -> Result<[u8; 28], Fail> {
    let text = "800f1234decafbadcafebabeabababababababababababababababab";
    Ok(
        <[u8; 28] as FromHex>::from_hex(text)
            .ok()
            .ok_or("28 octets in hex")?,
    )
}

fn plain_rtcp() -> Result<[u8; 24], Fail> {
    let text = "81c8000bcafebabeabababababababababababababababab";
    Ok(
        <[u8; 24] as FromHex>::from_hex(text)
            .ok()
            .ok_or("24 octets in hex")?,
    )
}

fn secret(text: &str) -> Result<[u8; 38], Fail> {
    Ok(
        <[u8; 38] as FromHex>::from_hex(text)
            .ok()
            .ok_or("38 octets in hex")?,
    )
}

/// Octets at the front of a packet, with room behind them.
fn with_room(octets: &[u8]) -> [u8; 38]
    requires { length octets.now ≤ 38 }
{
    let mut packet = [0; 38];
    packet[..octets.len()].copy_from_slice(octets);
    packet
}

#[test]
fn rtp(rt: HostRuntime) -> Result<(), Fail> {
    let plain = plain_rtp()?;
    let secret = secret(
        "800f1234decafbadcafebabe4e55dc4ce79978d88ca4d215949d2402b78d6acc99ea179b8dbb",
    )?;
    let mut packet = with_room(&plain);
    let mut sender = stream(Profile::Aes128CmHmacSha1)?;
    assert_eq!(rt; sender.protect(&mut packet), Ok(()));
    assert_eq!(rt; packet, secret);
    let mut receiver = stream(Profile::Aes128CmHmacSha1)?;
    assert_eq!(rt; receiver.unprotect(&mut packet), Ok(28));
    assert!(rt; packet.starts_with(&plain));
    Ok(())
}

#[test]
fn rtcp(rt: HostRuntime) -> Result<(), Fail> {
    let plain = plain_rtcp()?;
    let secret = secret(
        "81c8000bcafebabe7128035be487b9bdbef89041f977a5a880000001993e08cd54d6c1230798",
    )?;
    let mut packet = with_room(&plain);
    let keys = SessionKeys::of_rtcp(Profile::Aes128CmHmacSha1, &master()?);
    let mut sender = RtcpSender::new(keys, SSRC, 1);
    assert_eq!(rt; sender.protect(&mut packet), Ok(()));
    assert_eq!(rt; packet, secret);
    let keys = SessionKeys::of_rtcp(Profile::Aes128CmHmacSha1, &master()?);
    let mut receiver = RtcpReceiver::<64>::new(keys, SSRC);
    assert_eq!(rt; receiver.unprotect(&mut packet), Ok(24));
    assert!(rt; packet.starts_with(&plain));
    Ok(())
}

/// A packet of twelve octets of header, so many of payload, and room for a tag.
fn packet(first: u8, seq: u16, ssrc: u32) -> [u8; 30] {
    let mut octets = [0x5a; 30];
    octets[0] = first;
    octets[2..4].copy_from_slice(&seq.to_be_bytes());
    octets[8..12].copy_from_slice(&ssrc.to_be_bytes());
    octets
}

#[test]
fn refusals(rt: HostRuntime) -> Result<(), Fail> {
    for profile in [Profile::NullHmacSha1, Profile::Aes128CmHmacSha1] {
        let mut sender = stream(profile)?;
        let mut receiver = stream(profile)?;
        // Version 1, an extension that does not fit, and another source, each by its own number.
        for (first, ssrc, number) in [
            (0x40, SSRC, 92),
            (0x90, SSRC, 93),
            (0x8f, SSRC, 93),
            (0x80, 1, 94),
        ] {
            let mut octets = packet(first, 7, ssrc);
            let fault = sender.protect(&mut octets).err().ok_or("it is refused")?;
            assert_eq!(rt; fault.number(), number);
            assert_eq!(rt; octets, packet(first, 7, ssrc));
        }
        assert_eq!(rt; sender.protect(&mut [0x80; 21]), Err(SrtpFault::Short));
        assert_eq!(rt; receiver.unprotect(&mut [0x80; 21]), Err(SrtpFault::Short));
        assert_eq!(rt; receiver.unprotect(&mut []), Err(SrtpFault::Short));

        // No index comes twice under a key, in whatever order the numbers come.
        let mut sent = packet(0x80, 65535, SSRC);
        assert_eq!(rt; sender.protect(&mut sent), Ok(()));
        let mut wrapped = packet(0x80, 0, SSRC);
        assert_eq!(rt; sender.protect(&mut wrapped), Ok(()));
        assert_eq!(rt;
            sender.protect(&mut packet(0x80, 65535, SSRC)),
            Err(SrtpFault::TakenBefore)
        );

        // A bit that is turned over, wherever it is, is refused, and what was refused may come again as it was.
        for at in 12..30 {
            let mut turned = sent;
            turned[at] ^= 1 << (at % 8);
            let before = turned;
            assert_eq!(rt; receiver.unprotect(&mut turned), Err(SrtpFault::WrongTag));
            assert_eq!(rt; turned, before);
        }
        let mut first = sent;
        assert_eq!(rt; receiver.unprotect(&mut first), Ok(20));
        assert_eq!(rt; &first[..20], &packet(0x80, 65535, SSRC)[..20]);
        assert_eq!(rt; receiver.unprotect(&mut sent), Err(SrtpFault::TakenBefore));
        assert_eq!(rt; receiver.unprotect(&mut wrapped), Ok(20));
        assert_eq!(rt; &wrapped[..20], &packet(0x80, 0, SSRC)[..20]);
    }
    Ok(())
}

#[test]
fn ends_of_keys(rt: HostRuntime) -> Result<(), Fail> {
    let keys = SessionKeys::of_rtp(Profile::NullHmacSha1, &master()?);
    let mut last = Stream::<64>::new(keys, SSRC, u32::MAX);
    assert_eq!(rt; last.protect(&mut packet(0x80, 65535, SSRC)), Ok(()));
    assert_eq!(rt;
        last.protect(&mut packet(0x80, 0, SSRC)),
        Err(SrtpFault::KeyEnd)
    );
    let mut first = stream(Profile::NullHmacSha1)?;
    assert_eq!(rt; first.protect(&mut packet(0x80, 5, SSRC)), Ok(()));
    assert_eq!(rt;
        first.protect(&mut packet(0x80, 65535, SSRC)),
        Err(SrtpFault::TooOld)
    );

    let keys = SessionKeys::of_rtcp(Profile::NullHmacSha1, &master()?);
    let mut sender = RtcpSender::new(keys, 0x5a5a5a5a, 2147483647);
    let mut octets = [0x5a; 30];
    octets[0] = 0x80;
    assert_eq!(rt; sender.protect(&mut octets), Ok(()));
    assert_eq!(rt; &octets[16..20], [0x7f, 0xff, 0xff, 0xff].as_slice());
    assert_eq!(rt; sender.protect(&mut octets), Err(SrtpFault::KeyEnd));
    let keys = SessionKeys::of_rtcp(Profile::Aes128CmHmacSha1, &master()?);
    let mut other = RtcpReceiver::<64>::new(keys, 0x5a5a5a5a);
    assert_eq!(rt; other.unprotect(&mut octets), Err(SrtpFault::WrongFlag));
    let keys = SessionKeys::of_rtcp(Profile::NullHmacSha1, &master()?);
    let mut receiver = RtcpReceiver::<64>::new(keys, 0x5a5a5a5a);
    let mut copy = octets;
    copy[29] ^= 1;
    assert_eq!(rt; receiver.unprotect(&mut copy), Err(SrtpFault::WrongTag));
    assert_eq!(rt; receiver.unprotect(&mut octets), Ok(16));
    assert_eq!(rt;
        receiver.unprotect(&mut octets),
        Err(SrtpFault::TakenBefore)
    );
    Ok(())
}
