//! Contexts by SSRC: which packets are taken in the middle of a session, which are refused, and what that costs.
use crate::derivation::master;
use contexts::{ContextFault, Inbound, Outbound};
use srtp::{Profile, RtcpSender, SessionKeys, SrtpFault, Stream};
use std::test::Fail;

const PROFILE: Profile = Profile::NullHmacSha1;

fn inbound(rt: &HostRuntime) -> Result<Inbound, Fail> {
    Ok(
        Inbound::new(rt.alloc(), PROFILE, master()?)
            .ok()
            .ok_or("memory")?,
    )
}

fn outbound(rt: &HostRuntime) -> Result<Outbound, Fail> {
    Ok(
        Outbound::new(rt.alloc(), PROFILE, master()?)
            .ok()
            .ok_or("memory")?,
    )
}

/// A packet of eight octets of payload with room for a tag.
fn packet(ssrc: u32, seq: u16) -> [u8; 30] {
    let mut octets = [0x5a; 30];
    octets[0] = 0x80;
    octets[2..4].copy_from_slice(&seq.to_be_bytes());
    octets[8..12].copy_from_slice(&ssrc.to_be_bytes());
    octets
}

/// The same as it is protected under a rollover counter.
fn sealed(ssrc: u32, rollover: u32, seq: u16) -> Result<[u8; 30], Fail> {
    let keys = SessionKeys::of_rtp(PROFILE, &master()?);
    let mut octets = packet(ssrc, seq);
    let mut stream = Stream::<64>::new(keys, ssrc, rollover);
    stream.protect(&mut octets).ok().ok_or("it is protected")?;
    Ok(octets)
}

/// A packet of RTCP as its sender protects it under an index.
fn sealed_control(ssrc: u32, index: u32) -> Result<[u8; 30], Fail> {
    let keys = SessionKeys::of_rtcp(PROFILE, &master()?);
    let mut octets = [0x5a; 30];
    octets[0] = 0x80;
    octets[4..8].copy_from_slice(&ssrc.to_be_bytes());
    let mut sender = RtcpSender::new(keys, ssrc, index);
    sender.protect(&mut octets).ok().ok_or("it is protected")?;
    Ok(octets)
}

const fn refused(fault: SrtpFault) -> Result<usize, ContextFault> {
    Err(ContextFault::Refused(fault))
}

#[test]
fn sources(rt: HostRuntime) -> Result<(), Fail> {
    let mut inbound = inbound(&rt)?;
    for ssrc in [7, 8, 9] {
        for seq in [65535, 3, 2] {
            let rollover = if seq == 65535 { 0 } else { 1 };
            let octets = sealed(ssrc, rollover, seq)?;
            let mut came = octets;
            assert_eq!(rt; inbound.open_rtp(&mut came, 0), Ok(20));
            assert_eq!(rt; &came[..20], &packet(ssrc, seq)[..20]);
            came = octets;
            assert_eq!(rt;
                inbound.open_rtp(&mut came, 0),
                refused(SrtpFault::TakenBefore)
            );
            assert_eq!(rt; came, octets);
        }
    }
    assert_eq!(rt;
        inbound.open_rtp(&mut packet(10, 1), 0),
        refused(SrtpFault::WrongTag)
    );
    assert_eq!(rt;
        inbound.open_rtp(&mut [0x80; 21], 0),
        refused(SrtpFault::Short)
    );
    Ok(())
}

#[test]
fn in_the_middle(rt: HostRuntime) -> Result<(), Fail> {
    let mut inbound = inbound(&rt)?;
    // A stranger's packet moves the search on; one of a session that had 40 cycles is found all the same, by its first
    // eight packets.
    assert_eq!(rt;
        inbound.open_rtp(&mut packet(6, 1), 0),
        refused(SrtpFault::WrongTag)
    );
    let mut first = u16::MAX;
    for seq in 100..120 {
        if inbound.open_rtp(&mut sealed(7, 40, seq)?, 0).is_ok() {
            first = first.min(seq);
        }
    }
    assert!(rt; first < 108);
    // Behind a loss of half a cycle, of one and a half, and of 1000.
    for (rollover, seq) in [(41, 60u16), (43, 5), (1043, 9)] {
        let mut taken = false;
        for more in 0..400u16 {
            let now = 100 + 100 * u64::from(more);
            taken |= inbound
                .open_rtp(&mut sealed(7, rollover, seq.wrapping_add(more))?, now)
                .is_ok();
        }
        assert!(rt; taken);
    }
    // What came before is refused, and no search finds it new.
    for seq in 100..120 {
        assert!(rt; inbound.open_rtp(&mut sealed(7, 40, seq)?, 90_000).is_err());
    }
    Ok(())
}

#[test]
fn one_cycle_behind(rt: HostRuntime) -> Result<(), Fail> {
    let mut inbound = inbound(&rt)?;
    assert_eq!(rt; inbound.open_rtp(&mut sealed(7, 0, 5)?, 0), Ok(20));
    // Others have used up all trials of the moment. The cycle behind the one that is known wants none.
    for seq in 0..60 {
        let _ = inbound.open_rtp(&mut packet(8, seq), 0);
    }
    assert_eq!(rt;
        inbound.open_rtp(&mut sealed(7, 2, 6)?, 0),
        refused(SrtpFault::WrongTag)
    );
    assert_eq!(rt; inbound.open_rtp(&mut sealed(7, 1, 40_000)?, 0), Ok(20));
    // A tenth of a second later there are trials again.
    assert_eq!(rt;
        inbound.open_rtp(&mut sealed(7, 3, 5)?, 99),
        refused(SrtpFault::WrongTag)
    );
    let mut taken = false;
    for seq in 5..20 {
        taken |= inbound.open_rtp(&mut sealed(7, 3, seq)?, 100).is_ok();
    }
    assert!(rt; taken);
    Ok(())
}

#[test]
fn half_a_cycle_ahead(rt: HostRuntime) -> Result<(), Fail> {
    // In a session's first cycle and in a later one, by half a cycle and by nearly all of it, and where others have used
    // up all trials of the moment: it is the next packet that came, and what is recorded of it costs no trial either.
    for (rollover, seq) in [(0, 40_000), (0, 65_500), (9, 32_800), (9, 65_535)] {
        let mut inbound = inbound(&rt)?;
        let mut began = false;
        for first in 0..20 {
            began |= inbound
                .open_rtp(&mut sealed(7, rollover, first)?, u64::from(first))
                .is_ok();
        }
        assert!(rt; began);
        for stranger in 0..60 {
            let _ = inbound.open_rtp(&mut packet(8, stranger), 20);
        }
        assert_eq!(rt;
            inbound.open_rtp(&mut sealed(7, rollover, seq)?, 20),
            Ok(20)
        );
        assert_eq!(rt;
            inbound.open_rtp(&mut sealed(7, rollover, seq)?, 20),
            refused(SrtpFault::TakenBefore)
        );
    }
    Ok(())
}

/// The index of what was taken is told by its SSRC and its number, and how far what left has come.
#[test]
fn told_indices(rt: HostRuntime) -> Result<(), Fail> {
    let mut inbound = inbound(&rt)?;
    let mut outbound = outbound(&rt)?;
    assert!(rt; inbound.index_of(7, 65_535).is_none() && outbound.next_index(7) == 0);
    for (rollover, seq, index, next) in [
        (0, 65_535, 65_535, 65_536),
        (1, 3, 65_539, 65_540),
        (0, 65_534, 65_534, 65_540),
    ] {
        assert_eq!(rt; inbound.open_rtp(&mut sealed(7, rollover, seq)?, 0), Ok(20));
        assert_eq!(rt; inbound.index_of(7, seq), Some(index));
        assert_eq!(rt; outbound.seal_rtp(&mut packet(7, seq)), Ok(()));
        assert_eq!(rt; outbound.next_index(7), next);
    }
    assert_eq!(rt; inbound.index_of(7, 3), Some(65_539));
    assert_eq!(rt; inbound.index_of(7, 4), Some(4));
    assert!(rt; inbound.index_of(8, 3).is_none() && outbound.next_index(8) == 0);
    assert_eq!(rt; inbound.open_rtp(&mut sealed(9, 0, 2)?, 0), Ok(20));
    assert!(rt; inbound.index_of(9, 3).is_none() && inbound.index_of(9, 2) == Some(2));
    Ok(())
}

#[test]
fn forgotten(rt: HostRuntime) -> Result<(), Fail> {
    let mut inbound = inbound(&rt)?;
    for ssrc in 0..16 {
        assert_eq!(rt; inbound.open_rtp(&mut sealed(ssrc, 0, 1)?, 0), Ok(20));
    }
    // The first one is used, and a wrong packet is no use: so the second one goes for the seventeenth.
    assert_eq!(rt; inbound.open_rtp(&mut sealed(0, 0, 2)?, 0), Ok(20));
    assert_eq!(rt;
        inbound.open_rtp(&mut packet(1, 2), 0),
        refused(SrtpFault::WrongTag)
    );
    assert_eq!(rt; inbound.open_rtp(&mut sealed(16, 0, 1)?, 0), Ok(20));
    assert_eq!(rt;
        inbound.open_rtp(&mut sealed(0, 0, 1)?, 0),
        refused(SrtpFault::TakenBefore)
    );
    assert_eq!(rt;
        inbound.open_rtp(&mut sealed(2, 0, 1)?, 0),
        refused(SrtpFault::TakenBefore)
    );
    assert_eq!(rt; inbound.open_rtp(&mut sealed(1, 0, 1)?, 0), Ok(20));
    Ok(())
}

#[test]
fn controls(rt: HostRuntime) -> Result<(), Fail> {
    let mut inbound = inbound(&rt)?;
    for (ssrc, index) in [(7, 0), (8, 500), (7, 1), (8, 400)] {
        let octets = sealed_control(ssrc, index)?;
        let mut came = octets;
        assert_eq!(rt; inbound.open_rtcp(&mut came), Ok(16));
        came = octets;
        assert_eq!(rt;
            inbound.open_rtcp(&mut came),
            refused(SrtpFault::TakenBefore)
        );
        assert_eq!(rt; came, octets);
    }
    assert_eq!(rt;
        inbound.open_rtcp(&mut sealed_control(8, 371)?),
        refused(SrtpFault::TooOld)
    );
    assert_eq!(rt; inbound.open_rtcp(&mut sealed_control(8, 373)?), Ok(16));
    let mut turned = sealed_control(9, 0)?;
    turned[29] ^= 1;
    assert_eq!(rt;
        inbound.open_rtcp(&mut turned),
        refused(SrtpFault::WrongTag)
    );
    Ok(())
}

#[test]
fn leaving(rt: HostRuntime) -> Result<(), Fail> {
    let mut outbound = outbound(&rt)?;
    for ssrc in [7, 8] {
        for (rollover, seq) in [(0, 65535), (1, 0), (1, 1)] {
            let mut octets = packet(ssrc, seq);
            assert_eq!(rt; outbound.seal_rtp(&mut octets), Ok(()));
            assert_eq!(rt; octets, sealed(ssrc, rollover, seq)?);
        }
        let mut again = packet(ssrc, 0);
        let fault = ContextFault::Refused(SrtpFault::TakenBefore);
        assert_eq!(rt; outbound.seal_rtp(&mut again), Err(fault));
        assert_eq!(rt; again, packet(ssrc, 0));
    }
    for index in 0..3 {
        let mut octets = [0x5a; 30];
        octets[0] = 0x80;
        octets[4..8].copy_from_slice(&[0, 0, 0, 7]);
        assert_eq!(rt; outbound.seal_rtcp(&mut octets), Ok(()));
        assert_eq!(rt; octets, sealed_control(7, index)?);
    }
    assert_eq!(rt; ContextFault::Full.number(), 100);
    assert_eq!(rt; ContextFault::OutOfMemory.number(), 101);
    assert_eq!(rt; ContextFault::Refused(SrtpFault::WrongTag).number(), 99);
    Ok(())
}
