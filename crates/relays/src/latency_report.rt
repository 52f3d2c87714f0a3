//! How the relay behind a network tells the one before it how long it waits for what is missing.
ghost use Rattle.std.specs.Prelude.{◌≡◌, ◌<◌, ◌^◌, ◌++◌, List, ℕ, IfSome, drop, length};
ghost use Rattle.relays.specs.LatencyReport.{IsReport, TellsLatency, report_octets};

use byteorder::{ByteOrder, NetworkEndian};

/// How many octets a report has.
pub const REPORT: usize = 16;

/// The latency of a receiver, in milliseconds, under its SSRC: a packet of RTCP that an application defines (RFC 3550,
/// section 6.7), which others pass over.
#[derive(Clone, Copy, Debug, PartialEq, Eq)]
pub struct LatencyReport {
    pub ssrc: u32,
    pub latency: u32,
}

impl LatencyReport {
    /// Its octets.
    pub fn write(&self) -> [u8; REPORT]
        ensures { result ≡ report_octets self.now }
    {
        let [a, b, c, d] = self.ssrc.to_be_bytes();
        let [e, f, g, h] = self.latency.to_be_bytes();
        [129, 204, 0, 3, a, b, c, d, 71, 111, 122, 100, e, f, g, h]
    }

    /// The one that octets spell, all of them. None: they spell none.
    pub fn read(octets: &[u8]) -> Option<LatencyReport>
        // What is read is spelled so.
        ensures spelled { IfSome result (λ report. octets.now ≡ report_octets report) }
        // What is spelled so is read.
        ensures only { (report : LatencyReport) → IsReport report → octets.now ≡ report_octets report → result ≡ Some report }
    {
        if octets.len() != REPORT {
            return None;
        }
        let report = LatencyReport {
            ssrc: NetworkEndian::read_u32(&octets[4..]),
            latency: NetworkEndian::read_u32(&octets[12..]),
        };
        if octets == &report.write()[..] {
            Some(report)
        } else {
            None
        }
    }
}

/// The latency that a datagram tells at its end, in milliseconds. None: it tells none.
pub fn latency_in(octets: &[u8]) -> Option<u64>
    ensures { TellsLatency octets.now result }
{
    let start = octets.len().saturating_sub(REPORT);
    match LatencyReport::read(&octets[start..]) {
        Some(report) => Some(u64::from(report.latency)),
        None => None,
    }
}
