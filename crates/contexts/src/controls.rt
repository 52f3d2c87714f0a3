//! What comes of RTCP under a master key.
ghost use Rattle.std.specs.Prelude.{◌≡◌, ◌≤◌, ◌+◌, ◌^◌, ℕ, List, None, Some, true, nat_eq, length, IfErr, IfOk, IsOk, OnOk, OnErr};
ghost use Rattle.std.specs.Global.{Box};
ghost use Rattle.std.specs.Map.{lookup};
ghost use Rattle.srtp.specs.Derivation.{rtcp_keys};
ghost use Rattle.srtp.specs.Rtcp.{Receiving, IsReceiving, is_rtcp_tagged, receiving_fault};
ghost use Rattle.srtp.specs.declared.keys.Profile.{Profile};
ghost use Rattle.srtp.specs.declared.rtcp.RtcpReceiver.{RtcpReceiver};
ghost use Rattle.contexts.specs.Controls.{ControlBegins, ControlBeginsWith, ControlIn, control_source, new_receiving};
ghost use Rattle.contexts.specs.Heard.{HearsControl};
ghost use Rattle.contexts.specs.Keyed.{IsKeyed};
ghost use Rattle.contexts.specs.declared.fault.ContextFault.TheVariants.{OutOfMemory};
ghost use Rattle.contexts.specs.declared.inbound.TheConstants.{RTCP_INDICES};

use crate::fault::ContextFault;
use crate::inbound::Inbound;
use crate::kept::keep;
use srtp::{RtcpReceiver, SessionKeys, SrtpFault, has_rtcp_tag, rtcp_source_of};

impl Inbound {
    /// Takes the protection off a packet of RTCP in place, and returns how many octets it has without E, the index and
    /// the tag, which stay behind it.
    ///
    /// The checks, in this order: `Short` under 22 octets, `Version`; of an SSRC that is not known `WrongTag` and
    /// `OutOfMemory`; then `WrongFlag`, `TooOld`, `TakenBefore` and `WrongTag`. A packet that is refused changes
    /// nothing that is known of any SSRC.
    pub fn open_rtcp(&mut self, packet: &mut [u8]) -> Result<usize, ContextFault>
        requires { length packet.old ≤ 2 ^ 20 }
        // In the context of its SSRC,
        ensures known { (receiver : Box (RtcpReceiver RTCP_INDICES)) (receiving : Receiving)
            → lookup (nat_eq (control_source packet.old)) self.old.controls.entries ≡ Some receiver → IsReceiving RTCP_INDICES receiver.value receiving
            → OnOk result (ControlIn (control_source packet.old) receiving packet.old packet.new self.old.controls self.new.controls) }
        // or as the first of one that was not known.
        ensures begun { (profile : Profile) (key salt : List ℕ) → IsKeyed self.old profile key salt
            → lookup (nat_eq (control_source packet.old)) self.old.controls.entries ≡ None
            → OnOk result (ControlBeginsWith (rtcp_keys profile key salt) (control_source packet.old) packet.old packet.new self.old.controls self.new.controls) }
        // What SRTCP takes is taken.
        ensures taken { (receiver : Box (RtcpReceiver RTCP_INDICES)) (receiving : Receiving)
            → lookup (nat_eq (control_source packet.old)) self.old.controls.entries ≡ Some receiver → IsReceiving RTCP_INDICES receiver.value receiving
            → receiving_fault receiving packet.old ≡ None → IsOk result }
        ensures first { (profile : Profile) (key salt : List ℕ) → IsKeyed self.old profile key salt
            → lookup (nat_eq (control_source packet.old)) self.old.controls.entries ≡ None
            → receiving_fault (new_receiving (rtcp_keys profile key salt) (control_source packet.old)) packet.old ≡ None
            → IfErr result (λ fault. fault ≡ OutOfMemory) }
        ensures len { IfOk result (λ len. len + 14 ≡ length packet.old) }
        // Whatever is taken has a tag that the key makes.
        ensures heard { (profile : Profile) (key salt : List ℕ) → IsKeyed self.old profile key salt
            → OnOk result (HearsControl (rtcp_keys profile key salt) packet.old packet.new) }
        ensures keyed { (profile : Profile) (key salt : List ℕ) → IsKeyed self.old profile key salt → IsKeyed self.new profile key salt }
        ensures streams { self.new.streams ≡ self.old.streams }
        ensures err { OnErr result (packet.new ≡ packet.old) }
    {
        let ssrc = match rtcp_source_of(packet) {
            Ok(ssrc) => ssrc,
            Err(fault) => return Err(ContextFault::Refused(fault)),
        };
        if self.controls.contains(&ssrc) {
            self.open_control(ssrc, packet)
        } else {
            self.open_new_control(ssrc, packet)
        }
    }

    /// Takes the protection off the first packet of an SSRC.
    fn open_new_control(&mut self, ssrc: u32, packet: &mut [u8]) -> Result<usize, ContextFault>
        requires { (22 ≤ length packet.old) × (length packet.old ≤ 2 ^ 20) }
        ensures begun { (profile : Profile) (key salt : List ℕ) → IsKeyed self.old profile key salt
            → OnOk result (ControlBeginsWith (rtcp_keys profile key salt) ssrc packet.old packet.new self.old.controls self.new.controls) }
        ensures first { (profile : Profile) (key salt : List ℕ) → IsKeyed self.old profile key salt
            → receiving_fault (new_receiving (rtcp_keys profile key salt) ssrc) packet.old ≡ None → IfErr result (λ fault. fault ≡ OutOfMemory) }
        ensures len { IfOk result (λ len. len + 14 ≡ length packet.old) }
        ensures heard { (profile : Profile) (key salt : List ℕ) → IsKeyed self.old profile key salt
            → OnOk result (HearsControl (rtcp_keys profile key salt) packet.old packet.new) }
        ensures keyed { (profile : Profile) (key salt : List ℕ) → IsKeyed self.old profile key salt → IsKeyed self.new profile key salt }
        ensures streams { self.new.streams ≡ self.old.streams }
        ensures err { OnErr result (packet.new ≡ packet.old) }
    {
        self.begin_control(ssrc, packet)?;
        self.open_control(ssrc, packet)
    }

    /// Takes the protection off a packet of an SSRC that is known.
    fn open_control(&mut self, ssrc: u32, packet: &mut [u8]) -> Result<usize, ContextFault>
        requires { length packet.old ≤ 2 ^ 20 }
        ensures known { (receiver : Box (RtcpReceiver RTCP_INDICES)) (receiving : Receiving)
            → lookup (nat_eq ssrc) self.old.controls.entries ≡ Some receiver → IsReceiving RTCP_INDICES receiver.value receiving
            → OnOk result (ControlIn ssrc receiving packet.old packet.new self.old.controls self.new.controls) }
        ensures taken { (receiver : Box (RtcpReceiver RTCP_INDICES)) (receiving : Receiving)
            → lookup (nat_eq ssrc) self.old.controls.entries ≡ Some receiver → IsReceiving RTCP_INDICES receiver.value receiving
            → receiving_fault receiving packet.old ≡ None → IsOk result }
        ensures len { IfOk result (λ len. len + 14 ≡ length packet.old) }
        ensures heard { (profile : Profile) (key salt : List ℕ) → IsKeyed self.old profile key salt
            → OnOk result (HearsControl (rtcp_keys profile key salt) packet.old packet.new) }
        ensures keyed { (profile : Profile) (key salt : List ℕ) → IsKeyed self.old profile key salt → IsKeyed self.new profile key salt }
        ensures streams { self.new.streams ≡ self.old.streams }
        ensures err { OnErr result ((packet.new ≡ packet.old) × (self.new.controls ≡ self.old.controls)) }
    {
        let Some(receiver) = self.controls.peek_mut(&ssrc) else {
            return Err(ContextFault::Refused(SrtpFault::WrongTag));
        };
        match receiver.unprotect(packet) {
            Ok(len) => {
                self.controls.promote(&ssrc);
                Ok(len)
            }
            Err(fault) => Err(ContextFault::Refused(fault)),
        }
    }

    /// Begins the context of an SSRC that is not known, where a packet's tag is right.
    fn begin_control(&mut self, ssrc: u32, packet: &[u8]) -> Result<(), ContextFault>
        requires { 22 ≤ length packet.now }
        ensures begun { (profile : Profile) (key salt : List ℕ) → IsKeyed self.old profile key salt
            → OnOk result (ControlBegins (rtcp_keys profile key salt) ssrc self.old.controls self.new.controls) }
        ensures first { (profile : Profile) (key salt : List ℕ) → IsKeyed self.old profile key salt
            → is_rtcp_tagged (rtcp_keys profile key salt) packet.now ≡ true → IfErr result (λ fault. fault ≡ OutOfMemory) }
        ensures keyed { (profile : Profile) (key salt : List ℕ) → IsKeyed self.old profile key salt → IsKeyed self.new profile key salt }
        ensures streams { self.new.streams ≡ self.old.streams }
        ensures err { OnErr result (self.new.controls ≡ self.old.controls) }
    {
        if !has_rtcp_tag(&self.rtcp, packet) {
            return Err(ContextFault::Refused(SrtpFault::WrongTag));
        }
        let keys = SessionKeys::of_rtcp(self.profile, &self.master);
        let receiver = RtcpReceiver::new(keys, ssrc);
        keep(&mut self.controls, self.alloc, ssrc, receiver)
    }
}
