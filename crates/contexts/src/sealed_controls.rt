//! What leaves of RTCP under a master key.
ghost use Rattle.std.specs.Prelude.{◌≡◌, ◌≤◌, ◌<◌, ◌^◌, ℕ, List, None, Some, nat_eq, length, IfErr, IsOk, OnOk, OnErr};
ghost use Rattle.std.specs.Global.{Box};
ghost use Rattle.std.specs.Map.{lookup};
ghost use Rattle.srtp.specs.Derivation.{rtcp_keys};
ghost use Rattle.srtp.specs.Rtcp.{Sending, IsSending, before_trailer, sending_fault};
ghost use Rattle.srtp.specs.Stream.{body_of};
ghost use Rattle.srtp.specs.declared.keys.Profile.{Profile};
ghost use Rattle.srtp.specs.declared.rtcp.RtcpSender.{RtcpSender};
ghost use Rattle.contexts.specs.Controls.{control_source};
ghost use Rattle.contexts.specs.Heard.{LeavesSealedControl};
ghost use Rattle.contexts.specs.Outbound.{IsSealedWith, Remembers, SealsControl, SealsFirstControl, SenderBegins, first_sending};
ghost use Rattle.contexts.specs.declared.fault.ContextFault.TheVariants.{OutOfMemory};

use crate::fault::ContextFault;
use crate::kept::keep;
use crate::outbound::Outbound;
use srtp::{RtcpSender, SessionKeys, SrtpFault, rtcp_source_of};

impl Outbound {
    /// Protects a packet of RTCP in place under the next index of its sender, and writes E, the index and the tag
    /// behind it: the last fourteen octets are the room for them.
    ///
    /// The checks, in this order: `Short` under eight octets, `Version`; of an SSRC that is not known `Full` and
    /// `OutOfMemory`; then `KeyEnd`. A packet that is refused changes nothing that is known of any SSRC.
    pub fn seal_rtcp(&mut self, packet: &mut [u8]) -> Result<(), ContextFault>
        requires room { 14 ≤ length packet.old }
        requires len { length packet.old ≤ 2 ^ 20 }
        // In the context of its SSRC,
        ensures known { (sender : Box RtcpSender) (sending : Sending)
            → lookup (nat_eq (control_source packet.old)) self.old.controls.entries ≡ Some sender → IsSending sender.value sending
            → OnOk result (SealsControl (control_source packet.old) sending packet.old packet.new self.old.controls self.new.controls) }
        // or as the first of one that was not known.
        ensures begun { (profile : Profile) (key salt : List ℕ) → IsSealedWith self.old profile key salt
            → lookup (nat_eq (control_source packet.old)) self.old.controls.entries ≡ None
            → OnOk result (SealsFirstControl (rtcp_keys profile key salt) (control_source packet.old) packet.old packet.new self.old.controls self.new.controls) }
        // What SRTCP protects is protected.
        ensures taken { (sender : Box RtcpSender) (sending : Sending)
            → lookup (nat_eq (control_source packet.old)) self.old.controls.entries ≡ Some sender → IsSending sender.value sending
            → sending_fault sending (before_trailer (body_of packet.old)) ≡ None → IsOk result }
        // And so is the first one of an SSRC, where there is room and memory for that.
        ensures first { (profile : Profile) (key salt : List ℕ) → IsSealedWith self.old profile key salt
            → lookup (nat_eq (control_source packet.old)) self.old.controls.entries ≡ None → length self.old.controls.entries < self.old.controls.cap
            → sending_fault (first_sending (rtcp_keys profile key salt) (control_source packet.old)) (before_trailer (body_of packet.old)) ≡ None
            → IfErr result (λ fault. fault ≡ OutOfMemory) }
        // No SSRC is forgotten.
        ensures remembers { Remembers self.old.controls self.new.controls }
        // Whatever leaves is what the key makes of the packet.
        ensures sealed { (profile : Profile) (key salt : List ℕ) → IsSealedWith self.old profile key salt
            → OnOk result (LeavesSealedControl (rtcp_keys profile key salt) (before_trailer (body_of packet.old)) packet.new) }
        ensures keyed { (profile : Profile) (key salt : List ℕ) → IsSealedWith self.old profile key salt → IsSealedWith self.new profile key salt }
        ensures streams { self.new.streams ≡ self.old.streams }
        ensures err { OnErr result (packet.new ≡ packet.old) }
    {
        let ssrc = match rtcp_source_of(packet) {
            Ok(ssrc) => ssrc,
            Err(fault) => return Err(ContextFault::Refused(fault)),
        };
        if self.controls.contains(&ssrc) {
            self.seal_control(ssrc, packet)
        } else {
            self.seal_new_control(ssrc, packet)
        }
    }

    /// Protects the first packet of an SSRC.
    fn seal_new_control(&mut self, ssrc: u32, packet: &mut [u8]) -> Result<(), ContextFault>
        requires len { (14 ≤ length packet.old) × (length packet.old ≤ 2 ^ 20) }
        requires new { lookup (nat_eq ssrc) self.old.controls.entries ≡ None }
        ensures begun { (profile : Profile) (key salt : List ℕ) → IsSealedWith self.old profile key salt
            → OnOk result (SealsFirstControl (rtcp_keys profile key salt) ssrc packet.old packet.new self.old.controls self.new.controls) }
        ensures first { (profile : Profile) (key salt : List ℕ) → IsSealedWith self.old profile key salt
            → length self.old.controls.entries < self.old.controls.cap
            → sending_fault (first_sending (rtcp_keys profile key salt) ssrc) (before_trailer (body_of packet.old)) ≡ None
            → IfErr result (λ fault. fault ≡ OutOfMemory) }
        ensures remembers { Remembers self.old.controls self.new.controls }
        ensures sealed { (profile : Profile) (key salt : List ℕ) → IsSealedWith self.old profile key salt
            → OnOk result (LeavesSealedControl (rtcp_keys profile key salt) (before_trailer (body_of packet.old)) packet.new) }
        ensures keyed { (profile : Profile) (key salt : List ℕ) → IsSealedWith self.old profile key salt → IsSealedWith self.new profile key salt }
        ensures streams { self.new.streams ≡ self.old.streams }
        ensures err { OnErr result (packet.new ≡ packet.old) }
    {
        self.begin_control(ssrc)?;
        self.seal_control(ssrc, packet)
    }

    /// Protects a packet of an SSRC that is known.
    fn seal_control(&mut self, ssrc: u32, packet: &mut [u8]) -> Result<(), ContextFault>
        requires { (14 ≤ length packet.old) × (length packet.old ≤ 2 ^ 20) }
        ensures known { (sender : Box RtcpSender) (sending : Sending) → lookup (nat_eq ssrc) self.old.controls.entries ≡ Some sender
            → IsSending sender.value sending → OnOk result (SealsControl ssrc sending packet.old packet.new self.old.controls self.new.controls) }
        ensures taken { (sender : Box RtcpSender) (sending : Sending) → lookup (nat_eq ssrc) self.old.controls.entries ≡ Some sender
            → IsSending sender.value sending → sending_fault sending (before_trailer (body_of packet.old)) ≡ None → IsOk result }
        ensures remembers { Remembers self.old.controls self.new.controls }
        ensures sealed { (profile : Profile) (key salt : List ℕ) → IsSealedWith self.old profile key salt
            → OnOk result (LeavesSealedControl (rtcp_keys profile key salt) (before_trailer (body_of packet.old)) packet.new) }
        ensures keyed { (profile : Profile) (key salt : List ℕ) → IsSealedWith self.old profile key salt → IsSealedWith self.new profile key salt }
        ensures streams { self.new.streams ≡ self.old.streams }
        ensures err { OnErr result (packet.new ≡ packet.old) }
    {
        let Some(sender) = self.controls.peek_mut(&ssrc) else {
            return Err(ContextFault::Refused(SrtpFault::WrongSource));
        };
        match sender.protect(packet) {
            Ok(()) => Ok(()),
            Err(fault) => Err(ContextFault::Refused(fault)),
        }
    }

    /// Begins the context of an SSRC that is not known.
    fn begin_control(&mut self, ssrc: u32) -> Result<(), ContextFault>
        requires { lookup (nat_eq ssrc) self.old.controls.entries ≡ None }
        ensures begun { (profile : Profile) (key salt : List ℕ) → IsSealedWith self.old profile key salt
            → OnOk result (SenderBegins (rtcp_keys profile key salt) ssrc self.old.controls self.new.controls) }
        ensures full { IfErr result (λ fault. length self.old.controls.entries < self.old.controls.cap → fault ≡ OutOfMemory) }
        ensures remembers { Remembers self.old.controls self.new.controls }
        ensures keyed { (profile : Profile) (key salt : List ℕ) → IsSealedWith self.old profile key salt → IsSealedWith self.new profile key salt }
        ensures streams { self.new.streams ≡ self.old.streams }
    {
        if self.controls.len() >= self.controls.cap().get() {
            return Err(ContextFault::Full);
        }
        let keys = SessionKeys::of_rtcp(self.profile, &self.master);
        let sender = RtcpSender::new(keys, ssrc, 0);
        keep(&mut self.controls, self.alloc, ssrc, sender)
    }
}
