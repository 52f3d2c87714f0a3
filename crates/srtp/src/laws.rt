//! Laws on the definitions: what is protected can be opened, and what was taken is never taken again. Nothing here computes.
ghost use Rattle.std.specs.Prelude.{◌≡◌, ◌≤◌, ◌<◌, ◌^◌, ℕ, List, IsTrue, None, length};
ghost use Rattle.places.specs.Among.{is_among};
ghost use Rattle.srtp.specs.Derivation.{Keys};
ghost use Rattle.srtp.specs.Seal.{enciphered};
ghost use Rattle.srtp.specs.Replay.{replay_fault};
ghost use Rattle.srtp.specs.Field.{product, inverse};
ghost use Rattle.srtp.specs.Rtcp.{Receiving, rtcp_fault, rtcp_protected, IsRtcpOpened};
ghost use Rattle.srtp.specs.Stream.{Context, index_in, packet_fault, protected, IsOpened};

/// What the replay list's answers mean over a whole run. It computes nothing.
pub fn replays_are_refused()
    // What was taken once is never taken again, whatever was taken since.
    ensures never_again { (len index : ℕ) (taken : List ℕ) → IsTrue (is_among taken index) → replay_fault len taken index ≡ None → ⊥ }
{}

/// What protection determines. It computes nothing.
pub fn packets_are_opened()
    // A packet that is protected is taken as it was, by whoever has the keys, finds the same index for it and would take it.
    ensures opened { (sending receiving : Context) (packet : List ℕ) → sending.keys ≡ receiving.keys
        → index_in sending packet ≡ index_in receiving packet → packet_fault receiving packet ≡ None
        → IsOpened receiving packet (protected sending (index_in sending packet) packet) }
    // And so is a packet of RTCP under an index that was not taken.
    ensures opened_rtcp { (keys : Keys) (receiving : Receiving) (index : ℕ) (packet : List ℕ) → keys ≡ receiving.keys → index < 2 ^ 31
        → rtcp_fault receiving.ssrc packet ≡ None → replay_fault receiving.len receiving.taken index ≡ None
        → IsRtcpOpened receiving packet (rtcp_protected keys index packet) }
    // What is encrypted twice is as it was.
    ensures twice { (keys : Keys) (clear ssrc index : ℕ) (octets : List ℕ) → clear ≤ length octets
        → enciphered keys clear ssrc index (enciphered keys clear ssrc index octets) ≡ octets }
{}

/// What the S-box takes for inverse. It computes nothing.
pub fn inverses_are()
    ensures inverse { (b : ℕ) → 0 < b → b < 256 → product b (inverse b) ≡ 1 }
    ensures none { inverse 0 ≡ 0 }
{}
