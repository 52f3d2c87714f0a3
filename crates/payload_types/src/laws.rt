//! What is true of payload types whatever comes. These functions compute nothing: their contracts are the laws.
ghost use Rattle.std.specs.Prelude.{◌≡◌, ◌≢◌, ℕ, true, List, ◌∷◌, Some};
ghost use Rattle.rtpwire.specs.Rtp.{RtpPacket};
ghost use Rattle.rtpwire.specs.Session.{IsDynamic, IsMediaType};
ghost use Rattle.payload_types.specs.Folding.{in_session, is_of_session, on_network};
ghost use Rattle.payload_types.specs.Types.{AreTypes};
ghost use Rattle.payload_types.specs.declared.types.TypePair.{TypePair};

/// There and back changes nothing but padding: a packet that enters a session leaves it with its own type.
pub fn no_type_is_lost()
    ensures back { (pairs : List TypePair) (p q : RtpPacket) → AreTypes pairs → in_session pairs p ≡ Some q
        → on_network pairs q ≡ Some (record p { padding = 0 }) }
    // The session below knows what it is, whatever type it had.
    ensures known { (pairs : List TypePair) (p q : RtpPacket) → in_session pairs p ≡ Some q → is_of_session pairs q ≡ true }
    // So no two packets become one, but for their padding.
    ensures one { (pairs : List TypePair) (p r q : RtpPacket) → AreTypes pairs → in_session pairs p ≡ Some q → in_session pairs r ≡ Some q
        → record p { padding = 0 } ≡ record r { padding = 0 } }
{}

/// The first pair is one that [`Session::with_any_media_type`](rtpwire::Session::with_any_media_type) takes.
pub fn types_are_those_of_a_session()
    ensures { (first : TypePair) (more : List TypePair) → AreTypes (first ∷ more)
        → IsMediaType first.media × IsDynamic first.repair × (first.media ≢ first.repair) }
{}
