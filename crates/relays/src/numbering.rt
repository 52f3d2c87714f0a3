//! Which sequence numbers a player sees.
ghost use Rattle.std.specs.Prelude.{◌≡◌, None, false};
ghost use Rattle.relays.specs.Numbering.{numbered, numbered_after, anew};

use places::Place;

/// The SSRC and the sequence numbers of what is played. The numbers are the places' own, shifted so that they go on where a stream
/// restarts with others. So what a player sees has one SSRC, and holes only where packets are not played: where places were given up or
/// overrun, and where a jump of the stream passed over them.
#[derive(Clone, Copy, Debug, PartialEq, Eq)]
pub struct Numbering {
    ssrc: u32,
    /// How far a number lies above the place's own, modulo 65536.
    shift: u16,
    /// The number after that of the last packet, once there was one.
    next: Option<u16>,
    /// Whether the next packet goes on from there, wherever its place is.
    is_anew: bool,
}

impl Numbering {
    /// This SSRC, and numbers as the places have them.
    pub fn new(ssrc: u32) -> Numbering
        ensures { result ≡ record { ssrc = ssrc; shift = 0; next = None; is_anew = false } }
    {
        Numbering {
            ssrc,
            shift: 0,
            next: None,
            is_anew: false,
        }
    }

    /// Has the next packet go on from the last one, wherever its place is: the stream has restarted with other numbers.
    pub fn restart(&mut self)
        ensures { self.new ≡ anew self.old }
    {
        self.is_anew = true;
    }

    /// The SSRC that the player sees.
    pub fn ssrc(&self) -> u32
        ensures { result ≡ self.now.ssrc }
    {
        self.ssrc
    }

    /// The number of the next packet, which has this place.
    pub fn number(&self, place: Place) -> u16
        ensures { result ≡ numbered self.now place }
    {
        match self.next {
            Some(next) if self.is_anew => next,
            _ => place.number().wrapping_add(self.shift),
        }
    }

    /// The packet of this place was played.
    pub fn play(&mut self, place: Place)
        ensures { self.new ≡ numbered_after self.old place }
    {
        let number = self.number(place);
        self.shift = number.wrapping_sub(place.number());
        self.next = Some(number.wrapping_add(1));
        self.is_anew = false;
    }
}
