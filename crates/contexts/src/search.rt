//! Which rollover counters are tried where that of a packet is not known: as after a late start, or a loss of half a
//! cycle and more.
ghost use Rattle.std.specs.Prelude.{◌≡◌, ◌<◌};
ghost use Rattle.contexts.specs.Search.{MayTry, ahead, behind, found, tried};

/// How many are tried in a span, and how long a span is, in milliseconds. A trial hashes the packet once.
const TRIALS: u32 = 200;

const SPAN: u64 = 100;

/// How many near ones a search goes through before it begins again, and how many in all: those of seven weeks of 1000
/// packets a second.
const NEAR: u32 = 64;

const REACH: u32 = 65536;

/// How far a search has come, and how many trials it has left in this span. Who sends packets with wrong tags costs no
/// more than these. Near counters and those further on are tried by turns, each kind one after another, so that near
/// ones come soon whoever else has some tried.
#[derive(Clone, Copy, Debug, PartialEq, Eq)]
pub struct Search {
    near: u32,
    far: u32,
    is_far: bool,
    left: u32,
    ends: u64,
}

impl Search {
    /// Nothing was tried.
    pub const NONE: Search = Search {
        near: 0,
        far: 0,
        is_far: false,
        left: 0,
        ends: 0,
    };

    /// Whether one more may be tried at the moment `now`, in milliseconds; it is then counted.
    pub fn may_try(&mut self, now: u64) -> bool
        ensures { MayTry self.old now result self.new }
    {
        if now >= self.ends {
            self.left = TRIALS;
            self.ends = now.saturating_add(SPAN);
        }
        if self.left == 0 {
            return false;
        }
        self.left -= 1;
        true
    }

    /// By how much the next one to be tried lies ahead of the first one.
    pub fn next(&mut self) -> u32
        ensures value { result ≡ ahead self.old }
        ensures goes_on { self.new ≡ tried self.old }
    {
        let ahead = if self.is_far { self.far } else { self.near };
        if self.is_far {
            self.far = behind(self.far, REACH);
        } else {
            self.near = behind(self.near, NEAR);
        }
        self.is_far = !self.is_far;
        ahead
    }

    /// The one was found: the next search begins anew.
    pub fn end(&mut self)
        ensures { self.new ≡ found self.old }
    {
        self.near = 0;
        self.far = 0;
    }
}

/// The number behind one, of so many that come again and again.
fn behind(number: u32, count: u32) -> u32
    requires { 0 < count }
    ensures { result ≡ behind number count }
{
    if number >= count - 1 { 0 } else { number + 1 }
}
