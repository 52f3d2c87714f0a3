//! Who answered a number that was drawn here, and so lives now.
ghost use Rattle.std.specs.Prelude.{◌≡◌, [], IfOk};
ghost use Rattle.liveness.specs.Living.{Hears, MayAsk, is_living, nobody_living, source_of, time_of};

use crate::answer::Answer;
use crate::reference::ReferenceTime;
use arrayvec::ArrayVec;
use lru::LruCache;
use std::alloc::{AllocError, Global};
use std::num::NonZeroUsize;

/// Of how many SSRCs it is known that they answered, and of how many when they were asked: as many as a receiver knows
/// under a key.
const SOURCES: usize = 16;

/// How long an SSRC is not asked again, in milliseconds.
const APART: u64 = 100;

/// An SSRC that answered, that of the media whose packets or retransmissions leave under it, and the first index of RTP
/// there that is not of the past.
#[derive(Clone, Copy, Debug, Default, PartialEq, Eq)]
pub struct Source {
    pub ssrc: u32,
    pub media: u32,
    pub first: u64,
}

/// Which SSRCs answered a number that was drawn at the start. What was recorded before has no answer to it, so nothing
/// of an SSRC that did not answer need be heard.
#[derive(Drop)]
pub struct Living {
    /// The receiver's own SSRC, under which it asks.
    own: u32,
    /// The number that was drawn.
    number: u32,
    /// Those that answered, the latest one last.
    sources: ArrayVec<Source, SOURCES>,
    /// When those were asked last that were asked.
    asked: LruCache<u32, u64>,
}

impl Living {
    /// Nobody answered so far, to who asks under this SSRC with this number.
    ///
    /// `AllocError`: the allocator refused the memory.
    pub fn new(alloc: Global, own: u32, number: u32) -> Result<Living, AllocError>
        ensures { IfOk result (λ living. living ≡ nobody_living own number living.asked × (living.asked.entries ≡ [])) }
    {
        let sources = NonZeroUsize::new(SOURCES).unwrap();
        Ok(Living {
            own,
            number,
            sources: ArrayVec::new(),
            asked: LruCache::sparse(alloc, sources)?,
        })
    }

    /// What it asks with: a reference time whose middle bits are the number.
    pub fn question(&self) -> ReferenceTime
        ensures { result ≡ time_of self.now.own self.now.number }
    {
        ReferenceTime {
            ssrc: self.own,
            seconds: self.number >> 16,
            fraction: self.number << 16,
        }
    }

    /// Whether an SSRC answered.
    pub fn is_living(&self, ssrc: u32) -> bool
        ensures { result ≡ is_living self.now ssrc }
    {
        self.sources.iter().any(|source| source.ssrc == ssrc)
    }

    /// What the answer of an SSRC told. None: it did not answer.
    pub fn source(&self, ssrc: u32) -> Option<Source>
        ensures { result ≡ source_of self.now.sources.items ssrc }
    {
        source_of(&self.sources, ssrc)
    }

    /// Hears a datagram of RTCP, and tells who answers the number by it for the first time, as far as is known.
    pub fn hear(&mut self, octets: &[u8]) -> Option<Source>
        ensures { Hears self.old octets.now result self.new }
    {
        let answer = Answer::read(octets)?;
        if answer.receiver != self.own
            || answer.last != self.number
            || self.is_living(answer.ssrc)
        {
            return None;
        }
        if self.sources.is_full() {
            self.sources.remove(0);
        }
        let source = Source {
            ssrc: answer.ssrc,
            media: answer.media,
            first: answer.first,
        };
        self.sources.push(source);
        Some(source)
    }

    /// Whether an SSRC may be asked at a moment, in milliseconds: no sooner than 100 behind the last time. That is kept
    /// where it may, as far as there is memory.
    pub fn may_ask(&mut self, ssrc: u32, now: u64) -> bool
        ensures { MayAsk self.old ssrc now result self.new }
    {
        let may = match self.asked.peek(&ssrc) {
            Some(moment) => now >= moment.saturating_add(APART),
            None => true,
        };
        if may {
            let _ = self.asked.put(ssrc, now);
        }
        may
    }
}

/// What an SSRC told, among those that answered.
fn source_of(sources: &[Source], ssrc: u32) -> Option<Source>
    ensures { result ≡ source_of sources.now ssrc }
{
    let (source, others) = sources.split_first()?;
    if source.ssrc == ssrc {
        Some(*source)
    } else {
        source_of(others, ssrc)
    }
}
