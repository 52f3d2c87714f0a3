//! What a packet carries beside its payload, as C says it and is told it.
ghost use Rattle.std.specs.Prelude.{◌≡◌, ◌↔◌, IsTrue, MatchOption};
ghost use Rattle.std.specs.Option.{option_map};
ghost use Rattle.rtpwire.specs.Carried.{extension_with};
ghost use Rattle.rtpwire.specs.Content.{extension_of};
ghost use Rattle.gozdrit.specs.Packet.{Fits, HasWords, IsContent, TellsHeader, extension_in};

use rtpwire::{Carried, Content, MAX_SOURCES, MAX_WORDS, Words, fill_front};

/// What a packet carries beside its payload.
#[repr(C)]
#[derive(Drop)]
pub struct Header {
    /// The RTP timestamp, in units of the media's clock.
    pub timestamp: u32,
    /// The CSRC identifiers, of which the first `csrc_count` count.
    pub csrcs: [u32; MAX_SOURCES],
    /// The words of the header extension, of which the first `extension_words` count.
    pub extension: [u32; MAX_WORDS],
    /// The 16 bits of the header extension that the profile in use defines.
    pub extension_profile: u16,
    pub csrc_count: u8,
    pub extension_words: u8,
    /// 0 where there is no header extension.
    pub has_extension: u8,
    /// 0 where the marker bit is not set.
    pub marker: u8,
}

impl Header {
    /// The content that it says with this payload, lent, or None where no content holds so much.
    pub(crate) fn carried<'a>(&'a self, payload: &'a [u8]) -> Option<Carried<'a>>
        ensures { MatchOption result (Fits self.now payload.now → ⊥)
            (λ content. Fits self.now payload.now × IsContent self.now payload.now content) }
    {
        if !self.has_words() {
            return None;
        }
        let sources = self.csrcs.get(..usize::from(self.csrc_count))?;
        let marker = self.marker != 0;
        let sources = Words::Numbers(sources);
        Carried::of_fields(payload, self.timestamp, marker, sources, self.extension()).ok()
    }

    /// Whether its header extension has no more words than there may be.
    fn has_words(&self) -> bool
        ensures { IsTrue result ↔ HasWords self.now }
    {
        self.has_extension == 0 || usize::from(self.extension_words) <= MAX_WORDS
    }

    /// The header extension that it says, if it says one.
    fn extension(&self) -> Option<(u16, Words<'_>)>
        requires { HasWords self.now }
        ensures { option_map extension_of (option_map extension_with result) ≡ extension_in self.now }
    {
        if self.has_extension == 0 {
            return None;
        }
        let words = &self.extension[..usize::from(self.extension_words)];
        Some((self.extension_profile, Words::Numbers(words)))
    }

    /// Tells it a content. What its arrays hold behind the counts stays.
    pub(crate) fn tell(&mut self, content: &Content)
        ensures { TellsHeader self.old content.now self.new }
    {
        self.timestamp = content.timestamp;
        self.marker = u8::from(content.marker);
        self.csrc_count = content.sources.len() as u8;
        fill_front(&mut self.csrcs, content.sources.as_slice());
        match &content.extension {
            None => {
                self.has_extension = 0;
                self.extension_words = 0;
            }
            Some(extension) => {
                self.has_extension = 1;
                self.extension_profile = extension.profile;
                self.extension_words = extension.words.len() as u8;
                fill_front(&mut self.extension, extension.words.as_slice());
            }
        }
    }
}
