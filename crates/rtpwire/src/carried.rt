//! What a content is filled from, where it lies.
ghost use Rattle.std.specs.Prelude.{◌≡◌, ◌↔◌, length, IfOk, IsErr};
ghost use Rattle.std.specs.Option.{option_map};
ghost use Rattle.rtpwire.specs.Carried.{words_of, extension_with, content_with, HoldsNone};
ghost use Rattle.rtpwire.specs.Content.{IsContent, IsTooLong, packet_of, extension_of};
ghost use Rattle.rtpwire.specs.Rtp.{AreWords};

use crate::content::Content;
use crate::fault::ContentFault;
use crate::laws::content_is_bounded;
use crate::limits::{MAX_PAYLOAD, MAX_SOURCES, MAX_WORDS};
use crate::octets::{are_octets, are_words, is_half_word, is_word};
use crate::rtp::RtpView;
use std::marker::Model;

/// Words of 32 bits, as a caller has them or as a packet spells them.
#[derive(Clone, Copy)]
pub enum Words<'a> {
    /// Numbers.
    Numbers(&'a [u32]),
    /// Four octets each, in network order. What is left behind the last four is passed over.
    Octets(&'a [u8]),
}

impl<'a> Words<'a> {
    /// How many words there are.
    pub fn len(self) -> usize
        ensures { result ≡ length (words_of self.entry) }
    {
        match self {
            Words::Numbers(numbers) => numbers.len(),
            Words::Octets(octets) => octets.len() / 4,
        }
    }

    /// What each word is. It computes nothing.
    fn are_words(self)
        ensures { AreWords (words_of self.entry) }
    {
        match self {
            Words::Numbers(numbers) => are_words(numbers),
            Words::Octets(octets) => are_octets(octets),
        }
    }
}

/// What a packet carries, as [`Content`] has it, lent by whoever has it. Nothing is copied.
#[derive(Drop)]
pub struct Carried<'a> {
    payload: &'a [u8],
    timestamp: u32,
    marker: bool,
    sources: Words<'a>,
    extension: Option<(u16, Words<'a>)>,
}

impl<'a> Model for Carried<'a> {
    ghost use Rattle.rtpwire.specs.declared.content.Content.{Content};
    ghost use Rattle.rtpwire.specs.Carried.{content_with};
    ghost use Rattle.rtpwire.specs.Content.{IsContent};

    ghost Value = { Content };

    ghost view = { λ c. content_with c.payload.now c.timestamp c.marker c.sources c.extension };

    ghost invariant = { λ c. IsContent (content_with c.payload.now c.timestamp c.marker c.sources c.extension) };
}

impl<'a> Carried<'a> {
    /// A content, lent.
    pub fn of_content(content: &'a Content) -> Carried<'a>
        ensures { result ≡ content.now }
    {
        content_is_bounded(content);
        Carried {
            payload: content.payload.as_slice(),
            timestamp: content.timestamp,
            marker: content.marker,
            sources: Words::Numbers(content.sources.as_slice()),
            extension: match &content.extension {
                Some(extension) => Some((
                    extension.profile,
                    Words::Numbers(extension.words.as_slice()),
                )),
                None => None,
            },
        }
    }

    /// Fields, lent. They are refused where no content holds them: the payload has more than
    /// [`MAX_PAYLOAD`](crate::MAX_PAYLOAD) octets, there are more than [`MAX_SOURCES`](crate::MAX_SOURCES) sources, or the
    /// extension has more than [`MAX_WORDS`](crate::MAX_WORDS) words.
    pub fn of_fields(
        payload: &'a [u8],
        timestamp: u32,
        marker: bool,
        sources: Words<'a>,
        extension: Option<(u16, Words<'a>)>,
    ) -> Result<Carried<'a>, ContentFault>
        ensures ok { IfOk result (λ content. content ≡ content_with payload.now timestamp marker sources.entry extension.entry) }
        ensures too_long { IsErr result ↔ HoldsNone payload.now sources.entry extension.entry }
    {
        if payload.len() > MAX_PAYLOAD || sources.len() > MAX_SOURCES {
            return Err(ContentFault::TooLong);
        }
        if let Some((profile, words)) = extension {
            if words.len() > MAX_WORDS {
                return Err(ContentFault::TooLong);
            }
            is_half_word(profile);
            words.are_words();
        }
        are_octets(payload);
        is_word(timestamp);
        sources.are_words();
        Ok(Carried {
            payload,
            timestamp,
            marker,
            sources,
            extension,
        })
    }

    /// A packet that was read, lent, with this payload in place of its own. It is refused where no content
    /// holds it: this payload has more than [`MAX_PAYLOAD`](crate::MAX_PAYLOAD) octets, or the extension more than
    /// [`MAX_WORDS`](crate::MAX_WORDS) words.
    ///
    /// A caller that takes both media and retransmissions finds the payload first, and then has one carried
    /// content of both.
    pub fn with_payload(view: &RtpView<'a>, payload: &'a [u8]) -> Result<Carried<'a>, ContentFault>
        ensures ok { IfOk result (λ content.
            packet_of content view.now.padding view.now.sequence view.now.payload_type view.now.ssrc
            ≡ record view.now { payload = payload.now }) }
        ensures too_long { IsErr result ↔ IsTooLong (record view.now { payload = payload.now }) }
    {
        Carried::of_fields(
            payload,
            view.timestamp(),
            view.marker(),
            Words::Octets(view.source_octets()),
            extension_lent(view),
        )
    }

    /// The payload.
    pub fn payload(&self) -> &'a [u8]
        ensures { result.now ≡ self.now.payload.items }
    {
        self.payload
    }

    /// The RTP timestamp.
    pub fn timestamp(&self) -> u32
        ensures { result ≡ self.now.timestamp }
    {
        self.timestamp
    }

    /// The marker bit.
    pub fn marker(&self) -> bool
        ensures { result ≡ self.now.marker }
    {
        self.marker
    }

    /// The CSRC identifiers.
    pub fn sources(&self) -> Words<'a>
        ensures { words_of result ≡ self.now.sources.items }
    {
        self.sources
    }

    /// The header extension, if there is one: the 16 bits that the profile defines, and its words.
    pub fn extension(&self) -> Option<(u16, Words<'a>)>
        ensures { option_map extension_with result ≡ self.now.extension }
    {
        self.extension
    }

    /// What it holds, as every content. It computes nothing.
    pub fn is_bounded(&self)
        ensures { IsContent self.now }
    {
        let _payload = self.payload;
    }
}

/// The header extension of a packet that was read, lent.
fn extension_lent<'a>(view: &RtpView<'a>) -> Option<(u16, Words<'a>)>
    ensures { option_map extension_of (option_map extension_with result) ≡ view.now.extension }
{
    match view.extension() {
        Some((profile, octets)) => Some((profile, Words::Octets(octets))),
        None => None,
    }
}
