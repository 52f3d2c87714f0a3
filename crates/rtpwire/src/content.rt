//! What a packet carries from one end to the other.
ghost use Rattle.std.specs.Prelude.{◌≡◌, ◌↔◌, ◌+◌, ◌/◌, ◌≤◌, ◌++◌, length, IfOk, IsErr, IfSome};
ghost use Rattle.std.specs.Option.{option_map};
ghost use Rattle.rtpwire.specs.Carried.{words_of, extension_with};
ghost use Rattle.rtpwire.specs.Content.{packet_of, blank_content, IsTooLong};
ghost use Rattle.rtpwire.specs.RtpReading.{words_at};

use crate::carried::{Carried, Words};
use crate::fault::ContentFault;
use crate::limits::{MAX_DATAGRAM, MAX_PAYLOAD, MAX_SOURCES, MAX_WORDS};
use crate::octets::u32_at;
use crate::retransmission::RtxView;
use crate::rtp::RtpView;
use arrayvec::ArrayVec;

/// A datagram as octets: each packet that is written has room in it.
pub type Datagram = ArrayVec<u8, MAX_DATAGRAM>;

/// A header extension (RFC 3550, section 5.3.1).
#[derive(Debug, Drop, PartialEq, Eq)]
pub struct Extension {
    /// The 16 bits that the profile in use defines.
    pub profile: u16,
    /// Its words of 32 bits.
    pub words: ArrayVec<u32, MAX_WORDS>,
}

/// What a packet carries, whatever its sequence number, type, SSRC and padding.
#[derive(Debug, Drop, PartialEq, Eq)]
pub struct Content {
    /// The payload, in octets.
    pub payload: ArrayVec<u8, MAX_PAYLOAD>,
    /// The RTP timestamp, in units of the media's clock.
    pub timestamp: u32,
    /// The marker bit.
    pub marker: bool,
    /// The CSRC identifiers: the contributing sources.
    pub sources: ArrayVec<u32, MAX_SOURCES>,
    /// The header extension, if there is one.
    pub extension: Option<Extension>,
}

impl Extension {
    /// The same extension once more. It takes no memory.
    pub fn copy(&self) -> Extension
        ensures { result ≡ self.now }
    {
        Extension {
            profile: self.profile,
            words: copy_items(&self.words),
        }
    }
}

impl Content {
    /// The content of a packet that was read, or a refusal where no content holds it: the payload has more than
    /// [`MAX_PAYLOAD`](crate::MAX_PAYLOAD) octets, or the extension more than [`MAX_WORDS`](crate::MAX_WORDS) words.
    pub fn of_view(view: &RtpView<'_>) -> Result<Content, ContentFault>
        ensures ok { IfOk result (λ content. packet_of content view.now.padding view.now.sequence view.now.payload_type view.now.ssrc ≡ view.now) }
        ensures too_long { IsErr result ↔ IsTooLong view.now }
    {
        Content::with_payload(view, view.payload())
    }

    /// The content of a retransmission that was read: its payload without the original's number. It is
    /// refused where no content holds it: that payload has more than [`MAX_PAYLOAD`](crate::MAX_PAYLOAD) octets, or the
    /// extension more than [`MAX_WORDS`](crate::MAX_WORDS) words.
    pub fn of_rtx(view: &RtxView<'_>) -> Result<Content, ContentFault>
        ensures ok { IfOk result (λ content. let packet = view.now.packet in
            packet_of content packet.padding packet.sequence packet.payload_type packet.ssrc ≡ packet) }
        ensures too_long { IsErr result ↔ IsTooLong view.now.packet }
    {
        Content::with_payload(view.packet(), view.payload())
    }

    /// The content of a packet that was read, with this payload in place of the packet's own. It is
    /// refused where no content holds it: this payload has more than [`MAX_PAYLOAD`](crate::MAX_PAYLOAD) octets, or the
    /// extension more than [`MAX_WORDS`](crate::MAX_WORDS) words.
    ///
    /// A caller that takes both media and retransmissions finds the payload first, and then reads the
    /// content at one place, which saves moves of it.
    pub fn with_payload(view: &RtpView<'_>, payload: &[u8]) -> Result<Content, ContentFault>
        ensures ok { IfOk result (λ content.
            packet_of content view.now.padding view.now.sequence view.now.payload_type view.now.ssrc
            ≡ record view.now { payload = payload.now }) }
        ensures too_long { IsErr result ↔ IsTooLong (record view.now { payload = payload.now }) }
    {
        Ok(Content::of(&Carried::with_payload(view, payload)?))
    }

    /// A content that carries nothing: no payload, sources or extension, the timestamp 0 and no marker.
    pub fn blank() -> Content
        ensures { result ≡ blank_content }
    {
        Content {
            payload: ArrayVec::new(),
            timestamp: 0,
            marker: false,
            sources: ArrayVec::new(),
            extension: None,
        }
    }

    /// A content of what lies elsewhere.
    pub fn of(from: &Carried<'_>) -> Content
        ensures { result ≡ from.now }
    {
        let mut content = Content::blank();
        content.fill(from);
        content
    }

    /// Fills it with what lies elsewhere, in place of all that it held. Each octet of the payload is written
    /// once, and none is blanked but those that an older and longer payload leaves behind.
    pub fn fill(&mut self, from: &Carried<'_>)
        ensures { self.new ≡ from.now }
    {
        from.is_bounded();
        refill(&mut self.payload, from.payload());
        self.timestamp = from.timestamp();
        self.marker = from.marker();
        refill_words(&mut self.sources, from.sources());
        refill_extension(&mut self.extension, from.extension());
    }

    /// The same content once more. It takes no memory.
    pub fn copy(&self) -> Content
        ensures { result ≡ self.now }
    {
        Content::of(&Carried::of_content(self))
    }
}

fn copy_items<T: Copy + Default + Drop, const N: usize>(items: &ArrayVec<T, N>) -> ArrayVec<T, N>
    ensures { result ≡ items.now }
{
    let mut copy = ArrayVec::new();
    copy.try_extend_from_slice(items.as_slice()).unwrap();
    copy
}

/// Puts items in the place of those that a vector holds. Where it held as many, as is usual, they are moved at once.
fn refill<T: Copy + Default + Drop, const N: usize>(to: &mut ArrayVec<T, N>, items: &[T])
    requires { length items.now ≤ N }
    ensures { to.new.items ≡ items.now }
{
    if to.len() == items.len() {
        to.as_mut_slice().copy_from_slice(items);
    } else {
        refill_other(to, items);
    }
}

/// The same where it may hold more or fewer. Nothing is blanked but what it held beyond them.
#[inline(never)]
fn refill_other<T: Copy + Default + Drop, const N: usize>(to: &mut ArrayVec<T, N>, items: &[T])
    requires { length items.now ≤ N }
    ensures { to.new.items ≡ items.now }
{
    if to.len() > items.len() {
        to.truncate(items.len());
        to.as_mut_slice().copy_from_slice(items);
        return;
    }
    let (over, behind) = items.split_at(to.len());
    to.as_mut_slice().copy_from_slice(over);
    to.try_extend_from_slice(behind).unwrap();
}

/// Puts words in the place of those that a vector holds. Where there were none and are none, as is usual, nothing is
/// done.
fn refill_words<const N: usize>(to: &mut ArrayVec<u32, N>, words: Words<'_>)
    requires { length (words_of words) ≤ N }
    ensures { to.new.items ≡ words_of words.entry }
{
    if to.len() > 0 || words.len() > 0 {
        put_words(to, words);
    }
}

/// The same, whatever there was and is.
#[inline(never)]
#[tactic(auto, using(crate::proofs::WordsIn::length_words_at))]
fn put_words<const N: usize>(to: &mut ArrayVec<u32, N>, words: Words<'_>)
    requires { length (words_of words) ≤ N }
    ensures { to.new.items ≡ words_of words.entry }
{
    match words {
        Words::Numbers(numbers) => refill(to, numbers),
        Words::Octets(octets) => {
            to.clear();
            push_words_in(to, octets);
        }
    }
}

/// Puts an extension in the place of the one that was held. Where there was none and is none, as is usual, nothing is
/// done.
fn refill_extension(to: &mut Option<Extension>, from: Option<(u16, Words<'_>)>)
    requires { IfSome from (λ e. length (words_of e.1) ≤ MAX_WORDS) }
    ensures { to.new ≡ option_map extension_with from.entry }
{
    match from {
        Some((profile, words)) => put_extension(to, profile, words),
        None => {
            if to.is_some() {
                *to = None;
            }
        }
    }
}

/// Where one was held, its room is used again.
#[inline(never)]
fn put_extension(to: &mut Option<Extension>, profile: u16, words: Words<'_>)
    requires { length (words_of words) ≤ MAX_WORDS }
    ensures { to.new ≡ Some (extension_with (profile, words.entry)) }
{
    match to {
        Some(held) => {
            held.profile = profile;
            refill_words(&mut held.words, words);
        }
        None => *to = Some(extension_of_lent(profile, words)),
    }
}

/// An extension that lies elsewhere.
fn extension_of_lent(profile: u16, lent: Words<'_>) -> Extension
    requires { length (words_of lent) ≤ MAX_WORDS }
    ensures { result ≡ extension_with (profile, lent.entry) }
{
    let mut words = ArrayVec::new();
    put_words(&mut words, lent);
    Extension { profile, words }
}

/// Appends the words that octets spell.
fn push_words_in<const N: usize>(to: &mut ArrayVec<u32, N>, octets: &[u8])
    requires { length to.old.items + length octets.now / 4 ≤ N }
    ensures { to.new.items ≡ to.old.items ++ words_at (length octets.now / 4) octets.now }
{
    for index in 0..octets.len() / 4 {
        to.push(u32_at(octets, 4 * index));
    }
}
