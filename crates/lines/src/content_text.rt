//! What a packet carries, as words of a line.
ghost use Rattle.std.specs.Prelude.{◌≡◌, ◌+◌, ◌*◌, ◌≤◌, ◌++◌, length};
ghost use Rattle.std.specs.Option.{option_map};
ghost use Rattle.rtpwire.specs.declared.limits.TheConstants.{MAX_WORDS};
ghost use Rattle.rtpwire.specs.Content.{extension_of};
ghost use Rattle.rtpwire.specs.Rtp.{word_octets};
ghost use Rattle.lines.specs.ContentText.{extension_text, octets_text};

use arrayvec::ArrayVec;
use byteorder::{ByteOrder, NetworkEndian};
use rtpwire::{Extension, MAX_WORDS, push_octets, push_u16};

/// The octets of contributing sources, at most 15.
pub(crate) fn source_octets(sources: &ArrayVec<u32, 15>) -> ArrayVec<u8, 60>
    ensures { result.items ≡ word_octets sources.now.items }
{
    let mut octets = ArrayVec::new();
    push_words(&mut octets, sources);
    octets
}

/// The octets of a header extension: what the profile defines, and its words, at most 16. There are none where
/// it is none.
pub(crate) fn extension_octets(extension: &Option<Extension>) -> ArrayVec<u8, 66>
    ensures { octets_text result.items ≡ extension_text (option_map extension_of extension.now) }
{
    let mut octets = ArrayVec::new();
    if let Some(extension) = extension {
        push_u16(&mut octets, extension.profile);
        push_words(&mut octets, &extension.words);
    }
    octets
}

/// Appends at most 16 words of 32 bits in network order. There is room for four octets each.
fn push_words<const N: usize>(octets: &mut ArrayVec<u8, N>, words: &[u32])
    requires few { length words.now ≤ MAX_WORDS }
    requires room { length octets.old.items + 4 * length words.now ≤ N }
    ensures { octets.new.items ≡ octets.old.items ++ word_octets words.now }
{
    let mut room = [0; 4 * MAX_WORDS];
    let spelled = &mut room[..4 * words.len()];
    NetworkEndian::write_u32_into(words, spelled);
    push_octets(octets, spelled);
}
