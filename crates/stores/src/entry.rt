use places::Place;
use rtpwire::Content;

/// What a history keeps of one packet that was sent.
#[derive(Debug, Drop, PartialEq, Eq)]
pub struct HistoryEntry {
    /// The packet's place.
    pub place: Place,
    /// What it carried.
    pub content: Content,
    /// How often it was retransmitted.
    pub repeats: u8,
    /// Whether it is to be retransmitted.
    pub marked: bool,
}
