//! All that a job came to, as one number.

/// A digest of numbers and octets in their order. Each word of 64 bits is taken in by a rotation and a multiplication, which can be
/// undone: so where one word differs the digest does. It is no secret, and costs little beside what is measured.
#[derive(Clone, Copy)]
pub struct Digest {
    state: u64,
}

impl Digest {
    /// That of nothing.
    pub const EMPTY: Digest = Digest { state: 1 };

    /// Adds a number.
    pub fn add(&mut self, number: u64) {
        self.state = mixed(self.state, number);
    }

    /// Adds a number where there is one, and that there is none else.
    pub fn add_some(&mut self, number: Option<u64>) {
        self.add(u64::from(number.is_some()));
        self.add(number.unwrap_or(0));
    }

    /// Adds octets, all of them. Four words at a time go into sums of their own, since none of these waits for another.
    pub fn add_octets(&mut self, octets: &[u8]) {
        self.add(octets.len() as u64);
        let (words, rest) = octets.as_chunks::<8>();
        let (fours, odd) = words.as_chunks::<4>();
        let (mut one, mut two, mut three, mut four) = (1, 2, 3, 4);
        for [a, b, c, d] in fours {
            one = mixed(one, u64::from_le_bytes(*a));
            two = mixed(two, u64::from_le_bytes(*b));
            three = mixed(three, u64::from_le_bytes(*c));
            four = mixed(four, u64::from_le_bytes(*d));
        }
        for sum in [one, two, three, four] {
            self.add(sum);
        }
        for word in odd {
            self.add(u64::from_le_bytes(*word));
        }
        for octet in rest {
            self.add(u64::from(*octet));
        }
    }

    /// Adds how long a datagram is that sets out, and what stands before its payload. The payload is added whole where it is played.
    pub fn add_datagram(&mut self, octets: &[u8]) {
        self.add(octets.len() as u64);
        self.add_octets(octets.get(..64).unwrap_or(octets));
    }

    /// The digest.
    pub fn value(&self) -> u64 {
        self.state
    }
}

/// A sum with a word more.
fn mixed(sum: u64, word: u64) -> u64 {
    (sum.rotate_left(29) ^ word).wrapping_mul(0x9e37_79b9_7f4a_7c15)
}
