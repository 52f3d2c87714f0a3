//! A way through a network that loses, delays and repeats.
use crate::draws::Draws;
use std::alloc::Global;
use std::mem;
use stores::OutOfMemory;

/// What a path does to datagrams. Spans are in turns of its clock.
#[derive(Clone, Copy)]
pub struct Weather {
    /// How long a datagram is on its way.
    pub delay: u64,
    /// How many of 1000 begin a loss.
    pub losses: u32,
    /// How many are lost one after another.
    pub burst: u32,
    /// How many of 1000 come up to `jitter` later.
    pub late: u32,
    pub jitter: u32,
    /// How many of 1000 come twice.
    pub twice: u32,
    /// Out of so many turns the last so many lose all.
    pub period: u64,
    pub outage: u64,
}

/// The datagrams that come at one turn.
#[derive(Drop)]
pub struct Batch {
    octets: Vec<u8>,
    lengths: Vec<usize>,
}

impl Batch {
    /// None.
    pub fn new(alloc: Global) -> Batch {
        Batch {
            octets: Vec::new(alloc),
            lengths: Vec::new(alloc),
        }
    }

    /// How many there are.
    pub fn len(&self) -> usize {
        self.lengths.len()
    }

    /// Adds one.
    fn push(&mut self, datagram: &[u8]) -> Result<(), OutOfMemory> {
        self.octets.extend_from_slice(datagram)?;
        self.lengths.push(datagram.len())?;
        Ok(())
    }

    /// The datagram of this number, which begins at this octet.
    pub fn get(&self, number: usize, from: usize) -> &[u8] {
        let len = match self.lengths.get(number) {
            Some(len) => *len,
            None => 0,
        };
        match self.octets.get(from..from.saturating_add(len)) {
            Some(datagram) => datagram,
            None => &[],
        }
    }

    /// Drops all of them, and keeps their room.
    fn clear(&mut self) {
        self.octets.clear();
        self.lengths.clear();
    }
}

/// Batches that nothing is in, whose room is lent to what comes next: so all paths together take hardly more memory than what is on its way,
/// and a job waits for its sessions and not for its network.
#[derive(Drop)]
pub struct Spare {
    alloc: Global,
    batches: Vec<Batch>,
}

impl Spare {
    /// None.
    pub fn new(alloc: Global) -> Spare {
        Spare {
            alloc,
            batches: Vec::new(alloc),
        }
    }

    /// Lends room to a batch that has none, if there is some.
    fn lend(&mut self, batch: &mut Batch) {
        if let Some(spare) = self.batches.pop() {
            *batch = spare;
        }
    }

    /// Takes the room of a batch that nothing is in.
    fn keep(&mut self, batch: &mut Batch) -> Result<(), OutOfMemory> {
        let spare = mem::replace(batch, Batch::new(self.alloc));
        self.batches.push(spare)?;
        Ok(())
    }
}

/// How many turns a datagram is on its way at most, on a long path and on a short one.
const LONG: u64 = 64;

const SHORT: u64 = 16;

/// A ring of what comes at each of the next turns.
#[derive(Drop)]
pub struct Path {
    weather: Weather,
    turns: Vec<Batch>,
    /// The bits of a turn that tell where in the ring it lies.
    mask: u64,
    /// How many of a burst are still to be lost.
    losing: u32,
}

impl Path {
    /// A path with nothing on its way.
    pub fn new(alloc: Global, weather: Weather) -> Result<Path, OutOfMemory> {
        let latest = weather.delay.saturating_add(u64::from(weather.jitter));
        let span = if latest < SHORT { SHORT } else { LONG };
        let mut turns = Vec::new(alloc);
        for _ in 0..span {
            turns.push(Batch::new(alloc))?;
        }
        Ok(Path {
            weather,
            turns,
            mask: span - 1,
            losing: 0,
        })
    }

    /// Whether the next datagram is lost.
    fn loses(&mut self, draws: &mut Draws, turn: u64) -> bool {
        if self.losing > 0 {
            self.losing -= 1;
            return true;
        }
        if draws.happens(self.weather.losses) {
            self.losing = self.weather.burst.saturating_sub(1);
            return true;
        }
        let period = self.weather.period.max(1);
        turn % period >= period.saturating_sub(self.weather.outage)
    }

    /// Carries a datagram that sets out at this turn.
    pub fn carry(
        &mut self,
        draws: &mut Draws,
        spare: &mut Spare,
        turn: u64,
        datagram: &[u8],
    ) -> Result<(), OutOfMemory> {
        if self.loses(draws, turn) {
            return Ok(());
        }
        let mut comes = turn.saturating_add(self.weather.delay);
        if draws.happens(self.weather.late) {
            comes = comes.saturating_add(1 + u64::from(draws.below(self.weather.jitter.max(1))));
        }
        self.bring(spare, comes, datagram)?;
        if draws.happens(self.weather.twice) {
            self.bring(spare, comes, datagram)?;
        }
        Ok(())
    }

    /// Adds a datagram to what comes at this turn.
    fn bring(&mut self, spare: &mut Spare, comes: u64, datagram: &[u8]) -> Result<(), OutOfMemory> {
        let Some(batch) = self.turns.get_mut((comes & self.mask) as usize) else {
            return Ok(());
        };
        if batch.len() == 0 {
            spare.lend(batch);
        }
        batch.push(datagram)
    }

    /// Puts what comes at this turn in the place of an older batch.
    pub fn take(
        &mut self,
        spare: &mut Spare,
        turn: u64,
        batch: &mut Batch,
    ) -> Result<(), OutOfMemory> {
        batch.clear();
        let Some(comes) = self.turns.get_mut((turn & self.mask) as usize) else {
            return Ok(());
        };
        if comes.len() == 0 {
            return Ok(());
        }
        mem::swap(batch, comes);
        spare.keep(comes)
    }
}
