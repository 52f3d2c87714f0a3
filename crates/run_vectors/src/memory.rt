//! A link in memory. It loses nothing, and keeps and tells its traffic.
ghost use Rattle.std.specs.Prelude.{◌≡◌, ◌+◌, ◌-◌, ◌<◌, ◌^◌, ◌++◌, ◌∷◌, [], false, IfOk, OnErr};

use rtpwire::Datagram;
use runs::{Link, LinkFault, Transfer};
use std::alloc::Global;
use world::End;

/// A link that holds the datagram that it took last, until it is asked for.
#[derive(Drop)]
pub struct MemoryLink {
    told: Vec<Transfer>,
    held: Option<(End, Datagram)>,
    /// Whether it never gives what it took.
    silent: bool,
    calls: u64,
    /// The number of the call that fails, counted from 1; 0 where none does.
    failing: u64,
    faults: u64,
}

impl MemoryLink {
    /// A link of which the call of this number fails; none does at 0.
    pub fn new(alloc: Global, failing: u64, silent: bool) -> MemoryLink
        ensures { result.faults ≡ 0 }
    {
        MemoryLink {
            told: Vec::new(alloc),
            held: None,
            silent,
            calls: 0,
            failing,
            faults: 0,
        }
    }

    /// How often it was called.
    pub fn calls(&self) -> u64 {
        self.calls
    }

    /// What it did, the oldest first.
    pub fn told(&self) -> &[Transfer] {
        self.told.as_slice()
    }

    /// Counts a call, and tells whether it fails.
    fn fails(&mut self) -> bool
        ensures told { self.new.told ≡ self.old.told }
        ensures faults { self.new.faults ≡ self.old.faults }
    {
        self.calls = self.calls.wrapping_add(1);
        self.calls == self.failing
    }

    /// Counts a failure.
    fn fault(&mut self) -> LinkFault
        requires { self.old.faults < 2 ^ 64 - 1 }
        ensures told { self.new.told ≡ self.old.told }
        ensures faults { self.new.faults ≡ self.old.faults + 1 }
    {
        self.faults += 1;
        LinkFault
    }

    /// Tells that nothing came.
    fn give_nothing(&mut self, at: End) -> Result<bool, LinkFault>
        requires { self.old.faults < 2 ^ 64 - 1 }
        ensures served { IfOk result (λ came. (came ≡ false) × (self.new.faults ≡ self.old.faults) × (self.new.told.items ≡ self.old.told.items ++ Transfer.Nothing at ∷ [])) }
        ensures fault { OnErr result ((self.new.faults ≡ self.old.faults + 1) × (self.new.told.items ≡ self.old.told.items)) }
    {
        if self.told.push(Transfer::Nothing(at)).is_err() {
            return Err(self.fault());
        }
        Ok(false)
    }
}

/// The same datagram once more.
fn copy_of(datagram: &Datagram) -> Datagram
    ensures { result ≡ datagram.now }
{
    let mut copy = Datagram::new();
    copy.try_extend_from_slice(datagram.as_slice()).unwrap();
    copy
}

impl Link for MemoryLink {
    ghost use Rattle.std.specs.Prelude.{Some};

    ghost failed = { λ link. link.faults };

    ghost traffic = { λ link. Some link.told.items };

    fn send(&mut self, to: End, octets: &[u8]) -> Result<(), LinkFault> {
        let mut datagram = Datagram::new();
        if self.fails() || datagram.try_extend_from_slice(octets).is_err() {
            return Err(self.fault());
        }
        if self
            .told
            .push(Transfer::Put(to, copy_of(&datagram)))
            .is_err()
        {
            return Err(self.fault());
        }
        self.held = Some((to, datagram));
        Ok(())
    }

    fn recv(&mut self, at: End, into: &mut Datagram) -> Result<bool, LinkFault> {
        if self.fails() {
            return Err(self.fault());
        }
        let Some((to, datagram)) = self.held.take() else {
            return self.give_nothing(at);
        };
        if self.silent || to != at {
            return self.give_nothing(at);
        }
        if self
            .told
            .push(Transfer::Receipt(at, copy_of(&datagram)))
            .is_err()
        {
            return Err(self.fault());
        }
        *into = datagram;
        Ok(true)
    }

    fn faults(&self) -> u64 {
        self.faults
    }
}
