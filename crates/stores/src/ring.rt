//! A step of both rings, of cells and of numbers.
ghost use Rattle.std.specs.Prelude.{◌≡◌, ◌<◌, [], ◌∷◌, ◌++◌, length};

use circular_buffer::HeapCircularBuffer;

/// Appends to a ring that is not full.
pub fn append<T: Copy>(ring: &mut HeapCircularBuffer<T>, item: T)
    requires { length ring.old.items < ring.old.capacity }
    ensures items { ring.new.items ≡ ring.old.items ++ item ∷ [] }
    ensures capacity { ring.new.capacity ≡ ring.old.capacity }
{
    ring.push_back(item);
}
