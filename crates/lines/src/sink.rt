//! A place that text goes to.
ghost use Rattle.lines.specs.Sink.{Pushes};

use stores::OutOfMemory;

/// A place that text goes to, piece by piece: a vector in memory, or an output. What this crate pushes to it needs no
/// memory of its own.
pub trait Sink {
    ghost use Rattle.std.specs.Prelude.{List, Option, ℕ};

    /// Why it took no more.
    type Fault;

    // The text that it holds, where that is known.
    ghost contents: { Self → Option (List ℕ) };

    /// Appends a text. Where that fails, a beginning of it was appended.
    fn push(&mut self, text: &[u8]) -> Result<(), Self::Fault>
        ensures { Pushes result (contents self.old) (contents self.new) text.now };
}

/// Its fault: the vector could not grow.
impl Sink for Vec<u8> {
    ghost use Rattle.std.specs.Prelude.{Some};

    type Fault = OutOfMemory;

    ghost contents = { λ text. Some text.items };

    fn push(&mut self, text: &[u8]) -> Result<(), OutOfMemory> {
        self.extend_from_slice(text)?;
        Ok(())
    }
}
