// Whether there is a value, a reference to it, and a value put in and taken out.
ghost use Rattle.std.specs.Prelude.{◌≡◌, Some, None, IsSome, is_some};
ghost use Rattle.std.specs.Borrow.{sem};
ghost use Rattle.gozdrit.specs.HandleLends.{LendsHeld};

use crate::handle::Handle;
use crate::unboxed::Unboxed;
use std::alloc::Global;

impl<T> Handle<T> {
    /// Whether it owns a value.
    pub fn is_held(&mut self) -> bool
        ensures { (result ≡ is_some self.old.inside) × (self.new ≡ self.old) }
    {
        self.held
    }

    /// The value that it owns. What is written to it is written to the heap.
    pub fn lend(&mut self) -> &mut T
        requires { IsSome self.old.inside }
        ensures* writes_back { sem 𝓛 (LendsHeld T.row self.entry result) }
        ensures value { Some result.now ≡ self.old.inside }
    {
        unsafe { &mut *self.at }
    }

    /// Puts a value into one that owns nothing.
    pub fn put(&mut self, whole: Box<T>)
    where
        T: Drop,
        requires { self.old.inside ≡ None }
        ensures { self.new.inside ≡ Some whole.value }
    {
        let full = Handle::holding(Unboxed::take_apart(whole));
        std::mem::replace(self, full).end();
    }

    /// Takes the value out of one that owns one.
    pub fn lift(&mut self, alloc: Global) -> Box<T>
        requires { IsSome self.old.inside }
        ensures lifted { Some result.value ≡ self.old.inside }
        ensures after { self.new.inside ≡ None }
    {
        std::mem::replace(self, Handle::none(alloc))
            .held()
            .put_together()
    }

    /// One that owns nothing.
    fn none(alloc: Global) -> Handle<T>
        ensures { result.inside ≡ None }
    {
        Handle {
            at: std::ptr::null_mut(),
            alloc,
            held: false,
        }
    }

    /// Ends one that owns nothing.
    fn end(self)
        requires { self.inside ≡ None }
    {
        let Handle {
            at: _at,
            alloc: _alloc,
            held: _held,
        } = self;
    }

    /// One that owns this value.
    fn holding(parts: Unboxed<T>) -> Handle<T>
        ensures { result.inside ≡ Some parts.content }
    {
        let Unboxed { at, heap } = parts;
        Handle {
            at,
            alloc: heap,
            held: true,
        }
    }

    /// The value that it owns, where it lies.
    fn held(self) -> Unboxed<T>
        requires { IsSome self.inside }
        ensures { Some result.content ≡ self.inside }
    {
        let Handle {
            at,
            alloc,
            held: _held,
        } = self;
        Unboxed { at, heap: alloc }
    }
}
