//! What C lends to a call as a struct that may be longer than the one that is known here: its fields, and the octets behind them.
ghost use Rattle.std.specs.Prelude.{Option, List, ℕ};

mod methods;

use std::marker::Model;

/// What lies where a pointer of C points, and the octets behind it; or nothing if it is null.
#[derive(Drop)]
pub struct LentSized<T> {
    /// The pointer as C passed it.
    pub at: *mut T,
    /// The value that lies there, or none at null.
    pub ghost value: { Option T },
    /// The octets behind it.
    pub ghost rest: { List ℕ },
}

impl<T> Model for LentSized<T> {
    ghost use Rattle.gozdrit.specs.Lying.{sized_lies_at};

    ghost also_owns = { λ p. sized_lies_at T.row p.at p.value p.rest };
}
