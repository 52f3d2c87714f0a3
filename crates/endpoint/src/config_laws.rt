//! A law on how an endpoint is configured. This function computes nothing: its contract is the law.
ghost use Rattle.std.specs.Prelude.{◌≡◌, ℕ, [], None};
ghost use Rattle.receiver.specs.Config.{Config};
ghost use Rattle.receiver.specs.Receiver.{state_of};
ghost use Rattle.endpoint.specs.Receiving.{fresh};

/// Both receivers of a new endpoint work as it was configured, keep as many places, and took nothing.
pub fn new_receivers_are_as_configured()
    ensures { (c : Config) (capacity : ℕ) → let r = fresh c capacity in
        (r.config ≡ c) × (r.span.capacity ≡ capacity) × (r.span.slots ≡ []) × (state_of r ≡ None) × (r.learnt ≡ None) }
{}
