//! The configurations of runs.
ghost use Rattle.std.specs.Prelude.{◌≡◌};
ghost use Rattle.runs.specs.Session.{run_config, soak_config};

use world::{Config, trial_session};

/// The configuration of a run with this first sequence number: first retransmission 0, history and window of 1024, a
/// patience of 1000000 ms, asks at least 1 ms apart, at most 3 for a place, and at most 3 retransmissions.
pub fn run_config(first: u16) -> Config
    ensures { result ≡ run_config first }
{
    Config::new(trial_session(), first, 0, 1024, 1024, 1_000_000, 1, 3, 3).unwrap()
}

/// The configuration of a drawn run.
pub fn soak_config() -> Config
    ensures { result ≡ soak_config }
{
    run_config(60000)
}
