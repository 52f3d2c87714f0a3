//! Test vectors of worlds and of long lines, through the public calls of each crate. There is no code in it.
#![tactic(auto)]

#[cfg(test)]
mod both_stores;
#[cfg(test)]
mod delayed_runs;
#[cfg(test)]
mod delays;
#[cfg(test)]
mod growths;
#[cfg(test)]
mod headline;
#[cfg(test)]
mod hostile;
#[cfg(test)]
mod long_lines;
#[cfg(test)]
mod long_runs;
#[cfg(test)]
mod missing;
#[cfg(test)]
mod rounds;
#[cfg(test)]
mod schedules;
#[cfg(test)]
mod sessions;
#[cfg(test)]
mod settles;
#[cfg(test)]
mod several_asks;
#[cfg(test)]
mod worlds;
