//! Rows of runs, through the public calls of runs. There is no code in it.
#![tactic(auto)]

#[cfg(test)]
mod counter;
#[cfg(test)]
mod drives;
#[cfg(test)]
mod growths;
#[cfg(test)]
mod logs;
#[cfg(test)]
mod memory;
#[cfg(test)]
mod soaks;
