//! Rows of the program's commands, through the public calls of commands: readers, writers and links that do as a test wants.
//! There is no code in it.
#![tactic(auto)]

#[cfg(test)]
mod devices;
#[cfg(test)]
mod fakes;
#[cfg(test)]
mod loopbacks;
#[cfg(test)]
mod packings;
#[cfg(test)]
mod scripts;
#[cfg(test)]
mod traces;
