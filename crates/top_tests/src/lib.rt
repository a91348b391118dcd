//! Tests of the top calls whose outcome no output of a program shows, in a crate of their own, since a crate with tests
//! is proved twice.
#![tactic(auto)]

#[cfg(test)]
mod append;
#[cfg(test)]
mod bisect;
#[cfg(test)]
mod calling;
#[cfg(test)]
mod failures;
#[cfg(test)]
mod nodes;
#[cfg(test)]
mod programs;
#[cfg(test)]
mod threads;
