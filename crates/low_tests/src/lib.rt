//! Tests of what stands below the top calls, in a crate of its own, since a crate with tests is proved twice. What the
//! output of a program shows stands in the program `cases`, as data.
#![tactic(auto)]

#[cfg(test)]
mod command;
#[cfg(test)]
mod conflict;
#[cfg(test)]
mod deref;
#[cfg(test)]
mod dist;
#[cfg(test)]
mod edge;
#[cfg(test)]
mod example;
#[cfg(test)]
mod hash;
#[cfg(test)]
mod letter;
#[cfg(test)]
mod localise;
#[cfg(test)]
mod mail;
#[cfg(test)]
mod merge;
#[cfg(test)]
mod mesh;
#[cfg(test)]
mod moves;
#[cfg(test)]
mod outside;
#[cfg(test)]
mod part;
#[cfg(test)]
mod records;
#[cfg(test)]
mod remap;
#[cfg(test)]
mod sched;
#[cfg(test)]
mod table;
#[cfg(test)]
mod threads;
#[cfg(test)]
mod vote;
#[cfg(test)]
mod words;
