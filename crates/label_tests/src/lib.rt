//! Tests of what labels stand on: bytes, names and files; the order of labels, their limits, channels and gates; and the policy,
//! which most of them are read from. Nothing of it is called by a program.
#![tactic(auto)]

#[cfg(test)]
mod asked;
#[cfg(test)]
mod channels;
#[cfg(test)]
mod faults;
#[cfg(test)]
mod files;
#[cfg(test)]
mod lattices;
#[cfg(test)]
mod limits;
#[cfg(test)]
mod order;
#[cfg(test)]
mod policies;
#[cfg(test)]
mod policy;
#[cfg(test)]
mod rows;
#[cfg(test)]
mod sizes;
#[cfg(test)]
mod streams;
