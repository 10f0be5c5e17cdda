//! The tests of the engine: rows of bytes and numbers that one function plays, and what comes.
#![tactic(auto)]

#[cfg(test)]
mod bodies;
#[cfg(test)]
mod codes;
#[cfg(test)]
mod files;
#[cfg(test)]
mod integers;
#[cfg(test)]
mod machines;
#[cfg(test)]
mod memories;
#[cfg(test)]
mod numbers_32;
#[cfg(test)]
mod numbers_64;
#[cfg(test)]
mod played;
#[cfg(test)]
mod runs;
#[cfg(test)]
mod sandboxes;
#[cfg(test)]
mod stacks;
#[cfg(test)]
mod trees;
#[cfg(test)]
mod typing;
#[cfg(test)]
mod valid;
#[cfg(test)]
mod validity;
#[cfg(test)]
mod worked;
