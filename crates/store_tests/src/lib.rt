//! Tests of the stores of facets: the same steps on the list of writes and on the store with an index.
#![tactic(auto)]

#[cfg(test)]
mod limits;
#[cfg(test)]
mod play;
#[cfg(test)]
mod reads;
#[cfg(test)]
mod steps;
