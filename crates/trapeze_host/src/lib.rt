//! The host: it keeps a store, lists of activations, numbers of turns and requests, and the requests that were answered, and an
//! event moves all that as the rules say. Its lines are told in order, whoever may see them.
#![tactic(auto)]

mod causes;
mod effects;
mod ends;
mod events;
mod facets;
mod fronts;
mod host;
mod kept;
mod lent;
mod requests;
mod runs;
mod saying;
mod starts;
mod steps;
mod turns;

pub use host::Host;
