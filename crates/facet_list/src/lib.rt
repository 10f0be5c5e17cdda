//! A store of labelled facets: what is written at a label is read where that label flows to, the latest first. The trait says what a
//! store is, and the list of writes is the plainest of them.
#![tactic(auto)]

mod facets;
mod laws;
mod list;
mod room;
mod scan;
mod write;

pub use facets::{Facets, Wrote};
pub use laws::{
    facets_of_rows, noninterference_of_facets, noninterference_of_puts, rows_tell_facets,
    rows_tell_fits, rows_tell_reads,
};
pub use list::FacetList;
