//! The search for labels that show that an order is no lattice.

ghost use Rattle.std.specs.Prelude.{◌≡◌, ◌<◌, ◌≤◌};
ghost use Rattle.label_lattice.specs.Rows.{IsClosed, row_flows};
ghost use Rattle.label_lattice.specs.Faults.{Passes, order_fault, cycle_of, no_join_of};

use crate::error::LatticeError;
use crate::label::Label;
use crate::table::Table;

/// Whether the table is an order in which each two labels have a join and a meet.
pub fn check(table: &Table, count: u8) -> Result<(), LatticeError>
    requires few { count ≤ 64 }
    requires closed { IsClosed count table.now }
    ensures { Passes (order_fault count (row_flows table.now)) result }
{
    if let Some((a, b)) = cycle_of(table, count) {
        return Err(LatticeError::Cycle(Label { number: a }, Label { number: b }));
    }
    if let Some((a, b)) = no_join_of(table, count) {
        return Err(LatticeError::NoJoin(Label { number: a }, Label { number: b }));
    }
    let turned = table.turned();
    if let Some((a, b)) = no_join_of(&turned, count) {
        return Err(LatticeError::NoMeet(Label { number: a }, Label { number: b }));
    }
    Ok(())
}

/// The first two labels that flow to each other.
fn cycle_of(table: &Table, count: u8) -> Option<(u8, u8)>
    requires { count ≤ 64 }
    ensures { result ≡ cycle_of count (row_flows table.now) }
{
    'firsts: for a in 0..count {
        'seconds: for b in a + 1..count {
            if table.flows(a, b) && table.flows(b, a) {
                return Some((a, b));
            }
        }
    }
    None
}

/// The first two labels that have no join.
fn no_join_of(table: &Table, count: u8) -> Option<(u8, u8)>
    requires few { count ≤ 64 }
    requires closed { IsClosed count table.now }
    ensures { result ≡ no_join_of count (row_flows table.now) }
{
    'firsts: for a in 0..count {
        'seconds: for b in a + 1..count {
            if table.join(count, a, b).is_none() {
                return Some((a, b));
            }
        }
    }
    None
}
