//! Which label flows to which, as rows of bits.

ghost use Rattle.std.specs.Prelude.{◌≡◌, ℕ, ◌<◌, ◌≤◌, [], min, max, slice_index, find};
ghost use Rattle.std.specs.Int.{bit_at};
ghost use Rattle.label_lattice.specs.Rows.{bit, IsClosure, IsClosed, row_flows};
ghost use Rattle.label_lattice.specs.Joins.{labels, is_join};

use std::marker::Model;

/// For each label the labels that it flows to, as the bits of a number.
#[derive(Drop)]
pub struct Table {
    rows: [u64; 64],
}

impl Model for Table {
    ghost use Rattle.std.specs.Prelude.{List, ℕ};

    ghost Value = { List ℕ };

    ghost view = { λ t. t.rows };
}

impl Table {
    /// Each label flows to itself alone.
    pub fn new(count: u8) -> Table
        requires { count ≤ 64 }
        ensures { IsClosure count [] result }
    {
        let mut rows = [0u64; 64];
        'labels: for a in 0..count {
            rows[a as usize] = 1u64 << a;
        }
        Table { rows }
    }

    /// Whether a flows to b.
    pub fn flows(&self, a: u8, b: u8) -> bool
        requires from { a < 64 }
        requires to { b < 64 }
        ensures { result ≡ row_flows self.now a b }
    {
        a == b || (self.rows[a as usize] >> b) & 1 == 1
    }

    /// What flows to `from` now flows to what `to` flows to.
    pub fn add(&mut self, from: u8, to: u8)
        requires from { from < 64 }
        requires to { to < 64 }
        ensures { (a b : ℕ) → bit self.new a b ≡ max (bit self.old a b) (min (bit self.old a from) (bit self.old to b)) }
    {
        let reached = self.rows[to as usize];
        'rows: for row in self.rows.iter_mut() {
            *row = joined(*row, from, reached);
        }
    }

    /// The least label below the count that both flow to, if there is one.
    pub fn join(&self, count: u8, a: u8, b: u8) -> Option<u8>
        requires few { count ≤ 64 }
        requires closed { IsClosed count self.now }
        requires left { a < count }
        requires right { b < count }
        ensures { result ≡ find (is_join count (row_flows self.now) a b) (labels count) }
    {
        let bounds = self.rows[a as usize] & self.rows[b as usize];
        'labels: for j in 0..count {
            if self.rows[j as usize] == bounds {
                return Some(j);
            }
        }
        None
    }

    /// The order turned round.
    pub fn turned(&self) -> Table
        ensures turned { (a b : ℕ) → a < 64 → bit result a b ≡ bit self.now b a }
        ensures empty { (a b : ℕ) → 64 ≤ a → bit result a b ≡ 0 }
    {
        let mut rows = [0u64; 64];
        'labels: for b in 0..64u8 {
            rows[b as usize] = column(&self.rows, b);
        }
        Table { rows }
    }
}

/// A row with what `from` now reaches.
fn joined(row: u64, from: u8, reached: u64) -> u64
    requires { from < 64 }
    ensures { (b : ℕ) → bit_at result b ≡ max (bit_at row b) (min (bit_at row from) (bit_at reached b)) }
{
    if (row >> from) & 1 == 1 {
        row | reached
    } else {
        row
    }
}

/// The rows that have this bit.
fn column(rows: &[u64; 64], b: u8) -> u64
    requires { b < 64 }
    ensures { (a : ℕ) → bit_at result a ≡ bit rows.now a b }
{
    let mut labels = 0u64;
    'rows: for a in 0..64u8 {
        if (rows[a as usize] >> b) & 1 == 1 {
            labels |= 1u64 << a;
        }
    }
    labels
}
