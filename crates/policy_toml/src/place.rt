//! Places in a policy.

ghost use Rattle.std.specs.Prelude.{◌≡◌};
ghost use Rattle.policy_toml.specs.Places.{field_of, row_place, whole};

/// A part of a policy: its root table, or what stands at one of the root's keys.
#[derive(Debug, Clone, Copy, PartialEq, Eq, Drop)]
pub enum Part {
    Root,
    Labels,
    Flows,
    Limits,
    Functions,
    Channels,
    Clients,
    Gates,
}

/// Where a fault of a policy stands.
#[derive(Debug, Clone, Copy, PartialEq, Eq, Drop)]
pub struct Place {
    pub part: Part,
    /// The row, from 1, in the order of the list or in byte order of the keys; 0 is the whole part.
    pub row: u64,
    /// The field, from 1, in the order of the row's fields; 0 is the whole row.
    pub item: u32,
}

impl Place {
    /// A whole part.
    pub fn whole(part: Part) -> Place
        ensures { result ≡ whole part }
    {
        Place {
            part,
            row: 0,
            item: 0,
        }
    }

    /// A whole row of a part; rows count from 1.
    pub fn row(part: Part, row: u64) -> Place
        ensures { result ≡ row_place part row }
    {
        Place { part, row, item: 0 }
    }

    /// A field of a row; fields count from 1.
    pub fn field(part: Part, row: u64, item: u32) -> Place
        ensures { result ≡ field_of part row item }
    {
        Place { part, row, item }
    }
}
