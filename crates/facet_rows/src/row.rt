//! The row of a key.

ghost use Rattle.std.specs.Prelude.{◌≡◌, ◌<◌, [], ◌∷◌, All, IfOk, OnOk, OnErr, None, Some, IsSome, option_map, if◌then◌else◌};
ghost use Rattle.std.specs.Option.{option_copied};
ghost use Rattle.label_lattice.specs.Order.{count};
ghost use Rattle.label_lattice.specs.Reach.{flows};
ghost use Rattle.facet_list.specs.Rows.{row_after, read_row, member};
ghost use Rattle.facet_rows.specs.Rows.{number_after, is_lesser, IsLeastMember};

use crate::member::Member;
use label_lattice::{Label, Lattice};
use std::alloc::{AllocError, Global};
use std::marker::Model;

/// One member or more, of different labels, the latest last.
#[derive(Drop)]
pub struct Row {
    members: Vec<Member>,
}

impl Model for Row {
    ghost use Rattle.facet_list.specs.Rows.{Row as Seen};
    ghost use Rattle.facet_rows.specs.Rows.{IsRow};

    ghost Value = { Seen };

    ghost view = { λ r. r.members.items };

    ghost invariant = { λ r. IsRow r.members.items };
}

impl Row {
    /// The row of one member.
    pub fn of(alloc: Global, member: Member) -> Result<Row, AllocError>
        ensures { IfOk result (λ row. row ≡ member ∷ []) }
    {
        let mut members = Vec::new(alloc);
        members.push(member)?;
        Ok(Row { members })
    }

    /// The label's member goes, and the new one comes last.
    pub fn put(&mut self, member: Member) -> Result<(), AllocError>
        ensures ok { OnOk result (self.new ≡ row_after member.0 member.1 self.old) }
        ensures err { OnErr result (self.new ≡ self.old) }
    {
        self.members.reserve(1)?;
        let label = member.label().number();
        self.members.retain(|m| m.label().number() != label);
        self.members.push_reserved(member);
        Ok(())
    }

    /// The value of the latest member whose label flows to `at`.
    pub fn read(&self, lattice: &Lattice, at: Label) -> Option<&[u8]>
        requires at { at.number < count lattice.now }
        requires labels { All (λ m. m.0 < count lattice.now) self.now }
        ensures { option_copied result ≡ read_row (flows lattice.now) at.number self.now }
    {
        let mut found = None;
        'members: for member in &self.members {
            if lattice.flows(member.label(), at) {
                found = member.value();
            }
        }
        found
    }

    /// The member of a label.
    pub fn find(&self, at: Label) -> Option<&Member>
        ensures { option_map (λ m. m.now.1) result ≡ member at.number self.now }
    {
        'members: for member in &self.members {
            if member.label().number() == at.number() {
                return Some(member);
            }
        }
        None
    }

    /// The member of the least label after one, or of all.
    pub fn first_after(&self, after: Option<Label>) -> Option<&Member>
        ensures least { IsLeastMember self.now (number_after after) (option_map (λ m. m.now) result) }
        ensures some { after ≡ None → IsSome result }
    {
        let mut least = None;
        'members: for member in &self.members {
            least = lesser(member, after, least);
        }
        least
    }
}

/// The member, where it comes before the least one so far.
fn lesser<'a>(
    member: &'a Member,
    after: Option<Label>,
    least: Option<&'a Member>,
) -> Option<&'a Member>
    ensures { result ≡ (if is_lesser (number_after after) member.now (option_map (λ m. m.now) least.entry)
        then Some member.entry else least.entry) }
{
    let number = member.label().number();
    let is_later = match after {
        Some(label) => label.number() < number,
        None => true,
    };
    let is_less = match least {
        Some(other) => number < other.label().number(),
        None => true,
    };
    if is_later && is_less {
        Some(member)
    } else {
        least
    }
}
