//! How many turns each label had.

ghost use Rattle.std.specs.Prelude.{◌≡◌, ◌<◌, ◌+◌, ◌-◌, ◌^◌, length, min, slice_index, slice_set};
ghost use Rattle.std.specs.Bool.{Decides};

use label_lattice::Label;

/// One turn more of the label.
pub(crate) fn count_turn(turns: &mut Vec<u64>, at: Label)
    requires at { at.number < length turns.old.items }
    ensures { turns.new.items ≡ slice_set turns.old.items at.number (min (slice_index turns.old.items at.number + 1) (2 ^ 64 - 1)) }
{
    let number = at.number() as usize;
    turns[number] = turns[number].saturating_add(1);
}

/// Whether the number is that of the label's next turn.
pub(crate) fn is_next(turns: &Vec<u64>, at: Label, number: u64) -> bool
    requires at { at.number < length turns.now.items }
    ensures { Decides result (number ≡ slice_index turns.now.items at.number + 1) }
{
    number > 0 && turns[at.number() as usize] == number - 1
}
