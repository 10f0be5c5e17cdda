//! The limits of a label.

ghost use Rattle.std.specs.Prelude.{◌≡◌, ◌≤◌, ℕ, pos, true, false, MatchResult};
ghost use Rattle.label_limits.specs.declared.limits.LimitError.TheVariants.{OutOfRange};
ghost use Rattle.label_limits.specs.Ranges.{AreWithin, Checks, is_within, usual};

use thiserror::Error;

/// The limits of one label.
#[derive(Debug, Clone, Copy, PartialEq, Eq, Drop)]
pub struct Limits {
    /// Units per turn: 1 to 1,000,000.
    pub quantum: u32,
    /// Units of an activation at this label: 1 to 1,000,000,000.
    pub fuel: u32,
    /// Memory pages of one activation: 0 to 65,536.
    pub pages: u32,
    /// Activations in the label's list: 1 to 65,536.
    pub queue: u32,
    /// Live facets at exactly this label: 0 to 1,000,000.
    pub facets: u32,
    /// Sizes of these facets summed: 0 to 1,073,741,824.
    pub bytes: u32,
}

/// Why numbers are no limits.
#[derive(Debug, Clone, Copy, PartialEq, Eq, Drop, Error)]
pub enum LimitError {
    /// This limit, counted from 1 in the order of the fields, is the first outside its range.
    #[error("limit {0} is out of its range")]
    OutOfRange(u8),
}

impl Limits {
    /// The limits of a label for which none are given.
    pub fn usual() -> Limits
        ensures usual { result ≡ usual }
        ensures within { AreWithin result }
    {
        Limits {
            quantum: 10_000,
            fuel: 10_000_000,
            pages: 256,
            queue: 1_024,
            facets: 100_000,
            bytes: 67_108_864,
        }
    }

    /// The limits with these numbers, in the order of the fields.
    pub fn checked(numbers: [i64; 6]) -> Result<Limits, LimitError>
        ensures { Checks numbers result }
    {
        let quantum = within(1, numbers[0], 1, 1_000_000)?;
        let fuel = within(2, numbers[1], 1, 1_000_000_000)?;
        let pages = within(3, numbers[2], 0, 65_536)?;
        let queue = within(4, numbers[3], 1, 65_536)?;
        let facets = within(5, numbers[4], 0, 1_000_000)?;
        let bytes = within(6, numbers[5], 0, 1_073_741_824)?;
        Ok(Limits {
            quantum,
            fuel,
            pages,
            queue,
            facets,
            bytes,
        })
    }
}

/// The number, if it lies in the range of this limit.
fn within(which: u8, number: i64, least: u32, greatest: u32) -> Result<u32, LimitError>
    ensures { MatchResult result
        (λ n. (is_within (least, greatest) number ≡ true) × (pos n ≡ number))
        (λ e. (is_within (least, greatest) number ≡ false) × (e ≡ OutOfRange which)) }
{
    match u32::try_from(number) {
        Ok(number) if least <= number && number <= greatest => Ok(number),
        _ => Err(LimitError::OutOfRange(which)),
    }
}
