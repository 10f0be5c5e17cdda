//! Vectors of indices.

ghost use Rattle.std.specs.Prelude.{◌≡◌, Ok};
ghost use Rattle.wasm_code.specs.Answers.{place, ReadsAs};
ghost use Rattle.wasm_code.specs.Fields.{u32, times, vector};

use crate::error::DecodeError;
use crate::input::Input;
use std::alloc::Global;

/// So many indices, one behind the other. Memory is taken for those that are there, whatever the count says.
fn times(alloc: Global, count: u32, input: Input) -> Result<(Vec<u32>, Input), DecodeError>
    ensures { ReadsAs (λ x. (x.0.items, place x.1)) result (times u32 count (place input.entry)) }
{
    let mut found = Vec::new(alloc);
    let mut left = input;
    'indices: for _ in 0..count {
        let (index, after) = left.u32()?;
        found.push(index)?;
        left = after;
    }
    Ok((found, left))
}

/// A vector of indices: the count, and so many.
#[tactic(auto, unfolding(crate::specs::Fields::vector))]
pub fn indices(alloc: Global, input: Input) -> Result<(Vec<u32>, Input), DecodeError>
    ensures { ReadsAs (λ x. (x.0.items, place x.1)) result (vector u32 (place input.entry)) }
{
    let (count, after) = input.u32()?;
    times(alloc, count, after)
}
