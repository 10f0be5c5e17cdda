//! Answers of host calls.

ghost use Rattle.wasm_exec.specs.Asking.{PutsAnswer};

use wasm_frames::Place;

/// Puts an answer, if there is one, onto the operands of the frame that waits, where there is a place for it.
pub(crate) fn put_answer(values: &mut Vec<u64>, place: Place, answer: Option<u32>) -> Place
    ensures { PutsAnswer answer place values.old.items result values.new.items }
{
    let Some(value) = answer else {
        return place;
    };
    let sp = place.marks.sp;
    if sp >= values.len() {
        return place;
    }
    values[sp] = u64::from(value);
    Place {
        marks: place.marks.raised(sp + 1),
        left: place.left,
        low: place.low,
        function: place.function,
        gives: place.gives,
    }
}
