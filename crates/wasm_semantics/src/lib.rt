//! What the instructions of WebAssembly over integers do to a thread, as definitions, and the law that a thread of a valid
//! module never gets stuck. Each function here does nothing: its contract is a law.
#![tactic(auto)]

mod control_examples;
mod examples;
mod laws;
mod memory_examples;
mod operators;
mod traps;

pub use control_examples::{
    branch_by_table, branch_closes_two_blocks, frame_1025_traps, if_leaves_by_one_unit,
    indirect_call_traps, limit_of_blocks, limit_of_values, missing_operand_is_of_no_module,
    return_from_nested_blocks, start_frame_over_handle,
};
pub use examples::{echo_asks_in_four_units, fill_ends_in_sixteen_units, spin_goes_on};
pub use laws::{
    another_memory, answer_gives_a_thread, arguments_have_places, data_over_more_operands,
    limits_hold, memory_never_shrinks, never_stuck, operands_fit, two_shifts_extend,
    unit_depends_on_little, unit_in_two_steps, units_are_counted,
};
pub use memory_examples::{
    growing_by_nothing_past_a_lowered_limit, load_at_the_end_of_memory, memory_grows_by_a_page,
    narrow_loads_extend, nothing_past_the_end_traps, overlapping_copies,
};
pub use operators::Operator;
pub use traps::Trap;
