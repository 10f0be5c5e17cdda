//! A WebAssembly module as a tree: its types, its lists and its instructions, each with a constructor and readers.
#![tactic(auto)]

mod bodies;
mod constants;
mod elements;
mod examples;
mod exports;
mod func_types;
mod global_vars;
mod hosts;
mod imports;
mod indices;
mod laws;
mod memory_types;
mod modules;
mod octets;
mod pieces;
mod places;
mod tables;
mod trees;
mod val_types;

pub use bodies::Body;
pub use constants::{constant_of, constant_value};
pub use elements::Element;
pub use examples::{
    code_after_unreachable_has_a_typing, float_in_a_body, missing_operand_has_no_typing,
    no_entry_point, no_host_call, past_the_end, rules_of_indices, rules_of_segments,
    rules_of_types_and_limits, targets_take_the_same, test_modules_are_valid,
};
pub use exports::{Export, ExportKind};
pub use func_types::FuncType;
pub use global_vars::GlobalVar;
pub use hosts::HostName;
pub use imports::{Import, ImportKind};
pub use indices::Indices;
pub use laws::{first_and_then_the_rest, one_fault, same_types_below};
pub use memory_types::MemoryType;
pub use modules::Module;
pub use octets::{NoMemory, Octets};
pub use pieces::Piece;
pub use places::{FloatPlace, SegmentPlace};
pub use tables::Table;
pub use trees::{Instr, Seq};
pub use val_types::{BlockType, ValType, same_types};
