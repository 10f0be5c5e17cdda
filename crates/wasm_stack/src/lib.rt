//! A stack for a decoder's open blocks, a validator's operands and a machine's values:
//! a vector that contracts see from its top.
#![tactic(auto)]

mod stack;

pub use stack::Stack;
