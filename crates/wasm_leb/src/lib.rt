//! Integers of WebAssembly's binary format: LEB128, seven bits a byte, the lowest first
//! (WebAssembly Core 1.0, section 5.2.2). Three readers and three writers; none takes memory.
#![tactic(auto)]

mod error;
mod laws;
mod reading;
mod spelling;
mod writing;

pub use error::LebError;
pub use laws::{no_sixth_byte, spelled_is_read};
pub use reading::{read_s32, read_s64, read_u32};
pub use spelling::Leb;
pub use writing::{write_s32, write_s64, write_u32};
