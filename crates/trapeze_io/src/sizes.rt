//! How long names, keys, values, messages and bodies may be.

/// The most bytes of a name.
pub const LONGEST_NAME: usize = 64;

/// The most bytes of a key.
pub const LONGEST_KEY: usize = 1024;

/// The most bytes of a value, a message, a reply or a body.
pub const LONGEST_VALUE: usize = 65_536;
