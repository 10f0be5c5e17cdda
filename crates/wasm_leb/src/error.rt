/// Why no integer stands at the front of some bytes.
#[derive(Clone, Copy, Debug, PartialEq, Eq)]
pub enum LebError {
    /// The bytes end before the integer does.
    Short,
    /// The last allowed byte goes on, or has wrong unused bits.
    Long,
}
