//! The functions that the host lends.

/// A host call, by the name under which a function imports it from the module `trapeze`.
#[derive(Clone, Copy, Debug, PartialEq, Eq)]
pub enum HostName {
    /// `input(ptr, cap)` copies the input and answers its size.
    Input,
    /// `read(key, klen, ptr, cap)` copies the value of a key and answers its size, or -1 where there is none.
    Read,
    /// `write(key, klen, ptr, len)` gives a key a value; it answers 1 where that does not fit, and otherwise 0.
    Write,
    /// `delete(key, klen)` takes a key's value away, and answers as `write` does.
    Delete,
    /// `send(name, nlen, ptr, len)` sends a message into a channel.
    Send,
    /// `raise(name, nlen)` raises the activation to the join of its label and the one named.
    Raise,
    /// `reply(ptr, len)` replies to the request that the activation serves.
    Reply,
    /// `own_label(ptr, cap)` copies the name of the activation's label and answers its length.
    OwnLabel,
    /// `release(name, nlen, ptr, len)` releases bytes through a gate.
    Release,
}
