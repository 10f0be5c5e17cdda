//! Threads of machines from their beginning to their end: what they ask, how they end, and the units until then.

use crate::codes;
use wasm_ast::HostName;
use wasm_exec::Trap;

/// How a thread ends.
#[derive(Clone, Copy, PartialEq, Eq)]
pub(crate) enum End {
    Done,
    Trapped(Trap),
    NoMemory,
}

/// A thread of a module: whether the second function has the type [i32 i32] to [i32], the code section, the pages that it may have,
/// what it asks, how it ends, the units that it uses, and the first bytes of its memory then.
pub(crate) struct Row {
    pub(crate) of_two: bool,
    pub(crate) code: &'static [u8],
    pub(crate) pages: u32,
    pub(crate) asks: &'static [(HostName, [u32; 4])],
    pub(crate) end: End,
    pub(crate) used: u64,
    pub(crate) memory: &'static [u8; 6],
}

/// They ask the host, and end.
pub(crate) static WORKED: [Row; 6] = [
    Row {
        of_two: false,
        code: codes::ECHO,
        pages: 1,
        asks: &[
            (HostName::Input, [0, 65536, 0, 0]),
            (HostName::Reply, [0, 3, 0, 0]),
        ],
        end: End::Done,
        used: 6,
        memory: b"abcdef",
    },
    Row {
        of_two: false,
        code: codes::LIFT,
        pages: 1,
        asks: &[
            (HostName::Raise, [0, 5, 0, 0]),
            (HostName::Input, [16, 1024, 0, 0]),
            (HostName::Reply, [16, 3, 0, 0]),
        ],
        end: End::Done,
        used: 9,
        memory: b"abcdef",
    },
    Row {
        of_two: false,
        code: codes::LOOK,
        pages: 1,
        asks: &[
            (HostName::Read, [0, 1, 16, 1024]),
            (HostName::Reply, [16, 3, 0, 0]),
        ],
        end: End::Done,
        used: 8,
        memory: b"abcdef",
    },
    Row {
        of_two: false,
        code: codes::STORE,
        pages: 1,
        asks: &[
            (HostName::Input, [16, 1024, 0, 0]),
            (HostName::Write, [0, 1, 16, 3]),
        ],
        end: End::Done,
        used: 9,
        memory: b"abcdef",
    },
    Row {
        of_two: false,
        code: codes::TWIN,
        pages: 1,
        asks: &[
            (HostName::Input, [16, 1024, 0, 0]),
            (HostName::Send, [0, 4, 16, 3]),
            (HostName::Send, [0, 4, 16, 3]),
        ],
        end: End::Done,
        used: 15,
        memory: b"abcdef",
    },
    Row {
        of_two: false,
        code: codes::IMPORT_BY_TABLE,
        pages: 1,
        asks: &[(HostName::Input, [0, 8, 0, 0])],
        end: End::Done,
        used: 6,
        memory: b"abcdef",
    },
];

/// Each trap comes with the third unit.
pub(crate) static TRAPS: [Row; 7] = [
    Row {
        of_two: false,
        code: codes::TRAPS_UNREACHABLE,
        pages: 1,
        asks: &[],
        end: End::Trapped(Trap::Unreachable),
        used: 3,
        memory: b"abcdef",
    },
    Row {
        of_two: false,
        code: codes::TRAPS_MEMORY,
        pages: 1,
        asks: &[],
        end: End::Trapped(Trap::Memory),
        used: 3,
        memory: b"abcdef",
    },
    Row {
        of_two: false,
        code: codes::TRAPS_DIVIDE,
        pages: 1,
        asks: &[],
        end: End::Trapped(Trap::Divide),
        used: 3,
        memory: b"abcdef",
    },
    Row {
        of_two: false,
        code: codes::TRAPS_OVERFLOW,
        pages: 1,
        asks: &[],
        end: End::Trapped(Trap::Overflow),
        used: 3,
        memory: b"abcdef",
    },
    Row {
        of_two: false,
        code: codes::TRAPS_TABLE,
        pages: 1,
        asks: &[],
        end: End::Trapped(Trap::Table),
        used: 3,
        memory: b"abcdef",
    },
    Row {
        of_two: false,
        code: codes::TRAPS_EMPTY,
        pages: 1,
        asks: &[],
        end: End::Trapped(Trap::Empty),
        used: 3,
        memory: b"abcdef",
    },
    Row {
        of_two: false,
        code: codes::TRAPS_TYPE,
        pages: 1,
        asks: &[],
        end: End::Trapped(Trap::TypeDiffers),
        used: 3,
        memory: b"abcdef",
    },
];

/// The first frame, value and block too many, and a trap of the instruction itself in front of that.
pub(crate) static SINKING: [Row; 6] = [
    Row {
        of_two: false,
        code: codes::SINKS,
        pages: 1,
        asks: &[],
        end: End::Trapped(Trap::Stack),
        used: 1024,
        memory: b"abcdef",
    },
    Row {
        of_two: false,
        code: codes::SINKS_WIDE,
        pages: 1,
        asks: &[],
        end: End::Trapped(Trap::Stack),
        used: 65,
        memory: b"abcdef",
    },
    Row {
        of_two: false,
        code: codes::SINKS_OVER_ONE,
        pages: 1,
        asks: &[],
        end: End::Trapped(Trap::Stack),
        used: 65,
        memory: b"abcdef",
    },
    Row {
        of_two: false,
        code: codes::SINKS_NESTED,
        pages: 1,
        asks: &[],
        end: End::Trapped(Trap::Stack),
        used: 16642,
        memory: b"abcdef",
    },
    Row {
        of_two: false,
        code: codes::SINKS_TO_1028,
        pages: 1,
        asks: &[],
        end: End::Trapped(Trap::Table),
        used: 10231,
        memory: b"abcdef",
    },
    Row {
        of_two: false,
        code: codes::SINKS_TO_1029,
        pages: 1,
        asks: &[],
        end: End::Trapped(Trap::Stack),
        used: 10231,
        memory: b"abcdef",
    },
];

/// A memory grows to the pages that it may have, and to its maximum.
pub(crate) static GROWING: [Row; 8] = [
    Row {
        of_two: false,
        code: codes::GROWS_1,
        pages: 1,
        asks: &[],
        end: End::Done,
        used: 7,
        memory: b"abcdef",
    },
    Row {
        of_two: false,
        code: codes::GROWS_2,
        pages: 2,
        asks: &[],
        end: End::Done,
        used: 7,
        memory: b"abcdef",
    },
    Row {
        of_two: false,
        code: codes::GROWS_3,
        pages: 2,
        asks: &[],
        end: End::Done,
        used: 7,
        memory: b"abcdef",
    },
    Row {
        of_two: false,
        code: codes::GROWS_4,
        pages: 3,
        asks: &[],
        end: End::Done,
        used: 7,
        memory: b"abcdef",
    },
    Row {
        of_two: false,
        code: codes::GROWS_5,
        pages: 9,
        asks: &[],
        end: End::Done,
        used: 7,
        memory: b"abcdef",
    },
    Row {
        of_two: false,
        code: codes::GROWS_6,
        pages: 9,
        asks: &[],
        end: End::Done,
        used: 7,
        memory: b"abcdef",
    },
    Row {
        of_two: false,
        code: codes::GROWS_7,
        pages: 1,
        asks: &[],
        end: End::Done,
        used: 7,
        memory: b"abcdef",
    },
    Row {
        of_two: false,
        code: codes::GROWS_8,
        pages: 0,
        asks: &[],
        end: End::Done,
        used: 7,
        memory: b"abcdef",
    },
];

/// A branch keeps the topmost value; ranges that overlap are copied whole.
pub(crate) static BRANCHING: [Row; 4] = [
    Row {
        of_two: false,
        code: codes::BRANCH,
        pages: 1,
        asks: &[],
        end: End::Done,
        used: 15,
        memory: b"abcdef",
    },
    Row {
        of_two: false,
        code: codes::BRANCH_IF,
        pages: 1,
        asks: &[],
        end: End::Done,
        used: 15,
        memory: b"abcdef",
    },
    Row {
        of_two: false,
        code: codes::COPIES_UP,
        pages: 1,
        asks: &[],
        end: End::Done,
        used: 5,
        memory: b"ababcd",
    },
    Row {
        of_two: false,
        code: codes::COPIES_DOWN,
        pages: 1,
        asks: &[],
        end: End::Done,
        used: 5,
        memory: b"cdefef",
    },
];

/// A function with two parameters and a local that is 0 at first gives its first parameter, and what lies below stays.
pub(crate) static CALLED: [Row; 4] = [
    Row {
        of_two: true,
        code: codes::CALLED,
        pages: 1,
        asks: &[],
        end: End::Done,
        used: 24,
        memory: b"\x08\x07\x00\x08\x09f",
    },
    Row {
        of_two: true,
        code: codes::CALLED_BY_TABLE,
        pages: 1,
        asks: &[],
        end: End::Done,
        used: 25,
        memory: b"\x08\x07\x00\x08\x09f",
    },
    Row {
        of_two: true,
        code: codes::RETURNS,
        pages: 1,
        asks: &[],
        end: End::Done,
        used: 25,
        memory: b"\x08\x07\x00\x08\x09f",
    },
    Row {
        of_two: true,
        code: codes::BRANCHES_OUT,
        pages: 1,
        asks: &[],
        end: End::Done,
        used: 26,
        memory: b"\x08\x07\x00\x08\x09f",
    },
];

/// The low bits by their sign.
pub(crate) static EXTENDED: [Row; 2] = [
    Row {
        of_two: false,
        code: codes::EXTENDS_32,
        pages: 1,
        asks: &[],
        end: End::Done,
        used: 61,
        memory: b"abcdef",
    },
    Row {
        of_two: false,
        code: codes::EXTENDS_64,
        pages: 1,
        asks: &[],
        end: End::Done,
        used: 55,
        memory: b"abcdef",
    },
];

/// One of everything: blocks, a loop, branches, calls, the table, a global, a local, a store, an `if`, a host call and a return.
pub(crate) static MIXED: Row = Row {
    of_two: false,
    code: codes::MIXED,
    pages: 1,
    asks: &[(HostName::Input, [0, 8, 0, 0])],
    end: End::Done,
    used: 54,
    memory: b"\x09\0\0\0ef",
};

/// The start function puts a 7 where `handle` wants it.
pub(crate) static STARTED: Row = Row {
    of_two: false,
    code: codes::STARTED,
    pages: 1,
    asks: &[],
    end: End::Done,
    used: 11,
    memory: b"\x07bcdef",
};
