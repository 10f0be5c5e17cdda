//! Code that is run, as the code sections of modules of one form: two functions, `handle` and another one, number 10. A module
//! imports the nine host calls in the order of `HostName`, and has a memory of one page and at most three that begins with `abcdef`, a
//! table of three entries (`input`, none, the second function) and a global that is 5. Where nothing is said of it, `handle` has one
//! local and the second function has neither code nor locals; both have type 0, [] to [].

/// what comes before the element segments
pub(crate) const FRONT: &[u8] = b"\
    \x00asm\x01\x00\x00\x00\x01\x1e\x05`\x00\x00`\x02\x7f\x7f\x01\x7f`\x04\x7f\x7f\x7f\x7f\x01\x7f`\x02\x7f\x7f\x00`\x04\x7f\
    \x7f\x7f\x7f\x00\x02\x96\x01\x09\x07trapeze\x05input\x00\x01\x07trapeze\x04read\x00\x02\x07trapeze\x05write\x00\x02\x07t\
    rapeze\x06delete\x00\x01\x07trapeze\x04send\x00\x04\x07trapeze\x05raise\x00\x03\x07trapeze\x05reply\x00\x03\x07trapeze\
    \x09own_label\x00\x01\x07trapeze\x07release\x00\x04\x03\x03\x02\x00\x00\x04\x04\x01p\x00\x03\x05\x04\x01\x01\x01\x03\x06\
    \x06\x01\x7f\x01A\x05\x0b\x07\x0a\x01\x06handle\x00\x09";

/// the same where the second function has type 1, [i32 i32] to [i32]
pub(crate) const FRONT_OF_TWO: &[u8] = b"\
    \x00asm\x01\x00\x00\x00\x01\x1e\x05`\x00\x00`\x02\x7f\x7f\x01\x7f`\x04\x7f\x7f\x7f\x7f\x01\x7f`\x02\x7f\x7f\x00`\x04\x7f\
    \x7f\x7f\x7f\x00\x02\x96\x01\x09\x07trapeze\x05input\x00\x01\x07trapeze\x04read\x00\x02\x07trapeze\x05write\x00\x02\x07t\
    rapeze\x06delete\x00\x01\x07trapeze\x04send\x00\x04\x07trapeze\x05raise\x00\x03\x07trapeze\x05reply\x00\x03\x07trapeze\
    \x09own_label\x00\x01\x07trapeze\x07release\x00\x04\x03\x03\x02\x00\x01\x04\x04\x01p\x00\x03\x05\x04\x01\x01\x01\x03\x06\
    \x06\x01\x7f\x01A\x05\x0b\x07\x0a\x01\x06handle\x00\x09";

/// the start function is the second one
pub(crate) const START: &[u8] = b"\x08\x01\x0a";

/// the element segments
pub(crate) const ELEMENTS: &[u8] = b"\x09\x0d\x02\x00A\x00\x0b\x01\x00\x00A\x02\x0b\x01\x0a";

/// the data segment
pub(crate) const DATA: &[u8] = b"\x0b\x0c\x01\x00A\x00\x0b\x06abcdef";

/// it replies with its input: i32.const 0 i32.const 0 i32.const 65536 call 0 call 6
pub(crate) const ECHO: &[u8] =
    b"\x0a\x15\x02\x10\x01\x01\x7fA\x00A\x00A\x80\x80\x04\x10\x00\x10\x06\x0b\x02\x00\x0b";

/// it raises itself, then replies with its input: i32.const 0 i32.const 5 call 5 i32.const 16 i32.const 16 i32.const 1024 call 0 call 6
pub(crate) const LIFT: &[u8] = b"\
    \x0a\x1a\x02\x15\x01\x01\x7fA\x00A\x05\x10\x05A\x10A\x10A\x80\x08\x10\x00\x10\x06\x0b\x02\x00\x0b";

/// it replies with the value of a key: i32.const 16 i32.const 0 i32.const 1 i32.const 16 i32.const 1024 call 1 call 6
pub(crate) const LOOK: &[u8] =
    b"\x0a\x18\x02\x13\x01\x01\x7fA\x10A\x00A\x01A\x10A\x80\x08\x10\x01\x10\x06\x0b\x02\x00\x0b";

/// it writes its input under a key: i32.const 0 i32.const 1 i32.const 16 i32.const 16 i32.const 1024 call 0 call 2 drop
pub(crate) const STORE: &[u8] = b"\
    \x0a\x19\x02\x14\x01\x01\x7fA\x00A\x01A\x10A\x10A\x80\x08\x10\x00\x10\x02\x1a\x0b\x02\x00\x0b";

/// it sends its input twice: i32.const 16 i32.const 1024 call 0 local.set 0 i32.const 0 i32.const 4 i32.const 16 local.get 0 call 4
/// i32.const 0 i32.const 4 i32.const 16 local.get 0 call 4
pub(crate) const TWIN: &[u8] = b"\
    \x0a&\x02!\x01\x01\x7fA\x10A\x80\x08\x10\x00!\x00A\x00A\x04A\x10 \x00\x10\x04A\x00A\x04A\x10 \x00\x10\x04\x0b\x02\x00\
    \x0b";

/// one of everything. handle: block loop call 10 i32.const 2 call_indirect 0 global.get 0 i32.const 9 i32.lt_u br_if 0 global.get 0
/// local.set 0 br 1 end end block i32.const 1 br_table 0 end i32.const 0 local.get 0 i32.store 2 i32.const 0 i32.const 8 call 0
/// i32.const 3 i32.ne if unreachable end return
/// second: global.get 0 i32.const 1 i32.add global.set 0
pub(crate) const MIXED: &[u8] = b"\
    \x0aG\x02;\x01\x01\x7f\x02@\x03@\x10\x0aA\x02\x11\x00\x00#\x00A\x09I\x0d\x00#\x00!\x00\x0c\x01\x0b\x0b\x02@A\x01\x0e\x00\
    \x00\x0bA\x00 \x006\x02\x00A\x00A\x08\x10\x00A\x03G\x04@\x00\x0b\x0f\x0b\x09\x00#\x00A\x01j$\x00\x0b";

/// loop br 0 end
pub(crate) const SPIN: &[u8] = b"\x0a\x0e\x02\x09\x01\x01\x7f\x03@\x0c\x00\x0b\x0b\x02\x00\x0b";

/// nop unreachable
pub(crate) const STOPS: &[u8] = b"\x0a\x0b\x02\x06\x01\x01\x7f\x01\x00\x0b\x02\x00\x0b";

/// i32.const 0 i32.const 0 unreachable return
pub(crate) const TRAPS_UNREACHABLE: &[u8] =
    b"\x0a\x0f\x02\x0a\x01\x01\x7fA\x00A\x00\x00\x0f\x0b\x02\x00\x0b";

/// i32.const 0 i32.const 65533 i32.load 2 return
pub(crate) const TRAPS_MEMORY: &[u8] =
    b"\x0a\x13\x02\x0e\x01\x01\x7fA\x00A\xfd\xff\x03(\x02\x00\x0f\x0b\x02\x00\x0b";

/// i32.const 1 i32.const 0 i32.div_s return
pub(crate) const TRAPS_DIVIDE: &[u8] =
    b"\x0a\x0f\x02\x0a\x01\x01\x7fA\x01A\x00m\x0f\x0b\x02\x00\x0b";

/// i32.const 2147483648 i32.const 4294967295 i32.div_s return
pub(crate) const TRAPS_OVERFLOW: &[u8] =
    b"\x0a\x13\x02\x0e\x01\x01\x7fA\x80\x80\x80\x80xA\x7fm\x0f\x0b\x02\x00\x0b";

/// i32.const 0 i32.const 3 call_indirect 0 return
pub(crate) const TRAPS_TABLE: &[u8] =
    b"\x0a\x11\x02\x0c\x01\x01\x7fA\x00A\x03\x11\x00\x00\x0f\x0b\x02\x00\x0b";

/// i32.const 0 i32.const 1 call_indirect 0 return
pub(crate) const TRAPS_EMPTY: &[u8] =
    b"\x0a\x11\x02\x0c\x01\x01\x7fA\x00A\x01\x11\x00\x00\x0f\x0b\x02\x00\x0b";

/// i32.const 0 i32.const 0 call_indirect 0 return
pub(crate) const TRAPS_TYPE: &[u8] =
    b"\x0a\x11\x02\x0c\x01\x01\x7fA\x00A\x00\x11\x00\x00\x0f\x0b\x02\x00\x0b";

/// handle, without locals, and the second function: call 10
pub(crate) const SINKS: &[u8] = b"\x0a\x0b\x02\x04\x00\x10\x0a\x0b\x04\x00\x10\x0a\x0b";

/// handle, without locals: call 10; second, with 1,024 locals: call 10
pub(crate) const SINKS_WIDE: &[u8] =
    b"\x0a\x0e\x02\x04\x00\x10\x0a\x0b\x07\x01\x80\x08\x7f\x10\x0a\x0b";

/// handle, without locals: i32.const 0 call 10 drop; second, with 1,024 locals: call 10
pub(crate) const SINKS_OVER_ONE: &[u8] =
    b"\x0a\x11\x02\x07\x00A\x00\x10\x0a\x1a\x0b\x07\x01\x80\x08\x7f\x10\x0a\x0b";

/// handle, without locals: call 10; second: 64 times block, call 10, 64 times end
pub(crate) const SINKS_NESTED: &[u8] = b"\
    \x0a\xcc\x01\x02\x04\x00\x10\x0a\x0b\xc4\x01\x00\x02@\x02@\x02@\x02@\x02@\x02@\x02@\x02@\x02@\x02@\x02@\x02@\x02@\x02@\
    \x02@\x02@\x02@\x02@\x02@\x02@\x02@\x02@\x02@\x02@\x02@\x02@\x02@\x02@\x02@\x02@\x02@\x02@\x02@\x02@\x02@\x02@\x02@\x02@\
    \x02@\x02@\x02@\x02@\x02@\x02@\x02@\x02@\x02@\x02@\x02@\x02@\x02@\x02@\x02@\x02@\x02@\x02@\x02@\x02@\x02@\x02@\x02@\x02@\
    \x02@\x02@\x10\x0a\x0b\x0b\x0b\x0b\x0b\x0b\x0b\x0b\x0b\x0b\x0b\x0b\x0b\x0b\x0b\x0b\x0b\x0b\x0b\x0b\x0b\x0b\x0b\x0b\x0b\
    \x0b\x0b\x0b\x0b\x0b\x0b\x0b\x0b\x0b\x0b\x0b\x0b\x0b\x0b\x0b\x0b\x0b\x0b\x0b\x0b\x0b\x0b\x0b\x0b\x0b\x0b\x0b\x0b\x0b\x0b\
    \x0b\x0b\x0b\x0b\x0b\x0b\x0b\x0b\x0b\x0b";

/// handle, without locals: call 10; second: global.get 0 i32.const 1 i32.add global.set 0 i32.const 2 global.get 0 i32.const 1028
/// i32.eq i32.add call_indirect 0
pub(crate) const SINKS_TO_1028: &[u8] = b"\
    \x0a\x1c\x02\x04\x00\x10\x0a\x0b\x15\x00#\x00A\x01j$\x00A\x02#\x00A\x84\x08Fj\x11\x00\x00\x0b";

/// handle, without locals: call 10; second: global.get 0 i32.const 1 i32.add global.set 0 i32.const 2 global.get 0 i32.const 1029
/// i32.eq i32.add call_indirect 0
pub(crate) const SINKS_TO_1029: &[u8] = b"\
    \x0a\x1c\x02\x04\x00\x10\x0a\x0b\x15\x00#\x00A\x01j$\x00A\x02#\x00A\x85\x08Fj\x11\x00\x00\x0b";

/// i32.const 1 memory.grow i32.const 4294967295 i32.ne if unreachable end
pub(crate) const GROWS_1: &[u8] =
    b"\x0a\x14\x02\x0f\x01\x01\x7fA\x01@\x00A\x7fG\x04@\x00\x0b\x0b\x02\x00\x0b";

/// i32.const 1 memory.grow i32.const 1 i32.ne if unreachable end
pub(crate) const GROWS_2: &[u8] =
    b"\x0a\x14\x02\x0f\x01\x01\x7fA\x01@\x00A\x01G\x04@\x00\x0b\x0b\x02\x00\x0b";

/// i32.const 2 memory.grow i32.const 4294967295 i32.ne if unreachable end
pub(crate) const GROWS_3: &[u8] =
    b"\x0a\x14\x02\x0f\x01\x01\x7fA\x02@\x00A\x7fG\x04@\x00\x0b\x0b\x02\x00\x0b";

/// i32.const 2 memory.grow i32.const 1 i32.ne if unreachable end
pub(crate) const GROWS_4: &[u8] =
    b"\x0a\x14\x02\x0f\x01\x01\x7fA\x02@\x00A\x01G\x04@\x00\x0b\x0b\x02\x00\x0b";

/// i32.const 3 memory.grow i32.const 4294967295 i32.ne if unreachable end
pub(crate) const GROWS_5: &[u8] =
    b"\x0a\x14\x02\x0f\x01\x01\x7fA\x03@\x00A\x7fG\x04@\x00\x0b\x0b\x02\x00\x0b";

/// i32.const 4294967295 memory.grow i32.const 4294967295 i32.ne if unreachable end
pub(crate) const GROWS_6: &[u8] =
    b"\x0a\x14\x02\x0f\x01\x01\x7fA\x7f@\x00A\x7fG\x04@\x00\x0b\x0b\x02\x00\x0b";

/// i32.const 0 memory.grow i32.const 1 i32.ne if unreachable end
pub(crate) const GROWS_7: &[u8] =
    b"\x0a\x14\x02\x0f\x01\x01\x7fA\x00@\x00A\x01G\x04@\x00\x0b\x0b\x02\x00\x0b";

/// i32.const 0 memory.grow i32.const 4294967295 i32.ne if unreachable end
pub(crate) const GROWS_8: &[u8] =
    b"\x0a\x14\x02\x0f\x01\x01\x7fA\x00@\x00A\x7fG\x04@\x00\x0b\x0b\x02\x00\x0b";

/// i32.const 1 block i32 i32.const 9 block i32.const 2 i32.const 3 i32.const 4 i32.const 1 br 1 unreachable end end i32.add i32.const 2
/// i32.ne if unreachable end
pub(crate) const BRANCH: &[u8] = b"\
    \x0a&\x02!\x01\x01\x7fA\x01\x02\x7fA\x09\x02@A\x02A\x03A\x04A\x01\x0c\x01\x00\x0b\x0bjA\x02G\x04@\x00\x0b\x0b\x02\x00\
    \x0b";

/// i32.const 1 block i32 i32.const 9 block i32.const 2 i32.const 3 i32.const 4 i32.const 1 br_if 1 unreachable end end i32.add
/// i32.const 5 i32.ne if unreachable end
pub(crate) const BRANCH_IF: &[u8] = b"\
    \x0a&\x02!\x01\x01\x7fA\x01\x02\x7fA\x09\x02@A\x02A\x03A\x04A\x01\x0d\x01\x00\x0b\x0bjA\x05G\x04@\x00\x0b\x0b\x02\x00\
    \x0b";

/// i32.const 2 i32.const 0 i32.const 4 memory.copy
pub(crate) const COPIES_UP: &[u8] =
    b"\x0a\x13\x02\x0e\x01\x01\x7fA\x02A\x00A\x04\xfc\x0a\x00\x00\x0b\x02\x00\x0b";

/// i32.const 0 i32.const 2 i32.const 4 memory.copy
pub(crate) const COPIES_DOWN: &[u8] =
    b"\x0a\x13\x02\x0e\x01\x01\x7fA\x00A\x02A\x04\xfc\x0a\x00\x00\x0b\x02\x00\x0b";

/// handle: i32.const 0 i32.load8_u i32.const 7 i32.ne if unreachable end
/// second, with two locals: i32.const 0 i32.const 7 i32.store8
pub(crate) const STARTED: &[u8] = b"\
    \x0a\x1e\x02\x10\x01\x01\x7fA\x00-\x00\x00A\x07G\x04@\x00\x0b\x0b\x0b\x01\x02\x7fA\x00A\x07:\x00\x00\x0b";

/// i32.const 0 i32.const 8 i32.const 0 call_indirect 1 drop
pub(crate) const IMPORT_BY_TABLE: &[u8] =
    b"\x0a\x13\x02\x0e\x01\x01\x7fA\x00A\x08A\x00\x11\x01\x00\x1a\x0b\x02\x00\x0b";

/// the second function ends with its code. handle: i32.const 9 i32.const 8 i32.const 7 call 10 local.set 0 local.set 1 i32.const 3
/// local.get 0 i32.store8 0 i32.const 4 local.get 1 i32.store8 0
/// second: i32.const 0 local.get 0 i32.store8 0 i32.const 1 local.get 1 i32.store8 0 i32.const 2 local.get 2 i32.store8 0 local.get 0
pub(crate) const CALLED: &[u8] = b"\
    \x0a<\x02\x1e\x01\x02\x7fA\x09A\x08A\x07\x10\x0a!\x00!\x01A\x03 \x00:\x00\x00A\x04 \x01:\x00\x00\x0b\x1b\x01\x01\x7fA\
    \x00 \x00:\x00\x00A\x01 \x01:\x00\x00A\x02 \x02:\x00\x00 \x00\x0b";

/// the same by the table. handle: i32.const 9 i32.const 8 i32.const 7 i32.const 2 call_indirect 1 local.set 0 local.set 1 i32.const 3
/// local.get 0 i32.store8 0 i32.const 4 local.get 1 i32.store8 0
/// second: i32.const 0 local.get 0 i32.store8 0 i32.const 1 local.get 1 i32.store8 0 i32.const 2 local.get 2 i32.store8 0 local.get 0
pub(crate) const CALLED_BY_TABLE: &[u8] = b"\
    \x0a?\x02!\x01\x02\x7fA\x09A\x08A\x07A\x02\x11\x01\x00!\x00!\x01A\x03 \x00:\x00\x00A\x04 \x01:\x00\x00\x0b\x1b\x01\x01\
    \x7fA\x00 \x00:\x00\x00A\x01 \x01:\x00\x00A\x02 \x02:\x00\x00 \x00\x0b";

/// it returns over another operand. handle: i32.const 9 i32.const 8 i32.const 7 call 10 local.set 0 local.set 1 i32.const 3 local.get 0
/// i32.store8 0 i32.const 4 local.get 1 i32.store8 0
/// second: i32.const 0 local.get 0 i32.store8 0 i32.const 1 local.get 1 i32.store8 0 i32.const 2 local.get 2 i32.store8 0 i32.const 1
/// local.get 0 return
pub(crate) const RETURNS: &[u8] = b"\
    \x0a?\x02\x1e\x01\x02\x7fA\x09A\x08A\x07\x10\x0a!\x00!\x01A\x03 \x00:\x00\x00A\x04 \x01:\x00\x00\x0b\x1e\x01\x01\x7fA\
    \x00 \x00:\x00\x00A\x01 \x01:\x00\x00A\x02 \x02:\x00\x00A\x01 \x00\x0f\x0b";

/// it branches out of a block to its own level, over another operand. handle: i32.const 9 i32.const 8 i32.const 7 call 10 local.set 0
/// local.set 1 i32.const 3 local.get 0 i32.store8 0 i32.const 4 local.get 1 i32.store8 0
/// second: i32.const 0 local.get 0 i32.store8 0 i32.const 1 local.get 1 i32.store8 0 i32.const 2 local.get 2 i32.store8 0 i32.const 1
/// block local.get 0 br 1 end unreachable
pub(crate) const BRANCHES_OUT: &[u8] = b"\
    \x0aD\x02\x1e\x01\x02\x7fA\x09A\x08A\x07\x10\x0a!\x00!\x01A\x03 \x00:\x00\x00A\x04 \x01:\x00\x00\x0b#\x01\x01\x7fA\x00 \
    \x00:\x00\x00A\x01 \x01:\x00\x00A\x02 \x02:\x00\x00A\x01\x02@ \x00\x0c\x01\x0b\x00\x0b";

/// each of 0, 7F, 80, 8000 and 1234500 extended from 8 and from 16 bits, and unreachable where that is not
/// 0, 0; 7F, 7F; FFFFFF80, 80; 0, FFFF8000; 0, 4500
pub(crate) const EXTENDS_32: &[u8] = b"\
    \x0a\x83\x01\x02~\x01\x01\x7fA\x00\xc0A\x00G\x04@\x00\x0bA\x00\xc1A\x00G\x04@\x00\x0bA\xff\x00\xc0A\xff\x00G\x04@\x00\
    \x0bA\xff\x00\xc1A\xff\x00G\x04@\x00\x0bA\x80\x01\xc0A\x80\x7fG\x04@\x00\x0bA\x80\x01\xc1A\x80\x01G\x04@\x00\x0bA\x80\
    \x80\x02\xc0A\x00G\x04@\x00\x0bA\x80\x80\x02\xc1A\x80\x80~G\x04@\x00\x0bA\x80\x8a\x8d\x09\xc0A\x00G\x04@\x00\x0bA\x80\
    \x8a\x8d\x09\xc1A\x80\x8a\x01G\x04@\x00\x0b\x0b\x02\x00\x0b";

/// each of 80, 8000 and FEDCBA9880000000 extended from 8, 16 and 32 bits, and unreachable where that is not
/// FFFFFFFFFFFFFF80, 80, 80; 0, FFFFFFFFFFFF8000, 8000; 0, 0, FFFFFFFF80000000
pub(crate) const EXTENDS_64: &[u8] = b"\
    \x0a\x90\x01\x02\x8a\x01\x01\x01\x7fB\x80\x01\xc2B\x80\x7fR\x04@\x00\x0bB\x80\x01\xc3B\x80\x01R\x04@\x00\x0bB\x80\x01\
    \xc4B\x80\x01R\x04@\x00\x0bB\x80\x80\x02\xc2B\x00R\x04@\x00\x0bB\x80\x80\x02\xc3B\x80\x80~R\x04@\x00\x0bB\x80\x80\x02\
    \xc4B\x80\x80\x02R\x04@\x00\x0bB\x80\x80\x80\x80\x88\xd3\xae\xee~\xc2B\x00R\x04@\x00\x0bB\x80\x80\x80\x80\x88\xd3\xae\
    \xee~\xc3B\x00R\x04@\x00\x0bB\x80\x80\x80\x80\x88\xd3\xae\xee~\xc4B\x80\x80\x80\x80xR\x04@\x00\x0b\x0b\x02\x00\x0b";
