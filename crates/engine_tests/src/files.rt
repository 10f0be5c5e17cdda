//! Modules as whole files: what is decoded, and the first fault.

use crate::played::{Part, decoded, joined};
use crate::worked::{BUILT, ECHO, FILL, FLOAT, GIVE, LIFT, LOOK, SPIN, STORE, TWIN};
use std::alloc::Global;
use std::test::Fail;
use wasm_ast::{
    Export, ExportKind, GlobalVar, Import, ImportKind, Instr, MemoryType, Module, Table, ValType,
};
use wasm_decode::DecodeError;

/// How many types, imports, functions, tables, memories, globals, exports, element and data segments there are, and how many
/// instructions and locals all bodies have.
fn shape(module: &Module) -> [usize; 11] {
    let mut instructions = 0;
    let mut locals = 0;
    for body in module.bodies() {
        instructions = body.code().items().len();
        locals = body.locals().len();
    }
    [
        module.types().len(),
        module.imports().len(),
        module.functions().len(),
        module.tables().len(),
        module.memories().len(),
        module.globals().len(),
        module.exports().len(),
        module.elements().len(),
        module.pieces().len(),
        instructions,
        locals,
    ]
}

/// Whether the bytes spell a module with these numbers.
fn has_shape(alloc: Global, bytes: &[u8], want: &[usize; 11]) -> Result<bool, DecodeError> {
    let module = decoded(alloc, bytes)?;
    Ok(shape(&module) == *want)
}

static SHAPES: [(&[u8], [usize; 11]); 10] = [
    (ECHO, [3, 2, 1, 0, 1, 0, 1, 0, 0, 5, 0]),
    (BUILT, [3, 2, 1, 1, 1, 1, 2, 0, 0, 5, 0]),
    (LIFT, [3, 3, 1, 0, 1, 0, 1, 0, 1, 8, 0]),
    (LOOK, [3, 2, 1, 0, 1, 0, 1, 0, 1, 7, 0]),
    (SPIN, [1, 0, 1, 0, 0, 0, 1, 0, 0, 1, 0]),
    (FLOAT, [1, 0, 1, 0, 0, 0, 1, 0, 0, 2, 0]),
    (STORE, [3, 2, 1, 0, 1, 0, 1, 0, 1, 8, 0]),
    (TWIN, [3, 2, 1, 0, 1, 0, 1, 0, 1, 14, 1]),
    (FILL, [2, 1, 1, 0, 1, 0, 1, 0, 0, 15, 0]),
    (GIVE, [3, 2, 1, 0, 1, 0, 1, 0, 1, 7, 0]),
];

#[test]
fn the_worked_modules_are_decoded(rt: HostRuntime) -> Result<(), Fail> {
    for (bytes, want) in &SHAPES {
        assert!(rt; has_shape(rt.alloc(), bytes, want)?);
    }
    Ok(())
}

/// Whether the code asks for the input and replies with it.
fn asks_and_replies(code: &[Instr]) -> bool {
    matches!(
        code,
        [
            Instr::I32Const(0),
            Instr::I32Const(0),
            Instr::I32Const(65536),
            Instr::Call(0),
            Instr::Call(1),
        ]
    )
}

/// Whether the import is this function of the module `trapeze`.
fn is_call(import: &Import, name: &[u8], kind: u32) -> bool {
    import.module().as_slice() == b"trapeze".as_slice()
        && import.name().as_slice() == name
        && *import.kind() == ImportKind::Function(kind)
}

/// Whether the export is `handle`, function 2.
fn is_handle(export: &Export) -> bool {
    export.name().as_slice() == b"handle".as_slice()
        && *export.kind() == ExportKind::Function
        && export.index() == 2
}

/// Whether it imports `input` and `reply`, exports `handle`, and has one body.
fn is_echo(module: &Module) -> bool {
    let ([first, second], [export], [body]) = (module.imports(), module.exports(), module.bodies())
    else {
        return false;
    };
    is_call(first, b"input", 0)
        && is_call(second, b"reply", 1)
        && is_handle(export)
        && asks_and_replies(body.code().items())
}

#[test]
fn a_reply_with_the_input_is_decoded(rt: HostRuntime) -> Result<(), Fail> {
    let module = decoded(rt.alloc(), ECHO)?;
    assert!(rt; is_echo(&module));
    Ok(())
}

fn is_single(table: &Table) -> bool {
    table.minimum() == 1 && table.maximum() == Some(1)
}

fn has_17_pages(memory: &MemoryType) -> bool {
    memory.minimum() == 17 && memory.maximum().is_none()
}

/// Whether it can be set, and is 1,048,576 at first.
fn is_a_place(global: &GlobalVar) -> bool {
    global.val_type() == ValType::I32
        && global.mutable()
        && matches!(global.initial().items(), [Instr::I32Const(1048576)])
}

/// Whether it has a table of one entry, 17 pages and a global that can be set.
fn is_built(module: &Module) -> bool {
    let ([table], [memory], [global]) = (module.tables(), module.memories(), module.globals())
    else {
        return false;
    };
    is_single(table) && has_17_pages(memory) && is_a_place(global)
}

#[test]
fn the_longer_form_has_a_table_and_a_global(rt: HostRuntime) -> Result<(), Fail> {
    let module = decoded(rt.alloc(), BUILT)?;
    assert!(rt; is_built(&module));
    Ok(())
}

/// The header, behind which a row has its sections.
const HEADER: Part = (b"\x00asm\x01\x00\x00\x00", 1);

/// Sections, and their first fault, if they have one.
type Row = (&'static [u8], Option<DecodeError>);

/// Whether each of these, behind the header, has this fault, or none.
fn finds(alloc: Global, rows: &[Row]) -> Result<bool, Fail> {
    for (sections, want) in rows {
        let bytes = joined(alloc, &[HEADER, (sections, 1)])?;
        if decoded(alloc, bytes.as_slice()).err() != *want {
            return Ok(false);
        }
    }
    Ok(true)
}

static SECTIONS: [Row; 27] = [
    (b"", None),
    // ids and their order
    (b"\x0d\x00", Some(DecodeError::Malformed(8))),
    (b"\x0c\x01\x00", None),
    (
        b"\x03\x01\x00\x01\x01\x00",
        Some(DecodeError::Malformed(11)),
    ),
    (
        b"\x01\x01\x00\x01\x01\x00",
        Some(DecodeError::Malformed(11)),
    ),
    (
        b"\x0c\x01\x00\x09\x01\x00",
        Some(DecodeError::Malformed(11)),
    ),
    (
        b"\x0a\x01\x00\x0c\x01\x00",
        Some(DecodeError::Malformed(11)),
    ),
    (
        b"\x0b\x01\x00\x0a\x01\x00",
        Some(DecodeError::Malformed(11)),
    ),
    (b"\x0c\x01\x00\x0a\x01\x00\x0b\x01\x00", None),
    // sizes, and bytes left
    (b"\x01", Some(DecodeError::Malformed(9))),
    (b"\x01\x02\x00", Some(DecodeError::Malformed(9))),
    (
        b"\x01\x81\x80\x80\x80\x80\x00",
        Some(DecodeError::Malformed(9)),
    ),
    (b"\x01\x02\x00\x00", Some(DecodeError::Malformed(11))),
    // custom sections
    (b"\x00\x01\x00", None),
    (b"\x00\x02\x01\x61", None),
    (b"\x00\x00", Some(DecodeError::Malformed(10))),
    (b"\x00\x01\x01", Some(DecodeError::Malformed(10))),
    (b"\x00\x02\x01\xff", Some(DecodeError::Malformed(10))),
    (b"\x01\x01\x00\x00\x01\x00\x02\x01\x00", None),
    // counts that say more than there is
    (
        b"\x01\x05\xff\xff\xff\xff\x0f",
        Some(DecodeError::Malformed(15)),
    ),
    (
        b"\x01\x05\xff\xff\xff\xff\x1f",
        Some(DecodeError::Malformed(10)),
    ),
    // types and limits
    (
        b"\x01\x04\x01\x61\x00\x00",
        Some(DecodeError::Malformed(11)),
    ),
    (
        b"\x01\x05\x01\x60\x01\x41\x00",
        Some(DecodeError::Malformed(13)),
    ),
    (b"\x01\x06\x01\x60\x01\x7f\x01\x7f", None),
    (b"\x05\x03\x01\x02\x00", Some(DecodeError::Malformed(11))),
    (b"\x05\x04\x01\x01\x01\x01", None),
    (
        b"\x04\x04\x01\x71\x00\x00",
        Some(DecodeError::Malformed(11)),
    ),
];

#[test]
fn the_first_fault_of_sections_is_found(rt: HostRuntime) -> Result<(), Fail> {
    assert!(rt; finds(rt.alloc(), &SECTIONS)?);
    Ok(())
}

static MEMBERS: [Row; 16] = [
    // imports
    (
        b"\x02\x05\x01\x00\x00\x04\x00",
        Some(DecodeError::Malformed(13)),
    ),
    (b"\x02\x05\x01\x00\x00\x00\x00", None),
    (
        b"\x02\x04\x01\x00\x02\x61",
        Some(DecodeError::Malformed(12)),
    ),
    // globals
    (
        b"\x06\x06\x01\x7f\x02\x41\x00\x0b",
        Some(DecodeError::Malformed(12)),
    ),
    (b"\x06\x06\x01\x7f\x00\x41\x00\x0b", None),
    (
        b"\x06\x05\x01\x7f\x00\x41\x00",
        Some(DecodeError::Malformed(15)),
    ),
    // exports
    (b"\x07\x02\x01\x05", Some(DecodeError::Malformed(11))),
    (
        b"\x07\x05\x01\x01\xff\x00\x00",
        Some(DecodeError::Malformed(11)),
    ),
    (
        b"\x07\x04\x01\x00\x04\x00",
        Some(DecodeError::Malformed(12)),
    ),
    // the start function
    (b"\x08\x00", Some(DecodeError::Malformed(10))),
    (b"\x08\x01\x80", Some(DecodeError::Malformed(10))),
    (b"\x08\x02\x00\x00", Some(DecodeError::Malformed(11))),
    // segments
    (
        b"\x09\x06\x01\x00\x41\x00\x0b\x01",
        Some(DecodeError::Malformed(16)),
    ),
    (b"\x09\x06\x01\x00\x41\x00\x0b\x00", None),
    (
        b"\x0b\x07\x01\x00\x41\x00\x0b\x02\x61",
        Some(DecodeError::Malformed(15)),
    ),
    (b"\x0b\x07\x01\x00\x41\x00\x0b\x01\x61", None),
];

#[test]
fn the_first_fault_of_members_is_found(rt: HostRuntime) -> Result<(), Fail> {
    assert!(rt; finds(rt.alloc(), &MEMBERS)?);
    Ok(())
}

static COUNTS: [Row; 12] = [
    // code and functions
    (b"\x03\x02\x01\x00", Some(DecodeError::Malformed(12))),
    (
        b"\x0a\x04\x01\x02\x00\x0b",
        Some(DecodeError::Malformed(10)),
    ),
    (
        b"\x03\x02\x01\x00\x0a\x01\x00",
        Some(DecodeError::Malformed(14)),
    ),
    (b"\x03\x02\x01\x00\x0a\x04\x01\x02\x00\x0b", None),
    // bodies
    (
        b"\x03\x02\x01\x00\x0a\x03\x01\x05\x00",
        Some(DecodeError::Malformed(15)),
    ),
    (
        b"\x03\x02\x01\x00\x0a\x03\x01\x01\x00",
        Some(DecodeError::Malformed(17)),
    ),
    (
        b"\x03\x02\x01\x00\x0a\x06\x01\x04\x00\x0b\x01\x0b",
        Some(DecodeError::Malformed(18)),
    ),
    (
        b"\x03\x02\x01\x00\x0a\x05\x01\x02\x00\x0b\x00",
        Some(DecodeError::Malformed(18)),
    ),
    // the count of data segments
    (b"\x0c\x01\x01", Some(DecodeError::Malformed(11))),
    (
        b"\x0c\x01\x01\x0b\x01\x00",
        Some(DecodeError::Malformed(13)),
    ),
    (b"\x0c\x01\x01\x0b\x07\x01\x00\x41\x00\x0b\x01\x61", None),
    (
        b"\x0c\x01\x00\x0b\x07\x01\x00\x41\x00\x0b\x01\x61",
        Some(DecodeError::Malformed(13)),
    ),
];

#[test]
fn the_first_fault_of_bodies_and_counts_is_found(rt: HostRuntime) -> Result<(), Fail> {
    assert!(rt; finds(rt.alloc(), &COUNTS)?);
    Ok(())
}

static HEADERS: [(&[u8], u32); 6] = [
    (b"", 0),
    (b"\x00as", 0),
    (b"\x00asn\x01\x00\x00\x00", 0),
    (b"\x00asm", 4),
    (b"\x00asm\x01\x00", 4),
    (b"\x00asm\x02\x00\x00\x00", 4),
];

#[test]
fn the_header_is_two_fields(rt: HostRuntime) {
    for (bytes, want) in &HEADERS {
        assert!(rt; decoded(rt.alloc(), bytes).err() == Some(DecodeError::Malformed(*want)));
    }
}

/// What comes behind the size of the first section of ECHO, and what comes in front of the code section of SPIN.
const ECHO_BEHIND: &[u8] = b"\
    \x03\x60\x02\x7f\x7f\x01\x7f\x60\x02\x7f\x7f\x00\x60\x00\x00\x02\x21\x02\x07\x74\x72\x61\x70\x65\
    \x7a\x65\x05\x69\x6e\x70\x75\x74\x00\x00\x07\x74\x72\x61\x70\x65\x7a\x65\x05\x72\x65\x70\x6c\x79\
    \x00\x01\x03\x02\x01\x02\x05\x03\x01\x00\x01\x07\x0a\x01\x06\x68\x61\x6e\x64\x6c\x65\x00\x02\x0a\
    \x10\x01\x0e\x00\x41\x00\x41\x00\x41\x80\x80\x04\x10\x00\x10\x01\x0b";

const SPIN_FRONT: &[u8] = b"\
    \x00\x61\x73\x6d\x01\x00\x00\x00\x01\x04\x01\x60\x00\x00\x03\x02\x01\x00\x07\x0a\x01\x06\x68\x61\
    \x6e\x64\x6c\x65\x00\x00";

/// Whole files by their parts, and their first fault, if they have one.
static FILES: [(&[Part], Option<DecodeError>); 10] = [
    // a reply with the input, cut in front of the code of its body
    (
        &[(
            b"\
            \x00\x61\x73\x6d\x01\x00\x00\x00\x01\x0f\x03\x60\x02\x7f\x7f\x01\x7f\x60\x02\x7f\x7f\x00\x60\x00\
            \x00\x02\x21\x02\x07\x74\x72\x61\x70\x65\x7a\x65\x05\x69\x6e\x70\x75\x74\x00\x00\x07\x74\x72\x61\
            \x70\x65\x7a\x65\x05\x72\x65\x70\x6c\x79\x00\x01\x03\x02\x01\x02\x05\x03\x01\x00\x01\x07\x0a\x01\
            \x06\x68\x61\x6e\x64\x6c\x65\x00\x02\x0a\x10\x01\x0e\x00\x41\x00\x41\x00\x41\x80\x80\x04\x10\x00\
            \x10\x01",
            1,
        )],
        Some(DecodeError::Malformed(82)),
    ),
    // the same whole, with the size of its first section spelled at length
    (
        &[
            (b"\x00\x61\x73\x6d\x01\x00\x00\x00\x01", 1),
            (b"\x8f\x80\x80\x80\x00", 1),
            (ECHO_BEHIND, 1),
        ],
        None,
    ),
    // the same whole, with the size of its first section spelled at length
    (
        &[
            (b"\x00\x61\x73\x6d\x01\x00\x00\x00\x01", 1),
            (b"\x8f\x80\x80\x80\x80\x00", 1),
            (ECHO_BEHIND, 1),
        ],
        Some(DecodeError::Malformed(9)),
    ),
    // the same whole, with the size of its first section spelled at length
    (
        &[
            (b"\x00\x61\x73\x6d\x01\x00\x00\x00\x01", 1),
            (b"\x8f\x80\x80\x80\x10", 1),
            (ECHO_BEHIND, 1),
        ],
        Some(DecodeError::Malformed(9)),
    ),
    // a count of data segments without them
    (
        &[
            (
                b"\
            \x00\x61\x73\x6d\x01\x00\x00\x00\x01\x09\x02\x60\x02\x7f\x7f\x00\x60\x00\x00\x02\x11\x01\x07\x74\
            \x72\x61\x70\x65\x7a\x65\x05\x72\x65\x70\x6c\x79\x00\x00\x03\x02\x01\x01\x05\x03\x01\x00\x01\x07\
            \x0a\x01\x06\x68\x61\x6e\x64\x6c\x65\x00\x01\x0c\x01",
                1,
            ),
            (b"\x01", 1),
            (
                b"\
            \x0a\x26\x01\x24\x00\x41\x00\x41\x07\x41\x02\xfc\x0b\x00\x41\x01\x41\x00\x41\x02\xfc\x0a\x00\x00\
            \x41\x04\x41\x80\x01\xc0\x36\x02\x00\x41\x00\x41\x08\x10\x00\x0b",
                1,
            ),
        ],
        Some(DecodeError::Malformed(102)),
    ),
    // 1,024 and one more locals in the first body, and 1,025 in the second
    (
        &[
            (SPIN_FRONT, 1),
            (b"\x0a\x09\x01\x07\x02\x80\x08\x7f\x01\x7e\x0b", 1),
        ],
        Some(DecodeError::TooManyLocals(0)),
    ),
    (
        &[
            HEADER,
            (
                b"\x03\x03\x02\x00\x00\x0a\x0a\x02\x02\x00\x0b\x05\x01\x81\x08\x7f\x0b",
                1,
            ),
        ],
        Some(DecodeError::TooManyLocals(1)),
    ),
    // 512 blocks inside one another, and 513
    (
        &[
            (SPIN_FRONT, 1),
            (b"\x0a\x85\x0c\x01\x82\x0c\x00", 1),
            (b"\x02\x40", 512),
            (b"\x0b", 513),
        ],
        None,
    ),
    (
        &[
            (SPIN_FRONT, 1),
            (b"\x0a\x88\x0c\x01\x85\x0c\x00", 1),
            (b"\x02\x40", 513),
            (b"\x0b", 514),
        ],
        Some(DecodeError::TooDeep(1061)),
    ),
    // the longest file without its last byte
    (
        &[HEADER, (b"\x00\xf3\xff\xff\x01", 1), (b"\x00", 4194290)],
        Some(DecodeError::Malformed(9)),
    ),
];

#[test]
fn the_first_fault_of_a_whole_file_is_found(rt: HostRuntime) -> Result<(), Fail> {
    for (parts, want) in &FILES {
        let bytes = joined(rt.alloc(), parts)?;
        assert!(rt; decoded(rt.alloc(), bytes.as_slice()).err() == *want);
    }
    Ok(())
}

#[test]
fn the_longest_file_is_decoded(rt: HostRuntime) -> Result<(), Fail> {
    let custom = (&b"\x00\xf3\xff\xff\x01"[..], 1);
    let bytes = joined(rt.alloc(), &[HEADER, custom, (b"\x00", 4_194_291)])?;
    assert!(rt; has_shape(rt.alloc(), bytes.as_slice(), &[0; 11])?);
    Ok(())
}
