//! The lines of the faults of a module.

ghost use Rattle.std.specs.Prelude.{◌≡◌};
ghost use Rattle.trapeze_io.specs.Appends.{Says};
ghost use Rattle.fault_texts.specs.ModuleTexts.{module_line, decode_line, words_line, module_text, decode_text, invalid_text, numbered_text};

use itoa::Buffer;
use trapeze_io::{Sink, say_pieces};
use wasm_ast::{FloatPlace, SegmentPlace};
use wasm_decode::DecodeError;
use wasm_validate::Invalid;

/// Why a file gives no module.
#[derive(Debug, Clone, Copy, PartialEq, Eq, Drop)]
pub enum ModuleFault {
    /// The bytes spell no module.
    Decode(DecodeError),
    /// The module is not valid.
    Invalid(Invalid),
}

/// Writes the line of a module that is refused, by the name of its function, as far as the sink takes it. It takes no memory.
pub fn report_module<E: Sink>(err: &mut E, name: &[u8], fault: ModuleFault)
    ensures { Says (E.written err.old) (E.written err.new) (E.faults err.old) (E.faults err.new)
        (module_line name.now fault) }
{
    let words = module_words(fault);
    report_words(err, b"module ", name, words.0, words.1);
}

/// Writes the line of bytes that spell no module, where they are of no function, as far as the sink takes it. It takes no memory.
pub fn report_decode<E: Sink>(err: &mut E, fault: DecodeError)
    ensures { Says (E.written err.old) (E.written err.new) (E.faults err.old) (E.faults err.new)
        (decode_line fault) }
{
    let words = decode_words(fault);
    report_words(err, b"module", b"", words.0, words.1);
}

/// Writes a line that begins so, has a name and says these words, and a number after them, if there is one.
fn report_words<E: Sink>(
    err: &mut E,
    begins: &'static [u8],
    name: &[u8],
    kind: &'static [u8],
    number: Option<u32>,
)
    ensures { Says (E.written err.old) (E.written err.new) (E.faults err.old) (E.faults err.new)
        (words_line begins.now name.now (numbered_text kind.now number)) }
{
    match number {
        Some(number) => {
            let mut digits = Buffer::new();
            let number = digits.format(number);
            say_pieces(err, &[begins, name, b": ", kind, number.as_bytes(), b"\n"]);
        }
        None => say_pieces(err, &[begins, name, b": ", kind, b"\n"]),
    }
}

/// What is wrong with a module, and the number that follows, if there is one.
fn module_words(fault: ModuleFault) -> (&'static [u8], Option<u32>)
    ensures { module_text fault ≡ numbered_text result.0.now result.1 }
{
    match fault {
        ModuleFault::Decode(fault) => decode_words(fault),
        ModuleFault::Invalid(fault) => invalid_words(fault),
    }
}

fn decode_words(fault: DecodeError) -> (&'static [u8], Option<u32>)
    ensures { decode_text fault ≡ numbered_text result.0.now result.1 }
{
    match fault {
        DecodeError::Malformed(at) => (b"malformed ", Some(at)),
        DecodeError::TooDeep(at) => (b"too-deep ", Some(at)),
        DecodeError::TooManyLocals(body) => (b"too-many-locals ", Some(body)),
        DecodeError::NoMemory => (b"out of memory", None),
    }
}

fn invalid_words(fault: Invalid) -> (&'static [u8], Option<u32>)
    ensures { invalid_text fault ≡ numbered_text result.0.now result.1 }
{
    match fault {
        Invalid::Float(FloatPlace::Types(i)) => (b"float types ", Some(i)),
        Invalid::Float(FloatPlace::Globals(i)) => (b"float globals ", Some(i)),
        Invalid::Float(FloatPlace::Bodies(i)) => (b"float body ", Some(i)),
        Invalid::Float(FloatPlace::Elements(i)) => (b"float elements ", Some(i)),
        Invalid::Float(FloatPlace::Data(i)) => (b"float data ", Some(i)),
        Invalid::Import(i) => (b"import ", Some(i)),
        Invalid::Structure(rule) => (b"structure ", Some(u32::from(rule))),
        Invalid::NoHandle => (b"no-handle", None),
        Invalid::Segment(SegmentPlace::Element(i)) => (b"segment element ", Some(i)),
        Invalid::Segment(SegmentPlace::Data(i)) => (b"segment data ", Some(i)),
        Invalid::IllTyped(body) => (b"ill-typed ", Some(body)),
        Invalid::NoMemory => (b"out of memory", None),
    }
}
