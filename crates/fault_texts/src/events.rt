//! The line of a bad line of an event file.

ghost use Rattle.std.specs.Prelude.{◌≡◌};
ghost use Rattle.trapeze_io.specs.Appends.{Says};
ghost use Rattle.fault_texts.specs.EventTexts.{bad_line_text, line_fault_text};

use event_file::{LineError, LineFault};
use itoa::Buffer;
use trapeze_io::{Sink, say_pieces};

/// Writes the line of the first bad line of an event file, as far as the sink takes it. It takes no memory.
pub fn report_bad_line<E: Sink>(err: &mut E, error: LineError)
    ensures { Says (E.written err.old) (E.written err.new) (E.faults err.old) (E.faults err.new)
        (bad_line_text error) }
{
    let mut digits = Buffer::new();
    let number = digits.format(error.line);
    say_pieces(
        err,
        &[
            b"events line ",
            number.as_bytes(),
            b": ",
            line_fault_text(error.fault),
            b"\n",
        ],
    );
}

/// What is wrong with a line, in a word.
pub fn line_fault_text(fault: LineFault) -> &'static [u8]
    ensures { result.now ≡ line_fault_text fault }
{
    match fault {
        LineFault::LineTooLong => b"line-too-long",
        LineFault::Word => b"word",
        LineFault::Count => b"count",
        LineFault::UnknownLabel => b"unknown-label",
        LineFault::UnknownClient => b"unknown-client",
        LineFault::UnknownFunction => b"unknown-function",
        LineFault::BadId => b"bad-id",
        LineFault::BadHex => b"bad-hex",
        LineFault::TooBig => b"too-big",
        LineFault::BadNumber => b"bad-number",
    }
}
