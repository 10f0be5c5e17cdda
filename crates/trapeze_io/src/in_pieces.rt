//! Texts in pieces.

ghost use Rattle.std.specs.Prelude.{OnOk, OnErr, []};
ghost use Rattle.std.specs.List.{flat_map};
ghost use Rattle.trapeze_io.specs.Appends.{AppendsAll, AppendsLess, Says};
ghost use Rattle.trapeze_io.specs.Causes.{HasCause};

use crate::streams::Sink;
use crate::whole::{WriteError, write_whole};

/// Writes pieces, one after the other. It takes no memory.
///
/// `Fault` comes only where the count of faults rose, and then a prefix of the pieces' bytes, and not all, was written.
pub fn write_pieces<S: Sink>(sink: &mut S, pieces: &[&[u8]]) -> Result<(), WriteError>
    ensures all { OnOk result
        (AppendsAll (flat_map (λ piece. piece.now) pieces.now) (S.written sink.old) (S.written sink.new)) }
    ensures part { OnErr result
        (AppendsLess [] (flat_map (λ piece. piece.now) pieces.now) (S.written sink.old) (S.written sink.new)) }
    ensures cause { HasCause (S.faults sink.old) (S.faults sink.new) result }
{
    'pieces: for piece in pieces {
        write_whole(sink, piece)?;
    }
    Ok(())
}

/// Writes pieces, one after the other, as far as the sink takes them. It takes no memory.
pub fn say_pieces<S: Sink>(sink: &mut S, pieces: &[&[u8]])
    ensures { Says (S.written sink.old) (S.written sink.new) (S.faults sink.old) (S.faults sink.new)
        (flat_map (λ piece. piece.now) pieces.now) }
{
    let _ = write_pieces(sink, pieces);
}
