//! What a line adds to the rows and to the counts of turns.

ghost use Rattle.std.specs.Prelude.{◌≡◌, ◌<◌, ◌^◌, ◌++◌, ◌∷◌, [], List, length, OnOk, OnErr};
ghost use Rattle.facet_list.specs.Rows.{AreBelow};
ghost use Rattle.facet_rows.specs.Rows.{rows_in};
ghost use Rattle.trapeze_lines.specs.declared.line.Line.{Line as Told};
ghost use Rattle.flow_check.specs.Kept.{Tells};

use crate::compare::value_of;
use crate::turns::count_turn;
use facet_rows::FacetRows;
use trapeze_io::NoMemory;
use trapeze_lines::{Kind, Line};

/// One line more: a write is put into the rows, and a turn is counted. A refusal changes nothing.
pub(crate) fn note(rows: &mut FacetRows, turns: &mut Vec<u64>, line: &Line) -> Result<(), NoMemory>
    requires at { line.now.label.number < length turns.old.items }
    ensures counted { length turns.new.items ≡ length turns.old.items }
    ensures below { AreBelow (length turns.old.items) (rows_in rows.old) → AreBelow (length turns.old.items) (rows_in rows.new) }
    ensures ok { OnOk result ((lines : List Told) → length lines < 2 ^ 63 →
        Tells (length turns.old.items) lines (rows_in rows.old) turns.old.items →
        Tells (length turns.old.items) (lines ++ line.now ∷ []) (rows_in rows.new) turns.new.items) }
    ensures err { OnErr result ((rows_in rows.new ≡ rows_in rows.old) × (turns.new.items ≡ turns.old.items)) }
{
    match &line.kind {
        Kind::Write { key, value } => {
            rows.write(line.label, key.as_slice(), value_of(value))?;
        }
        Kind::Turn { .. } => count_turn(turns, line.label),
        Kind::Idle { .. } => count_turn(turns, line.label),
        Kind::Reply { .. } => {}
        Kind::Dropped { .. } => {}
        Kind::Full { .. } => {}
        Kind::Facet { .. } => {}
        Kind::Read { .. } => {}
        Kind::Send { .. } => {}
        Kind::Answer { .. } => {}
        Kind::Start { .. } => {}
    }
    Ok(())
}
