//! What the definitions of a store have in common.

ghost use Rattle.std.specs.Prelude.{◌≡◌, ℕ, Bool, List, T};
ghost use Rattle.std.specs.FinMap.{find, is_sorted};
ghost use Rattle.facet_list.specs.Store.{Write, Slot, Facet, slot_cmp, read, last_at, facets};
ghost use Rattle.facet_list.specs.Rows.{Rows, row_of, rows_of, read_row, facet_at, facets_in};
ghost use Rattle.facet_list.specs.Room.{fits_in, fits};
ghost use Rattle.label_limits.specs.declared.limits.Limits.{Limits as LabelLimits};
ghost use Rattle.facet_list.specs.Puts.{AreNoninterferingPuts};
ghost use Rattle.facet_list.specs.Views.{AreNoninterfering, AreNoninterferingFrom};

/// What the rows of writes tell a reader is what the writes tell him.
pub fn rows_tell_reads()
    ensures { (flows : ℕ → ℕ → Bool) (c : ℕ) (key : List ℕ) (w : List Write) →
        read_row flows c (row_of (rows_of w) key) ≡ read flows c key w }
{}

/// The facets of rows are in order, each once, and the list of them is the only such list.
pub fn facets_of_rows()
    ensures sorted { (rows : Rows) → T (is_sorted slot_cmp (facets_in rows)) }
    ensures found { (rows : Rows) (s : Slot) → find slot_cmp s (facets_in rows) ≡ facet_at rows s }
    ensures whole { (rows : Rows) (fs : List Facet) → T (is_sorted slot_cmp fs)
        → ((s : Slot) → find slot_cmp s fs ≡ facet_at rows s) → fs ≡ facets_in rows }
{}

/// For each key and label the facet that the rows of writes have is the last write of the key at that label, and their facets are
/// those of the writes.
pub fn rows_tell_facets()
    ensures last { (w : List Write) (s : Slot) → facet_at (rows_of w) s ≡ last_at s w }
    ensures facets { (w : List Write) → facets_in (rows_of w) ≡ facets w }
{}

/// Whether a write fits after other writes depends on their rows alone.
pub fn rows_tell_fits()
    ensures { (limits : List LabelLimits) (w : List Write) (x : Write) → fits_in limits (rows_of w) x ≡ fits limits w x }
{}

/// What an observer sees of the facets is what the writes that he sees leave.
pub fn noninterference_of_facets()
    ensures whole { AreNoninterfering }
    ensures from { AreNoninterferingFrom }
{}

/// What an observer sees of puts under limits is what the puts that he sees make.
pub fn noninterference_of_puts()
    ensures { (limits : List LabelLimits) (flows : ℕ → ℕ → Bool) (o : ℕ) (w puts : List Write) →
        AreNoninterferingPuts limits flows o w puts }
{}
