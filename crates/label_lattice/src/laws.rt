//! Laws of the definitions.

ghost use Rattle.label_lattice.specs.Reach.{IsExactTest};
ghost use Rattle.label_lattice.specs.Laws.{IsExactFault, IsExactJoin, IsExactMeet};

/// The test of the order says what the lists of pairs say.
pub fn law_of_flows()
    ensures { IsExactTest }
{}

/// No fault is found exactly where names and pairs make a lattice.
pub fn law_of_faults()
    ensures { IsExactFault }
{}

/// The tests for a join and for a meet of two labels say what these are.
pub fn law_of_joins()
    ensures joins { IsExactJoin }
    ensures meets { IsExactMeet }
{}
