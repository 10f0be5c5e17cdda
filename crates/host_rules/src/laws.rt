//! Laws of the rules, for every policy whose labels are ordered, every guest over the engine's threads, and every observer.

ghost use Rattle.std.specs.Prelude.{ℕ};
ghost use Rattle.wasm_semantics.specs.Threads.{Thread};
ghost use Rattle.host_rules.specs.Guests.{Guest};
ghost use Rattle.host_rules.specs.Rules.{Rules, IsOrdered, HasNoGates};
ghost use Rattle.host_rules.specs.Policies.{AreOrdered};
ghost use Rattle.host_rules.specs.Laws.{HidesEvents, DoesTheSame, HidesEventsWhole, GrantsTheSame};
ghost use Rattle.host_rules.specs.Laws.{KeepsRegular, RaisesByOne, TracesGrow, KeepsInEitherOrder, IsEquivalence};
ghost use Rattle.host_rules.specs.Laws.{IsNoninterfering, IsNoninterferingAlone, IsWithoutReleases};
ghost use Rattle.host_rules.specs.Bridges.{GoesByRuns, IsIndifferent};

/// The labels of a policy are ordered, where its table of the order is sound, as each lattice that was built has it.
pub fn labels_are_ordered()
    ensures { AreOrdered }
{}

/// The visible lines of a hidden event are those of playing its visible releases, and the states after both are the same to
/// the observer.
pub fn hidden_events_show_releases()
    ensures { (P : Rules) (M : Guest Thread) → IsOrdered P → HidesEvents P M }
{}

/// A visible event or release gives the same visible lines from states that are the same to the observer, and they are the same
/// after it.
pub fn visible_items_show_the_same()
    ensures { (P : Rules) (M : Guest Thread) → IsOrdered P → DoesTheSame P M }
{}

/// A host call at a visible label has the same answer, effect and lines over stores that are the same to the observer.
pub fn host_calls_are_granted_the_same()
    ensures { (P : Rules) (M : Guest Thread) → IsOrdered P → GrantsTheSame P M }
{}

/// Being the same to an observer is an equivalence of states.
pub fn sameness_is_an_equivalence()
    ensures { (P : Rules) (o : ℕ) → IsEquivalence Thread P o }
{}

/// The start is regular, and every step keeps a state regular.
pub fn steps_keep_states_regular()
    ensures { (P : Rules) (M : Guest Thread) → IsOrdered P → KeepsRegular P M }
{}

/// A step raises no turn or request number by more than one, and lowers none.
pub fn numbers_rise_by_one()
    ensures { (P : Rules) (M : Guest Thread) → RaisesByOne P M }
{}

/// The lines of a list of items are a prefix of the lines of a longer one.
pub fn more_items_add_lines()
    ensures { (P : Rules) (M : Guest Thread) → TracesGrow P M }
{}

/// Of the lines that a run prints the visible ones are those that it prints of the visible ones.
pub fn printed_and_visible_in_either_order()
    ensures { KeepsInEitherOrder }
{}

/// Noninterference: what an observer sees of a run, from any store and for any events, is what the rules give, from the writes that
/// he sees, for the events that he sees and, in place of each other event, its releases that he sees.
pub fn noninterference()
    ensures { (P : Rules) (M : Guest Thread) → IsOrdered P → IsNoninterfering P M }
{}

/// Noninterference without gates: where the policy has no gate, nothing is released, a hidden event shows nothing, and what an observer
/// sees of a run is what the rules give for the events that he sees alone.
pub fn noninterference_without_gates()
    ensures alone { (P : Rules) (M : Guest Thread) → IsOrdered P → HasNoGates P → IsNoninterferingAlone P M }
    ensures hidden { (P : Rules) (M : Guest Thread) → IsOrdered P → HasNoGates P → HidesEventsWhole P M }
    ensures nothing { (P : Rules) (M : Guest Thread) → HasNoGates P → IsWithoutReleases P M }
{}

/// A stint goes by runs of the engine: up to a host call, then the call, and then a stint of the units that are left.
pub fn stints_go_by_runs()
    ensures { GoesByRuns }
{}

/// A turn is the same whatever stands in the place of the running activation.
pub fn the_running_place_is_not_looked_at()
    ensures { (P : Rules) (M : Guest Thread) → IsIndifferent P M }
{}
