//! Worked examples of the rules, under a small policy and with guests that follow a script. Low flows to alice and to bob, and these to
//! top; the channel `c` and the gate `g` start the second function at low; ann, the client, is cleared for alice.

ghost use Rattle.std.specs.Prelude.{◌≡◌, ℕ, List, [], ◌∷◌, Some, None, codes};
ghost use Rattle.wasm_ast.specs.declared.hosts.HostName.TheVariants as host;
ghost use Rattle.trapeze_lines.specs.declared.line.Kind.TheVariants as kind;
ghost use Rattle.trapeze_lines.specs.declared.outcome.Outcome.TheVariants as outcome;
ghost use Rattle.trapeze_lines.specs.declared.outcome.Cause.TheVariants as cause;
ghost use Rattle.trapeze_lines.specs.Lines.{line_at};
ghost use Rattle.host_rules.specs.States.{Happens, Out};
ghost use Rattle.host_rules.specs.Views.{visible};
ghost use Rattle.host_rules.specs.Examples.{Works, Spins, Asks, village, roomy, one_byte, low};
ghost use Rattle.host_rules.specs.Examples.{alice, bob, top, put_at, clear_at, ask_at, turn_at};
ghost use Rattle.host_rules.specs.Examples.{read_acts, raise_acts, release_acts, send_acts, reply_acts, told_of, trap_of, low_view};
ghost use Rattle.host_rules.specs.Nods.{told_of_nods};
ghost use Rattle.host_rules.specs.Examples.{put_key, ask_second_at, climb_acts, work_acts, told_of_items, whole_of};
ghost use Rattle.host_rules.specs.Examples.{wrote, started, let_in_at, turned, unasked, sent, answered, replied};
ghost use Rattle.host_rules.specs.Examples.{started_second, turned_second, facet_of};

/// A read gives the latest visible facet: bob's later put is not visible at alice, and low's is.
pub fn the_latest_visible_facet_is_read()
    ensures { told_of roomy read_acts []
        (put_at low (codes "1") ∷ put_at alice (codes "2") ∷ put_at low (codes "3") ∷ put_at bob (codes "4")
        ∷ ask_at alice ∷ turn_at alice ∷ [])
        ≡ wrote low (codes "1") ∷ wrote alice (codes "2") ∷ wrote low (codes "3") ∷ wrote bob (codes "4") ∷ started alice alice
        ∷ line_at alice (kind.Read (codes "g") (Some (codes "3"))) ∷ answered alice (codes "3") ∷ replied (codes "3")
        ∷ turned alice 1 outcome.Ended ∷ [] }
{}

/// A read of absent, which was put later than a value, is answered by -1, which is too long for a reply.
pub fn absent_is_answered_by_minus_one()
    ensures { told_of roomy read_acts [] (put_at low (codes "1") ∷ clear_at alice ∷ ask_at alice ∷ turn_at alice ∷ [])
        ≡ wrote low (codes "1") ∷ line_at alice (kind.Write (codes "g") None) ∷ started alice alice
        ∷ line_at alice (kind.Read (codes "g") None) ∷ turned alice 1 (outcome.Trapped cause.Size) ∷ [] }
{}

/// A call that traps gives no line: a message into a channel that is not there, a read whose destination is not inside.
pub fn a_trap_gives_nothing_besides()
    ensures unknown { told_of roomy (Asks host.Send (7 ∷ 2 ∷ 7 ∷ 2 ∷ []) ∷ []) [] (ask_at low ∷ turn_at low ∷ [])
        ≡ started low low ∷ turned low 1 (outcome.Trapped cause.Unknown) ∷ [] }
    ensures outside { told_of roomy (Asks host.Read (6 ∷ 1 ∷ 8 ∷ 2 ∷ []) ∷ []) [] (put_at low (codes "22") ∷ ask_at low ∷ turn_at low ∷ [])
        ≡ wrote low (codes "22") ∷ started low low ∷ turned low 1 (outcome.Trapped cause.Memory) ∷ [] }
{}

/// A message into a channel starts its function for the request of the sender.
pub fn a_message_serves_the_request_of_its_sender()
    ensures { told_of roomy send_acts reply_acts (ask_at low ∷ turn_at low ∷ turn_at low ∷ [])
        ≡ started low low ∷ sent low ∷ line_at low (kind.Start (record { number = low }) (codes "g") (Some (codes "r")))
        ∷ turned low 1 outcome.Ended ∷ answered low (codes "HI") ∷ replied (codes "HI")
        ∷ line_at low (kind.Turn 2 (codes "g") (Some (codes "r")) outcome.Ended) ∷ [] }
{}

/// A message is the input of what it starts, which copies it and replies with it.
pub fn a_message_is_the_input_of_what_it_starts()
    ensures { told_of roomy (Asks host.Send (0 ∷ 1 ∷ 1 ∷ 5 ∷ []) ∷ [])
        (Asks host.Input (4 ∷ 5 ∷ []) ∷ Asks host.Reply (4 ∷ []) ∷ []) (ask_at low ∷ turn_at low ∷ turn_at low ∷ [])
        ≡ started low low ∷ line_at low (kind.Send (codes "c") (codes "alice")) ∷ started_second low low ∷ turned low 1 outcome.Ended
        ∷ answered low (codes "alice") ∷ replied (codes "alice") ∷ turned_second low 2 outcome.Ended ∷ [] }
{}

/// A message into a channel of a label that the sender's does not flow to vanishes, and the sender learns nothing.
pub fn a_message_vanishes()
    ensures { told_of roomy send_acts [] (ask_at alice ∷ turn_at alice ∷ turn_at low ∷ [])
        ≡ started alice alice ∷ sent alice ∷ turned alice 1 outcome.Ended ∷ line_at low (kind.Idle 1) ∷ [] }
{}

/// An arrival at a full list is given up.
pub fn an_arrival_at_a_full_list_is_dropped()
    ensures { told_of (record roomy { queue = 1 }) [] [] (ask_at low ∷ ask_at low ∷ [])
        ≡ started low low ∷ line_at low (kind.Dropped (codes "f") (Some (codes "r"))) ∷ [] }
{}

/// Of two replies to one request the second vanishes.
pub fn a_second_reply_vanishes()
    ensures { told_of roomy (Asks host.Reply (7 ∷ 2 ∷ []) ∷ Asks host.Reply (7 ∷ 2 ∷ []) ∷ []) [] (ask_at low ∷ turn_at low ∷ [])
        ≡ started low low ∷ answered low (codes "HI") ∷ replied (codes "HI") ∷ answered low (codes "HI") ∷ turned low 1 outcome.Ended ∷ [] }
{}

/// A reply from a label that does not flow to the client's clearance vanishes.
pub fn a_reply_that_the_client_may_not_see_vanishes()
    ensures { told_of roomy reply_acts [] (ask_at bob ∷ turn_at bob ∷ [])
        ≡ started bob bob ∷ answered bob (codes "HI") ∷ turned bob 1 outcome.Ended ∷ [] }
{}

/// A raise ends the turn, and the activation arrives at its new label from the old one, where it goes on; a raise to its own label
/// changes nothing.
pub fn a_raise_ends_the_turn()
    ensures higher { told_of roomy raise_acts [] (ask_at low ∷ turn_at low ∷ turn_at alice ∷ [])
        ≡ started low low ∷ turned low 1 outcome.Raised ∷ started alice low ∷ turned alice 1 outcome.Ended ∷ [] }
    ensures same { told_of roomy raise_acts [] (ask_at alice ∷ turn_at alice ∷ [])
        ≡ started alice alice ∷ turned alice 1 outcome.Ended ∷ [] }
{}

/// A raised activation keeps its thread and has used nothing at its new label: raised in the last of its three units of fuel, it replies
/// and ends there within three more. It neither works again nor is out of fuel.
pub fn a_raise_keeps_the_thread_and_starts_at_no_units_used()
    ensures { told_of (record roomy { fuel = 3 }) climb_acts [] (ask_at low ∷ turn_at low ∷ turn_at alice ∷ [])
        ≡ started low low ∷ turned low 1 outcome.Raised ∷ started alice low ∷ answered alice (codes "HI") ∷ replied (codes "HI")
        ∷ turned alice 1 outcome.Ended ∷ [] }
{}

/// An activation that raises itself into a full list is given up, and is in neither list.
pub fn a_raise_into_a_full_list_is_dropped()
    ensures { told_of (record roomy { queue = 1 }) raise_acts []
        (ask_at alice ∷ ask_at low ∷ turn_at low ∷ turn_at low ∷ turn_at alice ∷ turn_at alice ∷ [])
        ≡ started alice alice ∷ started low low ∷ turned low 1 outcome.Raised
        ∷ line_at alice (kind.Dropped (codes "f") (Some (codes "r"))) ∷ line_at low (kind.Idle 2) ∷ turned alice 1 outcome.Ended
        ∷ line_at alice (kind.Idle 2) ∷ [] }
{}

/// A put that does not fit is told at its label, and whoever does not see the label sees nothing of it.
pub fn a_hidden_put_is_full()
    ensures told { told_of (record roomy { facets = 0 }) [] [] (put_at alice (codes "1") ∷ [])
        ≡ line_at alice (kind.Full (codes "g")) ∷ [] }
    ensures seen { visible (village roomy) low (told_of (record roomy { facets = 0 }) [] [] (put_at alice (codes "1") ∷ [])) ≡ [] }
{}

/// An endless loop waits after the label's quantum and is trapped after its fuel.
pub fn quantum_and_fuel()
    ensures { told_of (record roomy { quantum = 2; fuel = 3 }) (Spins ∷ []) [] (ask_at low ∷ turn_at low ∷ turn_at low ∷ turn_at low ∷ [])
        ≡ started low low ∷ turned low 1 outcome.Waits ∷ turned low 2 (outcome.Trapped cause.Fuel) ∷ line_at low (kind.Idle 3) ∷ [] }
{}

/// An activation that is done in the last unit of its fuel is ended; with one unit of fuel less it is trapped.
pub fn the_last_unit_of_fuel_may_end_it()
    ensures ended { told_of (record roomy { fuel = 3 }) work_acts [] (ask_at low ∷ turn_at low ∷ [])
        ≡ started low low ∷ turned low 1 outcome.Ended ∷ [] }
    ensures trapped { told_of (record roomy { fuel = 2 }) work_acts [] (ask_at low ∷ turn_at low ∷ [])
        ≡ started low low ∷ turned low 1 (outcome.Trapped cause.Fuel) ∷ [] }
{}

/// An activation whose units are used goes to the back of its list: two of them take turns.
pub fn activations_take_turns()
    ensures { told_of (record roomy { quantum = 2 }) work_acts work_acts
        (ask_at low ∷ ask_second_at low ∷ turn_at low ∷ turn_at low ∷ turn_at low ∷ turn_at low ∷ [])
        ≡ started low low ∷ started_second low low ∷ turned low 1 outcome.Waits ∷ turned_second low 2 outcome.Waits
        ∷ turned low 3 outcome.Ended ∷ turned_second low 4 outcome.Ended ∷ [] }
{}

/// A function whose memory has more pages than the label allows is trapped at its first turn.
pub fn too_many_pages()
    ensures { told_of (record roomy { pages = 1 }) (Works ∷ []) [] (ask_at low ∷ turn_at low ∷ [])
        ≡ started low low ∷ turned low 1 (outcome.Trapped cause.Pages) ∷ [] }
{}

/// A gate releases one byte: an activation without a request arrives from its source, and has that byte as its input. The view of low
/// has the release in place of alice's events.
pub fn a_gate_releases_one_byte()
    ensures told { told_of roomy release_acts (Asks host.Input (7 ∷ 2 ∷ []) ∷ Asks host.Write (6 ∷ 1 ∷ 7 ∷ []) ∷ [])
        (ask_at alice ∷ turn_at alice ∷ turn_at low ∷ [])
        ≡ started alice alice ∷ let_in_at low alice ∷ turned alice 1 outcome.Ended ∷ wrote low (codes "H")
        ∷ unasked low 1 outcome.Ended ∷ [] }
    ensures seen { low_view release_acts (ask_at alice ∷ turn_at alice ∷ turn_at low ∷ [])
        ≡ Out one_byte (codes "H") ∷ Happens (turn_at low) ∷ [] }
{}

/// A release from a label that does not flow to the gate's source vanishes, and the view of low has nothing of it.
pub fn a_gate_whose_source_is_not_reached()
    ensures told { told_of roomy release_acts [] (ask_at bob ∷ turn_at bob ∷ turn_at low ∷ [])
        ≡ started bob bob ∷ turned bob 1 outcome.Ended ∷ line_at low (kind.Idle 1) ∷ [] }
    ensures seen { low_view release_acts (ask_at bob ∷ turn_at bob ∷ turn_at low ∷ []) ≡ Happens (turn_at low) ∷ [] }
{}

/// A release that is played lets its bytes in, which are filtered already: what low sees of the run that released them is what is told
/// of its view.
pub fn a_release_is_played()
    ensures { told_of_items [] (Asks host.Input (7 ∷ 2 ∷ []) ∷ Asks host.Write (6 ∷ 1 ∷ 7 ∷ []) ∷ [])
        (Out one_byte (codes "H") ∷ Happens (turn_at low) ∷ [])
        ≡ let_in_at low alice ∷ wrote low (codes "H") ∷ unasked low 1 outcome.Ended ∷ [] }
{}

/// A message of an activation without a request starts one without a request.
pub fn a_message_without_a_request()
    ensures { told_of_items [] send_acts (Out one_byte (codes "H") ∷ Happens (turn_at low) ∷ [])
        ≡ let_in_at low alice ∷ sent low ∷ let_in_at low low ∷ unasked low 1 outcome.Ended ∷ [] }
{}

/// A reply of an activation without a request does nothing but test its range.
pub fn a_reply_without_a_request()
    ensures { told_of roomy release_acts reply_acts (ask_at alice ∷ turn_at alice ∷ turn_at low ∷ [])
        ≡ started alice alice ∷ let_in_at low alice ∷ turned alice 1 outcome.Ended ∷ unasked low 1 outcome.Ended ∷ [] }
{}

/// A message into a full list is dropped, and the sender, which counts as a member of its list, goes on.
pub fn a_message_into_a_full_list_is_dropped()
    ensures { told_of (record roomy { queue = 1 }) send_acts [] (ask_at low ∷ turn_at low ∷ [])
        ≡ started low low ∷ sent low ∷ line_at low (kind.Dropped (codes "g") (Some (codes "r"))) ∷ turned low 1 outcome.Ended ∷ [] }
{}

/// A raise from bob to alice is to their join.
pub fn a_raise_is_to_the_join()
    ensures { told_of roomy raise_acts [] (ask_at bob ∷ turn_at bob ∷ turn_at top ∷ [])
        ≡ started bob bob ∷ turned bob 1 outcome.Raised ∷ started top bob ∷ turned top 1 outcome.Ended ∷ [] }
{}

/// The sources of a call are tested from the left, each by its size and then its bounds, and then its name.
pub fn sources_are_tested_from_the_left()
    ensures size { trap_of (Asks host.Send (99 ∷ 65 ∷ 99 ∷ 1 ∷ [])) ≡ outcome.Trapped cause.Size }
    ensures bounds { trap_of (Asks host.Send (99 ∷ 64 ∷ 0 ∷ 65537 ∷ [])) ≡ outcome.Trapped cause.Memory }
    ensures second { trap_of (Asks host.Send (7 ∷ 2 ∷ 0 ∷ 65537 ∷ [])) ≡ outcome.Trapped cause.Size }
    ensures name { trap_of (Asks host.Send (7 ∷ 2 ∷ 7 ∷ 2 ∷ [])) ≡ outcome.Trapped cause.Unknown }
    ensures label { trap_of (Asks host.Raise (7 ∷ 2 ∷ [])) ≡ outcome.Trapped cause.Unknown }
    ensures gate { trap_of (Asks host.Release (7 ∷ 2 ∷ 7 ∷ 2 ∷ [])) ≡ outcome.Trapped cause.Unknown }
    ensures key { trap_of (Asks host.Delete (0 ∷ 1025 ∷ [])) ≡ outcome.Trapped cause.Size }
    ensures end { trap_of (Asks host.Reply (9 ∷ 0 ∷ [])) ≡ outcome.Ended }
    ensures past { trap_of (Asks host.Reply (10 ∷ 0 ∷ [])) ≡ outcome.Trapped cause.Memory }
{}

/// A destination is tested as far as bytes are really copied: one byte of two fits where the second would not, and no byte fits at
/// the end of the memory but not past it.
pub fn destinations_are_tested_for_what_is_copied()
    ensures one { trap_of (Asks host.Input (8 ∷ 1 ∷ [])) ≡ outcome.Ended }
    ensures two { trap_of (Asks host.Input (8 ∷ 2 ∷ [])) ≡ outcome.Trapped cause.Memory }
    ensures none { trap_of (Asks host.Input (9 ∷ 0 ∷ [])) ≡ outcome.Ended }
    ensures past { trap_of (Asks host.Input (10 ∷ 0 ∷ [])) ≡ outcome.Trapped cause.Memory }
{}

/// The input and the name of the label are copied as far as there is room, and the answer is how long they are.
pub fn copies_answer_the_whole_size()
    ensures input { told_of roomy (Asks host.Input (7 ∷ 1 ∷ []) ∷ Asks host.Reply (7 ∷ []) ∷ []) [] (ask_at low ∷ turn_at low ∷ [])
        ≡ started low low ∷ answered low (codes "iI") ∷ replied (codes "iI") ∷ turned low 1 outcome.Ended ∷ [] }
    ensures label { told_of roomy (Asks host.OwnLabel (4 ∷ 5 ∷ []) ∷ Asks host.Reply (4 ∷ []) ∷ []) [] (ask_at alice ∷ turn_at alice ∷ [])
        ≡ started alice alice ∷ answered alice (codes "alice") ∷ replied (codes "alice") ∷ turned alice 1 outcome.Ended ∷ [] }
{}

/// A write that does not fit is answered by 1, and a write of absent that fits by 0.
pub fn writes_answer_whether_they_fit()
    ensures full { told_of (record roomy { facets = 0 })
        (Asks host.Write (6 ∷ 1 ∷ 7 ∷ 2 ∷ []) ∷ Asks host.Reply (7 ∷ []) ∷ []) [] (ask_at low ∷ turn_at low ∷ [])
        ≡ started low low ∷ line_at low (kind.Full (codes "g")) ∷ answered low (codes "H") ∷ replied (codes "H")
        ∷ turned low 1 outcome.Ended ∷ [] }
    ensures fits { told_of roomy (Asks host.Delete (6 ∷ 1 ∷ []) ∷ Asks host.Reply (7 ∷ []) ∷ []) [] (ask_at low ∷ turn_at low ∷ [])
        ≡ started low low ∷ line_at low (kind.Write (codes "g") None) ∷ answered low [] ∷ replied [] ∷ turned low 1 outcome.Ended ∷ [] }
{}

/// The lines of the events come first, and then those of the live facets, by key in byte order and then by label, absent ones among them.
pub fn facets_come_in_the_end()
    ensures { whole_of reply_acts (clear_at bob ∷ put_at alice (codes "1") ∷ put_at low (codes "2") ∷ put_key low (codes "c") (codes "3")
        ∷ ask_at low ∷ turn_at low ∷ put_at low (codes "4") ∷ [])
        ≡ line_at bob (kind.Write (codes "g") None) ∷ wrote alice (codes "1") ∷ wrote low (codes "2")
        ∷ line_at low (kind.Write (codes "c") (Some (codes "3"))) ∷ started low low ∷ answered low (codes "HI") ∷ replied (codes "HI")
        ∷ turned low 1 outcome.Ended ∷ wrote low (codes "4")
        ∷ facet_of low (codes "c") (Some (codes "3")) ∷ facet_of low (codes "g") (Some (codes "4"))
        ∷ facet_of alice (codes "g") (Some (codes "1")) ∷ facet_of bob (codes "g") None ∷ [] }
{}

/// A module of WebAssembly that replies with nothing: four units, the third of which asks the host.
pub fn a_module_replies()
    ensures { told_of_nods (ask_at low ∷ turn_at low ∷ [])
        ≡ started low low ∷ answered low [] ∷ replied [] ∷ turned low 1 outcome.Ended ∷ [] }
{}
