//! The rules of the host, as definitions, and what an observer can learn of a run, as laws. Each function here does nothing: its
//! contract is a law.
#![tactic(auto)]

mod examples;
mod laws;

pub use examples::{
    a_gate_releases_one_byte, a_gate_whose_source_is_not_reached, a_hidden_put_is_full,
    a_message_into_a_full_list_is_dropped, a_message_is_the_input_of_what_it_starts,
    a_message_serves_the_request_of_its_sender, a_message_vanishes, a_message_without_a_request,
    a_module_replies, a_raise_ends_the_turn, a_raise_into_a_full_list_is_dropped,
    a_raise_is_to_the_join, a_raise_keeps_the_thread_and_starts_at_no_units_used,
    a_release_is_played, a_reply_that_the_client_may_not_see_vanishes, a_reply_without_a_request,
    a_second_reply_vanishes, a_trap_gives_nothing_besides, absent_is_answered_by_minus_one,
    activations_take_turns, an_arrival_at_a_full_list_is_dropped, copies_answer_the_whole_size,
    destinations_are_tested_for_what_is_copied, facets_come_in_the_end, quantum_and_fuel,
    sources_are_tested_from_the_left, the_last_unit_of_fuel_may_end_it,
    the_latest_visible_facet_is_read, too_many_pages, writes_answer_whether_they_fit,
};
pub use laws::{
    hidden_events_show_releases, host_calls_are_granted_the_same, labels_are_ordered,
    more_items_add_lines, noninterference, noninterference_without_gates, numbers_rise_by_one,
    printed_and_visible_in_either_order, sameness_is_an_equivalence, steps_keep_states_regular,
    stints_go_by_runs, the_running_place_is_not_looked_at, visible_items_show_the_same,
};
