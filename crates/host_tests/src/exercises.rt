//! The first events of exercises, their policy and their modules.

use crate::shown::event_text;
use std::alloc::Global;
use std::test::Fail;
use trapeze_exercise::{built_in_modules, built_in_policy, generate};

/// The number of an exercise, the place of an event, and the event.
const EVENTS: &[(u64, u32, &str)] = &[
    // The label low, the client ann and the function spin, at place 0, 0 and 3 of their names; the id r0; the body x3039.
    (0, 0, "ask 0 0 3 7230 3039"),
    (0, 1, "turn 0"),
    (0, 2, "put 3 61 1aaf"),
    // Numbers count modulo a million: the first as 0, the others as 1, of which z is 52848 and w is 30833.
    (18_446_744_073_709_000_000, 0, "ask 0 0 3 7230 3039"),
    (1, 0, "turn 1"),
    (1_000_001, 0, "turn 1"),
];

/// Whether the event of the exercise at this place, below 20,000, is this one.
fn is_generated(alloc: Global, number: u64, place: u32, text: &str) -> Result<bool, Fail> {
    if place >= 20_000 {
        return Ok(false);
    }
    let event = generate(alloc, number, place)?;
    Ok(event_text(alloc, &event)?.as_str() == text)
}

#[test]
fn the_first_events_of_exercises(rt: HostRuntime) -> Result<(), Fail> {
    for (number, place, text) in EVENTS {
        assert!(rt; is_generated(rt.alloc(), *number, *place, text)?, "{text}");
    }
    Ok(())
}

#[test]
fn the_policy_and_the_modules_are_built(rt: HostRuntime) -> Result<(), Fail> {
    let policy = built_in_policy(rt.alloc())?;
    assert_eq!(rt; policy.lattice().count(), 4);
    assert_eq!(rt; policy.functions().len(), 6);
    assert_eq!(rt; policy.channels().count(), 1);
    assert_eq!(rt; policy.clients().len(), 3);
    let modules = built_in_modules(rt.alloc())?;
    assert_eq!(rt; modules.as_slice().len(), 6);
    Ok(())
}
