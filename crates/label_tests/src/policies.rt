//! Policies that are read, and what they answer.

use crate::asked::{Ask, answers};
use crate::policy::FOUR;
use std::test::Fail;

/// Functions, a channel and clients, in tables and out of byte order.
const TABLES: &str = "[functions]
twin = \"twin.wasm\"
spin = \"spin.wasm\"
store = \"store.wasm\"
hello = \"echo.wasm\"
look = \"look.wasm\"
lift = \"lift.wasm\"

[clients.sam]
clearance = \"top\"

[channels.mail]
label = \"top\"
function = \"hello\"

[clients.carol]
clearance = \"low\"

[clients.ann]
clearance = \"alice\"
";

/// The same, as dotted keys and inline tables.
const DOTTED: &str = "functions.twin = 'twin.wasm'
clients.sam.clearance = 'top'
functions.hello = 'echo.wasm'
functions.\"lift\" = 'lift.wasm'
channels.mail = { function = 'hello', label = 'top' }
clients.ann = { clearance = 'alice' }
functions.look = 'look.wasm'
functions.store = 'store.wasm'
functions.spin = 'spin.wasm'
clients.carol = { clearance = 'low' }
";

/// The usual limits.
const USUAL: &str = "10000 10000000 256 1024 100000 67108864";

static WHOLE: [(Ask, &str); 35] = [
    (Ask::Labels, "4"),
    (Ask::Find("low"), "0"),
    (Ask::Find("alice"), "1"),
    (Ask::Find("bob"), "2"),
    (Ask::Find("top"), "3"),
    (Ask::Flows(0, 0), "true"),
    (Ask::Flows(0, 1), "true"),
    (Ask::Flows(0, 2), "true"),
    (Ask::Flows(0, 3), "true"),
    (Ask::Flows(1, 0), "false"),
    (Ask::Flows(1, 1), "true"),
    (Ask::Flows(1, 2), "false"),
    (Ask::Flows(1, 3), "true"),
    (Ask::Flows(2, 0), "false"),
    (Ask::Flows(2, 1), "false"),
    (Ask::Flows(2, 2), "true"),
    (Ask::Flows(2, 3), "true"),
    (Ask::Flows(3, 0), "false"),
    (Ask::Flows(3, 1), "false"),
    (Ask::Flows(3, 2), "false"),
    (Ask::Flows(3, 3), "true"),
    (Ask::Functions, "6"),
    (Ask::Function(0), "hello echo.wasm"),
    (Ask::Function(1), "lift lift.wasm"),
    (Ask::Function(2), "look look.wasm"),
    (Ask::Function(3), "spin spin.wasm"),
    (Ask::Function(4), "store store.wasm"),
    (Ask::Function(5), "twin twin.wasm"),
    (Ask::Clients, "3"),
    (Ask::Client(0), "ann 1"),
    (Ask::Client(1), "carol 0"),
    (Ask::Client(2), "sam 3"),
    (Ask::Channels, "1"),
    (Ask::Deliver(0, "mail"), "starts 0 at 3"),
    (Ask::Deliver(3, "mail"), "starts 0 at 3"),
];

/// What is asked of the same policy, and its limits.
static BESIDE: [(Ask, &str); 5] = [
    (Ask::Deliver(0, "hello"), "unknown"),
    (Ask::Limits(0), USUAL),
    (Ask::Limits(1), USUAL),
    (Ask::Limits(2), USUAL),
    (Ask::Limits(3), USUAL),
];

#[test]
fn a_policy_is_read_whole_and_in_byte_order(rt: HostRuntime) -> Result<(), Fail> {
    let text = format!(in rt.alloc(); "{FOUR}{TABLES}")?;
    assert!(rt; answers(rt.alloc(), text.as_str(), &WHOLE)?);
    assert!(rt; answers(rt.alloc(), text.as_str(), &BESIDE)?);
    Ok(())
}

#[test]
fn dotted_keys_and_inline_tables_say_the_same(rt: HostRuntime) -> Result<(), Fail> {
    let text = format!(in rt.alloc(); "{FOUR}{DOTTED}")?;
    assert!(rt; answers(rt.alloc(), text.as_str(), &WHOLE)?);
    assert!(rt; answers(rt.alloc(), text.as_str(), &BESIDE)?);
    Ok(())
}

static LABELS: [(Ask, &str); 9] = [
    (Ask::Labels, "4"),
    (Ask::Name(2), "bob"),
    (Ask::Find("bob"), "2"),
    (Ask::Find("carol"), "none"),
    (Ask::Find("Bob"), "none"),
    (Ask::Flows(0, 3), "true"),
    (Ask::Flows(1, 2), "false"),
    (Ask::Join(1, 2), "3"),
    (Ask::Join(0, 2), "2"),
];

#[test]
fn labels_have_the_places_of_their_names_and_flow_and_join_upwards(
    rt: HostRuntime,
) -> Result<(), Fail> {
    assert!(rt; answers(rt.alloc(), FOUR, &LABELS)?);
    Ok(())
}

static LIMITS: [(Ask, &str); 4] = [
    (Ask::Limits(0), USUAL),
    (Ask::Limits(1), USUAL),
    (Ask::Limits(2), "1000000 10000000 256 1024 100000 0"),
    (Ask::Limits(3), "10000 10000000 256 1 100000 67108864"),
];

#[test]
fn limits_that_are_written_take_the_place_of_the_usual_ones(rt: HostRuntime) -> Result<(), Fail> {
    let rest = "limits.top.queue = 1\n[limits.bob]\nbytes = 0\nquantum = 1000000\n";
    let text = format!(in rt.alloc(); "{FOUR}{rest}")?;
    assert!(rt; answers(rt.alloc(), text.as_str(), &LIMITS)?);
    Ok(())
}

static EMPTY: [(Ask, &str); 8] = [
    (Ask::Functions, "0"),
    (Ask::Clients, "0"),
    (Ask::Channels, "0"),
    (Ask::Has(0, 0, 0), "false"),
    (Ask::Has(1, 0, 4), "false"),
    (Ask::Deliver(0, "up"), "unknown"),
    (Ask::Limits(0), USUAL),
    (Ask::Limits(3), USUAL),
];

#[test]
fn parts_that_are_not_written_are_empty(rt: HostRuntime) -> Result<(), Fail> {
    let empty = "limits = {}\nfunctions = {}\nchannels = {}\nclients = {}\ngates = {}";
    for rest in ["", empty, "[functions]"] {
        let text = format!(in rt.alloc(); "{FOUR}{rest}")?;
        assert!(rt; answers(rt.alloc(), text.as_str(), &EMPTY)?);
    }
    Ok(())
}

/// The ends of the ranges of limits, and the limits of the second label.
static ENDS: [(&str, &str); 12] = [
    ("quantum = 1", "1 10000000 256 1024 100000 67108864"),
    (
        "quantum = 1000000",
        "1000000 10000000 256 1024 100000 67108864",
    ),
    ("fuel = 1", "10000 1 256 1024 100000 67108864"),
    (
        "fuel = 1000000000",
        "10000 1000000000 256 1024 100000 67108864",
    ),
    ("pages = 0", "10000 10000000 0 1024 100000 67108864"),
    ("pages = 65536", "10000 10000000 65536 1024 100000 67108864"),
    ("queue = 1", "10000 10000000 256 1 100000 67108864"),
    ("queue = 65536", "10000 10000000 256 65536 100000 67108864"),
    ("facets = 0", "10000 10000000 256 1024 0 67108864"),
    (
        "facets = 1000000",
        "10000 10000000 256 1024 1000000 67108864",
    ),
    ("bytes = 0", "10000 10000000 256 1024 100000 0"),
    (
        "bytes = 1073741824",
        "10000 10000000 256 1024 100000 1073741824",
    ),
];

#[test]
fn a_limit_may_lie_at_either_end_of_its_range(rt: HostRuntime) -> Result<(), Fail> {
    for (rest, want) in &ENDS {
        let text = format!(in rt.alloc(); "{FOUR}[limits.alice]\n{rest}")?;
        assert!(rt; answers(rt.alloc(), text.as_str(), &[(Ask::Limits(1), *want)])?);
    }
    Ok(())
}

/// The last fields of a gate from alice to low, a label, a gate's name, what is released, and what passes.
static PASSES: [(&str, u8, &str, &str, &str); 12] = [
    ("filter = 'first'\ncount = 1", 1, "g", "hi", "h"),
    ("filter = 'first'\ncount = 0", 0, "g", "hi", ""),
    ("filter = 'first'\ncount = 0", 1, "g", "hi", ""),
    ("filter = 'first'", 1, "g", "hi", "hi"),
    ("filter = 'first'\ncount = 65536", 1, "g", "hi", "hi"),
    (
        "filter = 'length'\ncount = 1",
        1,
        "g",
        "hi",
        "\x02\x00\x00\x00",
    ),
    ("filter = 'all'\ncount = 1", 1, "g", "hi", "hi"),
    ("filter = 'all'", 0, "g", "", ""),
    ("filter = 'all'", 2, "g", "hi", "vanishes"),
    ("filter = 'all'", 3, "g", "hi", "vanishes"),
    ("filter = 'all'", 1, "store", "hi", "unknown"),
    ("filter = 'all'", 1, "gg", "hi", "unknown"),
];

/// The gate, but for its filter.
const GATE: &str = "[gates.g]\nsource = 'alice'\ntarget = 'low'\nfunction = 'store'\n";

#[test]
fn gates_let_through_what_their_filters_do(rt: HostRuntime) -> Result<(), Fail> {
    for (fields, from, name, body, passed) in &PASSES {
        let text = format!(in rt.alloc(); "{FOUR}{TABLES}{GATE}{fields}")?;
        let asked = [(Ask::Pass(*from, *name, *body), *passed)];
        assert!(rt; answers(rt.alloc(), text.as_str(), &asked)?);
    }
    Ok(())
}

static WAYS: [(Ask, &str); 5] = [
    (Ask::Has(1, 0, 4), "true"),
    (Ask::Has(0, 1, 4), "false"),
    (Ask::Has(1, 1, 4), "false"),
    (Ask::Has(1, 0, 3), "false"),
    (Ask::Has(1, 0, 5), "false"),
];

#[test]
fn a_gate_leads_from_its_source_to_its_target(rt: HostRuntime) -> Result<(), Fail> {
    let text = format!(in rt.alloc(); "{FOUR}{TABLES}{GATE}filter = 'all'")?;
    assert!(rt; answers(rt.alloc(), text.as_str(), &WAYS)?);
    Ok(())
}
