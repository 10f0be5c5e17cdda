//! The shop of twelve labels.

use super::calls::{Plan, Row, SOUND, viewed};
use std::alloc::Global;
use std::test::Fail;

/// The shop: the public, ten users above it, and the shop above them, each with a client.
const SHOP: &str = "\
labels = [
    'public', 'alice', 'bob', 'carl', 'dora', 'eve',
    'fred', 'gina', 'hugo', 'iris', 'jack', 'shop',
]
flows = [
    ['public', 'alice'], ['alice', 'shop'], ['public', 'bob'], ['bob', 'shop'],
    ['public', 'carl'], ['carl', 'shop'], ['public', 'dora'], ['dora', 'shop'],
    ['public', 'eve'], ['eve', 'shop'], ['public', 'fred'], ['fred', 'shop'],
    ['public', 'gina'], ['gina', 'shop'], ['public', 'hugo'], ['hugo', 'shop'],
    ['public', 'iris'], ['iris', 'shop'], ['public', 'jack'], ['jack', 'shop'],
]

[functions]
hello = 'echo.wasm'
lift = 'lift.wasm'
look = 'look.wasm'
store = 'store.wasm'
twin = 'twin.wasm'

[channels]
mail = { label = 'shop', function = 'hello' }
note = { label = 'alice', function = 'store' }
post = { label = 'public', function = 'hello' }

[clients]
public = { clearance = 'public' }
alice = { clearance = 'alice' }
bob = { clearance = 'bob' }
carl = { clearance = 'carl' }
dora = { clearance = 'dora' }
eve = { clearance = 'eve' }
fred = { clearance = 'fred' }
gina = { clearance = 'gina' }
hugo = { clearance = 'hugo' }
iris = { clearance = 'iris' }
jack = { clearance = 'jack' }
shop = { clearance = 'shop' }
";

/// The labels by number.
const LABELS: [&str; 12] = [
    "public", "alice", "bob", "carl", "dora", "eve", "fred", "gina", "hugo", "iris", "jack", "shop",
];

/// The functions by number.
const FUNCTIONS: [&str; 5] = ["hello", "lift", "look", "store", "twin"];

/// 200 asks, in which the body of bob's may be another, and 900 turns, by the labels in a circle.
fn shop_events(alloc: Global, other: bool) -> Result<String, Fail> {
    let mut text = String::new(alloc);
    for number in 0_usize..200 {
        let (label, function) = (LABELS[number % 12], FUNCTIONS[number % 5]);
        let body = if other && label == "bob" { 255 } else { number };
        let line = format!(in alloc; "ask {label} {label} {function} r{number} x{body:02x}\n")?;
        text.push_str(line.as_str())?;
    }
    for number in 0_usize..900 {
        text.push_str("turn ")?;
        text.push_str(LABELS[number % 12])?;
        text.push_str("\n")?;
    }
    Ok(text)
}

/// What alice sees of the shop where the files are read so.
fn seen_by_alice(alloc: Global, other: bool, plan: Plan) -> Result<Vec<u8>, Fail> {
    let events = shop_events(alloc, other)?;
    let row = Row {
        words: "view|p.toml|e.txt|alice",
        policy: (SHOP, ""),
        events: events.as_str(),
        more: ("more", b""),
        code: 0,
        text: "",
        error: "",
    };
    viewed(alloc, &row, plan)
}

/// How alice's view begins.
const BEGINS: &str = "reply public public r0 x00\nturn public 1 hello r0 ended\n\
    reply alice alice r1 x01\nturn alice 1 lift r1 ended\n";

#[test]
fn alice_sees_the_same_whatever_bob_asks(rt: HostRuntime) -> Result<(), Fail> {
    let first = seen_by_alice(rt.alloc(), false, SOUND)?;
    assert!(rt; first.as_slice().starts_with(BEGINS.as_bytes()));
    for other in [false, true] {
        // By reads of one byte too.
        let again = seen_by_alice(rt.alloc(), other, (0, 1))?;
        assert!(rt; again.as_slice() == first.as_slice());
    }
    Ok(())
}
