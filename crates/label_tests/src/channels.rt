//! Messages into channels.

use crate::asked::{Ask, answers};
use crate::policy::FOUR;
use label_lattice::Label;
use labelled_channel::{Channels, Delivery};
use policy_toml::read_policy;
use std::test::Fail;
use trapeze_io::Name;

/// Functions whose byte order is not that of their numbers, and channels into them.
const ROWS: &str = "functions = { f2 = 'a', f10 = 'b', 'f.1' = 'c', f-1 = 'd', f_1 = 'e' }
[channels]
last = { label = 'low', function = 'f_1' }
first = { label = 'alice', function = 'f-1' }
a2 = { label = 'bob', function = 'f2' }
a10 = { label = 'low', function = 'f10' }
up = { label = 'top', function = 'f_1' }
";

static MESSAGES: [(Ask, &str); 18] = [
    (Ask::Channels, "5"),
    (Ask::Deliver(0, "first"), "starts 0 at 1"),
    (Ask::Deliver(0, "a10"), "starts 2 at 0"),
    (Ask::Deliver(0, "a2"), "starts 3 at 2"),
    (Ask::Deliver(0, "last"), "starts 4 at 0"),
    (Ask::Deliver(1, "last"), "vanishes"),
    // To a label above, and to its own.
    (Ask::Deliver(0, "up"), "starts 4 at 3"),
    (Ask::Deliver(3, "up"), "starts 4 at 3"),
    // To a label below.
    (Ask::Deliver(1, "a10"), "vanishes"),
    (Ask::Deliver(3, "first"), "vanishes"),
    // To a label beside.
    (Ask::Deliver(1, "first"), "starts 0 at 1"),
    (Ask::Deliver(2, "first"), "vanishes"),
    (Ask::Deliver(1, "a2"), "vanishes"),
    // Names without a channel.
    (Ask::Deliver(0, ""), "unknown"),
    (Ask::Deliver(0, "u"), "unknown"),
    (Ask::Deliver(3, "upp"), "unknown"),
    (Ask::Deliver(3, "UP"), "unknown"),
    (Ask::Deliver(3, "firs"), "unknown"),
];

#[test]
fn a_message_starts_where_it_flows_and_vanishes_elsewhere(rt: HostRuntime) -> Result<(), Fail> {
    let text = format!(in rt.alloc(); "{FOUR}{ROWS}")?;
    assert!(rt; answers(rt.alloc(), text.as_str(), &MESSAGES)?);
    Ok(())
}

#[test]
fn the_number_of_a_function_may_be_the_greatest(rt: HostRuntime) -> Result<(), Fail> {
    let policy = read_policy(rt.alloc(), FOUR.as_bytes())?;
    let lattice = policy.lattice();
    assert!(rt; lattice.count() == 4);
    let (alice, bob) = (Label::numbered(1), Label::numbered(2));
    let mut channels = Channels::new(rt.alloc());
    let name = Name::read(b"beside").expect(&rt, "a name");
    channels.add(name, alice, u32::MAX)?;
    let start = Delivery::Start(alice, u32::MAX);
    assert!(rt; channels.deliver(lattice, alice, b"beside") == start);
    assert!(rt; channels.deliver(lattice, bob, b"beside") == Delivery::Vanishes);
    Ok(())
}

#[test]
fn the_channels_are_counted(rt: HostRuntime) -> Result<(), Fail> {
    let mut channels = Channels::new(rt.alloc());
    assert!(rt; channels.count() == 0);
    let up = Name::read(b"up").expect(&rt, "a name");
    channels.add(up, Label::numbered(255), 0)?;
    assert!(rt; channels.count() == 1);
    let down = Name::read(b"down").expect(&rt, "a name");
    channels.add(down, Label::numbered(0), 0)?;
    assert!(rt; channels.count() == 2);
    Ok(())
}
