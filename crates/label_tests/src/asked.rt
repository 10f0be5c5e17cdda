//! Questions to a policy, and what it answers.

use gate_rules::Passage;
use label_lattice::Label;
use labelled_channel::Delivery;
use policy_toml::{Policy, read_policy};
use std::alloc::Global;
use std::test::Fail;

/// A question; labels, functions and clients by their numbers.
#[derive(Clone, Copy, Drop)]
pub enum Ask {
    /// How many labels there are.
    Labels,
    /// The name of a label.
    Name(u8),
    /// The number of the label with this name.
    Find(&'static str),
    /// Whether a label flows to another.
    Flows(u8, u8),
    /// The least label that both flow to.
    Join(u8, u8),
    /// The six limits of a label.
    Limits(u8),
    /// How many functions there are.
    Functions,
    /// The name and the file of a function.
    Function(u32),
    /// How many clients there are.
    Clients,
    /// The name and the clearance of a client.
    Client(u32),
    /// How many channels there are.
    Channels,
    /// What becomes of a message from a label into a channel.
    Deliver(u8, &'static str),
    /// What becomes of the text that is released from a label through a gate.
    Pass(u8, &'static str, &'static str),
    /// Whether a gate leads from a label to another into a function.
    Has(u8, u8, u32),
}

/// Whether the policy gives each answer.
pub fn answers(alloc: Global, text: &str, rows: &[(Ask, &'static str)]) -> Result<bool, Fail> {
    let policy = read_policy(alloc, text.as_bytes())?;
    let mut all = true;
    for (ask, want) in rows {
        let told = told(alloc, &policy, *ask)?;
        all = all && told.as_str() == *want;
    }
    Ok(all)
}

fn told(alloc: Global, policy: &Policy, ask: Ask) -> Result<String, Fail> {
    match ask {
        Ask::Labels | Ask::Name(_) | Ask::Find(_) | Ask::Flows(_, _) | Ask::Join(_, _) => {
            of_labels(alloc, policy, ask)
        }
        Ask::Limits(at) => limits(alloc, policy, at),
        Ask::Functions => count(alloc, policy.functions().len() as u64),
        Ask::Function(number) => function(alloc, policy, number),
        Ask::Clients => count(alloc, policy.clients().len() as u64),
        Ask::Client(number) => client(alloc, policy, number),
        Ask::Channels => count(alloc, policy.channels().count()),
        Ask::Deliver(from, name) => delivered(alloc, policy, from, name),
        Ask::Pass(from, name, body) => passed(alloc, policy, from, name, body),
        Ask::Has(source, target, function) => has(alloc, policy, source, target, function),
    }
}

fn count(alloc: Global, number: u64) -> Result<String, Fail> {
    Ok(format!(in alloc; "{number}")?)
}

fn text_of(alloc: Global, bytes: &[u8]) -> Result<String, Fail> {
    match std::str::from_utf8(bytes) {
        Ok(text) => Ok(format!(in alloc; "{text}")?),
        Err(_) => Ok(format!(in alloc; "no text")?),
    }
}

fn of_labels(alloc: Global, policy: &Policy, ask: Ask) -> Result<String, Fail> {
    let lattice = policy.lattice();
    let labels = lattice.count();
    match ask {
        Ask::Name(a) if a < labels => text_of(alloc, lattice.name(Label::numbered(a)).as_bytes()),
        Ask::Find(name) => match lattice.find(name.as_bytes()) {
            Some(label) => count(alloc, label.number() as u64),
            None => Ok(format!(in alloc; "none")?),
        },
        Ask::Flows(a, b) if a < labels && b < labels => {
            let flows = lattice.flows(Label::numbered(a), Label::numbered(b));
            Ok(format!(in alloc; "{flows}")?)
        }
        Ask::Join(a, b) if a < labels && b < labels => {
            let join = lattice.join(Label::numbered(a), Label::numbered(b));
            count(alloc, join.number() as u64)
        }
        _ => count(alloc, labels as u64),
    }
}

fn limits(alloc: Global, policy: &Policy, at: u8) -> Result<String, Fail> {
    match policy.limits().get(at as usize) {
        Some(l) => {
            let (a, b, c, d, e, f) = (l.quantum, l.fuel, l.pages, l.queue, l.facets, l.bytes);
            Ok(format!(in alloc; "{a} {b} {c} {d} {e} {f}")?)
        }
        None => Ok(format!(in alloc; "none")?),
    }
}

fn function(alloc: Global, policy: &Policy, number: u32) -> Result<String, Fail> {
    let functions = policy.functions();
    if number as usize >= functions.len() {
        return Ok(format!(in alloc; "none")?);
    }
    let name = text_of(alloc, functions[number as usize].as_bytes())?;
    let file = policy.function_file(number);
    Ok(format!(in alloc; "{name} {file}")?)
}

fn client(alloc: Global, policy: &Policy, number: u32) -> Result<String, Fail> {
    let clients = policy.clients();
    if number as usize >= clients.len() {
        return Ok(format!(in alloc; "none")?);
    }
    let name = text_of(alloc, clients[number as usize].as_bytes())?;
    let clearance = policy.clearance(number).number();
    Ok(format!(in alloc; "{name} {clearance}")?)
}

fn delivered(alloc: Global, policy: &Policy, from: u8, name: &str) -> Result<String, Fail> {
    let lattice = policy.lattice();
    if from >= lattice.count() {
        return Ok(format!(in alloc; "none")?);
    }
    let from = Label::numbered(from);
    match policy.channels().deliver(lattice, from, name.as_bytes()) {
        Delivery::Start(at, function) => {
            let at = at.number();
            Ok(format!(in alloc; "starts {function} at {at}")?)
        }
        Delivery::Vanishes => Ok(format!(in alloc; "vanishes")?),
        Delivery::Unknown => Ok(format!(in alloc; "unknown")?),
    }
}

fn passed(
    alloc: Global,
    policy: &Policy,
    from: u8,
    name: &str,
    body: &str,
) -> Result<String, Fail> {
    let lattice = policy.lattice();
    if from >= lattice.count() || body.len() > 65_536 {
        return Ok(format!(in alloc; "none")?);
    }
    let from = Label::numbered(from);
    let passage = policy
        .gates()
        .pass(lattice, from, name.as_bytes(), body.as_bytes())?;
    match &passage {
        Passage::Pass { gate: _, bytes } => text_of(alloc, bytes.as_slice()),
        Passage::Vanishes => Ok(format!(in alloc; "vanishes")?),
        Passage::Unknown => Ok(format!(in alloc; "unknown")?),
    }
}

fn has(
    alloc: Global,
    policy: &Policy,
    source: u8,
    target: u8,
    function: u32,
) -> Result<String, Fail> {
    let (source, target) = (Label::numbered(source), Label::numbered(target));
    let has = policy.gates().has(source, target, function);
    Ok(format!(in alloc; "{has}")?)
}
