//! The policy of the exercise.

ghost use Rattle.std.specs.Prelude.{◌≡◌, ◌∷◌, [], map, string_bytes, IfOk, IsTrue};
ghost use Rattle.label_lattice.specs.Reach.{order_of};
ghost use Rattle.trapeze_io.specs.Names.{is_name};
ghost use Rattle.trapeze_exercise.specs.BuiltIn.{labels, flows, narrow, limits, channels, built_in};
ghost use Rattle.trapeze_exercise.specs.BuiltIn.{functions, files, clients, clearances};

use gate_rules::Gates;
use label_lattice::{Label, Lattice, LatticeError};
use label_limits::Limits;
use labelled_channel::Channels;
use policy_toml::Policy;
use std::alloc::Global;
use trapeze_io::{Bytes, Name, NoMemory};

/// The policy that the exercise is played under. No text is read for it.
///
/// # Errors
///
/// Out of memory.
pub fn built_in_policy(alloc: Global) -> Result<Policy, NoMemory>
    ensures { IfOk result (λ policy. policy ≡ built_in) }
{
    let lattice = lattice(alloc)?;
    let limits = limits(alloc)?;
    let channels = channels(alloc)?;
    let (functions, files) = functions(alloc)?;
    let (clients, clearances) = clients(alloc)?;
    Ok(Policy::from_parts(
        lattice,
        limits,
        channels,
        functions,
        files,
        clients,
        clearances,
        Gates::new(alloc),
    ))
}

/// The four labels, and which flows to which.
fn lattice(alloc: Global) -> Result<Lattice, NoMemory>
    ensures { IfOk result (λ lattice. lattice ≡ order_of labels flows) }
{
    let labels = labels(alloc)?;
    let flows = flows(alloc)?;
    match Lattice::build(alloc, &labels, &flows) {
        Ok(lattice) => Ok(lattice),
        Err(LatticeError::NoMemory) => Err(NoMemory),
        Err(_) => unreachable!(),
    }
}

/// The names of the labels.
fn labels(alloc: Global) -> Result<[Bytes; 4], NoMemory>
    ensures { IfOk result (λ names. names ≡ labels) }
{
    let low = Bytes::copy(alloc, b"low")?;
    let alice = Bytes::copy(alloc, b"alice")?;
    let bob = Bytes::copy(alloc, b"bob")?;
    let top = Bytes::copy(alloc, b"top")?;
    Ok([low, alice, bob, top])
}

/// The pairs of labels of which the first flows to the second.
fn flows(alloc: Global) -> Result<[(Bytes, Bytes); 4], NoMemory>
    ensures { IfOk result (λ pairs. pairs ≡ flows) }
{
    let to_alice = flow(alloc, b"low", b"alice")?;
    let to_bob = flow(alloc, b"low", b"bob")?;
    let from_alice = flow(alloc, b"alice", b"top")?;
    let from_bob = flow(alloc, b"bob", b"top")?;
    Ok([to_alice, to_bob, from_alice, from_bob])
}

/// A pair of labels.
fn flow(alloc: Global, from: &[u8], to: &[u8]) -> Result<(Bytes, Bytes), NoMemory>
    ensures { IfOk result (λ pair. pair ≡ (from.now, to.now)) }
{
    let from = Bytes::copy(alloc, from)?;
    let to = Bytes::copy(alloc, to)?;
    Ok((from, to))
}

/// The limits of each label.
fn limits(alloc: Global) -> Result<Vec<Limits>, NoMemory>
    ensures { IfOk result (λ list. list.items ≡ limits) }
{
    let narrow = narrow();
    match Vec::from_array(alloc, [narrow, narrow, narrow, narrow]) {
        Ok(limits) => Ok(limits),
        Err(_) => Err(NoMemory),
    }
}

/// The limits of one label.
fn narrow() -> Limits
    ensures { result ≡ narrow }
{
    match Limits::checked([8, 100, 4, 16, 8, 64]) {
        Ok(limits) => limits,
        Err(_) => unreachable!(),
    }
}

/// The one channel.
fn channels(alloc: Global) -> Result<Channels, NoMemory>
    ensures { IfOk result (λ table. table ≡ channels) }
{
    let mut channels = Channels::new(alloc);
    channels.add(named(b"mail"), Label::numbered(3), 0)?;
    Ok(channels)
}

/// The names and the files of the functions.
fn functions(alloc: Global) -> Result<(Vec<Name>, Vec<String>), NoMemory>
    ensures names { IfOk result (λ lists. lists.0.items ≡ functions) }
    ensures files { IfOk result (λ lists. map (λ file. string_bytes file) lists.1.items ≡ files) }
{
    let names = [
        named(b"hello"),
        named(b"lift"),
        named(b"look"),
        named(b"spin"),
        named(b"store"),
        named(b"twin"),
    ];
    let Ok(names) = Vec::from_array(alloc, names) else {
        return Err(NoMemory);
    };
    let files = files(alloc)?;
    Ok((names, files))
}

/// The files of the functions.
fn files(alloc: Global) -> Result<Vec<String>, NoMemory>
    ensures { IfOk result (λ list. map (λ file. string_bytes file) list.items ≡ files) }
{
    let [echo, lift, look] = three_files(alloc, "echo.wasm", "lift.wasm", "look.wasm")?;
    let [spin, store, twin] = three_files(alloc, "spin.wasm", "store.wasm", "twin.wasm")?;
    match Vec::from_array(alloc, [echo, lift, look, spin, store, twin]) {
        Ok(files) => Ok(files),
        Err(_) => Err(NoMemory),
    }
}

/// Three names of files.
fn three_files(alloc: Global, a: &str, b: &str, c: &str) -> Result<[String; 3], NoMemory>
    ensures { IfOk result (λ files. map (λ file. string_bytes file) files ≡ a.now ∷ b.now ∷ c.now ∷ []) }
{
    let a = String::from_str(alloc, a)?;
    let b = String::from_str(alloc, b)?;
    let c = String::from_str(alloc, c)?;
    Ok([a, b, c])
}

/// The names and the clearances of the clients.
fn clients(alloc: Global) -> Result<(Vec<Name>, Vec<Label>), NoMemory>
    ensures names { IfOk result (λ lists. lists.0.items ≡ clients) }
    ensures clearances { IfOk result (λ lists. map (λ label. label.number) lists.1.items ≡ clearances) }
{
    let names = [named(b"ann"), named(b"carol"), named(b"sam")];
    let labels = [Label::numbered(1), Label::numbered(0), Label::numbered(3)];
    let Ok(names) = Vec::from_array(alloc, names) else {
        return Err(NoMemory);
    };
    match Vec::from_array(alloc, labels) {
        Ok(labels) => Ok((names, labels)),
        Err(_) => Err(NoMemory),
    }
}

/// A text that is a name.
fn named(text: &[u8]) -> Name
    requires { IsTrue (is_name text.now) }
    ensures { result ≡ text.now }
{
    match Name::read(text) {
        Some(name) => name,
        None => unreachable!(),
    }
}
