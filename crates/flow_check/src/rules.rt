//! The rules of lines, each by what is kept of the lines before.

ghost use Rattle.std.specs.Prelude.{◌≡◌, ◌<◌, ◌+◌, ⊤, None, Some, List, length, if◌then◌else◌, IsSome};
ghost use Rattle.std.specs.Bool.{Decides};
ghost use Rattle.std.specs.Option.{IsSomeAnd};
ghost use Rattle.label_lattice.specs.Order.{count, place_of};
ghost use Rattle.label_lattice.specs.Reach.{flows};
ghost use Rattle.facet_list.specs.Rows.{AreBelow, row_of, read_row, facet_at};
ghost use Rattle.facet_rows.specs.Rows.{rows_in};
ghost use Rattle.trapeze_lines.specs.declared.line.Line.{Line as Told};
ghost use Rattle.trapeze_lines.specs.Lines.{IsLabelled};
ghost use Rattle.host_rules.specs.Rules.{channel_named};
ghost use Rattle.host_rules.specs.Policies.{rules_of};
ghost use Rattle.flow_check.specs.Sound.{HasClearance, MayStart};
ghost use Rattle.flow_check.specs.Kept.{Keeps, HasAnswered, IsFrom};
ghost use Rattle.flow_check.specs.Verdicts.{IsFault};

use crate::compare::{are_same, are_same_values, value_of};
use crate::last::Last;
use crate::turns::is_next;
use crate::verdict::Rule;
use facet_rows::FacetRows;
use label_lattice::{Label, Lattice, number_among};
use labelled_channel::Delivery;
use policy_toml::Policy;
use trapeze_io::{Bytes, Name};
use trapeze_lines::{Kind, Line};

/// The rule that a line does not pass, if there is one, whatever follows it.
pub(crate) fn fault(
    policy: &Policy,
    rows: &FacetRows,
    turns: &Vec<u64>,
    last: &Last,
    line: &Line,
) -> Option<Rule>
    requires labelled { IsLabelled (count policy.now.lattice) line.now }
    requires counted { length turns.now.items ≡ count policy.now.lattice }
    requires below { AreBelow (count policy.now.lattice) (rows_in rows.now) }
    requires last { IsFrom (count policy.now.lattice) last.now }
    ensures { (before : List Told) →
        Keeps (rules_of policy.now) (count policy.now.lattice) before (rows_in rows.now) turns.now.items last.now →
        IsFault (rules_of policy.now) before line.now result }
{
    let at = line.label;
    match &line.kind {
        Kind::Read { key, value } => {
            let passes = reads(policy.lattice(), rows, at, key, value);
            unless(passes, Rule::Read)
        }
        Kind::Reply { client, id, bytes } => {
            let passes = has_clearance(policy, at, client)
                && is_answered(policy.lattice(), at, client, id, bytes, last);
            unless(passes, Rule::Reply)
        }
        Kind::Start { from, function, id } => {
            let passes = starts(policy, at, *from, function, id);
            unless(passes, Rule::Start)
        }
        Kind::Send { channel, .. } => {
            let passes = is_channel(policy, at, channel);
            unless(passes, Rule::Send)
        }
        Kind::Turn { number, .. } => {
            let passes = is_next(turns, at, *number);
            unless(passes, Rule::Turn)
        }
        Kind::Idle { number } => {
            let passes = is_next(turns, at, *number);
            unless(passes, Rule::Turn)
        }
        Kind::Facet { key, value } => {
            let passes = is_last(rows, at, key, value);
            unless(passes, Rule::Facet)
        }
        Kind::Dropped { .. } => None,
        Kind::Full { .. } => None,
        Kind::Write { .. } => None,
        Kind::Answer { .. } => None,
    }
}

fn unless(passes: bool, rule: Rule) -> Option<Rule>
    ensures { result ≡ (if passes then None else Some rule) }
{
    if passes { None } else { Some(rule) }
}

/// Whether the value is what the label reads of the key.
fn reads(lattice: &Lattice, rows: &FacetRows, at: Label, key: &Bytes, value: &Option<Bytes>) -> bool
    requires at { at.number < count lattice.now }
    requires labels { AreBelow (count lattice.now) (rows_in rows.now) }
    ensures { Decides result (value.now ≡ read_row (flows lattice.now) at.number (row_of (rows_in rows.now) key.now)) }
{
    are_same_values(value_of(value), rows.read(lattice, at, key.as_slice()))
}

/// Whether the value was last written under the key at exactly this label.
fn is_last(rows: &FacetRows, at: Label, key: &Bytes, value: &Option<Bytes>) -> bool
    ensures { Decides result (facet_at (rows_in rows.now) (key.now, at.number) ≡ Some value.now) }
{
    match rows.last(at, key.as_slice()) {
        Some(last) => are_same_values(last, value_of(value)),
        None => false,
    }
}

/// Whether this is a client with the label for a clearance.
fn has_clearance(policy: &Policy, at: Label, client: &Name) -> bool
    ensures { Decides result (IsSomeAnd (place_of client.now policy.now.clients) (HasClearance (rules_of policy.now) at.number)) }
{
    match number_among(policy.clients(), client.as_bytes()) {
        Some(number) => policy.clearance(number).number() == at.number(),
        None => false,
    }
}

/// Whether the last line answers the client's request so, at a label that flows to this one.
fn is_answered(
    lattice: &Lattice,
    at: Label,
    client: &Name,
    id: &Name,
    bytes: &Bytes,
    last: &Last,
) -> bool
    requires at { at.number < count lattice.now }
    requires last { IsFrom (count lattice.now) last.now }
    ensures { Decides result (HasAnswered (flows lattice.now) at.number client.now id.now bytes.now last.now) }
{
    match last {
        Last::Answered {
            from,
            client: asker,
            id: asked,
            bytes: answer,
        } => {
            are_same(asker.as_bytes(), client.as_bytes())
                && are_same(asked.as_bytes(), id.as_bytes())
                && are_same(answer.as_slice(), bytes.as_slice())
                && lattice.flows(*from, at)
        }
        Last::Sent { .. } => false,
        Last::Other => false,
    }
}

/// Whether this is a function, and may start at the label from the other one.
fn starts(policy: &Policy, at: Label, from: Label, function: &Name, id: &Option<Name>) -> bool
    requires at { at.number < count policy.now.lattice }
    requires from { from.number < count policy.now.lattice }
    ensures { Decides result (IsSomeAnd (place_of function.now policy.now.functions) (MayStart (rules_of policy.now) from.number at.number id.now)) }
{
    let Some(function) = number_among(policy.functions(), function.as_bytes()) else {
        return false;
    };
    policy.lattice().flows(from, at) || (id.is_none() && policy.gates().has(from, at, function))
}

/// Whether this is a channel.
fn is_channel(policy: &Policy, at: Label, channel: &Name) -> bool
    requires at { at.number < count policy.now.lattice }
    ensures { Decides result (IsSome (channel_named (rules_of policy.now) channel.now)) }
{
    policy
        .channels()
        .deliver(policy.lattice(), at, channel.as_bytes())
        != Delivery::Unknown
}
