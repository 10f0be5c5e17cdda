//! What is kept of the last line.

ghost use Rattle.std.specs.Prelude.{◌≡◌, ◌<◌, IfOk, length};
ghost use Rattle.std.specs.Bool.{Decides};
ghost use Rattle.label_lattice.specs.Order.{count};
ghost use Rattle.host_rules.specs.Rules.{channel_named};
ghost use Rattle.host_rules.specs.Policies.{rules_of};
ghost use Rattle.flow_check.specs.Sound.{Arrives};
ghost use Rattle.flow_check.specs.Kept.{kept_of, sent, IsFrom, MayFollow};

use crate::compare::are_same;
use label_lattice::Label;
use labelled_channel::Delivery;
use policy_toml::Policy;
use trapeze_io::{Bytes, Name, NoMemory};
use trapeze_lines::{Kind, Line};

/// What the next line may have to do with the last one.
#[derive(Drop)]
pub(crate) enum Last {
    /// Nothing.
    Other,
    /// The last line answers this request of this client.
    Answered {
        from: Label,
        client: Name,
        id: Name,
        bytes: Bytes,
    },
    /// The last line sends to a label that its own flows to, and this function starts there.
    Sent {
        from: Label,
        to: Label,
        function: Name,
    },
}

/// What is kept of a line.
pub(crate) fn keep(policy: &Policy, line: &Line) -> Result<Last, NoMemory>
    requires at { line.now.label.number < count policy.now.lattice }
    ensures kept { IfOk result (λ last. last ≡ kept_of (rules_of policy.now) line.now.label.number line.now.kind) }
    ensures label { IfOk result (IsFrom (count policy.now.lattice)) }
{
    match &line.kind {
        Kind::Answer { client, id, bytes } => {
            let bytes = bytes.duplicate()?;
            Ok(Last::Answered {
                from: line.label,
                client: *client,
                id: *id,
                bytes,
            })
        }
        Kind::Send { channel, .. } => Ok(sent(policy, line.label, channel)),
        Kind::Reply { .. } => Ok(Last::Other),
        Kind::Turn { .. } => Ok(Last::Other),
        Kind::Idle { .. } => Ok(Last::Other),
        Kind::Dropped { .. } => Ok(Last::Other),
        Kind::Full { .. } => Ok(Last::Other),
        Kind::Facet { .. } => Ok(Last::Other),
        Kind::Write { .. } => Ok(Last::Other),
        Kind::Read { .. } => Ok(Last::Other),
        Kind::Start { .. } => Ok(Last::Other),
    }
}

/// What is kept of a message from a label into a channel.
fn sent(policy: &Policy, from: Label, channel: &Name) -> Last
    requires from { from.number < count policy.now.lattice }
    ensures kept { result ≡ sent (rules_of policy.now) from.number (channel_named (rules_of policy.now) channel.now) }
    ensures label { IsFrom (count policy.now.lattice) result }
{
    match policy
        .channels()
        .deliver(policy.lattice(), from, channel.as_bytes())
    {
        Delivery::Start(to, function) => Last::Sent {
            from,
            to,
            function: policy.functions()[function as usize],
        },
        Delivery::Vanishes => Last::Other,
        Delivery::Unknown => Last::Other,
    }
}

/// Whether the line may come after the last one.
pub(crate) fn may_follow(last: &Last, line: &Line) -> bool
    ensures { Decides result (MayFollow last.now line.now) }
{
    match last {
        Last::Sent { from, to, function } => {
            line.label.number() == to.number() && arrives(*from, function, &line.kind)
        }
        Last::Answered { .. } => true,
        Last::Other => true,
    }
}

/// Whether a function starts from the label, or is given up.
fn arrives(from: Label, function: &Name, kind: &Kind) -> bool
    ensures { Decides result (Arrives from.number function.now kind.now) }
{
    match kind {
        Kind::Start {
            from: other,
            function: started,
            ..
        } => other.number() == from.number() && are_same(started.as_bytes(), function.as_bytes()),
        Kind::Dropped {
            function: started,
            ..
        } => are_same(started.as_bytes(), function.as_bytes()),
        _ => false,
    }
}
