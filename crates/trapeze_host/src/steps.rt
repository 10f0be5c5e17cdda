//! Puts and asks.

ghost use Rattle.std.specs.Prelude.{◌≡◌, ◌<◌, ◌≤◌, ◌^◌, length, IfOk};
ghost use Rattle.std.specs.Option.{option_copied};
ghost use Rattle.label_lattice.specs.Order.{count};
ghost use Rattle.facet_list.specs.Store.{written};
ghost use Rattle.trapeze_io.specs.Sizes.{IsKey, IsValue, longest_value};
ghost use Rattle.host_rules.specs.Effects.{write};
ghost use Rattle.host_rules.specs.Play.{ask as asked};
ghost use Rattle.trapeze_host.specs.Adding.{KeepsLabelled};
ghost use Rattle.trapeze_host.specs.Loans.{rules_in};
ghost use Rattle.trapeze_host.specs.Keeping.{MakesFrom, IsSound, HasSameNumbers, RaisesNumbers};
ghost use Rattle.trapeze_host.specs.Requests.{taken_of};

use crate::kept::{Activation, Kept, Serving};
use crate::lent::Lent;
use crate::requests::Request;
use crate::saying::say;
use facet_list::{Facets, Wrote};
use label_lattice::Label;
use trapeze_io::{Bytes, Name, NoMemory};
use trapeze_lines::{Kind, Lines};

/// The bytes of a value, absent or not.
fn slice_of(value: &Option<Bytes>) -> Option<&[u8]>
    ensures { option_copied result ≡ value.now }
{
    match value {
        Some(bytes) => Some(bytes.as_slice()),
        None => None,
    }
}

/// A second value, absent or not.
fn duplicate(value: &Option<Bytes>) -> Result<Option<Bytes>, NoMemory>
    ensures { IfOk result (λ copy. copy ≡ value.now) }
{
    match value {
        Some(bytes) => Ok(Some(bytes.duplicate()?)),
        None => Ok(None),
    }
}

impl<F: Facets> Kept<F> {
    /// A put.
    pub(crate) fn put(
        &mut self,
        lent: &Lent,
        at: Label,
        key: &Bytes,
        value: &Option<Bytes>,
        lines: &mut Lines,
    ) -> Result<(), NoMemory>
        requires sound { IsSound F.limits lent.now self.old }
        requires at { at.number < count lent.now.policy.lattice }
        requires key { IsKey key.now }
        requires value { IsValue value.now }
        ensures moved { MakesFrom F.rows lent.now result self.old self.new lines.old lines.new
            (write (rules_in lent.now) (written at.number key.now value.now)) }
        ensures sound { IsSound F.limits lent.now self.new }
        ensures labelled { KeepsLabelled (count lent.now.policy.lattice) lines.old lines.new }
        ensures numbers { HasSameNumbers self.old self.new }
    {
        match self.facets.write(at, key.as_slice(), slice_of(value))? {
            Wrote::Done => {
                let kind = Kind::Write {
                    key: key.duplicate()?,
                    value: duplicate(value)?,
                };
                say(lent, at, kind, lines)
            }
            Wrote::Full => {
                let kind = Kind::Full {
                    key: key.duplicate()?,
                };
                say(lent, at, kind, lines)
            }
        }
    }

    /// An ask.
    pub(crate) fn ask(
        &mut self,
        lent: &Lent,
        at: Label,
        client: u32,
        function: u32,
        id: Name,
        body: &Bytes,
        lines: &mut Lines,
    ) -> Result<(), NoMemory>
        requires sound { IsSound F.limits lent.now self.old }
        requires at { at.number < count lent.now.policy.lattice }
        requires client { client < length lent.now.policy.clients }
        requires function { function < length lent.now.policy.functions }
        requires body { length body.now ≤ longest_value }
        requires few { taken_of self.old.requests at.number < 2 ^ 62 }
        ensures moved { MakesFrom F.rows lent.now result self.old self.new lines.old lines.new
            (asked (rules_in lent.now) at.number client function id body.now) }
        ensures sound { IsSound F.limits lent.now self.new }
        ensures labelled { KeepsLabelled (count lent.now.policy.lattice) lines.old lines.new }
        ensures raised { RaisesNumbers self.old self.new }
    {
        let Ok(input) = body.duplicate() else {
            return Err(NoMemory);
        };
        let Ok(number) = self.requests.take(at) else {
            return Err(NoMemory);
        };
        let request = Request { label: at, number };
        let serving = Serving {
            request,
            client,
            id,
        };
        let activation = Activation {
            function,
            input,
            serves: Some(serving),
            sandbox: None,
            used: 0,
        };
        self.arrive(lent, at, at, activation, lines)
    }
}
