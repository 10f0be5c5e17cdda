//! Writes and reads that are made one after the other.

ghost use Rattle.std.specs.Prelude.{◌≡◌, [], All, IfOk, OnOk, OnErr, length};
ghost use Rattle.label_lattice.specs.Order.{count};
ghost use Rattle.label_lattice.specs.Reach.{flows};
ghost use Rattle.facet_index.specs.Steps.{IsFitStep, rows_step, rows_played, answer_of, answers_of, IsPart};

use facet_list::{Facets, Wrote};
use label_lattice::{Label, Lattice};
use std::alloc::Global;
use std::marker::Model;
use trapeze_io::{Bytes, NoMemory};

/// A write or a read.
#[derive(Drop)]
pub enum StoreStep {
    /// A write of the key at a label, None for absent.
    Write {
        /// The label.
        at: Label,
        /// The key.
        key: Bytes,
        /// The value.
        value: Option<Bytes>,
    },
    /// A read of the key at a label.
    Read {
        /// The label.
        at: Label,
        /// The key.
        key: Bytes,
    },
}

/// What a step answers.
#[derive(Drop)]
pub enum StoreAnswer {
    /// The write was made.
    Done,
    /// The write does not fit the limits of its label.
    Full,
    /// This value was read.
    Value(Bytes),
    /// Nothing was read: there is no facet to be seen, or it is absent.
    Absent,
}

/// What steps answer, in order.
#[derive(Drop)]
pub struct Answers {
    items: Vec<StoreAnswer>,
}

impl Model for Answers {
    ghost use Rattle.std.specs.Prelude.{List};
    ghost use Rattle.facet_index.specs.declared.steps.StoreAnswer.{StoreAnswer};

    ghost Value = { List StoreAnswer };

    ghost view = { λ a. a.items.items };
}

impl Answers {
    /// The answers, in order.
    pub fn as_slice(&self) -> &[StoreAnswer]
        ensures { result.now ≡ self.now }
    {
        self.items.as_slice()
    }
}

/// Makes the steps, one after the other, on the store that is lent. Out of memory, only the first of them were made.
pub fn play_steps<F: Facets>(
    alloc: Global,
    facets: &mut F,
    lattice: &Lattice,
    steps: &[StoreStep],
) -> Result<Answers, NoMemory>
    requires labels { count lattice.now ≡ length (F.limits facets.old) }
    requires steps { All (IsFitStep (count lattice.now)) steps.now }
    ensures answers { IfOk result (λ answers. answers ≡
        answers_of (flows lattice.now) (F.limits facets.old) (F.rows facets.old) steps.now) }
    ensures rows { OnOk result (F.rows facets.new ≡ rows_played (F.limits facets.old) (F.rows facets.old) steps.now) }
    ensures part { OnErr result (IsPart (F.limits facets.old) (F.rows facets.old) (F.rows facets.new) steps.now) }
    ensures limits { F.limits facets.new ≡ F.limits facets.old }
{
    let mut items = Vec::new(alloc);
    'steps: for step in steps {
        let Ok(answer) = play_step(alloc, facets, lattice, step) else {
            return Err(NoMemory);
        };
        let Ok(()) = items.push(answer) else {
            return Err(NoMemory);
        };
    }
    Ok(Answers { items })
}

/// Makes one step.
fn play_step<F: Facets>(
    alloc: Global,
    facets: &mut F,
    lattice: &Lattice,
    step: &StoreStep,
) -> Result<StoreAnswer, NoMemory>
    requires labels { count lattice.now ≡ length (F.limits facets.old) }
    requires step { IsFitStep (count lattice.now) step.now }
    ensures answer { IfOk result (λ answer. answer ≡ answer_of (flows lattice.now) (F.limits facets.old) (F.rows facets.old) step.now) }
    ensures rows { OnOk result (F.rows facets.new ≡ rows_step (F.limits facets.old) (F.rows facets.old) step.now) }
    ensures no_memory { OnErr result (F.rows facets.new ≡ F.rows facets.old) }
    ensures limits { F.limits facets.new ≡ F.limits facets.old }
{
    match step {
        StoreStep::Write { at, key, value } => {
            let value = match value {
                Some(value) => Some(value.as_slice()),
                None => None,
            };
            match facets.write(*at, key.as_slice(), value) {
                Ok(Wrote::Done) => Ok(StoreAnswer::Done),
                Ok(Wrote::Full) => Ok(StoreAnswer::Full),
                Err(NoMemory) => Err(NoMemory),
            }
        }
        StoreStep::Read { at, key } => match facets.read(lattice, *at, key.as_slice()) {
            Some(value) => Ok(StoreAnswer::Value(Bytes::copy(alloc, value)?)),
            None => Ok(StoreAnswer::Absent),
        },
    }
}
