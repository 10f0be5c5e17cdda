//! The requests of each label: how many were taken, and which of them were answered.

ghost use Rattle.std.specs.Prelude.{◌≡◌, ℕ, ◌<◌, ◌≤◌, ◌+◌, ◌*◌, ◌^◌, ◌||◌, length, IfOk, OnOk, OnErr};
ghost use Rattle.host_rules.specs.States.{Request as RequestOf, set_at, same_request};
ghost use Rattle.host_rules.specs.Regular.{IsTaken};
ghost use Rattle.trapeze_host.specs.Requests.{request_of, labels_of, taken_of, answered_of, is_marked, HasRoom, AreNone};

use label_lattice::Label;
use std::alloc::Global;
use trapeze_io::NoMemory;

/// A request, by its label and its number there, from 1.
#[derive(Clone, Copy, Drop)]
pub(crate) struct Request {
    pub(crate) label: Label,
    pub(crate) number: u64,
}

/// The requests of each label. Whether one was answered is one bit, whose place is there once the request is taken.
#[derive(Drop)]
pub(crate) struct Requests {
    taken: Vec<u64>,
    marks: Vec<Vec<u64>>,
}

/// Makes a place for the bit of the next number. None is set.
fn widen(words: &mut Vec<u64>, number: u64) -> Result<(), NoMemory>
    requires { number ≤ 64 * length words.old.items }
    ensures room { OnOk result (number < 64 * length words.new.items) }
    ensures longer { length words.old.items ≤ length words.new.items }
    ensures marks { (n : ℕ) → is_marked words.new.items n ≡ is_marked words.old.items n }
{
    if (number / 64) as usize == words.len() {
        let Ok(()) = words.push(0) else {
            return Err(NoMemory);
        };
    }
    Ok(())
}

impl Requests {
    /// No request, of so many labels.
    pub(crate) fn new(alloc: Global, labels: usize) -> Result<Requests, NoMemory>
        ensures { IfOk result (AreNone labels) }
    {
        let Ok(taken) = vec![in alloc; 0u64; labels] else {
            return Err(NoMemory);
        };
        let mut marks = Vec::new(alloc);
        'labels: for _label in 0..labels {
            let Ok(words) = vec![in alloc; 0u64; 1] else {
                return Err(NoMemory);
            };
            let Ok(()) = marks.push(words) else {
                return Err(NoMemory);
            };
        }
        Ok(Requests { taken, marks })
    }

    /// Takes the next request number of a label.
    pub(crate) fn take(&mut self, label: Label) -> Result<u64, NoMemory>
        requires label { label.number < labels_of self.old }
        requires room { HasRoom self.old }
        requires few { taken_of self.old label.number < 2 ^ 62 }
        ensures number { IfOk result (λ number. number ≡ taken_of self.old label.number + 1) }
        ensures taken { IfOk result (λ number. taken_of self.new ≡ set_at (taken_of self.old) label.number number) }
        ensures refused { OnErr result (taken_of self.new ≡ taken_of self.old) }
        ensures answered { answered_of self.new ≡ answered_of self.old }
        ensures labels { labels_of self.new ≡ labels_of self.old }
        ensures room { HasRoom self.new }
    {
        let place = label.number() as usize;
        let number = self.taken[place] + 1;
        let Ok(()) = widen(&mut self.marks[place], number) else {
            return Err(NoMemory);
        };
        self.taken[place] = number;
        Ok(number)
    }

    /// Whether a request that was taken was answered.
    pub(crate) fn is_answered(&self, request: Request) -> bool
        requires label { request.label.number < labels_of self.now }
        requires room { HasRoom self.now }
        requires taken { IsTaken (taken_of self.now) (request_of request) }
        ensures { result ≡ answered_of self.now (request_of request) }
    {
        let words = &self.marks[request.label.number() as usize];
        (words[(request.number / 64) as usize] >> (request.number % 64)) & 1 == 1
    }

    /// Marks a request that was taken as answered. This takes no memory.
    pub(crate) fn answer(&mut self, request: Request)
        requires label { request.label.number < labels_of self.old }
        requires room { HasRoom self.old }
        requires taken { IsTaken (taken_of self.old) (request_of request) }
        ensures answered { (r : RequestOf) → answered_of self.new r ≡ (same_request r (request_of request) || answered_of self.old r) }
        ensures taken { taken_of self.new ≡ taken_of self.old }
        ensures labels { labels_of self.new ≡ labels_of self.old }
        ensures room { HasRoom self.new }
    {
        let words = &mut self.marks[request.label.number() as usize];
        words[(request.number / 64) as usize] |= 1 << (request.number % 64);
    }
}
