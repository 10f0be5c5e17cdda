ghost use Rattle.std.specs.Prelude.{◌≡◌, ◌==◌, [], ◌∷◌, ◌-◌, ◌+◌, ◌≤◌, ◌<◌, ◌↔◌, ◌++◌, length, take, drop, slice_get, slice_set, replicate, MatchOption, IfSome, IsSome, OnOk, OnErr, option_copied};
ghost use Rattle.std.specs.Option.{option_copied_mut};
ghost use Rattle.std.specs.Borrow.{sem};

use std::alloc::{AllocError, Global};
use std::marker::Model;

/// A vector that contracts see as the list of its items, the topmost first.
#[derive(Debug, Drop)]
pub struct Stack<T> {
    items: Vec<T>,
}

impl<T> Model for Stack<T> {
    ghost use Rattle.std.specs.Prelude.{List, reverse};
    ghost use Rattle.std.specs.Coded.{coded_list};

    ghost Value = { List T };

    ghost coded = { coded_list T.code };

    ghost view = { λ stack. reverse stack.items.items };
}

impl<T> Stack<T> {
    ghost use Rattle.wasm_stack.specs.Lending.{LendsTop};

    /// No item; takes no memory until the first is pushed.
    pub fn new(alloc: Global) -> Stack<T>
        ensures { result ≡ [] }
    {
        Stack {
            items: Vec::new(alloc),
        }
    }

    /// How many items it has.
    pub fn len(&self) -> usize
        ensures { result ≡ length self.now }
    {
        self.items.len()
    }

    /// Whether it has none.
    pub fn is_empty(&self) -> bool
        ensures { result ≡ (length self.now == 0) }
    {
        self.items.is_empty()
    }

    /// Takes the topmost item off.
    pub fn pop(&mut self) -> Option<T>
        ensures { MatchOption result ((self.old ≡ []) × (self.new ≡ [])) (λ top. self.old ≡ top ∷ self.new) }
    {
        self.items.pop()
    }

    /// The topmost item.
    pub fn top(&self) -> Option<&T>
        ensures { option_copied result ≡ slice_get self.now 0 }
    {
        self.items.last()
    }

    /// The item with so many above it.
    pub fn get(&self, above: usize) -> Option<&T>
        ensures value { option_copied result ≡ slice_get self.now above }
        ensures within { IsSome result ↔ (above < length self.now) }
    {
        let count = self.items.len();
        if above >= count {
            return None;
        }
        self.items.get(count - 1 - above)
    }

    /// The topmost item, to be changed in place.
    pub fn top_mut(&mut self) -> Option<&mut T>
        ensures* writes_back { sem 𝓛 (LendsTop T.row self.entry result) }
        ensures value { option_copied_mut result ≡ slice_get self.old 0 }
    {
        self.items.last_mut()
    }
}

impl<T: Drop> Stack<T> {
    /// Puts an item on top.
    ///
    /// # Errors
    ///
    /// Out of memory: the item is dropped, and the stack stays as it was.
    pub fn push(&mut self, item: T) -> Result<(), AllocError>
        ensures ok { OnOk result (self.new ≡ item ∷ self.old) }
        ensures err { OnErr result (self.new ≡ self.old) }
    {
        self.items.push(item)?;
        Ok(())
    }

    /// Puts an item in the place of the one with so many above it.
    pub fn set(&mut self, above: usize, item: T)
        requires { above < length self.old }
        ensures { self.new ≡ slice_set self.old above item }
    {
        let place = self.items.len() - 1 - above;
        self.items[place] = item;
    }

    /// Keeps the lowest `count` items, or all where there are no more.
    pub fn truncate(&mut self, count: usize)
        ensures { self.new ≡ drop (length self.old - count) self.old }
    {
        self.items.truncate(count)
    }
}

impl<T: Copy + Drop> Stack<T> {
    /// A copy of the item with so many above it.
    pub fn copy_at(&self, above: usize) -> Option<T>
        ensures value { result ≡ slice_get self.now above }
        ensures within { IsSome result ↔ (above < length self.now) }
    {
        let count = self.items.len();
        if above >= count {
            return None;
        }
        Some(self.items[count - 1 - above])
    }

    /// Puts the item on top so many times.
    ///
    /// # Errors
    ///
    /// Out of memory: the stack stays as it was.
    pub fn fill(&mut self, item: T, count: usize) -> Result<(), AllocError>
        ensures ok { OnOk result (self.new ≡ replicate count item ++ self.old) }
        ensures err { OnErr result (self.new ≡ self.old) }
    {
        self.items.reserve(count)?;
        'copies: for _ in 0..count {
            self.items.push_reserved(item);
        }
        Ok(())
    }

    /// Keeps the topmost `kept` and the lowest `below`, and drops what is between.
    pub fn collapse(&mut self, kept: usize, below: usize)
        requires { kept + below ≤ length self.old }
        ensures { self.new ≡ take kept self.old ++ drop (length self.old - below) self.old }
    {
        let first = self.items.len() - kept;
        self.items.copy_within(first.., below);
        self.items.truncate(below + kept);
    }
}
