//! Lists of keys.

ghost use Rattle.std.specs.Prelude.{◌≡◌, ◌<◌, ◌++◌, ◌∷◌, [], length, drop, take, replicate, slice_get, slice_set, IfOk, OnOk, OnErr};
ghost use Rattle.label_queues.specs.Keys.{keys_at};

use std::alloc::Global;
use std::collections::VecDeque;
use std::marker::Model;
use trapeze_io::NoMemory;

/// A list of keys at each place.
#[derive(Drop)]
pub(crate) struct KeyLists {
    lists: Vec<VecDeque<usize>>,
}

impl Model for KeyLists {
    ghost use Rattle.std.specs.Prelude.{List, ℕ, map};

    ghost Value = { List (List ℕ) };

    ghost view = { λ k. map (λ keys. keys.items) k.lists.items };
}

impl KeyLists {
    /// So many lists without keys.
    pub(crate) fn new(alloc: Global, count: usize) -> Result<KeyLists, NoMemory>
        ensures { IfOk result (λ keys. keys ≡ replicate count []) }
    {
        let mut lists = Vec::new(alloc);
        'lists: for _list in 0..count {
            if let Err(_) = lists.push(VecDeque::new(alloc)) {
                return Err(NoMemory);
            }
        }
        Ok(KeyLists { lists })
    }

    /// Adds a key at the back of a list.
    pub(crate) fn push(&mut self, place: usize, key: usize) -> Result<(), NoMemory>
        requires { place < length self.old }
        ensures ok { OnOk result (self.new ≡ slice_set self.old place (keys_at self.old place ++ key ∷ [])) }
        ensures err { OnErr result (self.new ≡ self.old) }
    {
        let list = &mut self.lists[place];
        let Ok(()) = list.reserve(1) else {
            return Err(NoMemory);
        };
        list.push_back_reserved(key);
        Ok(())
    }

    /// Moves the first key of a list to the back.
    pub(crate) fn rotate(&mut self, place: usize)
        requires place { place < length self.old }
        requires some { 0 < length (keys_at self.old place) }
        ensures { self.new ≡ slice_set self.old place (drop 1 (keys_at self.old place) ++ take 1 (keys_at self.old place)) }
    {
        self.lists[place].rotate_left(1);
    }

    /// Takes the first key of a list.
    pub(crate) fn pop(&mut self, place: usize) -> Option<usize>
        requires { place < length self.old }
        ensures first { result ≡ slice_get (keys_at self.old place) 0 }
        ensures rest { self.new ≡ slice_set self.old place (drop 1 (keys_at self.old place)) }
    {
        self.lists[place].pop_front()
    }

    /// The first key of a list.
    pub(crate) fn front(&self, place: usize) -> Option<usize>
        requires { place < length self.now }
        ensures { result ≡ slice_get (keys_at self.now place) 0 }
    {
        self.lists[place].front().copied()
    }

    /// How many keys a list has.
    pub(crate) fn len(&self, place: usize) -> usize
        requires { place < length self.now }
        ensures { result ≡ length (keys_at self.now place) }
    {
        self.lists[place].len()
    }
}
