//! Channels by their names.

ghost use Rattle.std.specs.Prelude.{◌≡◌, ◌<◌, ◌++◌, ◌∷◌, [], None, length, OnOk, OnErr};
ghost use Rattle.label_lattice.specs.Order.{count};
ghost use Rattle.labelled_channel.specs.Delivering.{channel_of, delivered, AreAtLabels, AreNamedApart, AreUnderNames};

use indexmap::IndexMap;
use label_lattice::{Label, Lattice};
use std::alloc::Global;
use std::marker::Model;
use trapeze_io::{Name, NoMemory};

/// Where a channel leads.
#[derive(Clone, Copy, Drop)]
struct Channel {
    at: Label,
    function: u32,
}

/// What becomes of a message.
#[derive(Debug, Clone, Copy, PartialEq, Eq, Drop)]
pub enum Delivery {
    /// It starts this function at this label.
    Start(Label, u32),
    /// The sender's label does not flow to the channel's.
    Vanishes,
    /// No channel has the name.
    Unknown,
}

/// The table of channels.
#[derive(Drop)]
pub struct Channels {
    channels: IndexMap<Name, Channel>,
}

impl Model for Channels {
    ghost use Rattle.std.specs.Prelude.{List, ℕ};
    ghost use Rattle.labelled_channel.specs.declared.channels.Channel.{Channel};
    ghost use Rattle.labelled_channel.specs.Delivering.{AreNamedApart, AreUnderNames};

    ghost Value = { List (List ℕ × Channel) };

    ghost view = { λ c. c.channels.entries };

    ghost invariant = { λ c. AreNamedApart c.channels.entries × AreUnderNames c.channels.entries };
}

impl Channels {
    /// A table without channels.
    pub fn new(alloc: Global) -> Channels
        ensures { result ≡ [] }
    {
        Channels {
            channels: IndexMap::new(alloc),
        }
    }

    /// Adds a channel whose name is new. A refusal changes nothing.
    pub fn add(&mut self, name: Name, at: Label, function: u32) -> Result<(), NoMemory>
        requires fresh { channel_of name self.old ≡ None }
        ensures ok { OnOk result (self.new ≡ self.old ++ (name, record { at = at; function = function }) ∷ []) }
        ensures err { OnErr result (self.new ≡ self.old) }
    {
        // Its bytes tell that it is a name.
        let _bytes = name.as_bytes();
        match self.channels.insert(name, Channel { at, function }) {
            Ok(_) => Ok(()),
            Err(_) => Err(NoMemory),
        }
    }

    /// What becomes of a message from a label into the channel with this name.
    pub fn deliver(&self, lattice: &Lattice, at: Label, name: &[u8]) -> Delivery
        requires from { at.number < count lattice.now }
        requires labels { AreAtLabels (count lattice.now) self.now }
        ensures delivered { result ≡ delivered lattice.now at.number (channel_of name.now self.now) }
        ensures apart { AreNamedApart self.now }
        ensures named { AreUnderNames self.now }
    {
        let Some(channel) = self.channel_of(name) else {
            return Delivery::Unknown;
        };
        if lattice.flows(at, channel.at) {
            Delivery::Start(channel.at, channel.function)
        } else {
            Delivery::Vanishes
        }
    }

    /// The channel with this name, if there is one.
    fn channel_of(&self, name: &[u8]) -> Option<Channel>
        ensures channel { result ≡ channel_of name.now self.now }
        ensures apart { AreNamedApart self.now }
        ensures named { AreUnderNames self.now }
    {
        let channels = &self.channels;
        let name = Name::read(name)?;
        channels.get(&name).copied()
    }

    /// How many channels there are.
    pub fn count(&self) -> u64
        ensures count { result ≡ length self.now }
        ensures apart { AreNamedApart self.now }
    {
        self.channels.len() as u64
    }
}
