//! A text that is being written at the end of bytes.

ghost use Rattle.std.specs.Prelude.{◌≡◌, ◌++◌, ◌∷◌, ◌*◌, ◌<◌, [], length, decimal};
ghost use Rattle.hex.specs.Hex.{encode_lower};
ghost use Rattle.label_lattice.specs.Order.{count};
ghost use Rattle.trapeze_lines.specs.Drafts.{AddsMore};
ghost use Rattle.trapeze_lines.specs.Texts.{bytes_text, label_text};

use itoa::Buffer;
use label_lattice::{Label, Lattice};
use std::marker::Model;
use trapeze_io::NoMemory;

/// A text that is being written at the end of bytes. A refusal leaves some of the text there, which `undone` takes away.
pub(crate) struct Draft {
    bytes: Vec<u8>,
    // The text begins here.
    start: usize,
}

impl Model for Draft {
    ghost use Rattle.std.specs.Prelude.{◌≤◌, length, take, drop};
    ghost use Rattle.trapeze_lines.specs.Drafts.{Drafted};

    ghost Value = { Drafted };

    ghost view = { λ d. record { before = take d.start d.bytes.items; written = drop d.start d.bytes.items } };

    ghost invariant = { λ d. d.start ≤ length d.bytes.items };
}

impl Draft {
    /// A text without bytes at the end of these.
    pub(crate) fn after(bytes: Vec<u8>) -> Draft
        ensures { result ≡ record { before = bytes.items; written = [] } }
    {
        let start = bytes.len();
        Draft { bytes, start }
    }

    /// The bytes, with the text after them.
    pub(crate) fn done(self) -> Vec<u8>
        ensures { result.items ≡ self.before ++ self.written }
    {
        let Draft { bytes, start: _ } = self;
        bytes
    }

    /// The bytes without the text.
    pub(crate) fn undone(self) -> Vec<u8>
        ensures { result.items ≡ self.before }
    {
        let Draft { mut bytes, start } = self;
        bytes.truncate(start);
        bytes
    }

    /// Writes bytes.
    pub(crate) fn add(&mut self, more: &[u8]) -> Result<(), NoMemory>
        ensures { AddsMore self.old self.new more.now result }
    {
        match self.bytes.extend_from_slice(more) {
            Ok(()) => Ok(()),
            Err(_) => Err(NoMemory),
        }
    }

    /// Writes a space and a word.
    pub(crate) fn word(&mut self, word: &[u8]) -> Result<(), NoMemory>
        ensures { AddsMore self.old self.new (32 ∷ word.now) result }
    {
        self.add(b" ")?;
        self.add(word)
    }

    /// Writes a space and a number.
    pub(crate) fn number(&mut self, number: u64) -> Result<(), NoMemory>
        ensures { AddsMore self.old self.new (32 ∷ decimal number) result }
    {
        let mut digits = Buffer::new();
        self.word(digits.format(number).as_bytes())
    }

    /// Writes a space and the name of a label.
    pub(crate) fn label(&mut self, lattice: &Lattice, label: Label) -> Result<(), NoMemory>
        requires { label.number < count lattice.now }
        ensures { AddsMore self.old self.new (32 ∷ label_text lattice.now.names label) result }
    {
        self.word(lattice.name(label).as_bytes())
    }

    /// Writes a space and bytes as a word.
    pub(crate) fn bytes(&mut self, bytes: &[u8]) -> Result<(), NoMemory>
        ensures { AddsMore self.old self.new (32 ∷ bytes_text bytes.now) result }
    {
        self.add(b" x")?;
        self.digits(bytes)
    }

    /// Writes two digits for each byte.
    fn digits(&mut self, bytes: &[u8]) -> Result<(), NoMemory>
        ensures { AddsMore self.old self.new (encode_lower bytes.now) result }
    {
        let at = self.bytes.len();
        let Some(end) = at.checked_add(2 * bytes.len()) else {
            return Err(NoMemory);
        };
        match self.bytes.resize(end, 0) {
            Ok(()) => {
                encode(bytes, &mut self.bytes[at..]);
                Ok(())
            }
            Err(_) => Err(NoMemory),
        }
    }
}

/// Puts two digits for each byte.
fn encode(bytes: &[u8], digits: &mut [u8])
    requires { length digits.old ≡ 2 * length bytes.now }
    ensures { digits.new ≡ encode_lower bytes.now }
{
    match hex::encode_to_slice(bytes, digits) {
        Ok(()) => {}
        Err(_) => unreachable!(),
    }
}
