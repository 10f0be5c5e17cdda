//! The words of a line.

ghost use Rattle.std.specs.Prelude.{◌≡◌, ◌==◌, [], ◌∷◌, MatchOption, position};
ghost use Rattle.trapeze_io.specs.Words.{words_of};

use std::marker::Model;

/// The words of a line that are not read yet: the parts before, between and after its spaces.
#[derive(Drop)]
pub struct Words<'a> {
    rest: Option<&'a [u8]>,
}

impl<'a> Model for Words<'a> {
    ghost use Rattle.std.specs.Prelude.{List, ℕ};

    ghost Value = { List (List ℕ) };

    ghost use Rattle.trapeze_io.specs.Words.{words_left};

    ghost view = { λ words. words_left words.rest };
}

impl<'a> Words<'a> {
    /// The words of the line.
    pub fn of(line: &'a [u8]) -> Words<'a>
        ensures { result ≡ words_of line.now }
    {
        Words { rest: Some(line) }
    }

    /// The next word.
    pub fn next_word(&mut self) -> Option<&'a [u8]>
        ensures { MatchOption result ((self.old ≡ []) × (self.new ≡ [])) (λ word. self.old ≡ word.now ∷ self.new) }
    {
        let text = self.rest?;
        match space_in(text) {
            Some(at) => {
                self.rest = Some(&text[at + 1..]);
                Some(&text[..at])
            }
            None => {
                self.rest = None;
                Some(text)
            }
        }
    }
}

/// The place of the first space.
fn space_in(text: &[u8]) -> Option<usize>
    ensures { result ≡ position (λ x. x == 32) text.now }
{
    text.iter().position(|x| *x == b' ')
}
