//! Reading a number among the words.

ghost use Rattle.std.specs.Prelude.{◌≡◌};
ghost use Rattle.std.specs.Char.{is_ascii_digit};
ghost use Rattle.std.specs.List.{list_all};
ghost use Rattle.trapeze_cli.specs.Numbers.{number_said};

/// The most digits of a number.
const MOST_DIGITS: usize = 20;

/// The number that a word says, where it says one: 1 to 20 decimal digits, with a value below 2^64. It takes no memory.
pub(crate) fn number_said(word: &str) -> Option<u64>
    ensures { result ≡ number_said word.now }
{
    if word.len() > MOST_DIGITS {
        return None;
    }
    if !are_digits(word.as_bytes()) {
        return None;
    }
    match word.parse::<u64>() {
        Ok(number) => Some(number),
        Err(_) => None,
    }
}

fn are_digits(word: &[u8]) -> bool
    ensures { result ≡ list_all is_ascii_digit word.now }
{
    word.iter().all(|digit| digit.is_ascii_digit())
}
