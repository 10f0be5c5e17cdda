//! What holds of every text.

ghost use Rattle.std.specs.Prelude.{ℕ, ◌≡◌, ◌⊎◌, List, Ok, Err};
ghost use Rattle.wat_lex.specs.declared.pieces.Token.{Token};
ghost use Rattle.wat_lex.specs.Lexing as lexing;
ghost use Rattle.wat_lex.specs.Sentences.{AreTokens, HasFault};

/// A text has tokens or a fault.
pub fn has_tokens_or_a_fault()
    ensures { (text : List ℕ) → ((ts : List Token) × AreTokens text ts) ⊎ ((at : ℕ) × HasFault text at) }
{}

/// A text has at most one list of tokens, at most one fault, and never both.
pub fn at_most_one_list()
    ensures tokens { (text : List ℕ) (ts us : List Token) → AreTokens text ts → AreTokens text us → ts ≡ us }
    ensures fault { (text : List ℕ) (at by : ℕ) → HasFault text at → HasFault text by → at ≡ by }
    ensures never_both { (text : List ℕ) (ts : List Token) (at : ℕ) → AreTokens text ts → HasFault text at → ⊥ }
{}

/// Reading a byte at a time finds the tokens that the text has, or its fault.
pub fn read_as_it_is_spelled()
    ensures tokens { (text : List ℕ) (ts : List Token) → AreTokens text ts → lexing.tokens text ≡ Ok ts }
    ensures fault { (text : List ℕ) (at : ℕ) → HasFault text at → lexing.tokens text ≡ Err at }
    ensures has_tokens { (text : List ℕ) (ts : List Token) → lexing.tokens text ≡ Ok ts → AreTokens text ts }
    ensures has_fault { (text : List ℕ) (at : ℕ) → lexing.tokens text ≡ Err at → HasFault text at }
{}
