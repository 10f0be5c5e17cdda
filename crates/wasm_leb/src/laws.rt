ghost use Rattle.std.specs.Prelude.{ℕ, ◌≡◌, ◌≤◌, ◌-◌, ◌^◌, Bool, true, false, List, ◌++◌, length, Ok};
ghost use Rattle.wasm_leb.specs.Leb.{leb, Spells, IsReadFrom};

/// The reading and the grammar agree at each width: what is spelled, followed by any bytes, is read
/// with its value and length, and what is read is spelled by the bytes that it uses.
pub fn spelled_is_read()
    ensures read { (signed : Bool) (top n : ℕ) (front rest : List ℕ) → Spells signed top n front →
        leb signed top (front ++ rest) ≡ Ok (n, length front) }
    ensures spelled { (signed : Bool) (top : ℕ) (bytes : List ℕ) (found : ℕ × ℕ) →
        leb signed top bytes ≡ Ok found → IsReadFrom signed top bytes found }
{}

/// No spelling of a 32-bit integer has a sixth byte, and none of a signed 64-bit integer an eleventh.
pub fn no_sixth_byte()
    ensures u32 { (n : ℕ) (bytes : List ℕ) → Spells false (2 ^ 32 - 1) n bytes → length bytes ≤ 5 }
    ensures s32 { (n : ℕ) (bytes : List ℕ) → Spells true (2 ^ 32 - 1) n bytes → length bytes ≤ 5 }
    ensures s64 { (n : ℕ) (bytes : List ℕ) → Spells true (2 ^ 64 - 1) n bytes → length bytes ≤ 10 }
{}
