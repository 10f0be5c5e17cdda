//! What the definitions of a call have in common.

ghost use Rattle.std.specs.Prelude.{◌≡◌, Option};
ghost use Rattle.trapeze_io.specs.Seen.{Held};
ghost use Rattle.trapeze_cli.specs.Forms.{Command};
ghost use Rattle.trapeze_cli.specs.Command.{Answer, IsAnswerOf, IsTask};

/// Words and files say one answer at most.
pub fn one_answer()
    ensures { (words : Option Command) (held : Held) (a b : Answer) →
        IsAnswerOf (IsTask words) held a → IsAnswerOf (IsTask words) held b → a ≡ b }
{}
