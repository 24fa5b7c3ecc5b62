//! What holds of lines by their spelling alone.
ghost use Rattle.std.specs.Prelude.{◌≡◌, ℕ, List, Option};
ghost use Rattle.lt_lang.specs.Sentences.{IsSentence, IsSkipped};
ghost use Rattle.lt_command.specs.declared.command.Command.{Command as Asked};
ghost use Rattle.lt_command.specs.declared.command.Line.TheVariants.{Command as Asks};

/// The same bytes spell one command at most, and no remark beside it.
pub fn one_meaning()
    ensures command { (bytes client other : List ℕ) (moment when : Option ℕ) (command request : Asked) → IsSentence bytes client moment command → IsSentence bytes other when request → Asks client moment command ≡ Asks other when request }
    ensures remark { (bytes client : List ℕ) (moment : Option ℕ) (command : Asked) → IsSkipped bytes → IsSentence bytes client moment command → ⊥ }
{}
