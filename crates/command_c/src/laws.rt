//! Laws about the definitions alone: each function's contract is the law.

ghost use Rattle.std.specs.Prelude.{◌≡◌, ◌⊎◌, false, ℕ, List};
ghost use Rattle.clap.specs.Words.{Text};
ghost use Rattle.command_c.specs.Answer.{AnswersTexts, Ended, Runs, out_of_memory};
ghost use Rattle.command_c.specs.Memory.{absent, given};

/// An input that is not read has no part in the answer: what the command leaves over an input that
/// is not there, without reading it, it leaves over every input.
pub fn an_unread_input_has_no_part()
    ensures run { (words : List Text) (ended : Ended) → Runs words (absent false) ended
        → (input : List ℕ) → Runs words (given input input) ended }
    ensures answer { (words : List Text) (input : List ℕ) (ended : Ended)
        → AnswersTexts words input false ended → (other : List ℕ)
        → Runs words (given other other) ended ⊎ (ended ≡ out_of_memory) }
{}
