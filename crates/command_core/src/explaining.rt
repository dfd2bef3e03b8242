//! The command `explain`.
ghost use Rattle.std.specs.Prelude.{◌≡◌, option_map, IfOk, MatchResult};
ghost use Rattle.command_core.specs.TaskActs.{IsExplained, RefusesNever};
ghost use Rattle.front_core.specs.Refusal.{refusal_texts};
ghost use Rattle.command_core.specs.Explaining.{explanation, number_named};
ghost use Rattle.command_core.specs.Status.{answer_status};
ghost use Rattle.command_core.specs.TaskWords.{Explain, explain_task};

use crate::output::Answered;
use docs_core::Doc;
use front_core::{Answer, Outcome, Refusal, explain, number_of_code};
use std::alloc::{AllocError, Global};
use std::marker::Model;

/// A refusal to explain, with its number.
#[derive(Drop)]
pub(crate) struct Explained {
    number: u64,
    refusal: Refusal,
}

impl Model for Explained {
    ghost use Rattle.std.specs.Prelude.{◌≡◌, ℕ, Some};
    ghost use Rattle.front_core.specs.Refusal.{refusal_of, refusal_texts};

    ghost Value = { ℕ };

    ghost view = { λ it. it.number };

    ghost invariant = { λ it. refusal_of it.number ≡ Some (refusal_texts it.refusal) };
}

/// The number that is given, or that of the refusal with this word.
pub(crate) fn number_named(number: Option<u64>, word: Option<&str>) -> Option<u64>
    ensures { result ≡ number_named number (option_map (λ s. s.now) word.entry) }
{
    match (number, word) {
        (Some(number), _) => Some(number),
        (None, Some(word)) => number_of_code(word).map(u64::from),
        (None, None) => None,
    }
}

/// The refusal of this number, where there is one.
pub(crate) fn refusal_of(number: Option<u64>) -> Option<Explained>
    ensures { option_map (λ it. Explain it) result ≡ explain_task number }
{
    let number = number?;
    let refusal = explain(u8::try_from(number).ok()?)?;
    Some(Explained { number, refusal })
}

/// The lines that explain it.
pub(crate) fn answer_of(alloc: Global, it: Explained) -> Answered
    ensures { MatchResult result
        (λ answer. IsExplained it answer.text (answer_status answer.outcome)) RefusesNever }
{
    let text = lines_of(alloc, it.number, it.refusal)?;
    Ok(Answer::new(text, Outcome::Found))
}

/// What is refused, why, and what to do, a line each.
fn lines_of(alloc: Global, number: u64, refusal: Refusal) -> Result<Doc, AllocError>
    ensures { IfOk result (λ text. text ≡ explanation number (refusal_texts refusal)) }
{
    let Refusal {
        meaning,
        cause,
        remedy,
        ..
    } = refusal;
    let text = format!(in alloc;
        "refusal {number}\nrule: {meaning}\ncause: {cause}\nwhat to do: {remedy}\n"
    )?;
    Ok(Doc::from(text))
}
