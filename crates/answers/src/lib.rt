// The numbers of answers and the codes of statuses.

#![tactic(auto)]

ghost use Rattle.std.specs.Prelude.{◌≡◌};
ghost use Rattle.rules.specs.Answers.{code, refusal_number, answer_number};

use rules::{Refusal, Status};

/// The number of a refusal.
#[tactic(auto, unfolding(rules::specs::Answers::refusal_number))]
pub fn refusal_number(refusal: Refusal) -> u64
    ensures { result ≡ refusal_number refusal }
{
    refusal as u64
}

/// What a call answers: 0 where it is done, else the number of its refusal.
#[tactic(auto, unfolding(rules::specs::Answers::answer_number))]
pub fn answer_number<T>(outcome: &Result<T, Refusal>) -> u64
    ensures { result ≡ answer_number outcome.now }
{
    match outcome {
        Ok(_) => 0,
        Err(refusal) => refusal_number(*refusal),
    }
}

/// The code of a status.
#[tactic(auto, unfolding(rules::specs::Answers::code))]
pub fn code(status: Status) -> u16
    ensures { result ≡ code status }
{
    status as u16
}
