// What is answered where there is nothing to give back but yes or no.
ghost use Rattle.std.specs.Prelude.{◌≡◌};
ghost use Rattle.terms.specs.Verdicts.{number_in, verdict_in};

use crate::refusal::Refusal;

pub type Verdict = Result<(), Refusal>;

// As the paper counts: 0, or the refusal's number.
pub fn number<T>(answer: &Result<T, Refusal>) -> u8
    ensures { result ≡ number_in answer.now }
{
    match answer {
        Ok(_) => 0,
        Err(why) => why.number(),
    }
}

// The verdict that an answer tells, whatever is given back where it is yes.
pub fn verdict_of<T>(answer: &Result<T, Refusal>) -> Verdict
    ensures { result ≡ verdict_in answer.now }
{
    match answer {
        Ok(_) => Ok(()),
        Err(why) => Err(*why),
    }
}
