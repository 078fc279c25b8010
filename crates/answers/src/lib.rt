// What an entry answers: acceptance with the length of what it wrote, or why it refuses; and both as document 01 counts them.
#![tactic(auto)]

ghost use Rattle.std.specs.Prelude.{◌≡◌};
ghost use Rattle.answers.specs.Numbers.{IsNumberOf, length_of};

use refusals::Refusal;

// Accepted, with the length in bytes of the image that was written, 0 where none is; or refused.
pub type Answer = Result<usize, Refusal>;

// Document 01's number: 0 for acceptance. A refusal is one of document 01's, or what else has a number.
pub fn number<E: Into<u32>>(a: Result<usize, E>) -> u32
    ensures { IsNumberOf E.converts a result }
{
    match a {
        Ok(_) => 0,
        Err(e) => e.into(),
    }
}

// The length that goes with it: 0 for a refusal.
pub fn length<E: Drop>(a: Result<usize, E>) -> usize
    ensures { result ≡ length_of a }
{
    a.unwrap_or(0)
}
