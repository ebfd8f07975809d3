// The answer of a question in numbers, for programs in C.
ghost use Rattle.std.specs.Prelude.{◌≡◌, ◌≤◌, length};
ghost use Rattle.std.proofs.lemmas.List.Edits.{sets};
ghost use Rattle.refusal.specs.Asked.{asked};
ghost use Rattle.refusal.specs.Outcome.{outcome_of};

use crate::Refusal;
use crate::short::too_short;

// Writes numbers to the front of a slice.
fn put<const N: usize>(numbers: [usize; N], slice: &mut [usize])
    requires { N ≤ length slice.old }
    ensures { slice.new ≡ sets slice.old 0 numbers.entry }
{
    slice[..N].copy_from_slice(&numbers);
}

// Answers a question about what the first `width` numbers of `given` are: puts the numbers that it
// gives to the front of `answer`, and gives the number of its refusal, or 0. A slice that is too
// short is refused by 6, and nothing is written.
pub fn answered<const N: usize>(
    given: &[usize],
    width: usize,
    outcome: Result<[usize; N], Refusal>,
    answer: &mut [usize],
) -> u8
    ensures { record { refusal = result; answer = answer.new }
        ≡ asked width given.now N (λ numbers. numbers) (outcome_of outcome.entry) answer.old }
{
    if too_short(given.len(), width, answer.len(), N) {
        return Refusal::DoesNotFit.number();
    }
    match outcome {
        Ok(numbers) => {
            put(numbers, answer);
            0
        }
        Err(refusal) => refusal.number(),
    }
}
