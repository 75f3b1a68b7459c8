// What a call answers, told in numbers: 0 and its results, or the refusal's number and its pair.
ghost use Rattle.std.specs.Prelude.{◌≡◌, List, ℕ};
ghost use Rattle.refusals.specs.Outcome.{outcome};
ghost use Rattle.boundary.specs.Answers.{none, one, result_numbers, front, number_told, answered};

use decoder::{Decode, DecodeResult};
use ldpc::Code;
use refusals::Refusal;

// How many numbers an answer has.
pub const ANSWER: usize = 3;

// The refusal of an answer of another size, which has no place for the pair.
pub const OUTPUT: usize = 9;

// What a call gives, as numbers at the front of its answer.
pub trait Answer: Drop {
    ghost numbers: { Self → List ℕ };

    fn write(self, answer: &mut [usize; ANSWER])
        ensures { answer.new ≡ front (numbers self) answer.old };
}

// A call that only fills what it is lent.
impl Answer for () {
    ghost numbers = { none };

    fn write(self, _answer: &mut [usize; ANSWER]) {
        // nothing to tell
    }
}

// A call that counts.
impl Answer for usize {
    ghost numbers = { one };

    fn write(self, answer: &mut [usize; ANSWER]) {
        answer[0] = self;
    }
}

// A read.
impl Answer for DecodeResult {
    ghost numbers = { result_numbers };

    fn write(self, answer: &mut [usize; ANSWER]) {
        answer[0] = usize::from(self.iterations);
        answer[1] = usize::from(self.converged);
        answer[2] = usize::from(self.clean);
    }
}

// A call whose record stands in a slice of its own.
impl Answer for Code {
    ghost numbers = { none };

    fn write(self, _answer: &mut [usize; ANSWER]) {
        // six numbers elsewhere
    }
}

impl Answer for Decode {
    ghost numbers = { none };

    fn write(self, _answer: &mut [usize; ANSWER]) {
        // eight numbers elsewhere
    }
}

// Tells what a call gave, or the pair of its refusal, and answers the number.
pub fn tell<A: Answer>(given: Result<A, Refusal>, answer: &mut [usize; ANSWER]) -> usize
    ensures value { result ≡ number_told (outcome given) }
    ensures answer_after { answer.new ≡ answered A.numbers (outcome given) answer.old }
{
    match given {
        Ok(results) => {
            results.write(answer);
            0
        }
        Err(refusal) => {
            let n = refusal.numbers();
            answer[0] = n.first;
            answer[1] = n.second;
            n.number
        }
    }
}
