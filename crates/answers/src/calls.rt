// The lists of calls of a read-out. A call is two numbers: a budget, then the length of its chunk.
ghost use Rattle.std.specs.Prelude.{◌≤◌, length};

use crate::output::{Output, Put};
use crate::request::{NUMBERS_LEN, Request, Take, lay_values};
use bank::Wanted;
use bank::call_list::{Answer, Call, lay_calls};

// A request has no more calls.
pub(crate) const CALLS_LEN: usize = NUMBERS_LEN / 2;

// As many calls, or answers, as most lists have. Each place costs time to fill: with room for the longest list at every
// request, that is most of its time.
pub(crate) const FEW: usize = 64;

// A place for a call.
pub(crate) const NO_CALL: Call = Call::Wanting { budget: 0 };

// A place for an answer: the number 0.
pub(crate) const NO_ANSWER: Answer = Answer::Wanting(Ok(Wanted::Chunk(0)));

// A list of calls, and what is lent for its answers, as a request has them. The chunks stand one behind the other, and a chunk
// has what is there of its bytes.
#[derive(Clone, Copy)]
pub(crate) struct CallList<'a> {
    pub(crate) numbers: &'a [[u8; 2]],
    pub(crate) chunks: &'a [u8],
    pub(crate) answers: &'a [[u8; 2]],
}

impl<'a> CallList<'a> {
    pub(crate) fn is_short(self) -> bool {
        self.numbers.len() <= 2 * FEW && self.answers.len() <= FEW
    }

    // Reads the calls to the start of space, as many as there is room for.
    pub(crate) fn lay<'s>(self, space: &'s mut [Call<'a>]) -> &'s mut [Call<'a>]
        ensures { length result.now ≤ length space.old }
    {
        let mut numbers = [0; NUMBERS_LEN];
        let numbers = lay_values(self.numbers, &mut numbers);
        let count = lay_calls(numbers, self.chunks, space);
        &mut space[..count]
    }

    // The same for the answers. A number that is lent stands as the length of a wanted chunk until an answer is stored over it.
    pub(crate) fn lend<'s>(self, space: &'s mut [Answer]) -> &'s mut [Answer]
        ensures { length result.now ≤ length space.old }
    {
        lay_values(self.answers, space)
    }
}

impl Take<'_> for Answer {
    fn take(request: &mut Request) -> Self {
        Answer::Wanting(Ok(Wanted::Chunk(request.take())))
    }
}

impl Put for Answer {
    fn put(self, out: &mut Output) {
        out.put(self.number());
    }
}
