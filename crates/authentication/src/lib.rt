// The steps of an authentication at tag and reader, by value: the cipher, the one comparison, the next state and the reply by its
// fields. Keys, keystream and numbers choose no branch here but through the verdict of a whole comparison. No public function has a
// `requires`. Methods, options and a response's status are bytes: each of them has an answer, as in the calls of `suite`.
#![tactic(auto)]

ghost use Rattle.std.specs.Prelude.{◌≡◌};
ghost use Rattle.rules.specs.Results.{reached, differed};
ghost use Rattle.authentication.specs.Outcomes.{handed};

pub mod reader;
pub mod tag;

use payloads::Payload;
use rules::Answer;

// What a step gives at either machine, its reply not yet written.
#[derive(Clone, Copy)]
pub struct Outcome<S> {
    pub next: S,
    pub answer: Answer,
    pub reply: Payload,
}

impl<S> Outcome<S> {
    pub(crate) fn reached(next: S, reply: Payload) -> Outcome<S>
        ensures { result ≡ handed (reached next reply) }
    {
        Outcome {
            next,
            answer: Answer::Done,
            reply,
        }
    }

    pub(crate) fn differed(next: S, reply: Payload) -> Outcome<S>
        ensures { result ≡ handed (differed next reply) }
    {
        Outcome {
            next,
            answer: Answer::Mismatch,
            reply,
        }
    }
}
