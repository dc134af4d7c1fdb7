// The one order of refusals (document 01, "Order"), for every call of tag and reader.
ghost use Rattle.std.specs.Prelude.{◌≡◌, cond, Ok, Err};
ghost use Rattle.rules.specs.Answers.{keep, close, closing_of, verdict_of, kept};

use crate::{Answer, Closing, Keeping, Refused, Verdict};

#[tactic(auto, unfolding(crate::specs::Answers::verdict_of))]
pub(crate) fn verdict(k: Keeping, c: Closing) -> Verdict
    ensures { result ≡ verdict_of k c }
{
    refuse(k.buffer, keep(Answer::SmallBuffer))?;
    refuse(k.argument, keep(Answer::BadArgument))?;
    refuse(k.book, keep(Answer::BadBook))?;
    refuse(k.error, keep(Answer::Closed))?;
    refuse(k.work, keep(Answer::NoWork))?;
    closing(c)
}

#[tactic(auto, unfolding(crate::specs::Answers::closing_of))]
fn closing(c: Closing) -> Verdict
    ensures { result ≡ closing_of c }
{
    refuse(c.kind, close(Answer::WrongKind))?;
    refuse(c.length, close(Answer::WrongLength))?;
    refuse(c.step, close(Answer::WrongKind))?;
    refuse(c.key, close(Answer::UnknownKey))?;
    refuse(c.support, close(Answer::Unsupported))
}

// Refuses where a check does.
fn refuse(check: bool, refused: Refused) -> Verdict
    ensures { result ≡ cond check (Err refused) (Ok tt) }
{
    if check { Err(refused) } else { Ok(()) }
}

// The same refusals, and each keeps the state.
#[tactic(auto, unfolding(crate::specs::Answers::kept))]
pub(crate) fn kept(v: Verdict) -> Verdict
    ensures { result ≡ kept v }
{
    v.map_err(|refused| keep(refused.answer))
}

pub(crate) fn keep(answer: Answer) -> Refused
    ensures { Err result ≡ keep answer }
{
    Refused {
        closes: false,
        answer,
    }
}

fn close(answer: Answer) -> Refused
    ensures { Err result ≡ close answer }
{
    Refused {
        closes: true,
        answer,
    }
}
