// The ask: the refusals that come before the text is read, and an answer as numbers. Rests on all below.
// What a reader must believe stands in specs/Ask.antt: `AskedAs`; `answer_of`, `number_of`, `value_of` and `coded`; `early`.
#![tactic(auto)]

ghost use Rattle.std.specs.Prelude.{◌≡◌};
ghost use Rattle.policy.specs.Refused.{number_in, refusal_number};
ghost use Rattle.ask.specs.Ask.{answer_of, asked_of, number_of, value_of, coded, early};
ghost use Rattle.ask.specs.declared.Unanswered.TheVariants.{Refused as refused};

use gran::{Asked, NO_ID};
use policy::refusal::{Refusal, Refused};

// The longest text, and the least lengths of the store, in bytes, and of the work area, in numbers.
pub const TEXT: usize = 32768;

pub const STORE: usize = 16384;

pub const WORK: usize = 24576;

// The largest value that a coded answer has room for.
const LARGEST: usize = 4294967295;

// What an ask answers: the answer's length, or why there is none.
pub type Answer = Result<usize, Unanswered>;

#[derive(Clone, Copy, PartialEq, Eq)]
pub enum Unanswered {
    // The ask or the text is refused, with a number from 1 to 16 and the line. A number, since `number`, `code` and what is printed are promised
    // for every one of them.
    Refused(u8, usize),
    // The answer does not fit the room: 17, with the bytes needed.
    Short(usize),
}

impl From<Refused> for Unanswered {
    ghost from_gives = { λ r u. u ≡ refused (refusal_number r.refusal) r.line };

    fn from(refused: Refused) -> Unanswered {
        Unanswered::Refused(refused.refusal.number(), refused.line)
    }
}

// 0 for an accepted ask, else the refusal.
pub fn number(answer: Answer) -> u8
    ensures { result ≡ number_of (answer_of answer) }
{
    match answer {
        Ok(_) => 0,
        Err(Unanswered::Refused(number, _)) => number,
        Err(Unanswered::Short(_)) => 17,
    }
}

// The answer's length, the refusal's line, or the bytes needed.
pub fn value(answer: Answer) -> usize
    ensures { result ≡ value_of (answer_of answer) }
{
    match answer {
        Ok(size) => size,
        Err(Unanswered::Refused(_, line)) => line,
        Err(Unanswered::Short(needed)) => needed,
    }
}

// The answer as one number, for C.
#[tactic(auto, unfolding(crate::specs::Ask::coded))]
pub fn code(answer: Answer) -> u64
    ensures { result ≡ coded (answer_of answer) }
{
    let number = u64::from(number(answer));
    let value = value(answer).min(LARGEST);
    number * 4294967296 + value as u64
}

// The lowest of the refusals 1 to 6, over the lengths of text, store and work area.
#[tactic(auto, unfolding(crate::specs::Ask::early))]
pub fn early(text: usize, store: usize, work: usize, asked: Asked) -> Result<(), Refusal>
    ensures { number_in result ≡ early text store work (asked_of asked.entry) }
{
    if TEXT < text {
        return Err(Refusal::LongText);
    }
    if store < STORE {
        return Err(Refusal::ShortStore);
    }
    if work < WORK {
        return Err(Refusal::ShortWork);
    }
    if !(paths::good_path(asked.start, false) && paths::good_path(asked.target, false)) {
        return Err(Refusal::BadPath);
    }
    if asked.uid == NO_ID || asked.gid == NO_ID {
        return Err(Refusal::Nobody);
    }
    if 1 < asked.kind {
        return Err(Refusal::BadKind);
    }
    Ok(())
}
