// The second call: a row of step records against the policy of a text, for Rattle, Rust and C.
// What a reader must believe stands in specs/Replaying.antt: `replaying`.
ghost use Rattle.std.specs.Prelude.{◌≡◌};
ghost use Rattle.policy.specs.Refused.{refusal_number};
ghost use Rattle.ask.specs.Ask.{asked_of};
ghost use Rattle.leveecrumb.specs.Replaying.{refusing, telling, replaying};

use gran::Asked;
use policy::refusal::Refused;
use records::Step;
use replay::Verdict;

// How a replay ends: the refusal, 0 for none, and its line; the verdict, 0 under a refusal, 1 holds, 2 a record is no real step, 3 the access is not
// granted at the end; the last file's path number, 255 for none and unless it holds; the first record that is no real step, else 0.
// Numbers all, since an export hands back no enum.
#[repr(C)]
#[derive(Clone, Copy)]
pub struct Replayed {
    pub number: u8,
    pub verdict: u8,
    pub file: u8,
    pub line: usize,
    pub first: usize,
}

impl Replayed {
    pub const REFUSED: u8 = 0;

    pub const HOLDS: u8 = 1;

    pub const NO_STEP: u8 = 2;

    pub const DENIED: u8 = 3;
}

// A refusal, and its line.
impl From<Refused> for Replayed {
    ghost from_gives = { λ refused r. r ≡ refusing (refusal_number refused.refusal) refused.line };

    fn from(refused: Refused) -> Replayed {
        Replayed {
            number: refused.refusal.number(),
            verdict: Replayed::REFUSED,
            file: gran::NONE,
            line: refused.line,
            first: 0,
        }
    }
}

// What the records say.
impl From<Verdict> for Replayed {
    ghost from_gives = { λ verdict r. r ≡ telling verdict };

    fn from(verdict: Verdict) -> Replayed {
        let denied = Replayed {
            number: 0,
            verdict: Replayed::DENIED,
            file: gran::NONE,
            line: 0,
            first: 0,
        };
        match verdict {
            Verdict::Holds(file) => Replayed {
                verdict: Replayed::HOLDS,
                file,
                ..denied
            },
            Verdict::NoStep(first) => Replayed {
                verdict: Replayed::NO_STEP,
                first,
                ..denied
            },
            Verdict::Denied => denied,
        }
    }
}

// Whether a row of step records is a real run from the start to the access, under the policy of the text. There is no work area to be too
// short, and no record is walked after a refusal.
pub fn leveecrumb_replay(text: &[u8], store: &mut [u8], asked: Asked, steps: &[Step]) -> Replayed
    ensures { (result ≡ (replaying text.now (asked_of asked.entry) steps.now store.old).answer)
        × (store.new ≡ (replaying text.now (asked_of asked.entry) steps.now store.old).store) }
{
    match crate::loaded(text, store, ask::WORK, asked) {
        Ok(()) => replay::replay_loaded(store, asked, steps).into(),
        Err(refused) => refused.into(),
    }
}
