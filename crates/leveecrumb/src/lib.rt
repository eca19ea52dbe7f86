// The door: the ask, the replay of a text and the last file, for every value of each of their arguments. Rests on all crates below.
// What a reader must believe of the ask stands in `ask`'s specs/Ask.antt: `AskedAs`; for C, `CodedAs`; of the other two, in specs/Replaying.antt and specs/Parts.antt.
#![tactic(auto)]

ghost use Rattle.policy.specs.Refused.{refused_number, refused_line};
ghost use Rattle.ask.specs.Ask.{answer_of, asked_of, AskedAs};
ghost use Rattle.leveecrumb.specs.Opening.{LoadsAs};

use ask::Answer;
use gran::Asked;
use policy::refusal::Refused;

pub mod again;
pub mod c;
pub mod last;

// Loads the text into the store, unless one of 1 to 6 refuses the call. `work` is the work area's length.
fn loaded(text: &[u8], store: &mut [u8], work: usize, asked: Asked) -> Result<(), Refused>
    ensures { LoadsAs text.now (asked_of asked.entry) work store.old (refused_number result) (refused_line result) store.new }
{
    ask::early(text.len(), store.len(), work, asked)?;
    load::load(text, store)
}

// Asks whether the account with this UID and GID, which began in the file `start`, can come to read (kind 0) or write (1) the target.
// The answer's lines stand in front of the room.
pub fn ask(text: &[u8], store: &mut [u8], work: &mut [u16], room: &mut [u8], asked: Asked) -> Answer
    ensures { AskedAs text.now (asked_of asked.entry) (record { store = store.old; work = work.old; room = room.old }) (record { answer = answer_of result; left = record { store = store.new; work = work.new; room = room.new } }) }
{
    loaded(text, store, work.len(), asked)?;
    // A lent work area may hold anything.
    let area = &mut work[..ask::WORK];
    walk::clear(area);
    reply::respond(store, area, room, asked)
}
