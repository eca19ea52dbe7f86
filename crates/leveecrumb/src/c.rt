// The ask over numbers and byte areas alone, as C asks it. The work area is lent as bytes, two a number.
// What a reader must believe stands in `ask`'s specs/Ask.antt: `CodedAs`.
ghost use Rattle.std.specs.Prelude.{◌*◌, ◌≤◌};
ghost use Rattle.fields.specs.Fields.{policy_in};
ghost use Rattle.numbered.specs.Number.{all_states, sizes_of};
ghost use Rattle.reply.specs.Reply.{Held, Answers};
ghost use Rattle.ask.specs.Ask.{answer_of, asked_of, AskedInBytes, CodedAs};

use ask::Answer;
use gran::Asked;
use reply::FEW;

// The work area's named part in bytes.
pub const WORK: usize = 49152;

// How many numbers a work area of the call's own has for few states, and for as many as there can be.
const FEW_NUMBERS: usize = walk::EACH * FEW;

const NUMBERS: usize = ask::WORK;

// The answer, on a work area of so many numbers.
fn answer_on<const SIZE: usize>(store: &[u8], room: &mut [u8], asked: Asked) -> Answer
    requires held { Held store.now }
    requires long { 3 * all_states (sizes_of (policy_in store.now)) ≤ SIZE }
    requires small { SIZE ≤ 24576 }
    ensures { Answers (policy_in store.now) (asked_of asked.entry) room.old (answer_of result) room.new }
{
    let mut numbers = [0; SIZE];
    reply::respond(store, &mut numbers, room, asked)
}

// The answer, over numbers of the call's own: to make and clear all of them would take half of the time of a small ask.
fn answer(store: &[u8], room: &mut [u8], asked: Asked) -> Answer
    requires { Held store.now }
    ensures { Answers (policy_in store.now) (asked_of asked.entry) room.old (answer_of result) room.new }
{
    if reply::states(store) <= FEW {
        answer_on::<FEW_NUMBERS>(store, room, asked)
    } else {
        answer_on::<NUMBERS>(store, room, asked)
    }
}

// `ask` with the work area as bytes. Bytes are no numbers to Rattle, so the numbers are the call's own; the lent bytes must have room for as many.
fn ask_in_bytes(
    text: &[u8],
    store: &mut [u8],
    work: &mut [u8],
    room: &mut [u8],
    asked: Asked,
) -> Answer
    ensures { AskedInBytes text.now (asked_of asked.entry) (record { store = store.old; work = work.old; room = room.old }) (record { answer = answer_of result; left = record { store = store.new; work = work.new; room = room.new } }) }
{
    crate::loaded(text, store, work.len() / 2, asked)?;
    let answer = answer(store, room, asked);
    rows::clear(&mut work[..WORK]);
    answer
}

// The same for C, with the answer as one number: the refusal, 0 for none, × 2^32, and the answer's length, the line or the bytes needed.
pub fn leveecrumb_ask(
    text: &[u8],
    store: &mut [u8],
    work: &mut [u8],
    room: &mut [u8],
    asked: Asked,
) -> u64
    ensures { CodedAs text.now (asked_of asked.entry) (record { store = store.old; work = work.old; room = room.old }) result (record { store = store.new; work = work.new; room = room.new }) }
{
    let answer = ask_in_bytes(text, store, work, room, asked);
    ask::code(answer)
}
