// The library for C: the ask, the replay of a text and the last file, each an export of its own. Rests on `leveecrumb` and all below.
// Each export calls the function of that name in `leveecrumb` and states its clauses again, as the kit wants it, with C's parameters apart:
// what a reader must believe stands in `ask`'s specs/Ask.antt: `CodedAs`; in `leveecrumb`'s specs/Replaying.antt: `replaying`; in its
// specs/Parts.antt: `LastPart`.
#![tactic(auto)]

ghost use Rattle.std.specs.Prelude.{◌≡◌};
ghost use Rattle.ask.specs.Ask.{CodedAs};
ghost use Rattle.leveecrumb.specs.Replaying.{replaying};
ghost use Rattle.leveecrumb.specs.Parts.{LastPart};

use gran::Asked;
use leveecrumb::again::Replayed;
use leveecrumb::last::Part;

// `ask` for C, with the answer as one number: the refusal, 0 for none, × 2^32, and the answer's length, the line or the bytes needed.
#[unsafe(no_mangle)]
pub extern "C" fn leveecrumb_ask(
    text: &[u8],
    store: &mut [u8],
    work: &mut [u8],
    room: &mut [u8],
    uid: u32,
    gid: u32,
    start: &[u8],
    target: &[u8],
    kind: u8,
) -> u64
    ensures { CodedAs text.now (record { uid = uid; gid = gid; start = start.now; target = target.now; kind = kind }) (record { store = store.old; work = work.old; room = room.old }) result (record { store = store.new; work = work.new; room = room.new }) }
{
    let asked = Asked {
        uid,
        gid,
        start,
        target,
        kind,
    };
    leveecrumb::c::leveecrumb_ask(text, store, work, room, asked)
}

// Whether a row of step records is a real run from the start to the access, under the policy of the text.
#[unsafe(no_mangle)]
pub extern "C" fn leveecrumb_replay(
    text: &[u8],
    store: &mut [u8],
    uid: u32,
    gid: u32,
    start: &[u8],
    target: &[u8],
    kind: u8,
    steps: &[records::Step],
) -> Replayed
    ensures { (result ≡ (replaying text.now (record { uid = uid; gid = gid; start = start.now; target = target.now; kind = kind }) steps.now store.old).answer)
        × (store.new ≡ (replaying text.now (record { uid = uid; gid = gid; start = start.now; target = target.now; kind = kind }) steps.now store.old).store) }
{
    let asked = Asked {
        uid,
        gid,
        start,
        target,
        kind,
    };
    leveecrumb::again::leveecrumb_replay(text, store, asked, steps)
}

// The last file's path, by its number: 255 the whole start, else a part of the store, which is empty where the store's bytes name no such path.
#[unsafe(no_mangle)]
pub extern "C" fn leveecrumb_last_file(start: &[u8], store: &[u8], number: u8) -> Part
    ensures { LastPart start.now store.now number result }
{
    leveecrumb::last::leveecrumb_last_file(start, store, number)
}
