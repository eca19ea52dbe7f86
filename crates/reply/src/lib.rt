// The answer to a question about a policy in the store: its tables, the search, the lines. Rests on all below.
// What a reader must believe stands in specs/Reply.antt (`Held`, `Responded`) and in the specs/ of `ask` (`Lines`).
#![tactic(auto)]

mod run;
mod start;

ghost use Rattle.std.specs.Prelude.{◌≡◌, ◌*◌, ◌≤◌, IsTrue, length};
ghost use Rattle.fields.specs.Fields.{policy_in};
ghost use Rattle.numbered.specs.Number.{all_states, sizes_of};
ghost use Rattle.records.specs.Record.{summary};
ghost use Rattle.ask.specs.Ask.{answer_of, asked_of};
ghost use Rattle.reply.specs.Reply.{Held, Told, Answers, Blank, Responded};
ghost use Rattle.reply.specs.Run.{Over};

use ask::{Answer, Unanswered};
use gran::{Asked, Process};
use run::{Searched, Writing};

// The length of an answer's first line.
const SUMMARY: usize = 13;

// So many states are few. Most policies have no more, and small areas are soon made.
pub const FEW: usize = 1024;

// No policy has more states.
const MOST: usize = 8192;

// Room for the tables; a contract over its content would write it out.
fn no_tables() -> [u8; 8192] {
    [0; 8192]
}

// The answer where the access is never had: all states that are reached.
fn never(room: &mut [u8], opened: usize) -> Answer
    requires { opened ≤ 8192 }
    ensures { Told (summary 0 opened 0) room.old (answer_of result) room.new }
{
    if room.len() < SUMMARY {
        return Err(Unanswered::Short(SUMMARY));
    }
    Ok(records::put_summary(room, 0, opened as u16, 0))
}

// The answer with the run to the last state found, which has a place for each of its steps: the states opened before it, and its steps.
fn reached<const PLACES: usize>(searched: Searched, room: &mut [u8]) -> Answer
    requires ended { Over searched }
    requires met { IsTrue searched.end.met }
    requires room { searched.end.count ≤ PLACES }
    requires few { PLACES ≤ 8192 }
    ensures { (g : Over searched.entry) → Answers (policy_in searched.entry.store.now) g.asked room.old (answer_of result) room.new }
{
    let opened = searched.end.count - 1;
    let mut places = [0; PLACES];
    let steps = walk::trace(searched.area, opened, &mut places);
    let run = &places[..steps];
    let size = SUMMARY + searched.run_length(run);
    if room.len() < size {
        return Err(Unanswered::Short(size));
    }
    let first = Writing {
        at: records::put_summary(room, 1, opened as u16, steps as u16),
        from: usize::from(searched.area[0]),
        process: searched.start,
    };
    searched.write_run(run, room, first);
    Ok(size)
}

// The answer after a search.
fn told(searched: Searched, room: &mut [u8]) -> Answer
    requires { Over searched }
    ensures { (g : Over searched.entry) → Answers (policy_in searched.entry.store.now) g.asked room.old (answer_of result) room.new }
{
    let end = searched.end;
    if !end.met {
        return never(room, end.count);
    }
    if end.count <= FEW {
        return reached::<FEW>(searched, room);
    }
    reached::<MOST>(searched, room)
}

// How many states the policy in the store has.
pub fn states(store: &[u8]) -> usize
    requires { Held store.now }
    ensures { result ≡ all_states (sizes_of (policy_in store.now)) }
{
    walk::state::all_states(start::sizes(store))
}

// Answers a question about the policy in the store, on a work area of zeros, three at least for each of its states, and leaves them zero.
pub fn respond(store: &[u8], area: &mut [u16], room: &mut [u8], asked: Asked) -> Answer
    requires held { Held store.now }
    requires blank { Blank (policy_in store.now) area.old }
    ensures { Responded (policy_in store.now) (asked_of asked.entry) room.old (answer_of result) room.new (length area.old) area.new }
{
    let mut tables = no_tables();
    tables::fill(store, asked.target, asked.kind, &mut tables);
    let sizes = start::sizes(store);
    let from = start::start_number(store, &tables, sizes, asked);
    let end = walk::search(area, store, &tables, sizes, from);
    let searched = Searched {
        area,
        store,
        tables: &tables,
        sizes,
        end,
        start: Process::start(asked.uid, asked.gid),
    };
    let answer = told(searched, room);
    walk::wipe(area, sizes);
    answer
}
