// The search: breadth first over the states of a policy, as numbers, on a lent work area. Rests on `numbered` and what that rests on.
// Its code and contracts speak of numbers alone (specs/Walk.antt, `search` and `trail`). What the end of a search means in the model's terms
// stands in specs/Found.antt, `Met`, and in gran's `Unreached`; proofs/Found.antt shows that it holds, so no reader need believe the rest.
#![tactic(auto)]

mod area;
mod execs;
mod few;
pub mod state;
mod steps;

ghost use Rattle.std.specs.Prelude.{◌≡◌, false, ℕ, ◌≤◌, ◌<◌, length, get_or};
ghost use Rattle.lines.specs.Line.{zeros};
ghost use Rattle.numbered.specs.Number.{all_states, Sized};
ghost use Rattle.numbered.specs.Candidates.{goal_at, candidates};
ghost use Rattle.walk.specs.Walk as spec;
ghost use Rattle.walk.specs.Walk.{Cleared, trail, Written};
ghost use Rattle.walk.specs.Needed.{walk_of, Going, Opened, Rest, Rooted};

use area::{Given, visit};
use execs::exec_once;
use fields::entry_caps;
use gran::Caps;
use numbered::{Digits, Sizes};
use state::{all_states, entry_at, role_at};
use steps::{Span, offer_span};

// The work area has three numbers for each state: number 3k is place k of the queue, 3n + 1 the mark and 3n + 2 the label of state n. It is
// lent as numbers, and lies side by side so that few states need a small one; so no struct and no three arrays.
pub const EACH: usize = 3;

const MARK: usize = 1;

pub const LABEL: usize = 2;

// A flag for each special role and each byte that the tables may give as the entry in force.
pub const FLAGS: usize = 2048;

// How many states were found, and whether the last of them has the access, which ends the search.
#[derive(Clone, Copy)]
pub struct Progress {
    pub count: usize,
    pub met: bool,
}

// The steps of state `n`: 81, 82, 83, 84.
fn expand(
    area: &mut [u16],
    given: Given,
    n: usize,
    opened: &mut [bool; FLAGS],
    w: Progress,
) -> Progress
    requires { Going given.sizes given.place (walk_of area.old w) × ((n < all_states given.sizes) × Opened given.store.now given.tables.now given.sizes opened.old (walk_of area.old w)) }
    ensures { (walk_of area.new result ≡ spec.visits (goal_at given.entry.tables.now given.entry.sizes) given.entry.place (candidates given.entry.store.now given.entry.tables.now given.entry.sizes n) (walk_of area.old w)) × Opened given.entry.store.now given.entry.tables.now given.entry.sizes opened.new (walk_of area.new result) }
{
    let z = given.sizes;
    let d = Digits::of(n, z);
    let role = role_at(given.tables, d);
    let entry = entry_at(given.tables, d, role);
    let caps = Caps {
        bits: entry_caps(given.store, entry),
    };
    let w1 = offer_span(area, given, true, Span::of_specials(z, d, role), w);
    let w2 = offer_span(area, given, caps.set_uid(), Span::of_users(z, d, entry), w1);
    let w3 = offer_span(
        area,
        given,
        caps.set_gid(),
        Span::of_groups(z, d, entry),
        w2,
    );
    exec_once(area, given, d, entry, opened, w3)
}

// No special role and entry opened yet.
fn none_opened() -> [bool; FLAGS]
    ensures { (i : ℕ) → get_or result i false ≡ false }
{
    [false; FLAGS]
}

// The search from state `start`, in a cleared work area, until the access is met or every state that can be reached is found. Once all
// states there are were found, no step can change anything: it ends there, and opens no more of them.
pub fn search(area: &mut [u16], store: &[u8], t: &[u8], z: Sizes, start: usize) -> Progress
    requires { Cleared (all_states z) area.old × (Sized z × (start < all_states z)) }
    ensures { walk_of area.new result ≡ spec.search (goal_at t.now z) (candidates store.now t.now z) start area.old }
{
    let none = Progress {
        count: 0,
        met: false,
    };
    let first = Given {
        store,
        tables: t,
        sizes: z,
        place: 0,
    };
    let all = all_states(z);
    let mut opened = none_opened();
    let mut w = visit(area, first, 0, start, none);
    for p in 0..all {
        if w.met || w.count <= p || w.count == all {
            return w;
        }
        let n = usize::from(area[EACH * p]);
        let given = Given { place: p, ..first };
        w = expand(area, given, n, &mut opened, w);
    }
    w
}

// Zero in every number.
#[tactic(auto, unfolding(lines::specs::Line::zeros))]
pub fn clear(area: &mut [u16])
    ensures { area.new ≡ zeros (length area.old) }
{
    area.fill(0);
}

// Zero again in every number that a search can have set: where there are few states, far fewer than all.
pub fn wipe(area: &mut [u16], z: Sizes)
    requires { Sized z × Rest (all_states z) area.old }
    ensures { area.new ≡ zeros (length area.old) }
{
    let size = EACH * all_states(z);
    clear(&mut area[..size]);
}

// The queue's places from `k` back to the start, the start's own left out, into a part that the caller has the room for; how many.
pub fn trace(area: &[u16], k: usize, out: &mut [u16]) -> usize
    requires { Rooted area.now k × (k ≤ length out.old) }
    ensures { Written (trail area.now 8192 k) out.old out.new result }
{
    let mut at = k;
    let mut n = 0;
    // No `for`: the marks say where it goes on, and where it ends.
    while at != 0 {
        out[n] = at as u16;
        let state = usize::from(area[EACH * at]);
        at = usize::from(area[EACH * state + MARK]) - 1;
        n += 1;
    }
    n
}
