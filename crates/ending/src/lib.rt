// What is tested after the last line, refusals 15 and 16, and the header that is written where neither is given.
// Rests on `rows`, `gran`, `store`, `writing`, `policy` and `judge`. What a reader must believe stands in specs/End.antt: `end_refusal`, `Settled`.
#![tactic(auto)]

ghost use Rattle.std.specs.Prelude.{◌≡◌, List, ℕ, ◌≤◌, ◌<◌, false, ltb, length, get_or};
ghost use Rattle.gran.specs.Lists.{any, member, numbers};
ghost use Rattle.gran.specs.Policy.{Policy};
ghost use Rattle.gran.specs.Match.{no_entry, is_subject, paths_of_s, objects_of};
ghost use Rattle.gran.specs.Good.{states_of};
ghost use Rattle.store.specs.Layout.{root_of};
ghost use Rattle.store.specs.Held.{Bounded, Holds};
ghost use Rattle.policy.specs.Load.{lacks_entry, lacks_object, unrooted};
ghost use Rattle.policy.specs.Refused.{number_in};
ghost use Rattle.judge.specs.Judge.{Answers};
ghost use Rattle.ending.specs.End.{Settled};

use judge::loading::Loading;
use policy::refusal::Refusal;
use store::Tally;

// The number of `/`, or none: of the paths, it alone has one byte.
pub fn root_of(loading: Loading) -> u8
    ensures { Answers loading.entry.tally loading.entry.bytes.now (λ (P : Policy). result ≡ root_of P) }
{
    for i in 0..loading.tally.paths {
        if loading.bytes[676 + i * 3 + 2] == 1 {
            return i as u8;
        }
    }
    gran::NONE
}

// Whether entry `number` has an object of this path.
fn has_object(loading: Loading, number: usize, path: u8) -> bool
    requires { number < loading.tally.entries }
    ensures { Answers loading.entry.tally loading.entry.bytes.now (λ (P : Policy). result ≡ member path (objects_of (get_or P.entries number no_entry))) }
{
    let row = 1156 + number * 12;
    let first = u16::from_be_bytes([loading.bytes[row + 5], loading.bytes[row + 6]]);
    let count = usize::from(loading.bytes[row + 7]);
    let at = 1924 + 2 * usize::from(first);
    let end = at + 2 * count;
    if loading.bytes.len() < end {
        return false;
    }
    rows::has_row(&loading.bytes[at..end], 2, count, &[path])
}

// Whether a role has no entry for `/`, whose number is `root`.
fn lacks_entry(loading: Loading, root: u8) -> bool
    ensures { Answers loading.entry.tally loading.entry.bytes.now (λ (P : Policy). root ≡ root_of P → result ≡ any (lacks_entry P) (numbers 0 (length P.roles))) }
{
    for i in 0..loading.roles() {
        if !loading.has_entry(i as u8, root) {
            return true;
        }
    }
    false
}

// Whether an entry has no object `/`.
fn lacks_object(loading: Loading, root: u8) -> bool
    ensures { Answers loading.entry.tally loading.entry.bytes.now (λ (P : Policy). root ≡ root_of P → result ≡ any (lacks_object P) P.entries) }
{
    for i in 0..loading.tally.entries {
        if !has_object(loading, i, root) {
            return true;
        }
    }
    false
}

// Refusal 15: no default role, a role without an entry for `/`, an entry without an object `/`.
pub fn is_unrooted(loading: Loading, root: u8) -> bool
    ensures { Answers loading.entry.tally loading.entry.bytes.now (λ (P : Policy). root ≡ root_of P → result ≡ unrooted P) }
{
    loading.tally.defaults == 0 || lacks_entry(loading, root) || lacks_object(loading, root)
}

// The paths of S: marked at the number of each, and at no other byte's value. (The tables of a search mark them by what the header counts,
// which is not written yet.)
fn subject_marks(loading: Loading) -> [bool; 256]
    ensures { Answers loading.entry.tally loading.entry.bytes.now (λ (P : Policy). (s : ℕ) → is_subject P s ≡ get_or result s false) }
{
    let mut marks = [false; 256];
    for i in 0..loading.tally.entries {
        let subject = usize::from(loading.bytes[1156 + i * 12]);
        marks[subject] = true;
    }
    marks
}

// How many paths S has.
pub fn subjects_in(loading: Loading) -> u8
    ensures { Answers loading.entry.tally loading.entry.bytes.now (λ (P : Policy). result ≡ length (paths_of_s P)) }
{
    let marks = subject_marks(loading);
    marks[..loading.tally.paths]
        .iter()
        .filter(|mark| **mark)
        .count() as u8
}

// Refusal 16: too many states. It needs no bytes.
#[tactic(auto, unfolding(gran::specs::Good::states_of))]
pub fn is_crowded(t: Tally, subjects: u8) -> bool
    requires { Bounded t }
    ensures { (P : Policy) (rest bytes : List ℕ) → Holds P rest t bytes → subjects ≡ length (paths_of_s P) → result ≡ ltb 8192 (states_of P) }
{
    let roles = (t.specials + 1) * (t.users + 1);
    let states = roles * (t.groups + 1);
    8192 < states * usize::from(subjects)
}

// After the last line: 15 or 16, or the store's first bytes are the policy's layout.
#[tactic(auto, unfolding(crate::specs::End::end_refusal))]
pub fn settle(store: &mut [u8], t: Tally) -> Result<(), Refusal>
    requires bounded { Bounded t }
    requires in_bounds { 16384 ≤ length store.old }
    ensures { Settled t store.old (number_in result) store.new }
{
    let loading = Loading {
        bytes: store,
        tally: t,
    };
    let root = root_of(loading);
    if is_unrooted(loading, root) {
        return Err(Refusal::Unrooted);
    }
    let subjects = subjects_in(loading);
    if is_crowded(t, subjects) {
        return Err(Refusal::Crowded);
    }
    writing::finish(store, t, root, subjects);
    Ok(())
}
