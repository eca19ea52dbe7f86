// A step of a run as its record: from the numbers that a search found, with real ids and paths. Rests on `numbered`, `ids`, `records` and what those rest on.
// What a reader must believe stands in specs/Shown.antt (`Going`) and in the specs/ of `records` (`record_of`) and `gran`.
#![tactic(auto)]

ghost use Rattle.std.specs.Prelude.{◌≡◌, ◌⊎◌, true, cond, List, ℕ, ◌≤◌, ◌<◌, eqb, length};
ghost use Rattle.std.proofs.Math.Bool.{So};
ghost use Rattle.lines.specs.Line.{line_of};
ghost use Rattle.gran.specs.Lists.{none};
ghost use Rattle.gran.specs.Policy.{Policy, USER, GROUP};
ghost use Rattle.gran.specs.Match.{path_at, objects_of};
ghost use Rattle.gran.specs.Role.{role_of};
ghost use Rattle.gran.specs.Good.{Good};
ghost use Rattle.gran.specs.Real as real;
ghost use Rattle.gran.specs.Abstract.{Act, abstract, role, may, next, id_for, id_after, real_act};
ghost use Rattle.gran.specs.Reach.{Question};
ghost use Rattle.gran.specs.declared.State.{State};
ghost use Rattle.store.specs.Held.{Loaded};
ghost use Rattle.lookup.specs.Lookup.{entry_at, InForce};
ghost use Rattle.ids.specs.Ids.{kind_of, allowed_of};
ghost use Rattle.tables.specs.Tables.{Tabled, cell, object_cell};
ghost use Rattle.numbered.specs.Number.{Sized, Inside, sizes_of, state_number};
ghost use Rattle.numbered.specs.Candidates.{label_of};
ghost use Rattle.records.specs.Record.{record_of, step_bytes};
ghost use Rattle.shown.specs.Shown.{Going, seen_of, exec_record};

use gran::Process;
use ids::Ids;
use numbered::{Digits, GROUP_LABEL, SPECIAL_LABEL, Sizes, USER_LABEL};
use records::Step;
use tables::cell;

// The parts of a state, and the place of its subject among the paths of S.
#[derive(Clone, Copy)]
struct Seen {
    special: u8,
    user: u8,
    group: u8,
    subject: u8,
    place: u8,
}

// Whether the tables have room for the sizes.
#[tactic(auto, unfolding(numbered::specs::Number::all_states))]
fn is_sized(z: Sizes) -> bool
    ensures { (result ≡ true → Sized z) × (Sized z → result ≡ true) }
{
    match z {
        Sizes {
            specials: 0..=8,
            users: 1..=16,
            groups: 1..=8,
            subjects: 1..=64,
        } => z.specials * z.users * z.groups * z.subjects <= 8192,
        _ => false,
    }
}

// The state of a number.
#[tactic(auto, using(numbered::proofs::Radix::digits_celled))]
fn seen_at(t: &[u8], z: Sizes, n: usize) -> Seen
    requires { Sized z }
    ensures { (P : Policy) (q : Question) (α : State) → Good P → Tabled P q t.now → Inside P α → z ≡ sizes_of P → n ≡ state_number P α → result ≡ seen_of P α }
{
    let d = Digits::of(n, z);
    Seen {
        special: fields::byte(t, d.special),
        user: fields::byte(t, cell::USER + d.user),
        group: fields::byte(t, cell::GROUP + d.group),
        subject: fields::byte(t, cell::SUBJECT + d.subject),
        place: d.subject as u8,
    }
}

// The number of the entry in force.
fn entry_at(t: &[u8], a: Seen) -> u8
    ensures { (P : Policy) (q : Question) (α : State) → Good P → Tabled P q t.now → Inside P α → a ≡ seen_of P α → InForce P (role P α) (path_at P.paths α.subject) result }
{
    let fallback = fields::byte(t, cell::DEFAULT);
    let role = gran::role_in_force(a.special, a.user, a.group, fallback);
    let at = cell::FORCE + (32 * usize::from(a.place) + usize::from(role));
    fields::byte(t, at)
}

// The id that stands for a role, or for none, in an entry.
#[tactic(auto, using(crate::proofs::Ids::free_stands, crate::proofs::Ids::role_stands))]
fn id_for(store: &[u8], ids: Ids, entry: u8, role: u8) -> u32
    ensures { (P : Policy) (rest : List ℕ) → Loaded P rest store.now → entry < length P.entries → (role ≡ none) ⊎ (role < length P.roles) → result ≡ id_for P (kind_of ids) (allowed_of (kind_of ids) (entry_at P entry)) role }
{
    if role == gran::NONE {
        ids::free_id(store, ids, entry)
    } else {
        fields::role_id(store, role)
    }
}

// The id after an exec in an entry: kept where its role is.
#[tactic(auto, using(crate::proofs::Ids::id_kept, crate::proofs::Ids::id_new))]
fn id_after(store: &[u8], ids: Ids, entry: u8, kept: u8, role: u8, id: u32) -> u32
    ensures { (P : Policy) (rest : List ℕ) → Loaded P rest store.now → entry < length P.entries → (role ≡ none) ⊎ (role < length P.roles) → kept ≡ role_of P (kind_of ids) id → result ≡ id_after P (kind_of ids) (allowed_of (kind_of ids) (entry_at P entry)) id role }
{
    if role == kept {
        id
    } else {
        id_for(store, ids, entry, role)
    }
}

// The executed path: the new subject if its object is the named one, else the object itself.
fn file_for(t: &[u8], entry: u8, place: u8, object: u8, after: Seen) -> u8
    ensures { result ≡ cond (eqb (cell t.now (object_cell after.place entry)) place) after.subject object }
{
    let at = cell::OBJECT + (64 * usize::from(after.place) + usize::from(entry));
    if fields::byte(t, at) == place {
        after.subject
    } else {
        object
    }
}

// The record of an exec of the object at a place of the entry in force.
fn exec_shown(
    store: &[u8],
    t: &[u8],
    entry: u8,
    place: u8,
    before: Seen,
    after: Seen,
    p: Process,
) -> Step
    ensures { (P : Policy) (rest : List ℕ) (q : Question) (β : State) → Loaded P rest store.now → Tabled P q t.now → Inside P β → entry < length P.entries → place < length (objects_of (entry_at P entry)) → before.user ≡ role_of P USER p.uid → before.group ≡ role_of P GROUP p.gid → after ≡ seen_of P β → result ≡ exec_record P (entry_at P entry) p place β }
{
    let object = fields::object_path(store, entry, place);
    let file = file_for(t, entry, place, object, after);
    let uid = id_after(store, Ids::Users, entry, before.user, after.user, p.uid);
    let gid = id_after(store, Ids::Groups, entry, before.group, after.group, p.gid);
    Step::exec(object, file, uid, gid)
}

// The record of the step that leads from the state of one number to that of another, done by the process `p`.
pub fn step_shown(
    store: &[u8],
    t: &[u8],
    z: Sizes,
    from: usize,
    label: u16,
    to: usize,
    p: Process,
) -> Step
    ensures { (P : Policy) (rest : List ℕ) (q : Question) (begin : List ℕ) (α : State) (a : Act) → Loaded P rest store.now → Going P q t.now z begin p α → So (may P α a) → from ≡ state_number P α → to ≡ state_number P (next α a) → label ≡ label_of P α a → result ≡ record_of P (real.state_of P begin p) a }
{
    if !is_sized(z) {
        // No policy has such sizes, and no number says a state.
        return Step::special(gran::NONE);
    }
    let before = seen_at(t, z, from);
    let after = seen_at(t, z, to);
    let entry = entry_at(t, before);
    match label {
        SPECIAL_LABEL => Step::special(after.special),
        USER_LABEL => Step::user(id_for(store, Ids::Users, entry, after.user)),
        GROUP_LABEL => Step::group(id_for(store, Ids::Groups, entry, after.group)),
        _ => {
            let [_, place] = label.to_be_bytes();
            exec_shown(store, t, entry, place, before, after, p)
        }
    }
}

// The process after a step.
#[tactic(auto, using(crate::proofs::Acts::process_is))]
pub fn process_after(p: Process, step: Step) -> Process
    ensures { (P : Policy) (begin : List ℕ) (a : Act) → Good P → So (may P (abstract P (real.state_of P begin p)) a) → step ≡ record_of P (real.state_of P begin p) a → real.state_of P begin result ≡ real.next (real.state_of P begin p) (real_act P (real.state_of P begin p) a) }
{
    step.done_by(p)
}

// The length of a step's line, by how the step is marked.
pub fn label_length(label: u16) -> usize
    ensures { (P : Policy) (σ : real.State) (α : State) (a : Act) → Good P → So (may P α a) → label ≡ label_of P α a → result ≡ length (line_of (step_bytes (record_of P σ a))) }
{
    match label {
        SPECIAL_LABEL => 5,
        USER_LABEL | GROUP_LABEL => 11,
        _ => 23,
    }
}
