// 81, 82 and 83: the special roles, users and groups that a state may take.
ghost use Rattle.std.specs.Prelude.{◌≡◌, cond, List, [], ℕ};
ghost use Rattle.numbered.specs.Number.{Sized, Among};
ghost use Rattle.numbered.specs.Candidates.{flat, goal_at, special_steps, user_step, group_step};
ghost use Rattle.walk.specs.Walk as spec;
ghost use Rattle.walk.specs.Needed.{walk_of, Going};
ghost use Rattle.walk.specs.Row.{Row, row_steps};

use crate::Progress;
use crate::area::{Given, offer};
use crate::state::is_set;
use numbered::{Digits, GROUP_LABEL, SPECIAL_LABEL, Sizes, USER_LABEL};
use tables::cell;

// The states that differ in one digit alone, and the cells that allow them: `count` of them from `cells` on, for the numbers from `first` on,
// `stride` apart. A number is linear in each of its digits, so none of these is computed anew.
#[derive(Clone, Copy)]
pub struct Span {
    pub cells: usize,
    pub count: usize,
    pub first: usize,
    pub stride: usize,
    pub label: u16,
}

impl Span {
    // The special roles that the role in force may take.
    pub fn of_specials(z: Sizes, d: Digits, role: u8) -> Self
        requires { Sized z × Among z d }
        ensures { Row z result.cells result.count result.first result.stride × ((t : List ℕ) → row_steps t result ≡ special_steps t z d role) }
    {
        Span {
            cells: cell::TAKE + 8 * usize::from(role),
            count: z.specials,
            first: Digits { special: 0, ..d }.number(z),
            stride: z.users * z.groups * z.subjects,
            label: SPECIAL_LABEL,
        }
    }

    // The users that the entry in force allows.
    pub fn of_users(z: Sizes, d: Digits, entry: u8) -> Self
        requires { Sized z × Among z d }
        ensures { Row z result.cells result.count result.first result.stride × ((t : List ℕ) → row_steps t result ≡ flat (user_step t z d entry) 0 z.users) }
    {
        Span {
            cells: cell::USER_REACH + 16 * usize::from(entry),
            count: z.users,
            first: Digits { user: 0, ..d }.number(z),
            stride: z.groups * z.subjects,
            label: USER_LABEL,
        }
    }

    // The groups that it allows.
    pub fn of_groups(z: Sizes, d: Digits, entry: u8) -> Self
        requires { Sized z × Among z d }
        ensures { Row z result.cells result.count result.first result.stride × ((t : List ℕ) → row_steps t result ≡ flat (group_step t z d entry) 0 z.groups) }
    {
        Span {
            cells: cell::GROUP_REACH + 8 * usize::from(entry),
            count: z.groups,
            first: Digits { group: 0, ..d }.number(z),
            stride: z.subjects,
            label: GROUP_LABEL,
        }
    }
}

// To each state of the span whose cell is set, where there is leave for them at all.
#[tactic(auto, unfolding(crate::specs::Walk::visits))]
#[inline(always)] // a call would lay down the span and what is given in memory, three times for each state
pub fn offer_span(area: &mut [u16], given: Given, leave: bool, span: Span, w: Progress) -> Progress
    requires { Going given.sizes given.place (walk_of area.old w) × Row given.sizes span.cells span.count span.first span.stride }
    ensures { walk_of area.new result ≡ spec.visits (goal_at given.entry.tables.now given.entry.sizes) given.entry.place (cond leave (row_steps given.entry.tables.now span) []) (walk_of area.old w) }
{
    if !leave {
        return w;
    }
    let mut done = w;
    let mut n = span.first;
    for j in 0..span.count {
        let allowed = is_set(given.tables, span.cells + j);
        done = offer(area, given, allowed, span.label, n, done);
        n += span.stride;
    }
    done
}
