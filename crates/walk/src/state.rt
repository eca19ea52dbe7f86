// What is in force in a state.
ghost use Rattle.std.specs.Prelude.{◌≡◌};
ghost use Rattle.tables.specs.Tables.{cell, is_set, force_cell};
ghost use Rattle.numbered.specs.Number.{all_states, Sized, Celled};
ghost use Rattle.numbered.specs.Candidates.{role_at, goal_at};

use fields::byte;
use gran::role_in_force;
use numbered::{Digits, Sizes};
use tables::cell;

// How many states there are.
#[tactic(auto, unfolding(numbered::specs::Number::all_states))]
pub fn all_states(z: Sizes) -> usize
    requires { Sized z }
    ensures { result ≡ all_states z }
{
    z.specials * z.users * z.groups * z.subjects
}

// A cell as a test.
#[tactic(auto, unfolding(tables::specs::Tables::is_set))]
pub fn is_set(t: &[u8], i: usize) -> bool
    ensures { result ≡ is_set t.now i }
{
    byte(t, i) != 0
}

// The role in force.
#[tactic(auto, unfolding(numbered::specs::Candidates::role_at))]
pub fn role_at(t: &[u8], d: Digits) -> u8
    requires { Celled d }
    ensures { result ≡ role_at t.now d }
{
    let special = byte(t, d.special);
    let user = byte(t, cell::USER + d.user);
    let group = byte(t, cell::GROUP + d.group);
    role_in_force(special, user, group, byte(t, cell::DEFAULT))
}

// The entry in force in a role.
pub fn entry_at(t: &[u8], d: Digits, role: u8) -> u8
    requires { Celled d }
    ensures { result ≡ cell t.now (force_cell d.subject role) }
{
    byte(t, cell::FORCE + (32 * d.subject + usize::from(role)))
}

// Whether the access is granted in the state of a number.
#[tactic(auto, using(numbered::proofs::Radix::digits_celled), unfolding(numbered::specs::Candidates::goal_at, numbered::specs::Candidates::entry_number))]
pub fn is_goal(t: &[u8], z: Sizes, n: usize) -> bool
    requires { Sized z }
    ensures { result ≡ goal_at t.now z n }
{
    let d = Digits::of(n, z);
    let role = role_at(t, d);
    let entry = entry_at(t, d, role);
    is_set(t, cell::GRANT + usize::from(entry))
}
