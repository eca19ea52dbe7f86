// Where a search begins: the sizes of a policy's states, and the number of the start's state.
ghost use Rattle.std.specs.Prelude.{◌≡◌};
ghost use Rattle.gran.specs.Abstract.{abstract};
ghost use Rattle.gran.specs.Reach.{Question};
ghost use Rattle.fields.specs.Fields.{policy_in};
ghost use Rattle.numbered.specs.Number.{sizes_of, state_number};
ghost use Rattle.ask.specs.Ask.{asked_of, start_of};
ghost use Rattle.reply.specs.Reply.{Held, Ready};

use gran::Asked;
use numbered::{Digits, Sizes};
use tables::{cell, place_in};

// How many choices each part of a state has.
pub fn sizes(store: &[u8]) -> Sizes
    requires { Held store.now }
    ensures { result ≡ sizes_of (policy_in store.now) }
{
    Sizes {
        specials: 1 + usize::from(fields::special_count(store)),
        users: 1 + usize::from(fields::user_count(store)),
        groups: 1 + usize::from(fields::group_count(store)),
        subjects: usize::from(fields::subject_count(store)),
    }
}

// The number of the state that a start stands for.
pub fn start_number(store: &[u8], t: &[u8], z: Sizes, asked: Asked) -> usize
    requires { (q : Question) × Ready q store.now t.now z }
    ensures { result ≡ state_number (policy_in store.now) (abstract (policy_in store.now) (start_of (asked_of asked.entry))) }
{
    let users = &t[cell::USER..cell::USER + z.users];
    let groups = &t[cell::GROUP..cell::GROUP + z.groups];
    let subjects = &t[cell::SUBJECT..cell::SUBJECT + z.subjects];
    let user = place_in(users, ids::role_of(store, ids::USER, asked.uid));
    let group = place_in(groups, ids::role_of(store, ids::GROUP, asked.gid));
    let subject = lookup::closest_in(store, asked.start, subjects);
    let digits = Digits {
        special: 0,
        user: usize::from(user),
        group: usize::from(group),
        subject: usize::from(subject),
    };
    digits.number(z)
}
