// A state enters the work area.
ghost use Rattle.std.specs.Prelude.{◌≡◌, ◌<◌};
ghost use Rattle.numbered.specs.Number.{all_states};
ghost use Rattle.numbered.specs.Candidates.{offered, goal_at};
ghost use Rattle.walk.specs.Walk as spec;
ghost use Rattle.walk.specs.Needed.{walk_of, Going};

use crate::state::is_goal;
use crate::{EACH, LABEL, MARK, Progress};
use numbered::Sizes;

// What the steps of a state go by, and none of them changes: the store, the tables, how many choices each part of a state has, and the
// state's place in the queue.
#[derive(Clone, Copy)]
pub struct Given<'a> {
    pub store: &'a [u8],
    pub tables: &'a [u8],
    pub sizes: Sizes,
    pub place: usize,
}

// A step labelled `label` to state `n`: a state that was not found yet enters the queue.
#[tactic(auto, unfolding(crate::specs::Walk::visit))]
pub fn visit(area: &mut [u16], given: Given, label: u16, n: usize, w: Progress) -> Progress
    requires { Going given.sizes given.place (walk_of area.old w) × (n < all_states given.sizes) }
    ensures { walk_of area.new result ≡ spec.visit (goal_at given.entry.tables.now given.entry.sizes) given.entry.place label n (walk_of area.old w) }
{
    let at = EACH * n + MARK;
    let found = area[at] != 0;
    if w.met || found {
        return w;
    }
    area[EACH * w.count] = n as u16;
    area[at] = (given.place + 1) as u16;
    area[EACH * n + LABEL] = label;
    Progress {
        count: w.count + 1,
        met: is_goal(given.tables, given.sizes, n),
    }
}

// A step that may not be allowed.
#[tactic(auto, unfolding(crate::specs::Walk::visits))]
pub fn offer(
    area: &mut [u16],
    given: Given,
    allowed: bool,
    label: u16,
    n: usize,
    w: Progress,
) -> Progress
    requires { Going given.sizes given.place (walk_of area.old w) × (n < all_states given.sizes) }
    ensures { walk_of area.new result ≡ spec.visits (goal_at given.entry.tables.now given.entry.sizes) given.entry.place (offered allowed label n) (walk_of area.old w) }
{
    if allowed {
        return visit(area, given, label, n, w);
    }
    w
}
