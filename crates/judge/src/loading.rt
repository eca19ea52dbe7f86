// A policy that is being loaded.
ghost use Rattle.std.specs.Prelude.{◌≡◌, ◌+◌, ◌≤◌, length};
ghost use Rattle.store.specs.Held.{Bounded};

use store::Tally;

// What the store holds of it so far, with the tallies.
#[derive(Clone, Copy)]
pub struct Loading<'a> {
    pub bytes: &'a [u8],
    pub tally: Tally,
    pub ghost bounded: { Bounded tally },
    pub ghost long: { 16384 ≤ length bytes.now },
}

impl Loading<'_> {
    // How many roles there are.
    pub fn roles(self) -> usize
        ensures { let t = self.entry.tally in result ≡ t.users + t.groups + t.specials + t.defaults }
    {
        let t = self.tally;
        t.users + t.groups + t.specials + t.defaults
    }
}
