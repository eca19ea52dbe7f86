// A row of cases in one input, for programs that run a stored table: each stands behind its length, 4 bytes, big-endian.
// Rests on nothing. What a reader must believe stands in specs/Case.antt: `next_case`.
#![tactic(auto)]

ghost use Rattle.std.specs.Prelude.{◌≡◌, ◌+◌, ◌≤◌, length};
ghost use Rattle.cases.specs.Case.{size_at, next_case};

// The length that the four bytes at a place say.
fn size_at(input: &[u8], at: usize) -> usize
    requires { at + 4 ≤ length input.now }
    ensures { result ≡ size_at input.now at }
{
    let size = [input[at], input[at + 1], input[at + 2], input[at + 3]];
    u32::from_be_bytes(size) as usize
}

// The case whose length stands at a place: where it begins and ends; or none, where no whole case is left.
#[tactic(auto, unfolding(crate::specs::Case::next_case))]
pub fn next(input: &[u8], at: usize) -> Option<(usize, usize)>
    ensures { result ≡ next_case input.now at }
{
    let from = at.checked_add(4)?;
    if input.len() < from {
        return None;
    }
    let end = from + size_at(input, at);
    if input.len() < end {
        return None;
    }
    Some((from, end))
}
