// Paths as bytes: which are good, and when one is under another. Rests on nothing.
// What a reader must believe stands in specs/Path.antt: `good_path`, `names` and `under`.
#![tactic(auto)]

ghost use Rattle.std.specs.Prelude.{true, false, [], ◌≡◌};
ghost use Rattle.paths.specs.Path.{plain, good_path, ended, first, under};

const SLASH: u8 = b'/';

// The longest good path.
const LONGEST: usize = 64;

// Whether a path may hold `b`; `policy`: a path of a policy.
#[tactic(auto, unfolding(crate::specs::Path::plain))]
fn is_plain(b: u8, policy: bool) -> bool
    ensures { result ≡ plain policy b }
{
    match b {
        0 => false,
        b'*' | b'?' | b'[' => !policy,
        _ => true,
    }
}

// Whether `path` is a path of at most 64 bytes, each of which it may hold; `policy`: a path of a policy.
#[tactic(auto, using(crate::proofs::Rests::good_long, crate::proofs::Rests::good_none, crate::proofs::Rests::good_other, crate::proofs::Rests::good_first, crate::proofs::Rests::good_slash, crate::proofs::Rests::good_name))]
pub fn good_path(path: &[u8], policy: bool) -> bool
    ensures { result ≡ good_path policy path.now }
{
    if LONGEST < path.len() {
        return false;
    }
    let Some((first, rest)) = path.split_first() else {
        return false;
    };
    if *first != SLASH {
        return false;
    }
    let mut inside = false;
    for &b in rest {
        if b == SLASH {
            if !inside {
                return false;
            }
            inside = false;
        } else {
            if !is_plain(b, policy) {
                return false;
            }
            inside = true;
        }
    }
    !inside
}

// Whether no slash is in `s`: no name ends there.
fn no_slash(s: &[u8]) -> bool
    ensures { result ≡ first (ended s.now) [] }
{
    !s.contains(&SLASH)
}

// Whether a slash ends `q`, and `p` ends before it or has another byte than `q` up to it: then `p` is not under `q`.
// Paths of one policy share how they begin, so they are compared from the end of `q` back.
fn parts(p: &[u8], q: &[u8]) -> bool
    ensures { result ≡ true → under p.now q.now ≡ false }
{
    let n = q.len();
    if n < 2 || q[n - 1] != SLASH {
        return false;
    }
    p.len() < n || (1..n).rev().any(|i| p[i] != q[i])
}

// Whether `p` is under `q`: from where their bytes part on, no name of `q` ends. The first byte is in no name.
#[tactic(auto, using(crate::proofs::Rests::under_first))]
fn compared(p: &[u8], q: &[u8]) -> bool
    ensures { result ≡ under p.now q.now }
{
    for i in 1..q.len() {
        if p.len() <= i || p[i] != q[i] {
            return no_slash(&q[i..]);
        }
    }
    true
}

// Whether `p` is under `q`.
pub fn under(p: &[u8], q: &[u8]) -> bool
    ensures { result ≡ under p.now q.now }
{
    !parts(p, q) && compared(p, q)
}
