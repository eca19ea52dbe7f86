// A short list of small numbers.
ghost use Rattle.std.specs.Prelude.{◌≡◌, Bool, ℕ, ◌+◌, ◌≤◌, ◌<◌, List, [], ◌∷◌, ◌++◌, length, take};
ghost use Rattle.gran.specs.Lists.{only, numbers};

use std::marker::Model;

// At most `N` of them: the first `count` of `items`.
#[derive(Drop)]
pub struct Few<const N: usize> {
    items: [u8; N],
    count: usize,
}

impl<const N: usize> Model for Few<N> {
    ghost Value = { List ℕ };

    ghost view = { λ few. take few.count few.items };

    ghost invariant = { λ few. few.count ≤ N };
}

impl<const N: usize> Few<N> {
    pub fn new() -> Self
        ensures { result ≡ [] }
    {
        Few {
            items: [0; N],
            count: 0,
        }
    }

    pub fn push(&mut self, item: u8)
        requires { length self.old < N }
        ensures { self.new ≡ self.old ++ item ∷ [] }
    {
        self.items[self.count] = item;
        self.count += 1;
    }

    // Behind those that are there, the numbers below `end` that pass the test.
    pub fn push_where<F: Fn(usize) -> bool>(&mut self, end: usize, test: F)
        requires room { (length self.old + end ≤ N) × (end ≤ 256) }
        requires callable { (k : ℕ) → k < end → F.pre test k }
        ensures { (p : ℕ → Bool) → ((k : ℕ) → k < end → (b : Bool) → F.post test k b → b ≡ p k) → self.new ≡ self.old ++ only p (numbers 0 end) }
    {
        for k in 0..end {
            if test(k) {
                self.push(k as u8);
            }
        }
    }

    pub fn as_slice(&self) -> &[u8]
        ensures { result.now ≡ self.now }
    {
        &self.items[..self.count]
    }
}
