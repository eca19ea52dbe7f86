// Why a text, or an ask, is refused. The numbers are the scope document's.
ghost use Rattle.std.specs.Prelude.{◌≡◌};
ghost use Rattle.policy.specs.Refused.{refusal_number, of_no_line};

// The refusals in the order in which they are tested.
#[derive(Clone, Copy, PartialEq, Eq)]
pub enum Refusal {
    // The text is over 32,768 bytes.
    LongText = 1,
    // The store is under 16,384 bytes.
    ShortStore = 2,
    // The work area is under 24,576 numbers.
    ShortWork = 3,
    // The start or the target is no path of at most 64 bytes.
    BadPath = 4,
    // The UID or the GID names nobody.
    Nobody = 5,
    // The kind of access is neither read nor write.
    BadKind = 6,
    // A line is of wrong form.
    BadLine = 7,
    // A frame's type is unknown, or its length wrong.
    BadFrame = 8,
    // A frame is out of order.
    OutOfOrder = 9,
    // A field is out of range.
    OutOfRange = 10,
    // A thing comes a second time.
    Second = 11,
    // One more than a table holds.
    Full = 12,
    // The count at the end is wrong.
    Miscounted = 13,
    // There is no end.
    NoEnd = 14,
    // Without a default role, an entry for `/` or an object `/`.
    Unrooted = 15,
    // Too many states.
    Crowded = 16,
}

impl Refusal {
    pub fn number(self) -> u8
        ensures { result ≡ refusal_number self }
    {
        self as u8
    }
}

// A refusal and the line that it is of, counted from 1; 0 where it is of no line.
#[derive(Clone, Copy, PartialEq, Eq)]
pub struct Refused {
    pub refusal: Refusal,
    pub line: usize,
}

impl From<Refusal> for Refused {
    ghost from_gives = { λ refusal r. r ≡ of_no_line refusal };

    fn from(refusal: Refusal) -> Refused {
        Refused { refusal, line: 0 }
    }
}
