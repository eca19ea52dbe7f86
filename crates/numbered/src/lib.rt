// Abstract states and their steps as numbers, as a search goes through them. Rests on `tables`, `runs` and what those rest on.
// What the loops go through stands in specs/Candidates.antt; the laws say that it is the model's steps, so no reader need believe it.
#![tactic(auto)]

ghost use Rattle.std.specs.Prelude.{◌≡◌};
ghost use Rattle.numbered.specs.Number.{Sized, Among, number_of, digits_of};

// How steps are labelled that execute nothing: 81, 82 and 83. Below that a label is the place of the object.
// No enum: the work area is fixed memory, and holds a label as one number.
pub const SPECIAL_LABEL: u16 = 96;

pub const USER_LABEL: u16 = 97;

pub const GROUP_LABEL: u16 = 98;

// How many choices each part of a state has. No ghost field says `Sized`: `shown::step_shown` takes any sizes, and tests them.
#[derive(Clone, Copy)]
pub struct Sizes {
    pub specials: usize,
    pub users: usize,
    pub groups: usize,
    pub subjects: usize,
}

// The places of a state's four parts among their choices. That they are within the tables (`Celled`) or among the choices (`Among`) is asked
// where it counts: the digits of a number are so only with its sizes.
#[derive(Clone, Copy)]
pub struct Digits {
    pub special: usize,
    pub user: usize,
    pub group: usize,
    pub subject: usize,
}

impl Digits {
    // The number that has these digits.
    #[tactic(auto, unfolding(crate::specs::Number::number_of))]
    pub fn number(self, z: Sizes) -> usize
        requires { Sized z × Among z self }
        ensures { result ≡ number_of z self }
    {
        let a = self.special * z.users + self.user;
        let b = a * z.groups + self.group;
        b * z.subjects + self.subject
    }

    // The digits of a number.
    #[tactic(auto, unfolding(crate::specs::Number::digits_of))]
    pub fn of(n: usize, z: Sizes) -> Self
        requires { Sized z }
        ensures { result ≡ digits_of z n }
    {
        let a = n / z.subjects;
        let b = a / z.groups;
        Digits {
            special: b / z.users,
            user: b % z.users,
            group: a % z.groups,
            subject: n % z.subjects,
        }
    }
}
