// A refusal: its ground, its place, and what it names. One record by value for all calls.
#![tactic(auto)]

ghost use Rattle.std.specs.Prelude.{◌≡◌};
ghost use Rattle.refusals.specs.Refusals.{number_of, none, met, naming};

// The grounds by their words.
#[derive(Clone, Copy, Debug, PartialEq, Eq)]
pub enum Ground {
    Torn = 1,
    Kind = 2,
    Field = 3,
    Crowd = 4,
    Array = 5,
    Body = 6,
    Edge = 7,
    Tail = 8,
    Serial = 9,
    Processors = 10,
    Short = 11,
    Memory = 12,
    Buffer = 13,
    Unlike = 14,
    State = 15,
    Line = 17,
    Plan = 19,
    Unmet = 20,
}

impl Ground {
    // The number that definitions and C know it by.
    pub fn number(self) -> u32
        ensures { result ≡ number_of self }
    {
        self as u32
    }

    // Met at a place, naming nothing.
    pub fn met(self, place: usize) -> Refusal
        ensures { result ≡ met (number_of self) place }
    {
        Refusal::met(self.number(), place)
    }

    // Met at a place, naming two numbers.
    pub fn naming(self, place: usize, first: usize, second: usize) -> Refusal
        ensures { result ≡ naming (number_of self) place first second }
    {
        Refusal::naming(self.number(), place, first, second)
    }
}

// The ground's number, 0 where nothing is refused; the place; and what is named, two numbers: of 9 the read, and 0; of 20, whose
// place is the earlier loop, the later loop, and 0; else 0 and 0.
#[derive(Clone, Copy, Debug, PartialEq, Eq)]
pub struct Refusal {
    pub ground: u32,
    pub place: usize,
    pub first: usize,
    pub second: usize,
}

impl Refusal {
    // Nothing is refused.
    pub fn none() -> Self
        ensures { result ≡ none }
    {
        Refusal {
            ground: 0,
            place: 0,
            first: 0,
            second: 0,
        }
    }

    // A ground that names nothing, met at a place.
    pub fn met(ground: u32, place: usize) -> Self
        ensures { result ≡ met ground place }
    {
        Refusal {
            ground,
            place,
            first: 0,
            second: 0,
        }
    }

    // A ground that names two numbers.
    pub fn naming(ground: u32, place: usize, first: usize, second: usize) -> Self
        ensures { result ≡ naming ground place first second }
    {
        Refusal {
            ground,
            place,
            first,
            second,
        }
    }
}
