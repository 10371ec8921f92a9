// The answers, each with its number.
#![tactic(auto)]

ghost use Rattle.std.specs.Prelude.{◌≡◌};
ghost use Rattle.answers.specs.Answers.{answer_number, refusal_number, is_done};

// Why an action, a start or a script is not done, with the numbers.
#[derive(Clone, Copy, Debug, PartialEq, Eq)]
pub enum Refusal {
    Ignored = 1,
    OutOfRange = 2,
    Absent = 3,
    Live = 4,
    NotSet = 5,
    NumbersUsedUp = 6,
    PendingFull = 7,
    NetworkFull = 8,
    NotWellFormed = 9,
    StartRefused = 10,
    Unreadable = 11,
    UnknownName = 12,
}

// Done, whose number is 0, or a refusal.
pub type Answer = Result<(), Refusal>;

impl From<Refusal> for u64 {
    ghost from_gives = { λ r n. n ≡ refusal_number r };

    fn from(value: Refusal) -> u64 {
        value as u64
    }
}

pub fn number_of(a: Answer) -> u64
    ensures { result ≡ answer_number a }
{
    match a {
        Ok(()) => 0,
        Err(r) => u64::from(r),
    }
}

pub fn is_done(a: Answer) -> bool
    ensures { result ≡ is_done a }
{
    a.is_ok()
}
