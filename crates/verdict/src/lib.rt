// Verdicts: a call is accepted, or turned down with document 01's number and an offset. A call's tests are lines in document 01's order, each a
// `refuse_if` with a `?`; the first condition that holds decides.
#![tactic(auto)]

ghost use Rattle.std.specs.Prelude.{◌≡◌};
ghost use Rattle.verdict.specs.Verdict.{number_of, when};

// Why a call is turned down, in the order of the papers' numbers: `NoSuchPlace` is 1, and `ToleranceTooLarge` 22.
#[derive(Clone, Copy, PartialEq, Eq)]
pub enum Reason {
    NoSuchPlace,
    BytesEndEarly,
    MalformedGroup,
    SizeOutOfRange,
    FactorOutOfRange,
    FactorZero,
    BytesBehind,
    WrongChoice,
    WrongList,
    OutputTooShort,
    SourceEmpty,
    TargetFull,
    SizesDiffer,
    ExponentOutOfRange,
    WrongStamps,
    PatternBroken,
    Singular,
    WrongStepCount,
    WrongBounds,
    CountTooLarge,
    NothingPending,
    ToleranceTooLarge,
}

// What turned a call down, and its offset in the input, 0 where the reason is not about bytes.
#[derive(Clone, Copy, PartialEq, Eq)]
pub struct Refusal {
    pub reason: Reason,
    pub offset: usize,
}

// What a call answers that returns nothing else.
pub type Verdict = Result<(), Refusal>;

impl Reason {
    // The papers' number.
    pub fn number(self) -> u8
        ensures { result ≡ number_of self }
    {
        match self {
            Reason::NoSuchPlace => 1,
            Reason::BytesEndEarly => 2,
            Reason::MalformedGroup => 3,
            Reason::SizeOutOfRange => 4,
            Reason::FactorOutOfRange => 5,
            Reason::FactorZero => 6,
            Reason::BytesBehind => 7,
            Reason::WrongChoice => 8,
            Reason::WrongList => 9,
            Reason::OutputTooShort => 10,
            Reason::SourceEmpty => 11,
            Reason::TargetFull => 12,
            Reason::SizesDiffer => 13,
            Reason::ExponentOutOfRange => 14,
            Reason::WrongStamps => 15,
            Reason::PatternBroken => 16,
            Reason::Singular => 17,
            Reason::WrongStepCount => 18,
            Reason::WrongBounds => 19,
            Reason::CountTooLarge => 20,
            Reason::NothingPending => 21,
            Reason::ToleranceTooLarge => 22,
        }
    }
}

// A reason that is not about bytes.
impl From<Reason> for Refusal {
    ghost from_gives = { λ r w. w ≡ record { reason = r; offset = 0 } };

    fn from(reason: Reason) -> Refusal {
        Refusal { reason, offset: 0 }
    }
}

// A test: it turns the call down where its condition holds.
pub fn refuse_if(holds: bool, reason: Reason) -> Verdict
    ensures { result ≡ when holds reason }
{
    if holds { Err(reason.into()) } else { Ok(()) }
}
