// The shelf's answers as structs that C can hold. A number of 0 says accepted.
ghost use Rattle.std.specs.Prelude.{◌≡◌, [], ◌∷◌, pos};
ghost use Rattle.verdict.specs.Report.{accepted, refused, verdict_report};
ghost use Rattle.writer.specs.Encoding.{written_report};
ghost use Rattle.lists.specs.Lists.{reversals_report};
ghost use Rattle.arithmetic.specs.Arithmetic.{worked_report};
ghost use Rattle.operations.specs.Reports.{filled_outcome, operated_outcome, valued_report};
ghost use Rattle.operations.specs.Forecast.{foretold_report};
ghost use Rattle.shelf.specs.Reports.{changed_outcome, factor_report};
ghost use Rattle.tnb_c.specs.Answers.{turned_away, answer_of, length_of, value_of, worked_of, status_of, steps_of};

use crate::{Answer, Length, Status, Steps, Value, Worked};
use operations::{Filled, Operated};
use places::Shelf;
use shelf::Changed;
use verdict::{Refusal, Verdict};

// The number of a shelf that is not a good one.
const FOREIGN: u8 = 255;

impl Answer {
    // A shelf that is not a good one is handed back.
    pub fn foreign(shelf: Shelf) -> Answer
        ensures { result ≡ answer_of (turned_away shelf [] []) }
    {
        Answer {
            number: FOREIGN,
            bound: 0,
            offset: 0,
            steps: 0,
            shelf,
        }
    }
}

impl Status {
    // Where a shelf is not a good one.
    pub fn foreign() -> Status
        ensures { result ≡ status_of (refused 255 0) }
    {
        Status {
            number: FOREIGN,
            offset: 0,
        }
    }
}

impl Length {
    // A length, accepted.
    pub fn of(length: usize) -> Length
        ensures { result ≡ length_of (accepted (pos length ∷ [])) }
    {
        Length {
            number: 0,
            offset: 0,
            length,
        }
    }

    // Where a shelf is not a good one.
    pub fn foreign() -> Length
        ensures { result ≡ length_of (refused 255 0) }
    {
        Length {
            number: FOREIGN,
            offset: 0,
            length: 0,
        }
    }
}

impl Value {
    // Where a shelf is not a good one.
    pub fn foreign() -> Value
        ensures { result ≡ value_of (refused 255 0) }
    {
        Value {
            number: FOREIGN,
            offset: 0,
            mantissa: 0,
            exponent: 0,
        }
    }
}

impl Steps {
    // Where a shelf is not a good one.
    pub fn foreign() -> Steps
        ensures { result ≡ steps_of (refused 255 0) }
    {
        Steps {
            number: FOREIGN,
            offset: 0,
            steps: 0,
        }
    }
}

impl From<Changed> for Answer {
    ghost from_gives = { λ done a. a ≡ answer_of (changed_outcome done) };

    fn from(done: Changed) -> Answer {
        let status = Status::from(done.verdict);
        Answer {
            number: status.number,
            bound: 0,
            offset: status.offset,
            steps: 0,
            shelf: done.shelf,
        }
    }
}

impl From<Operated> for Answer {
    ghost from_gives = { λ done a. a ≡ answer_of (operated_outcome done) };

    fn from(done: Operated) -> Answer {
        let shelf = done.shelf;
        match done.answer {
            Ok(performed) => Answer {
                number: 0,
                bound: performed.bound,
                offset: 0,
                steps: performed.steps,
                shelf,
            },
            Err(why) => Answer {
                number: why.reason.number(),
                bound: 0,
                offset: why.offset,
                steps: 0,
                shelf,
            },
        }
    }
}

impl From<Filled> for Answer {
    ghost from_gives = { λ done a. a ≡ answer_of (filled_outcome done) };

    fn from(done: Filled) -> Answer {
        let shelf = done.shelf;
        match done.answer {
            Ok(bound) => Answer {
                number: 0,
                bound,
                offset: 0,
                steps: 0,
                shelf,
            },
            Err(why) => Answer {
                number: why.reason.number(),
                bound: 0,
                offset: why.offset,
                steps: 0,
                shelf,
            },
        }
    }
}

impl From<Verdict> for Status {
    ghost from_gives = { λ verdict a. a ≡ status_of (verdict_report verdict) };

    fn from(verdict: Verdict) -> Status {
        match verdict {
            Ok(()) => Status {
                number: 0,
                offset: 0,
            },
            Err(why) => Status {
                number: why.reason.number(),
                offset: why.offset,
            },
        }
    }
}

// How many bytes were written or will be.
impl From<Result<usize, Refusal>> for Length {
    ghost from_gives = { λ answer a. a ≡ length_of (written_report answer) };

    fn from(answer: Result<usize, Refusal>) -> Length {
        match answer {
            Ok(length) => Length::of(length),
            Err(why) => Length {
                number: why.reason.number(),
                offset: why.offset,
                length: 0,
            },
        }
    }
}

// How many reversals were counted.
impl From<Result<u64, Refusal>> for Length {
    ghost from_gives = { λ answer a. a ≡ length_of (reversals_report answer) };

    fn from(answer: Result<u64, Refusal>) -> Length {
        answer.map(|count| count as usize).into()
    }
}

impl From<Result<usize, Refusal>> for Steps {
    ghost from_gives = { λ answer a. a ≡ steps_of (foretold_report answer) };

    fn from(answer: Result<usize, Refusal>) -> Steps {
        match answer {
            Ok(steps) => Steps {
                number: 0,
                offset: 0,
                steps,
            },
            Err(why) => Steps {
                number: why.reason.number(),
                offset: why.offset,
                steps: 0,
            },
        }
    }
}

impl From<operations::Value> for Value {
    ghost from_gives = { λ value a. a ≡ value_of (factor_report value) };

    fn from(value: operations::Value) -> Value {
        Value {
            number: 0,
            offset: 0,
            mantissa: value.mantissa,
            exponent: value.exponent,
        }
    }
}

impl From<Result<operations::Value, Refusal>> for Value {
    ghost from_gives = { λ answer a. a ≡ value_of (valued_report answer) };

    fn from(answer: Result<operations::Value, Refusal>) -> Value {
        match answer {
            Ok(value) => value.into(),
            Err(why) => Value {
                number: why.reason.number(),
                offset: why.offset,
                mantissa: 0,
                exponent: 0,
            },
        }
    }
}

impl From<Result<arithmetic::Worked, Refusal>> for Worked {
    ghost from_gives = { λ answer a. a ≡ worked_of (worked_report answer) };

    fn from(answer: Result<arithmetic::Worked, Refusal>) -> Worked {
        match answer {
            Ok(worked) => Worked {
                number: 0,
                offset: 0,
                mantissa: worked.mantissa,
                exponent: worked.exponent,
                rest: worked.rest,
                rest_exponent: worked.rest_exponent,
            },
            Err(why) => Worked {
                number: why.reason.number(),
                offset: why.offset,
                mantissa: 0,
                exponent: 0,
                rest: 0,
                rest_exponent: 0,
            },
        }
    }
}
