// Answers of the entry points, told in numbers.
ghost use Rattle.std.specs.Prelude.{◌≡◌};
ghost use Rattle.term.specs.Answers.{refusal_of, told};
ghost use Rattle.nodes.specs.Answers.{run_told};
ghost use Rattle.copperjangle.specs.Answers.{reached_in_numbers, refused_in_numbers};
ghost use Rattle.copperjangle.specs.Answers.{number_in_numbers, truth_in_numbers, run_in_numbers};

use crate::Answer;
use nodes::runs::{End, Run, Stopped};
use term::Refusal;

impl Answer {
    // What a run reached after so many steps. Where there was no run, `finished` and `steps` are 0.
    fn reached(finished: u64, steps: u64, value: u64) -> Answer
        ensures { result ≡ reached_in_numbers finished steps value }
    {
        Answer {
            refusal: 0,
            finished,
            value,
            steps,
            place: 0,
            code: 0,
        }
    }

    // What was given, and nothing else.
    pub(crate) fn given(value: u64) -> Answer
        ensures { result ≡ reached_in_numbers 0 0 value }
    {
        Answer::reached(0, 0, value)
    }

    // A refusal after so many steps, with what it returns.
    // Each case stays a line of its own: the edit `seven_with_a_value`, which must be refused, is planted at one.
    pub(crate) fn refused(steps: u64, why: Refusal) -> Answer
        ensures { result ≡ refused_in_numbers steps (refusal_of why) }
    {
        let plain = Answer {
            refusal: why.number(),
            finished: 0,
            value: 0,
            steps,
            place: 0,
            code: 0,
        };
        match why {
            Refusal::OutsideBounds => plain,
            Refusal::TooLittleRoom => plain,
            Refusal::TextTooLong => plain,
            Refusal::OutsideDomain(offset) => Answer {
                place: offset as u64,
                ..plain
            },
            Refusal::InvalidCharacter { place, code } => Answer {
                place: place as u64,
                code,
                ..plain
            },
            Refusal::UndefinedFreeVariable => plain,
            Refusal::TooHigh => plain,
            Refusal::EmptyExpression => plain,
            Refusal::TooManyNodes => plain,
            Refusal::NotATerm(offset) => Answer {
                place: offset as u64,
                ..plain
            },
            Refusal::NotAbs => plain,
            Refusal::IndexTooGreat => plain,
            Refusal::OutputTooShort(needed) => Answer {
                value: needed as u64,
                ..plain
            },
        }
    }
}

// A refusal before any step.
impl From<Refusal> for Answer {
    ghost from_gives = { λ why answer. answer ≡ refused_in_numbers 0 (refusal_of why) };

    fn from(why: Refusal) -> Answer {
        Answer::refused(0, why)
    }
}

// A number, or why there is none. The three below stay apart: `u64` has no `From<usize>`, so no one bound fits them.
impl From<Result<u64, Refusal>> for Answer {
    ghost from_gives = { λ asked answer. answer ≡ number_in_numbers (told asked) };

    fn from(asked: Result<u64, Refusal>) -> Answer {
        match asked {
            Ok(value) => Answer::given(value),
            Err(why) => Answer::from(why),
        }
    }
}

// The length of what stands in the output, or a refusal.
impl From<Result<usize, Refusal>> for Answer {
    ghost from_gives = { λ asked answer. answer ≡ number_in_numbers (told asked) };

    fn from(asked: Result<usize, Refusal>) -> Answer {
        match asked {
            Ok(length) => Answer::given(length as u64),
            Err(why) => Answer::from(why),
        }
    }
}

// A truth, 1 for yes and 0 for no, or a refusal.
impl From<Result<bool, Refusal>> for Answer {
    ghost from_gives = { λ asked answer. answer ≡ truth_in_numbers (told asked) };

    fn from(asked: Result<bool, Refusal>) -> Answer {
        match asked {
            Ok(truth) => Answer::given(u64::from(truth)),
            Err(why) => Answer::from(why),
        }
    }
}

// How a run of reduce or eta ended: what it reached, or what refused it after how many steps.
impl From<Result<Run, Stopped>> for Answer {
    ghost from_gives = { λ ended answer. answer ≡ run_in_numbers (run_told ended) };

    fn from(ended: Result<Run, Stopped>) -> Answer {
        match ended {
            Ok(run) => match run.end {
                End::Finished => Answer::reached(1, run.steps, run.length as u64),
                End::Unfinished => Answer::reached(0, run.steps, run.length as u64),
            },
            Err(stopped) => Answer::refused(stopped.steps, stopped.why),
        }
    }
}
