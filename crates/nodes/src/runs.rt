// What eta and reduction answer.
ghost use Rattle.std.specs.Prelude.{◌≡◌};

use term::Refusal;

// Whether a step is left where a run ends.
#[derive(Clone, Copy, Debug, PartialEq, Eq)]
pub enum End {
    Finished,
    Unfinished,
}

// How a run under a limit ends: the steps made, and the bytes of the term reached.
// stays beside the engine's Reached, which tells a node: one type for both would name its last field no better
#[derive(Clone, Copy, Debug, PartialEq, Eq)]
pub struct Run {
    pub end: End,
    pub steps: u64,
    pub length: usize,
}

// Why a run reaches no term, and the steps made before.
#[derive(Clone, Copy, Debug, PartialEq, Eq)]
pub struct Stopped {
    pub steps: u64,
    pub why: Refusal,
}

// What is refused before the first step is refused after none.
impl From<Refusal> for Stopped {
    ghost from_gives = { λ why stopped. stopped ≡ record { steps = 0; why = why } };

    fn from(why: Refusal) -> Stopped {
        Stopped { steps: 0, why }
    }
}
