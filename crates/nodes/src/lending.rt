// What every entry point asks that borrows an output and work room: a cap within its bounds, and enough of both.
ghost use Rattle.std.specs.Prelude.{◌≡◌};
ghost use Rattle.term.specs.Answers.{told};
ghost use Rattle.nodes.specs.Answers.{granting};

use calculus::{MOST_NODES, OUTPUT_PER_NODE, ROOM_PER_NODE};
use term::Refusal;

// OutsideBounds, then TooLittleRoom, from the cap and the lengths of the output and the room; or the cap as a length.
#[tactic(auto, using(crate::proofs::Granting::granting_tests))]
pub fn grant(cap: u64, output: usize, room: usize) -> Result<usize, Refusal>
    ensures { told result ≡ granting cap output room }
{
    if cap < 1 || MOST_NODES < cap {
        return Err(Refusal::OutsideBounds);
    }
    let most = cap as usize;
    if output < OUTPUT_PER_NODE * most || room < ROOM_PER_NODE * most {
        return Err(Refusal::TooLittleRoom);
    }
    Ok(most)
}
