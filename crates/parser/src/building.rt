// What a sequence has read so far, and the nodes it is built of while the term may still be within the bounds.
ghost use Rattle.std.specs.Prelude.{◌*◌, ◌≤◌};
ghost use Rattle.calculus.specs.Bounds.{most_text};
ghost use Rattle.parser.specs.Building.{Roomy, Makes, Enclosable, Encloses, Applicable, Applies};
ghost use Rattle.parser.specs.Building.{Joinable, Joins, Extends, JoinsUnder};

use calculus::MOST_HEIGHT;

// A term by its height, and by its node where it may still be within the bounds.
#[derive(Clone, Copy, Debug, PartialEq, Eq)]
pub(crate) struct Found {
    pub(crate) height: u64,
    pub(crate) node: usize,
}

// Nothing yet, a term, or something in it is empty: three cases, which an Option of a Result would say no plainer.
#[derive(Clone, Copy, Debug, PartialEq, Eq)]
pub(crate) enum Part {
    Nothing,
    Term(Found),
    Empty,
}

// What was read, and how many nodes up to its end; they are counted also where they are not made.
// Store and cap stay parameters beside it: a struct of a lent store would be lent anew at each call, no plainer.
#[derive(Clone, Copy, Debug, PartialEq, Eq)]
pub(crate) struct Built {
    pub(crate) part: Part,
    pub(crate) used: usize,
}

// A variable. A node that is counted and not made is written out at each place, here and below: one function for all
// was tried, and texts took 1.02 to 1.05 times as long.
fn variable(store: &mut [u64], cap: usize, used: usize, index: u64) -> Built
    requires { Roomy store.old cap used }
    ensures { Makes store.old cap used index store.new result }
{
    let part = Part::Term(Found {
        height: 1,
        node: used,
    });
    if used < cap {
        Built {
            part,
            used: nodes::make_variable(store, used, index),
        }
    } else {
        Built {
            part,
            used: used + 1,
        }
    }
}

// An abstraction whose body was read.
fn abstraction(store: &mut [u64], cap: usize, body: Built) -> Built
    requires { Roomy store.old cap body.used × Enclosable store.old cap body }
    ensures { Encloses store.old cap body store.new result }
{
    let used = body.used;
    match body.part {
        Part::Nothing | Part::Empty => Built {
            part: Part::Empty,
            used,
        },
        Part::Term(inner) => {
            let height = inner.height + 1;
            let part = Part::Term(Found { height, node: used });
            if cap <= used {
                return Built {
                    part,
                    used: used + 1,
                };
            }
            if MOST_HEIGHT < height {
                return Built {
                    part,
                    used: used + 1,
                };
            }
            Built {
                part,
                used: nodes::make_abstraction(store, used, inner.node),
            }
        }
    }
}

// The application of one term to another, both of which were read.
fn application(store: &mut [u64], cap: usize, used: usize, left: Found, right: Found) -> Built
    requires { Roomy store.old cap used × Applicable store.old cap used left right }
    ensures { Applies store.old cap used left right store.new result }
{
    let height = left.height.max(right.height) + 1;
    let part = Part::Term(Found { height, node: used });
    if cap <= used {
        return Built {
            part,
            used: used + 1,
        };
    }
    if MOST_HEIGHT < height {
        return Built {
            part,
            used: used + 1,
        };
    }
    Built {
        part,
        used: nodes::make_application(store, used, left.node, right.node),
    }
}

// What was read, with one more item.
pub(crate) fn joined(store: &mut [u64], cap: usize, read: Built, item: Built) -> Built
    requires { Roomy store.old cap item.used × Joinable store.old cap read item }
    ensures { Joins store.old cap read item store.new result }
{
    let used = item.used;
    let empty = Built {
        part: Part::Empty,
        used,
    };
    match item.part {
        Part::Nothing | Part::Empty => empty,
        Part::Term(right) => match read.part {
            Part::Nothing => item,
            Part::Empty => empty,
            Part::Term(left) => application(store, cap, used, left, right),
        },
    }
}

// What was read, with a variable as its next item.
pub(crate) fn with_variable(store: &mut [u64], cap: usize, read: Built, index: u64) -> Built
    requires { Roomy store.old cap read.used × Enclosable store.old cap read × (read.used ≤ 2 * most_text) }
    ensures { Extends store.old cap read index store.new result }
{
    let item = variable(store, cap, read.used, index);
    joined(store, cap, read, item)
}

// What was read, with an abstraction as its next item.
pub(crate) fn with_abstraction(store: &mut [u64], cap: usize, read: Built, body: Built) -> Built
    requires { Roomy store.old cap body.used × Joinable store.old cap read body
        × (body.used ≤ 2 * most_text) }
    ensures { JoinsUnder store.old cap read body store.new result }
{
    let item = abstraction(store, cap, body);
    joined(store, cap, read, item)
}
