// Coded terms: what stands at an offset, and whether any bytes are one whole term within the bounds.
#![tactic(auto)]

ghost use Rattle.std.specs.Prelude.{◌≡◌, not, ◌||◌, ◌+◌, ◌-◌, ◌≤◌, ◌<◌, length, take, drop};
ghost use Rattle.calculus.specs.Term.{var};
ghost use Rattle.calculus.specs.Numbers.{between, from_digits};
ghost use Rattle.calculus.specs.Bounds.{most_height, greatest_number};
ghost use Rattle.calculus.specs.Refusal.{refusal_number};
ghost use Rattle.calculus.specs.Bytes.{decode};
ghost use Rattle.term.specs.Heads.{head_in};
ghost use Rattle.term.specs.Notations.{Numbered};
ghost use Rattle.term.specs.FactsOf.{facts_of};
ghost use Rattle.term.specs.Surveys.{Scans, Begins, Surveys, facts_under, facts_beside};
ghost use Rattle.term.specs.Answers.{refusal_of, told, check_of};

use calculus::MOST_HEIGHT;

// The two notations of text.
#[derive(Clone, Copy, Debug, PartialEq, Eq)]
pub enum Notation {
    DeBruijn,
    Classic,
}

// A notation by its number; a number that no notation has is refused by OutsideBounds.
impl TryFrom<u64> for Notation {
    type Error = Refusal;

    ghost try_from_gives = { Numbered };

    fn try_from(number: u64) -> Result<Self, Refusal> {
        match number {
            0 => Ok(Notation::DeBruijn),
            1 => Ok(Notation::Classic),
            _ => Err(Refusal::OutsideBounds),
        }
    }
}

// The thirteen refusals, which all crates share; their numbers are in docs/RULES.md.
#[derive(Clone, Copy, Debug, PartialEq, Eq)]
pub enum Refusal {
    OutsideBounds,
    TooLittleRoom,
    TextTooLong,
    OutsideDomain(usize),
    InvalidCharacter { place: usize, code: u64 },
    UndefinedFreeVariable,
    TooHigh,
    EmptyExpression,
    TooManyNodes,
    NotATerm(usize),
    NotAbs,
    IndexTooGreat,
    OutputTooShort(usize),
}

impl Refusal {
    // The number of a refusal.
    pub fn number(self) -> u64
        ensures { result ≡ refusal_number (refusal_of self) }
    {
        match self {
            Refusal::OutsideBounds => 1,
            Refusal::TooLittleRoom => 2,
            Refusal::TextTooLong => 3,
            Refusal::OutsideDomain(_) => 4,
            Refusal::InvalidCharacter { place: _, code: _ } => 5,
            Refusal::UndefinedFreeVariable => 6,
            Refusal::TooHigh => 7,
            Refusal::EmptyExpression => 8,
            Refusal::TooManyNodes => 9,
            Refusal::NotATerm(_) => 10,
            Refusal::NotAbs => 11,
            Refusal::IndexTooGreat => 12,
            Refusal::OutputTooShort(_) => 13,
        }
    }
}

// What a term begins with: a variable with its index, or another node.
#[derive(Clone, Copy, Debug, PartialEq, Eq)]
pub enum Head {
    Variable(u64),
    Abstraction,
    Application,
}

// The eight bytes at an offset as a number, low byte first.
#[tactic(auto, using(crate::proofs::Indices::eight))]
pub fn index_at(s: &[u8], at: usize) -> u64
    requires { at + 8 ≤ length s.now }
    ensures { result ≡ from_digits 256 (take 8 (drop at s.now)) }
{
    let mut bytes = [0; 8];
    bytes.copy_from_slice(&s[at..at + 8]);
    u64::from_le_bytes(bytes)
}

// What stands at an offset: none where the bytes end, where the byte is no kind, and where a variable is cut short.
// The kinds stay numbers here: these are the coded bytes themselves.
#[tactic(auto, using(crate::proofs::Heads::told))]
pub fn head_at(s: &[u8], at: usize) -> Option<Head>
    ensures { result ≡ head_in (drop at s.now) }
{
    if s.len() <= at {
        return None;
    }
    let cut = s.len() - at < 9;
    match s[at] {
        1 if cut => None,
        1 => Some(Head::Variable(index_at(s, at + 1))),
        2 => Some(Head::Abstraction),
        3 => Some(Head::Application),
        _ => None,
    }
}

// One loop that counts the terms still owed: it takes no stack, however deep the bytes nest. Stays a loop by
// hand: a node takes 1 or 9 bytes, so no iterator steps as it does.
fn scan_all(s: &[u8]) -> Result<(), usize>
    ensures { Scans (decode s.now) result }
{
    let mut at: usize = 0;
    let mut owed: usize = 1;
    while 0 < owed {
        match head_at(s, at) {
            Some(Head::Variable(_)) => {
                at += 9;
                owed -= 1;
            }
            Some(Head::Abstraction) => {
                at += 1;
            }
            Some(Head::Application) => {
                at += 1;
                owed += 1;
            }
            None => {
                return Err(at);
            }
        }
    }
    if at == s.len() { Ok(()) } else { Err(at) }
}

// All that the queries ask of a term under some abstractions, found out by one walk: its nodes, its height, the most
// abstractions on a path, whether some index is 0 or free, and how far indices reach beyond their depth.
#[derive(Clone, Copy, Debug, PartialEq, Eq)]
pub struct Facts {
    pub nodes: u64,
    pub height: u64,
    pub depth: u64,
    pub free: bool,
    pub reach: u64,
}

// Whether an index under so many abstractions is 0 or free. It and the next stay functions: written out
// they are no plainer, and their contracts are what the proofs use.
fn is_free(index: u64, depth: u64) -> bool
    ensures { result ≡ not (between 1 depth index) }
{
    index < 1 || depth < index
}

// The index less the depth, floored at 0.
fn above(index: u64, depth: u64) -> u64
    ensures { result ≡ index - depth }
{
    index.saturating_sub(depth)
}

#[tactic(auto, unfolding(crate::specs::FactsOf::facts_of))]
fn of_variable(index: u64, depth: u64) -> Facts
    ensures { result ≡ facts_of depth (var index) }
{
    Facts {
        nodes: 1,
        height: 1,
        depth: 0,
        free: is_free(index, depth),
        reach: above(index, depth),
    }
}

fn of_abstraction(body: Facts) -> Facts
    requires { (body.nodes < greatest_number) × (body.height ≤ most_height) × (body.depth ≤ most_height) }
    ensures { result ≡ facts_under body }
{
    Facts {
        nodes: body.nodes + 1,
        height: body.height + 1,
        depth: body.depth + 1,
        free: body.free,
        reach: body.reach,
    }
}

fn of_application(left: Facts, right: Facts) -> Facts
    requires nodes_bound { left.nodes + right.nodes < greatest_number }
    requires height_le_most_height { (left.height ≤ most_height) × (right.height ≤ most_height) }
    ensures { result ≡ facts_beside left right }
{
    Facts {
        nodes: left.nodes + right.nodes + 1,
        height: left.height.max(right.height) + 1,
        depth: left.depth.max(right.depth),
        free: left.free || right.free,
        reach: left.reach.max(right.reach),
    }
}

// The facts of the term at an offset and the offset after it, or none where it is higher than the room. The room falls
// at each call, so that calls nest no deeper than it. Bytes and offset stay apart, as in head_at: NotATerm tells one.
fn survey_at(s: &[u8], at: usize, depth: u64, room: u64) -> Option<(Facts, usize)>
    requires room_bound { depth + room ≤ most_height }
    requires begins { Begins s.now at }
    ensures { Surveys s.now at depth room result }
{
    if room == 0 {
        return None;
    }
    match head_at(s, at)? {
        Head::Variable(index) => Some((of_variable(index, depth), at + 9)),
        Head::Abstraction => {
            let (body, next) = survey_at(s, at + 1, depth + 1, room - 1)?;
            Some((of_abstraction(body), next))
        }
        Head::Application => {
            let (left, middle) = survey_at(s, at + 1, depth, room - 1)?;
            let (right, next) = survey_at(s, middle, depth, room - 1)?;
            Some((of_application(left, right), next))
        }
    }
}

// NotATerm, TooHigh, then TooManyNodes against a cap, which may be any number; or the facts of the whole term.
pub fn check(cap: u64, s: &[u8]) -> Result<Facts, Refusal>
    ensures { told result ≡ check_of cap s.now }
{
    if let Err(at) = scan_all(s) {
        return Err(Refusal::NotATerm(at));
    }
    let Some((facts, _)) = survey_at(s, 0, 0, MOST_HEIGHT) else {
        return Err(Refusal::TooHigh);
    };
    if cap < facts.nodes {
        return Err(Refusal::TooManyNodes);
    }
    Ok(facts)
}
