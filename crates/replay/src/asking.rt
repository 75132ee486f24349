// What a line asks for, and the call.
use crate::lines::{cut, number, which};
use crate::terms::Inputs;
use copperjangle::Answer;
use std::ops::RangeInclusive;
use std::str;

// The entry points.
#[derive(Clone, Copy, Debug, PartialEq, Eq)]
pub(crate) enum Call {
    Parse,
    Print,
    Apply,
    Eta,
    Reduce,
    Equality,
    Nodes,
    Height,
    MaxDepth,
    MaxFreeIndex,
    HasFreeVariables,
    IsSupercombinator,
}

impl Call {
    fn named(word: &[u8]) -> Option<Call> {
        match str::from_utf8(word).ok()? {
            "parse" => Some(Call::Parse),
            "print" => Some(Call::Print),
            "apply" => Some(Call::Apply),
            "eta" => Some(Call::Eta),
            "reduce" => Some(Call::Reduce),
            "equality" => Some(Call::Equality),
            "nodes" => Some(Call::Nodes),
            "height" => Some(Call::Height),
            "max_depth" => Some(Call::MaxDepth),
            "max_free_index" => Some(Call::MaxFreeIndex),
            "has_free_variables" => Some(Call::HasFreeVariables),
            "is_supercombinator" => Some(Call::IsSupercombinator),
            _ => None,
        }
    }

    // Whether it needs room to work in.
    pub(crate) fn works(self) -> bool {
        matches!(self, Call::Parse | Call::Apply | Call::Eta | Call::Reduce)
    }

    // Whether it writes into an output.
    pub(crate) fn writes(self) -> bool {
        self.works() || self == Call::Print
    }
}

// The numbers of the notations or orders that are asked for. It stays an enum: `All` is a wish, which None would hide.
#[derive(Clone, Copy, Debug, PartialEq, Eq)]
pub(crate) enum Orders {
    One(u64),
    All,
}

impl Orders {
    // One that is none stays a number that is none: copperjangle is asked, and refuses it, as the program always did.
    fn named(call: Call, word: &[u8]) -> Orders {
        if word == b"ALL".as_slice() {
            return Orders::All;
        }
        let names = match call {
            Call::Reduce => b"NOR CBN HSP HNO APP CBV HAP".as_slice(),
            _ => b"dbr cla".as_slice(),
        };
        Orders::One(which(names, word).unwrap_or(names.len()) as u64)
    }

    pub(crate) fn numbers(self) -> RangeInclusive<u64> {
        match self {
            Orders::One(number) => number..=number,
            Orders::All => 0..=6,
        }
    }
}

// A line's words.
#[derive(Clone, Copy, Debug, PartialEq, Eq)]
pub(crate) struct Asked<'a> {
    pub(crate) call: Call,
    pub(crate) orders: Orders,
    pub(crate) limit: u64,
    // the rest of the line, from the first input on
    pub(crate) inputs: &'a [u8],
}

// Between the word of the entry point and the inputs there may stand a name and a limit.
// The matches on a call, here and below, stay: each entry point has parameters of its own, and a table is no plainer.
pub(crate) fn read(line: &[u8]) -> Option<Asked<'_>> {
    let (word, after) = cut(line, b' ');
    let call = Call::named(word)?;
    let (name, after_name) = cut(after, b' ');
    let (limit, after_limit) = match call {
        Call::Eta => (name, after_name),
        _ => cut(after_name, b' '),
    };
    let inputs = match call {
        Call::Parse | Call::Print => after_name,
        Call::Eta | Call::Reduce => after_limit,
        _ => after,
    };
    Some(Asked {
        call,
        orders: Orders::named(call, name),
        limit: number(limit, 10),
        inputs,
    })
}

// The call. Its parameters stay apart, as those that the entry points are lent.
pub(crate) fn answer(
    asked: Asked,
    name: u64,
    cap: u64,
    inputs: Inputs,
    out: &mut [u8],
    room: &mut [u64],
) -> Answer {
    let s = inputs.first;
    match asked.call {
        Call::Parse => copperjangle::copperjangle_parse(name, cap, s, out, room),
        Call::Print => copperjangle::copperjangle_print(name, s, out),
        Call::Apply => copperjangle::copperjangle_apply(cap, s, inputs.second, out, room),
        Call::Eta => copperjangle::copperjangle_eta(asked.limit, cap, s, out, room),
        Call::Reduce => copperjangle::copperjangle_reduce(name, asked.limit, cap, s, out, room),
        Call::Equality => copperjangle::copperjangle_equality(s, inputs.second),
        Call::Nodes => copperjangle::copperjangle_nodes(s),
        Call::Height => copperjangle::copperjangle_height(s),
        Call::MaxDepth => copperjangle::copperjangle_max_depth(s),
        Call::MaxFreeIndex => copperjangle::copperjangle_max_free_index(s),
        Call::HasFreeVariables => copperjangle::copperjangle_has_free_variables(s),
        Call::IsSupercombinator => copperjangle::copperjangle_is_supercombinator(s),
    }
}
