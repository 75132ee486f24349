// The seven orders, and the traits by which one engine runs them all.
#![tactic(auto)]

ghost use Rattle.std.specs.Prelude.{◌≡◌};
ghost use Rattle.calculus.specs.Orders as calculus;
ghost use Rattle.calculus.specs.Traits as traits;
ghost use Rattle.orders.specs.Orders.{order_of, Numbered};

use term::Refusal;

// Each by its name in docs/RULES.md; the numbers 0 to 6 stand in this order.
#[derive(Clone, Copy, Debug, PartialEq, Eq)]
pub enum Order {
    NOR,
    CBN,
    HSP,
    HNO,
    APP,
    CBV,
    HAP,
}

// An order by its number; a number that no order has is refused by OutsideBounds.
impl TryFrom<u64> for Order {
    type Error = Refusal;

    ghost try_from_gives = { Numbered };

    fn try_from(number: u64) -> Result<Self, Refusal> {
        match number {
            0 => Ok(Order::NOR),
            1 => Ok(Order::CBN),
            2 => Ok(Order::HSP),
            3 => Ok(Order::HNO),
            4 => Ok(Order::APP),
            5 => Ok(Order::CBV),
            6 => Ok(Order::HAP),
            _ => Err(Refusal::OutsideBounds),
        }
    }
}

impl Order {
    // The order by which the function part is reduced first.
    pub fn spine(self) -> Order
        ensures { order_of result ≡ traits.spine (order_of self) }
    {
        match self {
            Order::NOR | Order::CBN => Order::CBN,
            Order::HSP | Order::HNO => Order::HSP,
            Order::APP => Order::APP,
            Order::CBV | Order::HAP => Order::CBV,
        }
    }

    // Whether the argument is reduced before it is put.
    // It and the two below stay apart: other sets, alike by text only.
    pub fn is_eager(self) -> bool
        ensures { result ≡ traits.eager (order_of self) }
    {
        matches!(self, Order::APP | Order::CBV | Order::HAP)
    }

    // Whether a function part that is no abstraction is reduced further, by the order itself.
    pub fn is_hybrid(self) -> bool
        ensures { result ≡ traits.hybrid (order_of self) }
    {
        matches!(self, Order::NOR | Order::HNO | Order::HAP)
    }

    // Whether the argument of a function part that is no abstraction is reduced last.
    pub fn is_late(self) -> bool
        ensures { result ≡ traits.late (order_of self) }
    {
        matches!(self, Order::NOR | Order::HNO)
    }

    // Whether the same order steps in the body of an abstraction.
    #[tactic(auto, unfolding(calculus::specs::Orders::enters))]
    pub fn enters_bodies(self) -> bool
        ensures { result ≡ calculus.enters (order_of self) }
    {
        !matches!(self, Order::CBN | Order::CBV)
    }
}
