// What is open at a place in a text: a `(`, or a binder by the place of its name.
ghost use Rattle.std.specs.Prelude.{◌≡◌, ◌<◌, [], ◌∷◌, length};
ghost use Rattle.calculus.specs.Bounds.{most_open};
ghost use Rattle.calculus.specs.Walk.{resolved};
ghost use Rattle.words.specs.Places.{Inside, name_of};
ghost use Rattle.parser.specs.Opens.{entry, opens, Opened, found};

use crate::tokens::Binder;
use calculus::MOST_OPEN;
use std::marker::Model;
use words::Name;
use words::text::Text;

// What stands for a `(`: the ends 0 and 0, which no binder's name has, since its lambda is before it.
// No Option: tried, and with entries of 12 bytes a name under 500 groups took 1.4 times as long, a short text 1.07.
const GROUP: Binder = Binder { from: 0, to: 0 };

// All that is open, the last of so many entries innermost. The array is cleared for each text.
#[derive(Drop)]
pub(crate) struct Opens {
    names: [Binder; MOST_OPEN],
    count: usize,
}

impl Model for Opens {
    ghost use Rattle.std.specs.Prelude.{List, take, reverse, length, ◌≤◌, ◌≡◌};
    ghost use Rattle.calculus.specs.Bounds.{most_open};
    ghost use Rattle.parser.specs.declared.tokens.Binder.{Binder};

    ghost Value = { List Binder };

    ghost view = { λ o. reverse (take o.count o.names) };

    ghost invariant = { λ o. (o.count ≤ most_open) × (length o.names ≡ most_open) };
}

impl Opens {
    // Nothing is open.
    pub(crate) fn new() -> Opens
        ensures { result ≡ [] }
    {
        Opens {
            names: [GROUP; MOST_OPEN],
            count: 0,
        }
    }

    // How much is open.
    pub(crate) fn len(&self) -> usize
        ensures { result ≡ length self.now }
    {
        self.count
    }

    // One more inside all that is open.
    pub(crate) fn push(&mut self, opening: Option<Binder>)
        requires { length self.old < most_open }
        ensures { self.new ≡ entry opening ∷ self.old }
    {
        self.names[self.count] = opening.unwrap_or(GROUP);
        self.count += 1;
    }

    // Without the innermost, whose entry is handed out.
    pub(crate) fn pop(&mut self) -> Binder
        requires { 0 < length self.old }
        ensures { self.old ≡ result ∷ self.new }
    {
        self.count -= 1;
        self.names[self.count]
    }

    // The index that a name has among what is open, from the innermost binder out.
    pub(crate) fn resolve(&self, text: Text, name: Name) -> Option<u64>
        requires { Inside text.bytes.now name × Opened text.bytes.now self.now }
        ensures { found result ≡ resolved (name_of text.entry.bytes.now name) 1 (opens text.entry.bytes.now self.now) }
    {
        // counted by hand: binders alone count, and `filter` with `position` is two closures for one test, no plainer
        let mut index = 1;
        for open in self.names[..self.count].iter().rev() {
            if open.to != 0 {
                if text.same_name(name, open.name()) {
                    return Some(index);
                }
                index += 1;
            }
        }
        None
    }
}
