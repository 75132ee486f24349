// A text that may be read, and the names in it.
ghost use Rattle.words.specs.Places.{Clean};

use crate::Name;

// Bytes that are no more than a text may have, and characters of the domain.
#[derive(Clone, Copy, Debug)]
pub struct Text<'a> {
    pub bytes: &'a [u8],
    ghost clean: { Clean bytes.now },
}

impl<'a> Text<'a> {
    ghost use Rattle.std.specs.Prelude.{◌≡◌};
    ghost use Rattle.calculus.specs.Characters.{same_text};
    ghost use Rattle.words.specs.Places.{name_of, Inside};

    // Whether two names are the same text.
    #[tactic(auto, using(crate::proofs::SameNames::naming))]
    pub fn same_name(self, x: Name, y: Name) -> bool
        requires { Inside self.bytes.now x × Inside self.bytes.now y }
        ensures { result ≡ same_text (name_of self.entry.bytes.now x) (name_of self.entry.bytes.now y) }
    {
        if x.to - x.from != y.to - y.from {
            return false;
        }
        let one = &self.bytes[x.from..x.to];
        let other = &self.bytes[y.from..y.to];
        // the first bytes one by one, since most names are short or soon differ, and `==` of slices calls a function
        let near = one.len().min(8);
        for i in 0..near {
            if one[i] != other[i] {
                return false;
            }
        }
        one[near..] == other[near..]
    }
}
