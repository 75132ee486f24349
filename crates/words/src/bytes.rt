// What single bytes are: white space, letters, figures, hex digits, and what a run of characters may hold.
ghost use Rattle.std.specs.Prelude.{◌≡◌, ◌||◌};
ghost use Rattle.calculus.specs.Characters.{white};
ghost use Rattle.calculus.specs.Numbers.{between};
ghost use Rattle.calculus.specs.Classic as classic;
ghost use Rattle.words.specs.Places.{char_of};
ghost use Rattle.words.specs.Runs.{test_of};
ghost use Rattle.words.specs.Digits.{hex_digit};

// The two bytes of the lambda sign.
pub(crate) const SIGN_FIRST: u8 = 0xCE;

pub(crate) const SIGN_SECOND: u8 = 0xBB;

// Whether a byte is by itself a character of the domain.
pub(crate) fn is_plain(b: u8) -> bool
    ensures { result ≡ white b || between 33 126 b }
{
    if b' ' < b { b <= b'~' } else { is_white(b) }
}

// The code point of the character that begins with a byte; CE begins the sign.
pub(crate) fn code_of(b: u8) -> u64
    ensures { result ≡ char_of b }
{
    if b == SIGN_FIRST { 955 } else { u64::from(b) }
}

// What a run of characters may hold: white space, what a binder's name holds, what a name elsewhere holds.
// No closures: data by case is plainer, since each case has its test in the definitions.
#[derive(Clone, Copy, Debug, PartialEq, Eq)]
pub(crate) enum Run {
    White,
    Bound,
    Elsewhere,
}

// White space: a space, a tab or an end of line.
pub(crate) fn is_white(b: u8) -> bool
    ensures { result ≡ white b }
{
    matches!(b, b' ' | b'\t' | b'\n' | b'\r')
}

// A letter, by the library's test: this states it in the words of the definitions, as does the next.
pub(crate) fn is_letter(b: u8) -> bool
    ensures { result ≡ classic.is_letter b }
{
    b.is_ascii_alphabetic()
}

// A figure.
pub(crate) fn is_figure(b: u8) -> bool
    ensures { result ≡ classic.is_figure b }
{
    b.is_ascii_digit()
}

// Whether a run may hold the character that begins with a byte; CE begins the sign.
pub(crate) fn may_hold(run: Run, b: u8) -> bool
    ensures { result ≡ test_of run (char_of b) }
{
    // by `if`, since with `||` and `&&` texts took up to 1.05 times as long
    match run {
        Run::White => is_white(b),
        Run::Bound => {
            if is_letter(b) {
                return true;
            }
            if is_figure(b) {
                return true;
            }
            b == SIGN_FIRST
        }
        Run::Elsewhere => {
            if b == b'(' {
                return false;
            }
            if b == b')' {
                return false;
            }
            !is_white(b)
        }
    }
}

// The value of a hex digit.
pub(crate) fn hex_digit(b: u8) -> Option<u64>
    ensures { result ≡ hex_digit b }
{
    match b {
        b'0'..=b'9' => Some(u64::from(b - b'0')),
        b'A'..=b'F' => Some(u64::from(b - (b'A' - 10))),
        b'a'..=b'f' => Some(u64::from(b - (b'a' - 10))),
        _ => None,
    }
}
