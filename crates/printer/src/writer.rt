// The text writer: the lent output and the place reached, kept together.
ghost use Rattle.std.specs.Prelude.{◌≡◌};
ghost use Rattle.calculus.specs.Bounds.{most_height};
ghost use Rattle.printer.specs.Parts.{Writable};
ghost use Rattle.printer.specs.Writers.{WritesWhole, WritesOn};
ghost use Rattle.printer.specs.declared.Part.TheVariants.{Whole};

use crate::pieces::Style;

// A method is thin: what is done is done on the slice and the place.
#[derive(Drop)]
pub(crate) struct Writer<'a> {
    pub(crate) out: &'a mut [u8],
    pub(crate) place: usize,
}

impl<'a> Writer<'a> {
    // A writer at the start of a slice.
    fn begin(out: &'a mut [u8]) -> Writer<'a>
        ensures same_reference { result.out.ghost_name ≡ out.entry.ghost_name }
        ensures at_start { (result.out ≡ out.entry) × (result.place ≡ 0) }
    {
        Writer { out, place: 0 }
    }

    // A whole term; the writer goes on behind it.
    fn write_term(&mut self, style: Style, s: &[u8])
        requires { Writable style s.now 0 0 Whole self.old.place most_height }
        ensures same_reference { self.new.out.ghost_name ≡ self.old.out.ghost_name }
        ensures writes { WritesOn style s.now self.old self.new }
    {
        self.place = crate::write_whole(self.out, self.place, style, s);
    }
}

// From a slice to a writer and back: whoever calls this does not meet a writer.
pub(crate) fn write(out: &mut [u8], style: Style, s: &[u8]) -> usize
    requires { Writable style s.now 0 0 Whole 0 most_height }
    ensures { WritesWhole style s.now out.old 0 result out.new }
{
    let mut writer = Writer::begin(out);
    writer.write_term(style, s);
    writer.place
}
