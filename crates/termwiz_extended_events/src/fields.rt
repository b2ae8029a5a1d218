// The fields of a text, and what stands before its end or follows its start.
ghost use Rattle.std.specs.Prelude.{◌≡◌, ◌==◌, ◌∷◌, option_copied, position};
ghost use Rattle.std.specs.Iterator.{YieldsFirstRef, item_count};
ghost use Rattle.std.specs.List.{slice_split};
ghost use Rattle.termwiz_extended_events.specs.FieldsLeft.{fields_in, fields_left};
ghost use Rattle.termwiz_extended_events.specs.Numbers.{before_end, after_start};

// The parts of a text between its separators, one after the other. A text without separators is one part.
#[derive(Clone, Copy)]
pub(crate) struct Fields<'t> {
    rest: Option<&'t [u8]>,
    separator: u8,
}

impl<'t> Fields<'t> {
    // The fields of a text.
    pub fn new(text: &'t [u8], separator: u8) -> Fields<'t>
        ensures { fields_left result ≡ slice_split (λ b. b == separator) text.now }
    {
        Fields {
            rest: Some(text),
            separator,
        }
    }
}

impl<'t> Iterator for Fields<'t> {
    type Item = &'t [u8];

    ghost next_gives = { YieldsFirstRef fields_left };

    ghost remaining = { item_count fields_left };

    fn next(&mut self) -> Option<&'t [u8]> {
        let text = self.rest?;
        let (field, rest) = cut(text, self.separator);
        self.rest = rest;
        Some(field)
    }
}

// The place of the first such byte.
fn place_of(text: &[u8], byte: u8) -> Option<usize>
    ensures { result ≡ position (λ b. b == byte) text.now }
{
    text.iter().position(|other| *other == byte)
}

// The first field of a text, and what follows the separator behind it.
fn cut(text: &[u8], separator: u8) -> (&[u8], Option<&[u8]>)
    ensures { slice_split (λ b. b == separator) text.now ≡ result.0.now ∷ fields_in separator result.1 }
{
    match place_of(text, separator) {
        Some(place) => (&text[..place], Some(&text[place + 1..])),
        None => (text, None),
    }
}

// What stands before the end, if the text ends so.
#[tactic(auto, unfolding(crate::specs::Numbers::before_end))]
pub(crate) fn before_end<'t>(text: &'t [u8], end: &[u8]) -> Option<&'t [u8]>
    ensures { option_copied result ≡ before_end end.now text.now }
{
    text.strip_suffix(end)
}

// What follows the start, if the text starts so.
#[tactic(auto, unfolding(crate::specs::Numbers::after_start))]
pub(crate) fn after_start<'t>(text: &'t [u8], start: &[u8]) -> Option<&'t [u8]>
    ensures { option_copied result ≡ after_start start.now text.now }
{
    text.strip_prefix(start)
}
