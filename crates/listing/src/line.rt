// The two kinds of line that the program reads.
ghost use Rattle.std.specs.Prelude.{◌≡◌};
ghost use Rattle.std.specs.Option.{option_map};
ghost use Rattle.listing.specs.Lines.{as_header, as_row, header_named, header_rest, row_named, row_rest};

// A line of the input without its line feed, whole, and what follows its letter and its comma.
#[derive(Clone, Copy)]
pub(crate) enum Line<'a> {
    Header { line: &'a [u8], rest: &'a [u8] },
    Row { line: &'a [u8], rest: &'a [u8] },
}

impl<'a> Line<'a> {
    // The line that these bytes are, which it keeps; none where they are neither.
    pub(crate) fn of(line: &'a [u8]) -> Option<Line<'a>>
        ensures header { as_header result ≡ option_map (λ rest. (line.now, rest)) (header_rest line.now) }
        ensures row { as_row result ≡ option_map (λ rest. (line.now, rest)) (row_rest line.now) }
    {
        let [letter, b',', rest @ ..] = line else {
            return None;
        };
        Line::named(char::from(*letter), line, rest)
    }

    // Its first letter decides what a line is.
    fn named(letter: char, line: &'a [u8], rest: &'a [u8]) -> Option<Line<'a>>
        ensures header { as_header result ≡ option_map (λ rest. (line.now, rest)) (header_named letter rest.now) }
        ensures row { as_row result ≡ option_map (λ rest. (line.now, rest)) (row_named letter rest.now) }
    {
        match letter {
            'S' => Some(Line::Header { line, rest }),
            'V' => Some(Line::Row { line, rest }),
            _ => None,
        }
    }
}
