//! Where in a record a reader stands.
ghost use Rattle.std.specs.Prelude.{◌≡◌, Some};
ghost use Rattle.csv.specs.Machine.{in_field, step};
ghost use Rattle.csv.specs.Reading.{default_config};
ghost use Rattle.csv.specs.declared.parser.State.{State};
ghost use Rattle.open_quotes.specs.Places.{opening, place_of};

/// Where a reader stands: where a cell may begin, in one without quotes, in one of quotes, or behind a quote that may end that.
#[derive(Clone, Copy, Debug, PartialEq, Eq)]
pub(crate) enum Place {
    Start,
    Bare,
    Quoted,
    Behind,
}

/// Where a reader stands behind one more byte.
pub(crate) fn place_behind(place: Place, c: u8) -> Place
    ensures step { (s : State) → place_of s ≡ Some place → place_of (step default_config s c).0 ≡ Some result }
{
    match place {
        Place::Quoted => {
            if c == b'"' {
                Place::Behind
            } else {
                Place::Quoted
            }
        }
        Place::Start | Place::Behind => { if c == b'"' { Place::Quoted } else { outside(c) } }
        Place::Bare => outside(c),
    }
}

/// The place of the quote of the cell that a reader may be in, behind the byte at i, which may be such a quote.
pub(crate) fn opened_behind(place: Place, next: Place, i: usize, opened: usize) -> usize
    ensures { result ≡ opening place next i opened }
{
    match place {
        Place::Start => { if next == Place::Quoted { i } else { opened } }
        _ => opened,
    }
}

// Where a reader stands behind a byte in a cell without quotes.
fn outside(c: u8) -> Place
    ensures { Some result ≡ place_of (in_field default_config c).0 }
{
    match c {
        b',' | b'\r' | b'\n' => Place::Start,
        _ => Place::Bare,
    }
}
