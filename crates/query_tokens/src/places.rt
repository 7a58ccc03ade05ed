//! Places in a text, as a scanner counts them.

ghost use Rattle.std.specs.Prelude.{◌≡◌, ◌<◌, ◌^◌, ◌-◌, length};
ghost use Rattle.std.specs.Str.{chars};
ghost use Rattle.query_tokens.specs.Places as places;
ghost use Rattle.query_tokens.specs.PlaceView.{place_view};

use sig_base::Place;

/// The place after a character.
pub fn after(place: Place, c: char) -> Place
    requires line { place.line < 2 ^ 32 - 1 }
    requires column { place.column < 2 ^ 32 - 1 }
    ensures { place_view result ≡ places.after (place_view place) c }
{
    if c == '\n' {
        return Place {
            line: place.line + 1,
            column: 1,
        };
    }
    Place {
        line: place.line,
        column: place.column + 1,
    }
}

/// The place behind a text of fewer than 2^31 bytes.
#[tactic(auto, using(crate::proofs::PlaceLemmas::place_turn, crate::proofs::PlaceLemmas::place_near))]
pub fn place_behind(text: &str) -> Place
    requires { length text.now < 2 ^ 31 }
    ensures { place_view result ≡ places.place_after places.origin (chars text.now) }
{
    let mut place = Place { line: 1, column: 1 };
    for c in text.chars() {
        place = after(place, c);
    }
    place
}
