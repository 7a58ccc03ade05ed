ghost use Rattle.std.specs.Prelude.{◌≡◌};
ghost use Rattle.matching.specs.Steps.{is_taken};

use crate::step::Taker;
use sig_base::fold;

impl Taker {
    pub fn does_take(self, c: char) -> bool
        ensures { result ≡ is_taken self c }
    {
        match self {
            Taker::Any => true,
            Taker::Exact(wanted) => wanted == c,
            Taker::Folded(wanted) => fold(wanted) == fold(c),
            Taker::Dash => c == '-'
                || c == '/'
                || c == '\u{2013}'
                || c == '\u{2014}'
                || c == '\u{2015}',
        }
    }
}
