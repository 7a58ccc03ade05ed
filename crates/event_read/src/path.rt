//! Walking through the objects of a JSON value.

ghost use Rattle.std.specs.Prelude.{◌≡◌, option_map};
ghost use Rattle.serde_json.specs.View.{view};
ghost use Rattle.event_read.specs.Paths.{found};

use serde_json::Value;
use sig_base::Text;

/// The value that the keys lead to, through objects.
pub fn find<'v>(value: &'v Value, at: &[Text]) -> Option<&'v Value>
    ensures { option_map (λ v. view v.now) result ≡ found at.now (view value.now) }
{
    let mut here = value;
    for key in at {
        match here.get(key.as_str()) {
            Some(next) => here = next,
            None => return None,
        }
    }
    Some(here)
}
