//! What stands behind `1 of` and `all of`.

use sig_base::Text;

/// The detections that `1 of` and `all of` choose among.
#[derive(Drop)]
pub enum Selector {
    /// `them`: every detection whose name doesn't begin with `_`.
    Them,
    /// A name, or a name with `*` for any run of characters.
    Names(Text),
}
