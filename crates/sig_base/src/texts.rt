//! Lists of texts.

use crate::sequence::Sequence;
use crate::text::Text;

/// Texts in order, which contracts see as a list of lists of characters.
pub type Texts = Sequence<Text>;
