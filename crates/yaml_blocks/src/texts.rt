//! What is added to a text.

ghost use Rattle.std.specs.Prelude.{◌≡◌, ◌++◌, OnOk};
ghost use Rattle.yaml_inline.specs.Scalar as scalar;

use sig_base::Text;
use std::alloc::AllocError;

/// Adds so many line feeds.
#[tactic(auto, using(crate::proofs::Turns::feeds_more))]
pub fn push_feeds(content: &mut Text, count: usize) -> Result<(), AllocError>
    ensures { OnOk result (content.new ≡ content.old ++ scalar.feeds count) }
{
    for _added in 0..count {
        content.push('\n')?;
    }
    Ok(())
}
