//! What takes a part's place.

ghost use Rattle.std.specs.Prelude.{◌≡◌, length};
ghost use Rattle.sig_strings.specs.declared.part.Part.{Part};
ghost use Rattle.pipeline_limits.specs.Sizes.{total};
ghost use Rattle.pipeline_fill.specs.Counts.{capped};
ghost use Rattle.pipeline_fill.specs.Entries.{largest};
ghost use Rattle.pipeline_fill.specs.Made.{fills, is_missing_filling, IsMeasured};

use crate::entry::Entry;

/// What takes a part's place: the part itself, any run, each value of a variable, or nothing, where there is no such variable.
#[derive(Clone, Copy)]
pub enum Filling<'s> {
    Itself,
    Run,
    Values(Entry<'s>),
    Missing,
}

impl<'s> Filling<'s> {
    /// How many patterns may stand there.
    #[tactic(auto, using(crate::proofs::Putting::read_count))]
    pub fn count(&self) -> usize
        ensures { (part : Part) → result ≡ length (fills part self.now) }
    {
        match self {
            Filling::Itself | Filling::Run => 1,
            Filling::Values(entry) => entry.texts.len(),
            Filling::Missing => 0,
        }
    }

    /// How many parts the longest of them has.
    pub fn longest(&self) -> usize
        ensures { (part : Part) → IsMeasured self.now → result ≡ largest length (fills part self.now) }
    {
        match self {
            Filling::Itself | Filling::Run => 1,
            Filling::Values(entry) => entry.longest,
            Filling::Missing => 0,
        }
    }

    /// How many parts they have together.
    pub fn extent(&self) -> u128
        ensures { (part : Part) → IsMeasured self.now → result ≡ capped (total length (fills part self.now)) }
    {
        match self {
            Filling::Itself | Filling::Run => 1,
            Filling::Values(entry) => entry.extent,
            Filling::Missing => 0,
        }
    }

    pub fn is_missing(&self) -> bool
        ensures { result ≡ is_missing_filling self.now }
    {
        matches!(self, Filling::Missing)
    }
}
