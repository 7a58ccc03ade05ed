//! Laws of the definitions, which readers cite. None of these functions does anything.

ghost use Rattle.yaml_blocks.specs.Laws.{OneTree, DocumentsBefore, ReadsTrees, ReadsAll, StopsThere, StopsByCases, CasesStop};
ghost use Rattle.yaml_blocks.specs.Documents.{EachAnswered, OneAnswer};

/// A document's lines have at most one tree.
pub fn one_tree()
    ensures { OneTree }
{}

/// The first lines of a document are a document.
pub fn documents_before()
    ensures { DocumentsBefore }
{}

/// What the blocks' reading gives is laid out in the lines, and all that is laid out is given.
pub fn reads_exactly()
    ensures trees { ReadsTrees }
    ensures all { ReadsAll }
{}

/// A reading that stops does so at the first line up to which there is no tree, whatever follows.
pub fn stops_at_the_first_dead_line()
    ensures { StopsThere }
{}

/// Where and why a reading stops is what the cases say.
pub fn stops_by_cases()
    ensures cases { StopsByCases }
    ensures all { CasesStop }
{}

/// Each document with content has an answer, its tree or its refusal, and no document has two.
pub fn answers()
    ensures each { EachAnswered }
    ensures one { OneAnswer }
{}
