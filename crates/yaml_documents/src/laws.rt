//! Laws of the definitions, which readers cite. None of these functions does anything.

ghost use Rattle.yaml_documents.specs.Places.{StopsOnTheLine, RefusedOnTheLine};
ghost use Rattle.yaml_documents.specs.Verdicts.{EachVerdict, NeverBoth, OneList, OneRefusal};

/// A reading that stops does so at a place on the first line up to which there is no tree.
pub fn stops_on_the_line()
    ensures { StopsOnTheLine }
{}

/// A document's refusal has its place on the line that the document is refused at.
pub fn refused_on_the_line()
    ensures { RefusedOnTheLine }
{}

/// Each file is taken or refused, and none is both.
pub fn verdicts()
    ensures each { EachVerdict }
    ensures never_both { NeverBoth }
{}

/// A file has one list of answers, and one refusal.
pub fn one_verdict()
    ensures list { OneList }
    ensures refusal { OneRefusal }
{}
