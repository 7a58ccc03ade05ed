//! How large the trees of a file are, and of what characters: laws, which callers cite. No function does anything.

ghost use Rattle.yaml_documents.specs.Bounds.{NodesWithinBytes, NodesWithinLimit, SomeHasAsMany, TextsAreScalars};

/// The trees of a file have at most two nodes in all for each of its bytes, and so at most twice the
/// bytes that a file may have.
pub fn nodes_are_few()
    ensures bytes { NodesWithinBytes }
    ensures limit { NodesWithinLimit }
{}

/// Some file has as many: `-`, a sequence and its null.
pub fn some_has_as_many()
    ensures { SomeHasAsMany }
{}

/// The keys and texts of the trees of a file are made of Unicode scalar values: an escape gives no surrogate.
pub fn texts_are_scalars()
    ensures { TextsAreScalars }
{}
