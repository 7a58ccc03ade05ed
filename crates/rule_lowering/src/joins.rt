//! Trees joined to one.

ghost use Rattle.std.specs.Prelude.{◌≡◌, ◌++◌, OnOk, map};
ghost use Rattle.backend_core.specs.View.{tree_view, plains_of};
ghost use Rattle.rule_lowering.specs.Joining as spec;
ghost use Rattle.rule_lowering.specs.Joining.{parts_of, closed};

use backend_core::{Tree, add_to_all, add_to_any};
use modifier_words::Joined;
use std::alloc::AllocError;

/// Adds a tree to the parts of an All, or of an Any: of a tree of the same kind its parts, else the tree itself.
pub fn add_part(joined: Joined, parts: &mut Vec<Tree>, tree: Tree) -> Result<(), AllocError>
    ensures { OnOk result (map tree_view parts.new.items ≡ map tree_view parts.old.items ++ parts_of joined (tree_view tree)) }
{
    match joined {
        Joined::All => add_to_all(parts, tree),
        Joined::Any => add_to_any(parts, tree),
    }
}

fn tree_with(joined: Joined, parts: Vec<Tree>) -> Tree
    ensures { tree_view result ≡ spec.tree_with joined (plains_of parts.items) }
{
    match joined {
        Joined::All => Tree::All(parts),
        Joined::Any => Tree::Any(parts),
    }
}

/// The All, or the Any, of parts that are none themselves; one alone is the tree.
pub fn close_parts(joined: Joined, mut parts: Vec<Tree>) -> Tree
    ensures { tree_view result ≡ closed joined (map tree_view parts.items) }
{
    if parts.len() != 1 {
        return tree_with(joined, parts);
    }
    match parts.pop() {
        Some(tree) => tree,
        None => tree_with(joined, parts),
    }
}
