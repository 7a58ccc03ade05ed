//! Trees joined into lists of their kind.

ghost use Rattle.std.specs.Prelude.{◌≡◌, OnOk};
ghost use Rattle.backend_core.specs.Joins as spec;
ghost use Rattle.backend_core.specs.View.{tree_view, plains_of};

use crate::tree::Tree;
use std::alloc::AllocError;

/// Adds a tree to the parts of an All: of an All its parts, else the tree itself.
pub fn add_to_all(parts: &mut Vec<Tree>, tree: Tree) -> Result<(), AllocError>
    ensures { OnOk result (plains_of parts.new.items ≡ spec.append (plains_of parts.old.items) (spec.all_parts (tree_view tree))) }
{
    match tree {
        Tree::All(mut inner) => {
            parts.append(&mut inner)?;
        }
        Tree::Any(inner) => {
            parts.push(Tree::Any(inner))?;
        }
        Tree::Not(inner) => {
            parts.push(Tree::Not(inner))?;
        }
        Tree::Leaf(leaf) => {
            parts.push(Tree::Leaf(leaf))?;
        }
        Tree::Never => {
            parts.push(Tree::Never)?;
        }
    }
    Ok(())
}

/// Adds a tree to the parts of an Any: of an Any its parts, else the tree itself.
pub fn add_to_any(parts: &mut Vec<Tree>, tree: Tree) -> Result<(), AllocError>
    ensures { OnOk result (plains_of parts.new.items ≡ spec.append (plains_of parts.old.items) (spec.any_parts (tree_view tree))) }
{
    match tree {
        Tree::All(inner) => {
            parts.push(Tree::All(inner))?;
        }
        Tree::Any(mut inner) => {
            parts.append(&mut inner)?;
        }
        Tree::Not(inner) => {
            parts.push(Tree::Not(inner))?;
        }
        Tree::Leaf(leaf) => {
            parts.push(Tree::Leaf(leaf))?;
        }
        Tree::Never => {
            parts.push(Tree::Never)?;
        }
    }
    Ok(())
}
