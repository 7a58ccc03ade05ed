//! The one document of a file.

ghost use Rattle.std.specs.Prelude.{◌≡◌, Ok, Err, IfOk, IfErr};
ghost use Rattle.std.specs.List.{All};
ghost use Rattle.rule_run.specs.Files as spec;
ghost use Rattle.sig_base.specs.declared.refusal.Detail.TheVariants as details;
ghost use Rattle.yaml_documents.specs.Given.{IsPlain, answers_view};
ghost use Rattle.yaml_tree.specs.Tree.{tree, refusal};
ghost use Rattle.yaml_tree.specs.View.{node_view, document_view, place_view};

use sig_base::{Code, Detail, Place, Refusal};
use yaml_tree::{Document, Node, place_of};

/// A refusal without a detail.
fn refusal_at(code: Code, place: Place) -> Refusal
    ensures { result ≡ record { code = code; place = place; detail = details.None } }
{
    Refusal {
        code,
        place,
        detail: Detail::None,
    }
}

/// The place of a document: of its top node, or that at which YAML refuses it.
fn document_place(document: &Document) -> Place
    ensures { result ≡ spec.document_place (document_view document.now) }
{
    match document {
        Document::Tree(node) => place_of(node),
        Document::Refused(cause) => cause.place,
    }
}

/// The tree of a document, or YAML's refusal.
fn tree_of(document: &Document) -> Result<&Node, Refusal>
    requires { IsPlain document.now }
    ensures ok { IfOk result (λ node. document_view document.now ≡ tree (node_view node.now)) }
    ensures err { IfErr result (λ r. (document_view document.now ≡ refusal (r.code, place_view r.place)) × (r.detail ≡ details.None)) }
{
    match document {
        Document::Tree(node) => Ok(node),
        Document::Refused(cause) => Err(refusal_at(cause.code, cause.place)),
    }
}

/// The tree of the one document; 84 at the file's first place where there is none, and at the second one where there are several.
pub(crate) fn single_node(documents: &[Document]) -> Result<&Node, Refusal>
    requires { All IsPlain documents.now }
    ensures ok { IfOk result (λ node. spec.single_tree (answers_view documents.now) ≡ Ok (node_view node.now)) }
    ensures err { IfErr result (λ r. spec.single_tree (answers_view documents.now) ≡ Err r) }
{
    match documents {
        [] => Err(refusal_at(Code::NOT_ONE_RULE, Place::START)),
        [document] => tree_of(document),
        [_, second, ..] => Err(refusal_at(Code::NOT_ONE_RULE, document_place(second))),
    }
}
