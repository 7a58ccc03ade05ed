//! Lists of tokens.

ghost use Rattle.std.specs.Prelude.{◌≡◌, [], ◌∷◌, ◌++◌, OnOk, IfErr};
ghost use Rattle.lucene_lang.specs.Tokens.{token};
ghost use Rattle.query_tokens.specs.PlaceView.{place_view};
ghost use Rattle.lucene_scan.specs.View.{sort_view, tokens_view};

use crate::token::{Sort, Token};
use sig_base::{Fault, Place};
use std::alloc::Global;
use std::marker::Model;

/// Tokens in order, which contracts see as a list.
#[derive(Drop, Debug)]
pub struct Tokens {
    items: Vec<Token>,
}

impl Model for Tokens {
    ghost use Rattle.std.specs.Prelude.{List};
    ghost use Rattle.lucene_scan.specs.declared.token.Token.{Token};

    ghost Value = { List Token };

    ghost view = { λ t. t.items.items };
}

impl Tokens {
    /// None yet.
    pub fn new(alloc: Global) -> Tokens
        ensures { result ≡ [] }
    {
        Tokens {
            items: Vec::new(alloc),
        }
    }

    /// Adds a token at the end; only want of memory is answered.
    #[tactic(auto, using(crate::proofs::Walked::view_more))]
    pub fn push(&mut self, sort: Sort, place: Place) -> Result<(), Fault>
        ensures ok { OnOk result (tokens_view self.new ≡ tokens_view self.old ++ token (sort_view sort) (place_view place) ∷ []) }
        ensures err { IfErr result (λ e. e ≡ Fault.Memory) }
    {
        self.items.push(Token { sort, place })?;
        Ok(())
    }

    /// Lends the tokens.
    pub fn as_slice(&self) -> &[Token]
        ensures { result.now ≡ self.now }
    {
        self.items.as_slice()
    }
}
