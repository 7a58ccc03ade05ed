//! Chains of modifiers.

ghost use Rattle.std.specs.Prelude.{◌≡◌};
ghost use Rattle.std.specs.List.{list_any};
ghost use Rattle.modifier_words.specs.Chains as chains;
ghost use Rattle.modifier_words.specs.Kinds as kinds;

use crate::chain_rules::{
    flags_of, is_all, is_cased, is_empty, is_expand, is_expression_chain, is_network_chain,
    is_position, is_presence, is_reference, order_of, takes_null,
};
use crate::form::ChainForm;
use crate::modifier::{Joined, Modifier};
use sig_base::Place;
use std::marker::Model;

/// The modifiers behind a field's name or before a keyword, from left to right.
#[derive(Drop, Debug)]
pub struct Chain {
    modifiers: Vec<Modifier>,
    keyword: bool,
    place: Place,
}

impl Model for Chain {
    ghost use Rattle.modifier_words.specs.Written.{Written};

    ghost Value = { Written };

    ghost view = { λ c. record { modifiers = c.modifiers.items; keyword = c.keyword; place = c.place } };
}

impl Chain {
    pub(crate) fn of_modifiers(modifiers: Vec<Modifier>, keyword: bool, place: Place) -> Chain
        ensures modifiers { result.modifiers ≡ modifiers.items }
        ensures keyword { result.keyword ≡ keyword }
        ensures place { result.place ≡ place }
    {
        Chain {
            modifiers,
            keyword,
            place,
        }
    }

    /// Lends the modifiers.
    pub fn modifiers(&self) -> &[Modifier]
        ensures { result.now ≡ self.now.modifiers }
    {
        self.modifiers.as_slice()
    }

    /// Whether the chain stands at a keyword.
    pub fn is_keyword(&self) -> bool
        ensures { result ≡ self.now.keyword }
    {
        self.keyword
    }

    fn has_all(&self) -> bool
        ensures { result ≡ list_any kinds.is_all self.now.modifiers }
    {
        self.modifiers().iter().any(is_all)
    }

    /// Whether texts are compared with regard to case.
    pub fn is_cased(&self) -> bool
        ensures { result ≡ list_any kinds.is_cased self.now.modifiers }
    {
        self.modifiers().iter().any(is_cased)
    }

    /// Whether a modifier says where in a text the pattern is looked for.
    pub fn has_position(&self) -> bool
        ensures { result ≡ list_any kinds.is_position self.now.modifiers }
    {
        self.modifiers().iter().any(is_position)
    }

    /// Whether `%name%` in a value is a placeholder.
    pub fn expands(&self) -> bool
        ensures { result ≡ list_any kinds.is_expand self.now.modifiers }
    {
        self.modifiers().iter().any(is_expand)
    }

    /// Whether all values of the item have to be satisfied.
    pub fn joined(&self) -> Joined
        ensures { result ≡ chains.joined_of self.now }
    {
        if self.has_all() {
            Joined::All
        } else {
            Joined::Any
        }
    }

    /// The kind of the chain, which decides what values it takes and what for.
    pub fn form(&self) -> ChainForm
        ensures { result ≡ chains.form_of self.now }
    {
        if self.is_keyword() {
            return self.keyword_form();
        }
        if let Some(op) = order_of(self.modifiers()) {
            return ChainForm::Orders(op);
        }
        self.unordered_form()
    }

    /// The kind of the chain at a keyword.
    fn keyword_form(&self) -> ChainForm
        ensures { result ≡ chains.keyword_form self.now.modifiers }
    {
        if is_expression_chain(self.modifiers()) {
            return ChainForm::Expressions(flags_of(self.modifiers()));
        }
        ChainForm::Texts { nulls: false }
    }

    /// The kind of the chain at a field, if it asks for no order.
    fn unordered_form(&self) -> ChainForm
        ensures { result ≡ chains.unordered_form self.now.modifiers }
    {
        if is_empty(self.modifiers()) {
            return ChainForm::Bare;
        }
        if is_presence(self.modifiers()) {
            return ChainForm::Presence;
        }
        if is_network_chain(self.modifiers()) {
            return ChainForm::Networks;
        }
        if is_reference(self.modifiers()) {
            return ChainForm::Reference;
        }
        if is_expression_chain(self.modifiers()) {
            return ChainForm::Expressions(flags_of(self.modifiers()));
        }
        ChainForm::Texts {
            nulls: takes_null(self.modifiers()),
        }
    }
}
