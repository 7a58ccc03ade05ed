//! What follows from the definitions, for the proofs of callers: each function does nothing, and its clauses are laws.

ghost use Rattle.std.specs.Prelude.{◌≡◌, ◌↔◌, ◌<◌, ◌≤◌, ◌-◌, ◌*◌, ◌^◌, ℕ, Bool, List, None, true, false, length, if◌then◌else◌};
ghost use Rattle.std.specs.List.{list_all, list_any};
ghost use Rattle.std.specs.Str.{all_scalars};
ghost use Rattle.modifier_windash.specs.Choices.{choices, dash_count};
ghost use Rattle.event_schema.specs.Addresses.{IsAddress};
ghost use Rattle.event_schema.specs.Events.{IsPlainText};
ghost use Rattle.event_schema.specs.Lists.{EachOf};
ghost use Rattle.modifier_words.specs.Kinds.{is_expand, is_windash};
ghost use Rattle.modifier_words.specs.Written.{Written};
ghost use Rattle.modifier_words.specs.declared.form.Flags.{Flags};
ghost use Rattle.sig_base.specs.declared.refusal.Place.{Place};
ghost use Rattle.sig_encode.specs.Networks.{Net, InNetwork, IsNetwork, pattern_count, patterns_of};
ghost use Rattle.sig_strings.specs.Fits.{SomeFits};
ghost use Rattle.sig_strings.specs.Edits.{dashes_of};
ghost use Rattle.sig_strings.specs.Spells.{Spells};
ghost use Rattle.sig_strings.specs.declared.part.Part.{Part};
ghost use Rattle.modifier_values.specs.Edited.{pattern_of};
ghost use Rattle.modifier_values.specs.Expressions.{expression_text};
ghost use Rattle.modifier_values.specs.Parts.{has_nul, parts_of};
ghost use Rattle.modifier_values.specs.PlainPatterns.{has_no_nul, is_dashed, is_filled, is_plain, HasPlainText, IsDashedPattern, IsPlainPattern};
ghost use Rattle.modifier_values.specs.Uses as uses;

/// The function gives the pattern that a text spells, and a text spells no other.
pub fn parts_are_spelled()
    ensures spelled { (expand : Bool) (text : List ℕ) → Spells expand text (parts_of expand text) }
    ensures no_other { (expand : Bool) (text : List ℕ) (parts : List Part) → Spells expand text parts → parts ≡ parts_of expand text }
{}

/// A text stands for one list of patterns under a chain.
pub fn one_list_of_patterns()
    ensures some { (chain : Written) (text : List ℕ) → (patterns : List (List Part)) × uses.ArePatterns chain text patterns }
    ensures same { (chain : Written) (text : List ℕ) (patterns others : List (List Part))
        → uses.ArePatterns chain text patterns → uses.ArePatterns chain text others → patterns ≡ others }
{}

/// A text is one network at most, and one where it isn't refused.
pub fn one_network()
    ensures some { (unbuilt : List Place) (most dashes : ℕ) (chain : Written) (place : Place) (text : List ℕ)
        → uses.use_refusal unbuilt most dashes chain place (uses.network text) ≡ None → (n : Net) × IsNetwork text n }
    ensures same { (text : List ℕ) (m n : Net) → IsNetwork text m → IsNetwork text n → m ≡ n }
{}

/// Where a text has no U+0000, its patterns have none, and they have placeholders only where its chain has `expand`.
pub fn patterns_have_plain_text()
    ensures tests { (chain : Written) (text : List ℕ) (patterns : List (List Part))
        → has_nul text ≡ false → uses.ArePatterns chain text patterns → list_all has_no_nul patterns ≡ true }
    ensures scalars { (chain : Written) (text : List ℕ) (patterns : List (List Part))
        → all_scalars text ≡ true → has_nul text ≡ false → uses.ArePatterns chain text patterns → EachOf HasPlainText patterns }
    ensures filled { (chain : Written) (text : List ℕ) (patterns : List (List Part))
        → list_any is_expand chain.modifiers ≡ false → uses.ArePatterns chain text patterns → EachOf (λ parts. list_all is_filled parts ≡ true) patterns }
{}

/// Where no encoding stands, a pattern has dash places through `windash` alone, as many as it makes of the text's own pattern.
pub fn dash_places_are_counted()
    ensures { (chain : Written) (text : List ℕ) → dash_count (pattern_of chain (uses.parts_in chain text))
        ≡ (if list_any is_windash chain.modifiers then dash_count (dashes_of (uses.parts_in chain text)) else 0) }
{}

/// A regular expression begins with letters and signs, and goes on with its text.
pub fn expressions_are_plain()
    ensures { (flags : Flags) (text : List ℕ) → IsPlainText text → IsPlainText (expression_text flags text) }
{}

/// The choices of dashes of a pattern without placeholders can be written.
pub fn choices_are_plain()
    ensures tests { (parts : List Part) → is_dashed parts ≡ true → list_all is_plain (choices parts) ≡ true }
    ensures scalars { (parts : List Part) → IsDashedPattern parts → EachOf IsPlainPattern (choices parts) }
{}

/// A network that is read has a number of 32 bits, and of these 32 count at most.
pub fn networks_are_bounded()
    ensures bits { (text : List ℕ) (n : Net) → IsNetwork text n → n.bits < 2 ^ 32 }
    ensures prefix { (text : List ℕ) (n : Net) → IsNetwork text n → n.prefix ≤ 32 }
{}

/// One of the patterns of a network that is read fits an address exactly where it's of the network.
pub fn network_patterns_fit()
    ensures { (text : List ℕ) (n : Net) (address : List ℕ) (cased : Bool) → IsNetwork text n → IsAddress address
        → SomeFits (patterns_of n) address cased ↔ InNetwork n address }
{}

/// A network's patterns can be written, and there are as many as its prefix leaves to the last octet that they tell.
pub fn network_patterns_are_plain()
    ensures tests { (n : Net) → n.bits < 2 ^ 32 → n.prefix ≤ 32 → list_all is_plain (patterns_of n) ≡ true }
    ensures scalars { (n : Net) → n.bits < 2 ^ 32 → n.prefix ≤ 32 → EachOf IsPlainPattern (patterns_of n) }
    ensures counted { (n : Net) → length (patterns_of n) ≡ pattern_count n }
{}
