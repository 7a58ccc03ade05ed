//! Laws of words, each the contract of a function that does nothing.

ghost use Rattle.std.specs.Prelude.{◌≡◌, ◌↔◌, List, Some};
ghost use Rattle.command_line.specs.Computed.{given};
ghost use Rattle.command_line.specs.Given.{Word, Item};
ghost use Rattle.command_line.specs.Table.{row_of, IsGiven};
ghost use Rattle.command_line.specs.declared.command_name.CommandName.{CommandName};

/// Words give exactly the items that are read of them word by word.
pub fn items_are_read()
    ensures { (command : CommandName) (words : List Word) (items : List Item)
        → IsGiven (row_of command) words items ↔ (given (row_of command) words ≡ Some items) }
{}
