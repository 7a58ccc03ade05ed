ghost use Rattle.std.specs.Prelude.{◌≡◌, IfOk};
ghost use Rattle.std.specs.Str.{chars};

use sig_base::Text;
use std::alloc::{AllocError, Global};
use std::marker::Model;
use std::rc::Rc;

/// The name of a placeholder, which contracts see as its characters. Copies share them.
#[derive(Drop, Debug)]
pub struct HoleName {
    text: Rc<Text>,
}

impl Model for HoleName {
    ghost use Rattle.std.specs.Prelude.{List, ℕ};

    ghost Value = { List ℕ };

    ghost view = { λ name. name.text.value };
}

impl HoleName {
    /// The name of this text, without a copy of it.
    pub fn new(alloc: Global, text: Text) -> Result<HoleName, AllocError>
        ensures { IfOk result (λ name. name ≡ text) }
    {
        let text = Rc::new(alloc, text)?;
        Ok(HoleName { text })
    }

    /// The same name, without a copy of its characters.
    pub fn copy(&self) -> Result<HoleName, AllocError>
        ensures { IfOk result (λ name. name ≡ self.now) }
    {
        let text = self.text.clone()?;
        Ok(HoleName { text })
    }

    /// Lends the name.
    pub fn as_str(&self) -> &str
        ensures { chars result.now ≡ self.now }
    {
        self.text.as_str()
    }
}
