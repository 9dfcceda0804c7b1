// Lists that grow.
ghost use Rattle.std.specs.Prelude.{◌≡◌, [], ◌∷◌, ◌++◌, OnOk};

use std::alloc::{AllocError, Global};
use std::marker::Model;

/// Things in their order, seen as their list.
#[derive(Drop)]
pub struct Listed<T> {
    /// The things.
    list: Vec<T>,
}

impl<T> Model for Listed<T> {
    ghost use Rattle.std.specs.Prelude.{List};

    ghost Value = { List T };

    ghost view = { λ l. l.list.items };
}

impl<T: Drop> Listed<T> {
    /// Nothing.
    pub fn new(alloc: Global) -> Listed<T>
        ensures { result ≡ [] }
    {
        Listed {
            list: Vec::new(alloc),
        }
    }

    /// Adds a thing at the end.
    pub fn push(&mut self, thing: T) -> Result<(), AllocError>
        ensures { OnOk result (self.new ≡ self.old ++ thing ∷ []) }
    {
        self.list.push(thing)?;
        Ok(())
    }

    /// Adds things at the end.
    pub fn append(&mut self, more: Vec<T>) -> Result<(), AllocError>
        ensures { OnOk result (self.new ≡ self.old ++ more.items) }
    {
        let mut more = more;
        self.list.append(&mut more)?;
        Ok(())
    }

    /// The things, lent.
    pub fn as_slice(&self) -> &[T]
        ensures { result.now ≡ self.now }
    {
        self.list.as_slice()
    }

    /// The things, without taking memory.
    pub fn into_vec(self) -> Vec<T>
        ensures { result.items ≡ self }
    {
        self.list
    }
}
