//! The scopes that are open.
ghost use Rattle.std.specs.Prelude.{◌≡◌, ◌++◌, ◌-◌, [], ◌∷◌, length, take, IfOk, OnOk, OnErr};
ghost use Rattle.vcd_text.specs.Codes.{full_name};

use std::alloc::Global;
use std::marker::Model;
use xif_base::{Name, NoMemory};

/// The names of the open scopes, the outermost first.
#[derive(Drop)]
pub struct Scopes {
    names: Vec<Name>,
}

impl Model for Scopes {
    ghost use Rattle.std.specs.Prelude.{List, ℕ};

    ghost Value = { List (List ℕ) };

    ghost view = { λ s. s.names.items };
}

impl Scopes {
    pub fn new(alloc: Global) -> Scopes
        ensures { result ≡ [] }
    {
        Scopes {
            names: Vec::new(alloc),
        }
    }

    pub fn len(&self) -> usize
        ensures { result ≡ length self.now }
    {
        self.names.len()
    }

    /// Opens a scope.
    pub fn push(&mut self, name: Name) -> Result<(), NoMemory>
        ensures ok { OnOk result (self.new ≡ self.old ++ name ∷ []) }
        ensures err { OnErr result (self.new ≡ self.old) }
    {
        self.names.push(name)?;
        Ok(())
    }

    /// Closes the innermost scope, where one is open.
    pub fn pop(&mut self)
        ensures { self.new ≡ take (length self.old - 1) self.old }
    {
        self.names.pop();
    }

    /// The full name of a variable that stands in them.
    pub fn full_name(&self, alloc: Global, name: &str) -> Result<Name, NoMemory>
        ensures { IfOk result (λ full. full ≡ full_name self.now name.now) }
    {
        let mut full = String::new(alloc);
        for scope in &self.names {
            full.push_str(scope.as_str())?;
            full.push('.')?;
        }
        full.push_str(name)?;
        Name::of(alloc, full.as_str())
    }
}
