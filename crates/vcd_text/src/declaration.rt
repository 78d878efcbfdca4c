//! The variables that a text declares.
ghost use Rattle.std.specs.Prelude.{◌≡◌, ◌<◌, ◌++◌, [], ◌∷◌, Some, length, slice_get, OnOk, OnErr};

use std::alloc::Global;
use std::marker::Model;
use xif_base::{Name, NoMemory};

/// A variable of a waveform (IEEE 1364-2005, 18.2.3, `$var`).
#[derive(Debug, Drop)]
pub struct Variable {
    /// Its full name: the scopes that it stands in, the outermost first, and its own name, joined
    /// by full stops.
    pub name: Name,
    /// The number of its identifier code: its place among the distinct codes, by first declaration.
    pub code: u32,
    /// How many bits it has, 0 to 1,048,576.
    pub size: u32,
}

/// The variables that a text declares, in order.
#[derive(Debug, Drop)]
pub struct Declarations {
    items: Vec<Variable>,
}

impl Model for Declarations {
    ghost use Rattle.std.specs.Prelude.{List};
    ghost use Rattle.vcd_text.specs.declared.declaration.Variable.{Variable};

    ghost Value = { List Variable };

    ghost view = { λ d. d.items.items };
}

impl Declarations {
    /// No variables.
    pub fn new(alloc: Global) -> Declarations
        ensures { result ≡ [] }
    {
        Declarations {
            items: Vec::new(alloc),
        }
    }

    /// Adds a variable at the end.
    pub fn push(&mut self, variable: Variable) -> Result<(), NoMemory>
        ensures ok { OnOk result (self.new ≡ self.old ++ variable ∷ []) }
        ensures err { OnErr result (self.new ≡ self.old) }
    {
        self.items.push(variable)?;
        Ok(())
    }

    /// How many variables there are.
    pub fn len(&self) -> usize
        ensures { result ≡ length self.now }
    {
        self.items.len()
    }

    /// The variable at a place, counted from 0.
    pub fn get(&self, i: usize) -> &Variable
        requires { i < length self.now }
        ensures { slice_get self.now i ≡ Some result.now }
    {
        &self.items[i]
    }

    /// All variables, in the order of the text.
    pub fn as_slice(&self) -> &[Variable]
        ensures { result.now ≡ self.now }
    {
        &self.items
    }
}
