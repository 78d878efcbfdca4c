//! The register file.
ghost use Rattle.std.specs.Prelude.{◌≡◌, ◌<◌, ◌==◌, if◌then◌else◌, replicate, slice_set};
ghost use Rattle.inorder_machine.specs.Machine.{register_in};

use std::marker::Model;

/// The registers x0 to x31.
#[derive(Drop)]
pub struct Registers {
    values: [u32; 32],
}

impl Model for Registers {
    ghost use Rattle.std.specs.Prelude.{List, ℕ};

    ghost Value = { List ℕ };

    ghost view = { λ r. r.values };
}

impl Registers {
    /// All are 0.
    pub fn new() -> Registers
        ensures { result ≡ replicate 32 0 }
    {
        Registers { values: [0; 32] }
    }

    /// A copy, which does not change with these registers.
    pub fn copy(&self) -> Registers
        ensures { result ≡ self.now }
    {
        Registers {
            values: self.values,
        }
    }

    /// The value of the register x`i`.
    pub fn get(&self, i: u8) -> u32
        requires { i < 32 }
        ensures { result ≡ register_in self.now i }
    {
        self.value(i)
    }

    /// Writes the register x`i`. A write to x0 changes nothing (RISC-V Unprivileged ISA, section
    /// 2.1), and neither does one to a register that is none.
    pub fn set(&mut self, i: u8, value: u32)
        ensures { self.new ≡ (if i == 0 then self.old else slice_set self.old i value) }
    {
        if i != 0 && i < 32 {
            self.values[usize::from(i)] = value;
        }
    }

    /// The value of a register; 0 if there is no such register.
    pub(crate) fn value(&self, i: u8) -> u32
        ensures { result ≡ register_in self.now i }
    {
        if i == 0 {
            return 0;
        }
        self.values.get(usize::from(i)).copied().unwrap_or(0)
    }
}
