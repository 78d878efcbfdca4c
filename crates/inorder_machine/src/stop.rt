//! What stops the machine.

/// Why the machine stops. The instruction that stops it doesn't retire, and changes nothing.
///
/// Sections are those of the RISC-V Unprivileged ISA, version 20191213. What an environment would
/// handle there as a trap (section 1.6) stops this machine, which has none.
#[derive(Clone, Copy, Debug, PartialEq, Eq)]
pub enum StopCause {
    /// ECALL: a request to the environment (section 2.8).
    Ecall,
    /// EBREAK: a return to the debugger (section 2.8).
    Ebreak,
    /// The word is no instruction of RV32IM (chapters 2 and 7), and no unit takes it.
    Illegal,
    /// The address of the next instruction is no multiple of 4 (section 2.2), or one of its four
    /// bytes lies outside the memory (section 1.4).
    FetchOutside,
    /// A byte to be loaded lies outside the memory (section 1.4).
    LoadOutside,
    /// A byte to be stored lies outside the memory (section 1.4).
    StoreOutside,
    /// The target of a jump or a taken branch is no multiple of 4. The jump or branch itself stops
    /// (section 2.5).
    TargetMisaligned,
}
