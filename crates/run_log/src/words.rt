//! Words for what stops the machine.
ghost use Rattle.std.specs.Prelude.{◌≡◌};
ghost use Rattle.run_log.specs.Words as spec;

use inorder_machine::StopCause;

/// The word for a cause.
pub fn cause_word(cause: StopCause) -> &'static str
    ensures { result.now ≡ spec.cause_word cause }
{
    match cause {
        StopCause::Ecall => "ecall",
        StopCause::Ebreak => "ebreak",
        StopCause::Illegal => "illegal",
        StopCause::FetchOutside => "fetch-outside",
        StopCause::LoadOutside => "load-outside",
        StopCause::StoreOutside => "store-outside",
        StopCause::TargetMisaligned => "target-misaligned",
    }
}
