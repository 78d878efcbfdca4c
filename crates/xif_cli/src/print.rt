//! The text that a command prints.
ghost use Rattle.std.specs.Prelude.{◌≡◌, ◌⊎◌, []};
ghost use Rattle.xif_base.specs.Faults.{CountsFaults};
ghost use Rattle.xif_base.specs.Output.{grown, GrowsByFront};
ghost use Rattle.xif_cli.specs.Ending.{IsFaulted};
ghost use Rattle.xif_cli.specs.Outcome.{end_status};
ghost use Rattle.xif_cli.specs.Printing.{IsPrintFail};
ghost use Rattle.xif_cli.specs.declared.answer.End.{End};

use crate::answer::Answer;
use crate::status::Status;
use xif_base::{Out, Which, WriteFail, put_all};

/// Prints the text of a command, which is all that it has left to do, and returns its status.
pub(crate) fn print_answer<O: Out>(answer: &Answer, out: &mut O) -> Status
    ensures end { (result ≡ end_status answer.now.end) ⊎ IsPrintFail result }
    ensures put { (end : End) → result ≡ end_status end →
        O.put_bytes out.new ≡ grown (O.put_bytes out.old) answer.now.printed }
    ensures front { IsPrintFail result →
        GrowsByFront (O.put_bytes out.old) (O.put_bytes out.new) answer.now.printed }
    ensures write_fault { result ≡ Status.WriteFault Which.Output →
        IsFaulted (O.faultless out.old) (O.faults out.old) (O.faults out.new) }
    ensures uncounted { (O.faults out.new ≡ O.faults out.old)
        ⊎ (result ≡ Status.WriteFault Which.Output) }
    ensures counts { CountsFaults O.faults O.faultless out.old out.new }
    ensures no_files { answer.now.targets ≡ [] }
{
    match put_all(out, answer.text.as_bytes()) {
        Ok(()) => answer.end.status(),
        Err(WriteFail::Failed) => Status::WriteFault(Which::Output),
        Err(WriteFail::NoMemory) => Status::NoMemory,
    }
}
