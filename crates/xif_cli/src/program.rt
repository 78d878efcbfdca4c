//! The whole program, but for the words, the files and the outputs of the system.
ghost use Rattle.std.specs.Prelude.{◌≡◌, ◌≢◌, ◌⊎◌, ◌↔◌, ℕ, List, IsTrue, IfErr, IfOk, true, false};
ghost use Rattle.xif_base.specs.Faults.{OnlyReads, CountsFaults};
ghost use Rattle.xif_base.specs.Files.{Files};
ghost use Rattle.xif_cli.specs.Afterwards.{IsDone, IsBrokenOff};
ghost use Rattle.xif_cli.specs.Concluding.{Concludes};
ghost use Rattle.xif_cli.specs.Ending.{IsNoCommand, Means, is_built, has_targets, can_end, IsFaulted, IsFaultedAt, IsRefusalOfContent, IsRefusal, texts_of};
ghost use Rattle.xif_cli.specs.Outcome.{Answer, end_status, found, without, command_outcome};
ghost use Rattle.xif_cli.specs.declared.answer.End.{End};
ghost use Rattle.xif_cli.specs.Faithful.{IsFaithfulAnswer};
ghost use Rattle.xif_cli.specs.Reading.{Ends, seen, can_refuse};
ghost use Rattle.xif_cli.specs.Sum.{PrintsTheSum};
ghost use Rattle.xif_cli.specs.Words as form;
ghost use Rattle.xif_cli.specs.Words.{Form, IsInRange, IsCommand, form_of};

use crate::answer::Answer;
use crate::generate::gen_answer;
use crate::judge::judge_answer;
use crate::print::print_answer;
use crate::raw::raw_answer;
use crate::run::run_job;
use crate::status::Status;
use crate::step::step_answer;
use crate::words::{Command, parse_command};
use std::alloc::Global;
use xif_base::{Out, Shelf, Which};

/// Does what the words after the program's name ask for, with the files of `shelf` and the output
/// `out`. Nothing else is read or written.
pub fn xif<S: Shelf, O: Out>(alloc: Global, words: &[String], shelf: &mut S, out: &mut O) -> Status
    // The words are of a form of the command line, which ends only in ways of its own. Words of no
    // form and of a form that isn't built read nothing.
    ensures usage { (result ≡ Status.Usage) ↔ IsNoCommand words.now }
    ensures form { result ≢ Status.Usage →
        (form : Form) × (IsCommand (texts_of words.now) form × IsTrue (can_end form result)) }
    ensures usage_reads_nothing { result ≡ Status.Usage → shelf.new ≡ shelf.old }
    ensures unbuilt_reads_nothing { (form : Form) →
        IsCommand (texts_of words.now) form → is_built form ≡ false →
        (result ≡ Status.Unbuilt) × (shelf.new ≡ shelf.old) }

    // Over files that the shelf reports, a command that isn't refused writes the files and prints
    // the text that it means, and it refuses what a file holds only where it means that refusal.
    ensures output_is_defined { (end : End) → result ≡ end_status end →
        (m : Files) → S.files shelf.old ≡ Some m →
        IsDone (λ answer. Means words.now (found m) (Ok answer)) end
        m (S.files shelf.new) (O.put_bytes out.old) (O.put_bytes out.new) }
    ensures refusal_is_defined { IsRefusalOfContent result →
        (m : Files) → S.files shelf.old ≡ Some m → Means words.now (found m) (Err result) }

    // Where `run` is done, its files and its report are those of a run that leaves what the
    // in-order machine leaves, with legal signals, that dispatches eagerly and keeps pace.
    ensures run_is_faithful { (job : List ℕ) → IsCommand (texts_of words.now) (form.Run job) →
        result ≡ Status.Done → (m : Files) → S.files shelf.old ≡ Some m →
        IsDone (IsFaithfulAnswer job (found m)) End.Done
        m (S.files shelf.new) (O.put_bytes out.old) (O.put_bytes out.new) }

    // Where `gen` is done, it prints that its program ended by ECALL after 3 * COUNT + 6
    // instructions, with COUNT times SEED in the accumulator and in two registers.
    ensures gen_prints_the_sum { (seed count : ℕ) →
        IsCommand (texts_of words.now) (form.Gen seed count) →
        result ≡ Status.Done → (m : Files) → S.files shelf.old ≡ Some m →
        IsDone (PrintsTheSum seed count) End.Done
        m (S.files shelf.new) (O.put_bytes out.old) (O.put_bytes out.new) }

    // A file can't be read where a fault of the shelf was counted, or where it isn't there. What is
    // read before it is lawful.
    ensures read_fault_has_cause { (w : Which) → result ≡ Status.ReadFault w →
        IsFaulted (S.faultless shelf.old) (S.fetch_faults shelf.old) (S.fetch_faults shelf.new)
        ⊎ ((m : Files) × ((S.files shelf.old ≡ Some m)
        × Means words.now (found m) (Err result))) }
    ensures earlier_files_are_lawful { (w : Which) → result ≡ Status.ReadFault w →
        (m : Files) → S.files shelf.old ≡ Some m → Means words.now (without w m) (Err result) }

    // A target can't be written where a fault was counted at it. Those before it are whole, and in
    // it stands a prefix of its bytes.
    ensures write_fault_has_cause { (w : Which) → result ≡ Status.WriteFault w →
        IsFaultedAt
        (IsFaulted (S.faultless shelf.old) (S.write_faults shelf.old) (S.write_faults shelf.new))
        (IsFaulted (O.faultless out.old) (O.faults out.old) (O.faults out.new)) w }
    ensures prefix_is_written { (w : Which) → result ≡ Status.WriteFault w →
        (m : Files) → S.files shelf.old ≡ Some m →
        IsBrokenOff (λ answer. Means words.now (found m) (Ok answer)) w
        m (S.files shelf.new) (O.put_bytes out.old) (O.put_bytes out.new) }

    // Unless it is out of memory or a fault was counted, a command ends as it is defined.
    ensures completes_as_defined { (m : Files) → S.files shelf.old ≡ Some m →
        (answer : Answer) → Means words.now (found m) (Ok answer) →
        (result ≡ end_status answer.end) ⊎ ((result ≡ Status.NoMemory)
        ⊎ (IsFaulted (S.faultless shelf.old) (S.fetch_faults shelf.old) (S.fetch_faults shelf.new)
        ⊎ (IsFaulted (S.faultless shelf.old) (S.write_faults shelf.old) (S.write_faults shelf.new)
        ⊎ IsFaulted (O.faultless out.old) (O.faults out.old) (O.faults out.new)))) }
    ensures refuses_as_defined { (m : Files) → S.files shelf.old ≡ Some m →
        (status : Status) → Means words.now (found m) (Err status) →
        (result ≡ status) ⊎ ((result ≡ Status.NoMemory)
        ⊎ IsFaulted (S.faultless shelf.old) (S.fetch_faults shelf.old) (S.fetch_faults shelf.new)) }

    // What stands afterwards. Out of memory, all is as it was, or the writing stopped in a target.
    // A refusal leaves all as it was, and a form without files to write only reads.
    ensures after_no_memory { result ≡ Status.NoMemory →
        (m : Files) → S.files shelf.old ≡ Some m →
        ((S.files shelf.new ≡ Some m) × (O.put_bytes out.new ≡ O.put_bytes out.old))
        ⊎ ((w : Which) × IsBrokenOff (λ answer. Means words.now (found m) (Ok answer)) w
        m (S.files shelf.new) (O.put_bytes out.old) (O.put_bytes out.new)) }
    ensures refusal_prints_nothing { IsRefusal result → out.new ≡ out.old }
    ensures refusal_only_reads { IsRefusal result →
        OnlyReads S.files S.fetch_faults S.write_faults S.faultless shelf.old shelf.new }
    ensures others_only_read { (form : Form) →
        IsCommand (texts_of words.now) form → has_targets form ≡ false →
        OnlyReads S.files S.fetch_faults S.write_faults S.faultless shelf.old shelf.new }
    ensures unreported_stays { S.files shelf.old ≡ None → S.files shelf.new ≡ None }

    // A fault that is counted is reported.
    ensures fetch_fault_is_reported { (S.fetch_faults shelf.new ≡ S.fetch_faults shelf.old)
        ⊎ ((w : Which) × (result ≡ Status.ReadFault w)) }
    ensures write_fault_is_reported { (S.write_faults shelf.new ≡ S.write_faults shelf.old)
        ⊎ ((w : Which) × (result ≡ Status.WriteFault w)) }
    ensures put_fault_is_reported { (O.faults out.new ≡ O.faults out.old)
        ⊎ (result ≡ Status.WriteFault Which.Output) }
    ensures fetch_faults_are_counted { CountsFaults S.fetch_faults S.faultless shelf.old shelf.new }
    ensures write_faults_are_counted { CountsFaults S.write_faults S.faultless shelf.old shelf.new }
    ensures put_faults_are_counted { CountsFaults O.faults O.faultless out.old out.new }
{
    let Some(command) = parse_command(words) else {
        return Status::Usage;
    };
    perform(alloc, command, shelf, out)
}

// Does what a command asks for.
fn perform<S: Shelf, O: Out>(
    alloc: Global,
    command: Command<'_>,
    shelf: &mut S,
    out: &mut O,
) -> Status
    requires { IsInRange (form_of command) }
    ensures concludes { Concludes S.files S.fetch_faults S.write_faults S.faultless
        O.put_bytes O.faults O.faultless shelf.old shelf.new out.old out.new
        (command_outcome (form_of command.entry)) result }
    ensures can_end { IsTrue (can_end (form_of command.entry) result) }
    ensures faithful { (job : List ℕ) → form_of command.entry ≡ form.Run job →
        result ≡ Status.Done → (m : Files) → S.files shelf.old ≡ Some m →
        IsDone (IsFaithfulAnswer job (found m)) End.Done
        m (S.files shelf.new) (O.put_bytes out.old) (O.put_bytes out.new) }
    ensures unbuilt { is_built (form_of command.entry) ≡ false →
        (result ≡ Status.Unbuilt) × (shelf.new ≡ shelf.old) }
    ensures only_reads { has_targets (form_of command.entry) ≡ false →
        OnlyReads S.files S.fetch_faults S.write_faults S.faultless shelf.old shelf.new }
{
    match command {
        Command::Run { job } => run_job(alloc, job, shelf, out),
        _ => print_command(alloc, command, shelf, out),
    }
}

// Does what a command asks for that writes no files.
fn print_command<S: Shelf, O: Out>(
    alloc: Global,
    command: Command<'_>,
    shelf: &mut S,
    out: &mut O,
) -> Status
    requires in_range { IsInRange (form_of command) }
    requires no_targets { has_targets (form_of command) ≡ false }
    ensures concludes { Concludes S.files S.fetch_faults S.write_faults S.faultless
        O.put_bytes O.faults O.faultless shelf.old shelf.new out.old out.new
        (command_outcome (form_of command.entry)) result }
    ensures can_end { IsTrue (can_end (form_of command.entry) result) }
    ensures unbuilt { is_built (form_of command.entry) ≡ false →
        (result ≡ Status.Unbuilt) × (shelf.new ≡ shelf.old) }
    ensures only_reads { OnlyReads S.files S.fetch_faults S.write_faults S.faultless
        shelf.old shelf.new }
{
    match answer_of(alloc, command, shelf) {
        Ok(answer) => print_answer(&answer, out),
        Err(status) => status,
    }
}

// What a command returns over the files that writes none.
fn answer_of<S: Shelf>(alloc: Global, command: Command<'_>, shelf: &mut S) -> Result<Answer, Status>
    requires in_range { IsInRange (form_of command) }
    requires no_targets { has_targets (form_of command) ≡ false }
    ensures ends { Ends S.files S.fetch_faults S.write_faults S.faultless shelf.old shelf.new
        (command_outcome (form_of command.entry)) (seen (λ answer. answer) result) }
    ensures ok { IfOk result (λ answer. IsTrue (is_built (form_of command.entry))
        × IsTrue (can_end (form_of command.entry) (end_status answer.end))) }
    ensures refusal { IfErr result (λ status.
        IsTrue (can_refuse (form_of command.entry) status)) }
    ensures unbuilt { is_built (form_of command.entry) ≡ false →
        (result ≡ Err Status.Unbuilt) × (shelf.new ≡ shelf.old) }
{
    match command {
        Command::Raw { image, count } => raw_answer(alloc, image, count, shelf),
        Command::Step { job } => step_answer(alloc, job, shelf),
        Command::Judge { job, waveform } => judge_answer(alloc, job, waveform, shelf),
        Command::Gen { seed, count } => gen_answer(alloc, seed, count),
        Command::Run { .. } => unreachable!(),
        Command::Harts { .. } | Command::Replay { .. } => Err(Status::Unbuilt),
    }
}
