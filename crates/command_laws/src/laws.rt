//! What `judge` says of the trace that `run` wrote, and that every call of `gen` has an answer.
ghost use Rattle.std.specs.Prelude.{◌≡◌, ℕ, List, String, Ok};
ghost use Rattle.std.specs.FinMap as map;
ghost use Rattle.std.specs.declared.alloc.Global.{Global};
ghost use Rattle.xif_base.specs.Files.{Files};
ghost use Rattle.xif_job.specs.declared.job.Job.{Job};
ghost use Rattle.xif_cli.specs.declared.answer.End.{End};
ghost use Rattle.xif_cli.specs.declared.answer.End.TheVariants.{Done};
ghost use Rattle.xif_cli.specs.Ending.{Means, texts_of};
ghost use Rattle.xif_cli.specs.Outcome.{Answer, Lookup, found};
ghost use Rattle.xif_cli.specs.Sum.{PrintsTheSum};
ghost use Rattle.xif_cli.specs.Verdict.{legal_line};
ghost use Rattle.xif_cli.specs.Words as form;
ghost use Rattle.xif_cli.specs.Words.{IsCommand};
ghost use Rattle.command_laws.specs.Commands.{HoldBytes, SaysCycles, Runs, Calls, Judges, KeepsTrace, IsJudgedLegal};

/// For every job and image for which `run` has an answer: where the trace stands in its file as the
/// run wrote it, `judge` by a job with the same parameters and without a table `map` answers
/// `legal cycles=N`, with N the number of cycles in the report of the run. No trace is longer than
/// the waveforms that `judge` reads.
pub fn trace_is_judged_legal()
    ensures { (run_words judge_words : List (String Global)) (before after : Files) (job : Job)
        (answer : Answer) → HoldBytes before → Runs run_words before job →
        Means run_words (found before) (Ok answer) →
        KeepsTrace before after job answer → Judges judge_words after job →
        IsJudgedLegal judge_words after answer.printed }
{}

/// So a call of `judge` that ends behind a call of `run` that is done prints `legal cycles=N`, with
/// the number of cycles that the report says, whatever other files were changed between the two.
pub fn judge_after_run_prints_legal()
    ensures { (run_words judge_words : List (String Global)) (before left later after : Files)
        (job : Job) (end : End) (report verdict : List ℕ) → HoldBytes before →
        Runs run_words before job → Calls run_words before Done left report →
        map.get later job.trace ≡ map.get left job.trace →
        Judges judge_words later job → Calls judge_words later end after verdict →
        (end ≡ Done) × ((cycles : ℕ) × (SaysCycles cycles report
        × (verdict ≡ legal_line cycles))) }
{}

/// `gen` has an answer for every seed and count in their ranges, whatever files there are, and it
/// prints the sum. So no such call is refused, and by `completes_as_defined` of `xif` it is done
/// unless it is out of memory or its output fails.
pub fn gen_is_answered()
    ensures { (words : List (String Global)) (find : Lookup) (seed count : ℕ) →
        IsCommand (texts_of words) (form.Gen seed count) →
        (answer : Answer) × (Means words find (Ok answer) × PrintsTheSum seed count answer) }
{}
