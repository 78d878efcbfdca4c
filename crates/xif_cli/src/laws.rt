//! What the commands print, in the words of their user: laws about the definitions. The functions
//! are only for proofs and readers; they do nothing.
ghost use Rattle.std.specs.Prelude.{◌≡◌, ◌<◌, ◌↔◌, ℕ, List, length, Ok};
ghost use Rattle.inorder_machine.specs.After.{after};
ghost use Rattle.inorder_machine.specs.Machine.{State, next_step};
ghost use Rattle.inorder_machine.specs.declared.line.Stepped.TheVariants.{Stop};
ghost use Rattle.inorder_machine.specs.declared.stop.StopCause.{StopCause};
ghost use Rattle.xif_image.specs.Image.{Placement};
ghost use Rattle.xif_signals.specs.declared.sample.Quad.{Quad};
ghost use Rattle.xif_judge.specs.declared.verdict.Verdict.{Verdict};
ghost use Rattle.xif_judge.specs.Histories.{IsLegal, IsFirst};
ghost use Rattle.xif_job.specs.declared.job.Job.{Job};
ghost use Rattle.xif_cli.specs.InOrder.{no_units, raw_start, raw_report, extension_of, step_start, step_report};
ghost use Rattle.xif_cli.specs.Judged.{Names, legal_answer, illegal_answer};
ghost use Rattle.xif_cli.specs.Outcome.{Lookup, judge_outcome};
ghost use Rattle.xif_cli.specs.Report.{report_of};

/// `raw` prints the report of the in-order machine after COUNT retirements, if so many instructions
/// retire; else of the state before the instruction that stops it, with its stop.
pub fn raw_law()
    ensures budget { (image : List ℕ) → (count : ℕ) → (last : State) →
        after no_units count (raw_start image) ≡ Some last →
        raw_report image count ≡ report_of None count last image }
    ensures stop { (image : List ℕ) → (count n : ℕ) → (last : State) → (cause : StopCause) →
        n < count → after no_units n (raw_start image) ≡ Some last →
        next_step no_units last ≡ Stop cause →
        raw_report image count ≡ report_of (Some cause) n last image }
{}

/// `step` prints the report of the in-order machine after as many retirements as the job's budget,
/// if so many instructions retire; else of the state before the instruction that stops it, with its
/// stop.
pub fn step_law()
    ensures budget { (job : Job) → (image : Placement) → (last : State) →
        after (extension_of job) job.budget (step_start job image) ≡ Some last →
        step_report job image
        ≡ report_of None job.budget last (step_start job image).memory.bytes }
    ensures stop { (job : Job) → (image : Placement) → (n : ℕ) → (last : State) →
        (cause : StopCause) → n < job.budget →
        after (extension_of job) n (step_start job image) ≡ Some last →
        next_step (extension_of job) last ≡ Stop cause →
        step_report job image
        ≡ report_of (Some cause) n last (step_start job image).memory.bytes }
{}

/// Where the files named to `judge` are a valid job and a waveform with this history, it prints
/// `legal cycles=N` if and only if every rule holds in each of the N cycles that are in a session;
/// else it prints the line of the first fault.
pub fn judge_law()
    ensures legal { (find : Lookup) → (name waveform : List ℕ) → (job : Job) →
        (history : List (List Quad)) → Names find name waveform job history →
        (judge_outcome name waveform find ≡ Ok (legal_answer (length history)))
        ↔ IsLegal job.params history }
    ensures illegal { (find : Lookup) → (name waveform : List ℕ) → (job : Job) →
        (history : List (List Quad)) → Names find name waveform job history →
        (¬ IsLegal job.params history) →
        (verdict : Verdict) × (IsFirst job.params history verdict
        × (judge_outcome name waveform find ≡ Ok (illegal_answer verdict))) }
{}
