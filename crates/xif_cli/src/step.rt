//! The command `step JOB`.
ghost use Rattle.std.specs.Prelude.{◌≡◌, ◌||◌, IsTrue, IfErr, IfOk};
ghost use Rattle.std.specs.String.{string_bytes};
ghost use Rattle.xif_base.specs.Params.{IsInRange};
ghost use Rattle.coproc_config.specs.Check.{IsLawful};
ghost use Rattle.xif_job.specs.Ranges.{IsLawfulMemory};
ghost use Rattle.xif_cli.specs.InOrder.{step_report};
ghost use Rattle.xif_cli.specs.Outcome.{step_outcome, report_in};
ghost use Rattle.xif_cli.specs.Reading.{Ends, seen, can_refuse_job, can_refuse_image};

use crate::answer::{Answer, End};
use crate::inorder::{run_report, step_machine};
use crate::read::{read_image, read_job};
use crate::status::Status;
use std::alloc::Global;
use xif_base::{NoMemory, Shelf};
use xif_image::Image;
use xif_job::Job;

/// The report of the job of a file, which runs on the in-order machine. Its budget counts
/// retirements.
pub(crate) fn step_answer<S: Shelf>(
    alloc: Global,
    name: &str,
    shelf: &mut S,
) -> Result<Answer, Status>
    ensures ends { Ends S.files S.fetch_faults S.write_faults S.faultless shelf.old shelf.new
        (step_outcome name.now) (seen (λ answer. answer) result) }
    ensures refusal { IfErr result (λ status.
        IsTrue (can_refuse_job status || can_refuse_image status)) }
    ensures done { IfOk result (λ answer. answer.end ≡ End.Done) }
{
    let job = read_job(alloc, name, true, shelf)?;
    step_job(alloc, &job, shelf)
}

// The report of a job.
fn step_job<S: Shelf>(alloc: Global, job: &Job, shelf: &mut S) -> Result<Answer, Status>
    requires memory { IsLawfulMemory job.now.base job.now.size }
    requires in_range { IsInRange job.now.params }
    requires lawful { IsLawful job.now.set }
    ensures ends { Ends S.files S.fetch_faults S.write_faults S.faultless shelf.old shelf.new
        (report_in job.now) (seen (λ answer. answer) result) }
    ensures refusal { IfErr result (λ status. IsTrue (can_refuse_image status)) }
    ensures done { IfOk result (λ answer. answer.end ≡ End.Done) }
{
    let image = read_image(alloc, job, shelf)?;
    let text = report_of_job(alloc, job, &image)?;
    Ok(Answer {
        end: End::Done,
        text,
    })
}

// The report of a run of a job with its image.
#[tactic(auto, unfolding(crate::specs::InOrder::step_report))]
fn report_of_job(alloc: Global, job: &Job, image: &Image) -> Result<String, NoMemory>
    requires memory { IsLawfulMemory job.now.base job.now.size }
    requires image { (image.now.base ≡ job.now.base) × (image.now.size ≡ job.now.size) }
    requires in_range { IsInRange job.now.params }
    requires lawful { IsLawful job.now.set }
    ensures { IfOk result (λ text. string_bytes text ≡ step_report job.now image.now) }
{
    let machine = step_machine(alloc, job, image)?;
    run_report(alloc, machine, &job.set, &job.params, u64::from(job.budget))
}
