//! The command `run JOB`.
ghost use Rattle.std.specs.Prelude.{◌≡◌, ◌||◌, IsTrue, IfErr, IfOk, Some};
ghost use Rattle.xif_base.specs.Files.{Files};
ghost use Rattle.trace_laws.specs.Sessions.{HasBytes};
ghost use Rattle.xif_job.specs.Ranges.{IsLawfulJob};
ghost use Rattle.xif_cli.specs.Afterwards.{IsDone};
ghost use Rattle.xif_cli.specs.Concluding.{Delivers, Concludes};
ghost use Rattle.xif_cli.specs.Ending.{can_end};
ghost use Rattle.xif_cli.specs.Faithful.{IsFaithfulAnswer};
ghost use Rattle.xif_cli.specs.InOrder.{step_start};
ghost use Rattle.xif_cli.specs.Outcome.{found, loaded, with_image, run_answer, run_outcome};
ghost use Rattle.xif_cli.specs.Reading.{Ends, seen, can_refuse_job, can_refuse_image};
ghost use Rattle.xif_cli.specs.Words as form;

use crate::answer::{Answer, End};
use crate::print::print_answer;
use crate::read::{read_image, read_job};
use crate::status::Status;
use crate::write_run::write_run;
use std::alloc::Global;
use xif_base::{Out, Shelf};
use xif_image::Image;
use xif_job::Job;

/// Simulates the job of a file, and writes its trace, its log and its report. Nothing is written
/// before job and image are read and valid.
pub(crate) fn run_job<S: Shelf, O: Out>(
    alloc: Global,
    name: &str,
    shelf: &mut S,
    out: &mut O,
) -> Status
    ensures concludes { Concludes S.files S.fetch_faults S.write_faults S.faultless
        O.put_bytes O.faults O.faultless shelf.old shelf.new out.old out.new
        (run_outcome name.now) result }
    ensures can_end { IsTrue (can_end (form.Run name.now) result) }
    ensures faithful { result ≡ Status.Done → (m : Files) → S.files shelf.old ≡ Some m →
        IsDone (IsFaithfulAnswer name.now (found m)) End.Done
        m (S.files shelf.new) (O.put_bytes out.old) (O.put_bytes out.new) }
{
    match load(alloc, name, shelf) {
        Ok(loaded) => deliver(alloc, &loaded.job, &loaded.image, shelf, out),
        Err(status) => status,
    }
}

// A job and its image.
#[derive(Drop)]
struct Loaded {
    job: Job,
    image: Image,
}

// Reads a job and its image.
fn load<S: Shelf>(alloc: Global, name: &str, shelf: &mut S) -> Result<Loaded, Status>
    ensures ends { Ends S.files S.fetch_faults S.write_faults S.faultless shelf.old shelf.new
        (loaded name.now) (seen (λ l. (l.job, l.image)) result) }
    ensures refusal { IfErr result (λ status.
        IsTrue (can_refuse_job status || can_refuse_image status)) }
    ensures lawful { IfOk result (λ l. IsLawfulJob l.job) }
    ensures memory { IfOk result (λ l.
        (l.image.base ≡ l.job.base) × (l.image.size ≡ l.job.size)) }
{
    let job = read_job(alloc, name, true, shelf)?;
    load_image(alloc, job, shelf)
}

// Reads the image of a job.
fn load_image<S: Shelf>(alloc: Global, job: Job, shelf: &mut S) -> Result<Loaded, Status>
    requires { IsLawfulJob job }
    ensures ends { Ends S.files S.fetch_faults S.write_faults S.faultless shelf.old shelf.new
        (with_image job) (seen (λ l. (l.job, l.image)) result) }
    ensures refusal { IfErr result (λ status. IsTrue (can_refuse_image status)) }
    ensures lawful { IfOk result (λ l. IsLawfulJob l.job) }
    ensures memory { IfOk result (λ l.
        (l.image.base ≡ l.job.base) × (l.image.size ≡ l.job.size)) }
{
    let image = read_image(alloc, &job, shelf)?;
    Ok(Loaded { job, image })
}

// Writes the files of a run and prints its report.
fn deliver<S: Shelf, O: Out>(
    alloc: Global,
    job: &Job,
    image: &Image,
    shelf: &mut S,
    out: &mut O,
) -> Status
    requires lawful { IsLawfulJob job.now }
    requires memory { (image.now.base ≡ job.now.base) × (image.now.size ≡ job.now.size) }
    ensures delivers { Delivers S.files S.fetch_faults S.write_faults S.faultless
        O.put_bytes O.faults O.faultless shelf.old shelf.new out.old out.new
        (run_answer job.now image.now) result }
    ensures bytes { result ≡ Status.Done → HasBytes (step_start job.now image.now).memory }
{
    match write_run(alloc, job, image, shelf) {
        Ok(text) => print_answer(
            &Answer {
                end: End::Done,
                text,
            },
            out,
        ),
        Err(stop) => stop.status(),
    }
}
