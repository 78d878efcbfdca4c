//! The command `judge JOB WAVEFORM`.
ghost use Rattle.std.specs.Prelude.{◌≡◌, ◌||◌, IsTrue, IfErr};
ghost use Rattle.xif_base.specs.Params.{IsInRange};
ghost use Rattle.xif_cli.specs.Outcome.{judge_outcome, verdict_in};
ghost use Rattle.xif_cli.specs.Reading.{Ends, seen, can_refuse_job, can_refuse_waveform};
ghost use Rattle.xif_cli.specs.Verdict.{judged_end};

use crate::answer::{Answer, End};
use crate::limits::WAVEFORM_LIMIT;
use crate::read::{read_into, read_job};
use crate::status::Status;
use crate::verdict::verdict_text;
use std::alloc::Global;
use waveform_judge::{Judged, WaveformJudge};
use xif_base::{Shelf, Which};
use xif_job::Job;

/// The verdict on the waveform of a file, whose signals are found as the job says.
pub(crate) fn judge_answer<S: Shelf>(
    alloc: Global,
    name: &str,
    waveform: &str,
    shelf: &mut S,
) -> Result<Answer, Status>
    ensures ends { Ends S.files S.fetch_faults S.write_faults S.faultless shelf.old shelf.new
        (judge_outcome name.now waveform.now) (seen (λ answer. answer) result) }
    ensures refusal { IfErr result (λ status.
        IsTrue (can_refuse_job status || can_refuse_waveform status)) }
{
    let job = read_job(alloc, name, false, shelf)?;
    judge_file(alloc, &job, waveform, shelf)
}

// The verdict on the waveform of a file.
fn judge_file<S: Shelf>(
    alloc: Global,
    job: &Job,
    waveform: &str,
    shelf: &mut S,
) -> Result<Answer, Status>
    requires { IsInRange job.now.params }
    ensures ends { Ends S.files S.fetch_faults S.write_faults S.faultless shelf.old shelf.new
        (verdict_in job.now waveform.now) (seen (λ answer. answer) result) }
    ensures refusal { IfErr result (λ status. IsTrue (can_refuse_waveform status)) }
{
    let mut judge = WaveformJudge::new(alloc, &job.map, &job.params)?;
    read_into(
        alloc,
        Which::Waveform,
        waveform,
        WAVEFORM_LIMIT,
        shelf,
        &mut judge,
    )?;
    let judged = judge.finish()?;
    let text = verdict_text(alloc, &judged)?;
    let end = end_of(&judged);
    Ok(Answer { end, text })
}

// How the command ends.
fn end_of(judged: &Judged) -> End
    ensures { result ≡ judged_end judged.now }
{
    match judged.verdict {
        Some(_) => End::Illegal,
        None => End::Done,
    }
}
