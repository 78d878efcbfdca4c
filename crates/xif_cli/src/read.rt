//! The files that a command reads.
ghost use Rattle.std.specs.Prelude.{◌≡◌, ◌≤◌, ◌<◌, ◌⊎◌, ℕ, List, length, vec_len, IsTrue, IfErr, IfOk, OnOk};
ghost use Rattle.xif_base.specs.Params.{IsInRange};
ghost use Rattle.coproc_config.specs.Check.{IsLawful};
ghost use Rattle.xif_job.specs.Ranges.{IsLawfulMemory, IsLawfulJob};
ghost use Rattle.xif_cli.specs.Limits.{longest_image};
ghost use Rattle.xif_cli.specs.Outcome.{file_in, job_in, image_of, image_by};
ghost use Rattle.xif_cli.specs.Reading.{Ends, seen, can_refuse_file, can_refuse_job, can_refuse_image};

use crate::limits::{JOB_LIMIT, RAW_IMAGE_LIMIT, TEXT_IMAGE_LIMIT};
use crate::status::Status;
use std::alloc::Global;
use xif_base::{Intake, ReadFail, Shelf, Which, read_all, read_pieces};
use xif_image::{Image, ImageFault};
use xif_job::{ImageKind, Job};

/// Reads a file whole. `limit` is its greatest length in bytes.
pub(crate) fn read_file<S: Shelf>(
    alloc: Global,
    which: Which,
    name: &str,
    limit: u64,
    shelf: &mut S,
) -> Result<Vec<u8>, Status>
    ensures ends { Ends S.files S.fetch_faults S.write_faults S.faultless shelf.old shelf.new
        (λ find. file_in which limit (find which name.now)) (seen (λ v. v.items) result) }
    ensures refusal { IfErr result (λ status. IsTrue (can_refuse_file which status)) }
    ensures within { IfOk result (λ v. vec_len v ≤ limit) }
{
    match read_all(alloc, shelf, name, limit) {
        Ok(bytes) => Ok(bytes),
        Err(fail) => Err(refusal_of(which, fail)),
    }
}

/// Reads a file piece by piece. `limit` is its greatest length in bytes.
pub(crate) fn read_into<S: Shelf, T: Intake>(
    alloc: Global,
    which: Which,
    name: &str,
    limit: u64,
    shelf: &mut S,
    intake: &mut T,
) -> Result<(), Status>
    requires { limit < T.room intake.old }
    ensures ends { (text : List ℕ) ×
        (OnOk result (T.takes intake.old text intake.new × (length text ≤ limit)) ×
        Ends S.files S.fetch_faults S.write_faults S.faultless shelf.old shelf.new
        (λ find. file_in which limit (find which name.now)) (seen (λ _. text) result)) }
    ensures refusal { IfErr result (λ status. IsTrue (can_refuse_file which status)) }
{
    match read_pieces(alloc, shelf, name, limit, intake) {
        Ok(()) => Ok(()),
        Err(fail) => Err(refusal_of(which, fail)),
    }
}

// The refusal of a file that wasn't read.
fn refusal_of(which: Which, fail: ReadFail) -> Status
    ensures fault { fail ≡ ReadFail.ReadFault → result ≡ Status.ReadFault which }
    ensures too_big { fail ≡ ReadFail.TooBig → result ≡ Status.TooBig which }
    ensures memory { fail ≡ ReadFail.NoMemory → result ≡ Status.NoMemory }
{
    match fail {
        ReadFail::ReadFault => Status::ReadFault(which),
        ReadFail::TooBig => Status::TooBig(which),
        ReadFail::NoMemory => Status::NoMemory,
    }
}

/// Reads the job of a command. It has to name its image where the command runs it.
pub(crate) fn read_job<S: Shelf>(
    alloc: Global,
    name: &str,
    needs_image: bool,
    shelf: &mut S,
) -> Result<Job, Status>
    ensures ends { Ends S.files S.fetch_faults S.write_faults S.faultless shelf.old shelf.new
        (job_in needs_image name.now) (seen (λ job. job) result) }
    ensures refusal { IfErr result (λ status. IsTrue (can_refuse_job status)) }
    ensures in_range { IfOk result (λ job. IsInRange job.params) }
    ensures lawful { IfOk result (λ job. IsLawful job.set) }
    ensures memory { IfOk result (λ job. IsLawfulMemory job.base job.size) }
    ensures all_lawful { IfOk result IsLawfulJob }
{
    let bytes = read_file(alloc, Which::Job, name, JOB_LIMIT, shelf)?;
    Ok(Job::read(alloc, &bytes, needs_image)?)
}

/// Reads the image of a job.
pub(crate) fn read_image<S: Shelf>(alloc: Global, job: &Job, shelf: &mut S) -> Result<Image, Status>
    requires { IsLawfulMemory job.now.base job.now.size }
    ensures ends { Ends S.files S.fetch_faults S.write_faults S.faultless shelf.old shelf.new
        (image_of job.now) (seen (λ image. image) result) }
    ensures refusal { IfErr result (λ status. IsTrue (can_refuse_image status)) }
    ensures memory { IfOk result (λ image.
        (image.base ≡ job.now.base) × (image.size ≡ job.now.size)) }
{
    let limit = image_limit(job.image.kind);
    let bytes = read_file(alloc, Which::Image, job.image.file.as_str(), limit, shelf)?;
    Ok(image_of_bytes(alloc, job, &bytes)?)
}

// The longest file of an image, in bytes.
fn image_limit(kind: ImageKind) -> u64
    ensures { result ≡ longest_image kind }
{
    match kind {
        ImageKind::Text => TEXT_IMAGE_LIMIT,
        ImageKind::Raw => RAW_IMAGE_LIMIT,
    }
}

// The image that the bytes of its file are.
fn image_of_bytes(alloc: Global, job: &Job, bytes: &[u8]) -> Result<Image, ImageFault>
    requires { IsLawfulMemory job.now.base job.now.size }
    ensures image { IfOk result (λ image.
        image_by job.now.image.kind job.now bytes.now ≡ Ok image) }
    ensures fault { IfErr result (λ fault. (fault ≡ ImageFault.NoMemory)
        ⊎ (image_by job.now.image.kind job.now bytes.now ≡ Err fault)) }
    ensures memory { IfOk result (λ image.
        (image.base ≡ job.now.base) × (image.size ≡ job.now.size)) }
{
    match job.image.kind {
        ImageKind::Text => Image::text(alloc, bytes, job.base, job.size),
        ImageKind::Raw => Image::raw(alloc, bytes, job.image.load, job.base, job.size),
    }
}
