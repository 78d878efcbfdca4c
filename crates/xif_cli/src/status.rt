//! What a command ended with.
ghost use Rattle.std.specs.Prelude.{◌≡◌, ◌≢◌, ◌↔◌, IsTrue};
ghost use Rattle.xif_cli.specs.Status.{status_number, which_word, cause_word, script_word, vcd_word};

use coproc_config::SetCause;
use std::fmt;
use vcd_text::{VcdCause, VcdFault};
use waveform_judge::JudgeFail;
use xif_base::{NoMemory, Which};
use xif_drive::ScriptCause;
use xif_image::ImageFault;
use xif_job::JobFault;
use xif_sampler::MapFault;

/// What a call of the program ended with. Each has its number, which is the exit status.
#[derive(Clone, Copy, Debug, PartialEq, Eq)]
pub enum Status {
    /// The command ended as it is defined.
    Done,
    /// A rule of the interface failed in the waveform that was judged.
    Illegal,
    /// The words are none of the forms of the command line.
    Usage,
    /// A file could not be read.
    ReadFault(Which),
    /// A file, or the output, could not be written.
    WriteFault(Which),
    /// The job's file is no TOML, or breaks a rule of its fields.
    Job(JobFault),
    /// The image's file breaks the form of its kind, or lies outside the memory.
    Image(ImageFault),
    /// The waveform's file has no reading.
    Vcd(VcdFault),
    /// A signal isn't found in the waveform where the job says.
    Map(MapFault),
    /// A file is longer than its limit.
    TooBig(Which),
    /// There was no memory left.
    NoMemory,
    /// What the words ask for isn't built yet.
    Unbuilt,
}

impl Status {
    /// The exit status.
    pub fn number(&self) -> u8
        ensures { result ≡ status_number self.now }
    {
        match self {
            Status::Done => 0,
            Status::Illegal => 1,
            Status::Usage => 2,
            Status::ReadFault(_) => 3,
            Status::WriteFault(_) => 4,
            Status::Job(_) => 5,
            Status::Image(_) => 6,
            Status::Vcd(_) => 7,
            Status::Map(_) => 8,
            Status::TooBig(_) => 9,
            Status::NoMemory => 10,
            Status::Unbuilt => 11,
        }
    }

    /// Whether a fault line is printed of it.
    pub fn is_fault(&self) -> bool
        ensures { IsTrue result ↔ ((self.now ≢ Status.Done) × (self.now ≢ Status.Illegal)) }
    {
        !matches!(self, Status::Done | Status::Illegal)
    }
}

impl From<NoMemory> for Status {
    ghost use Rattle.std.specs.Prelude.{◌≡◌};
    ghost use Rattle.xif_cli.specs.declared.status.Status.TheVariants.{NoMemory};

    ghost from_gives = { λ _ status. status ≡ NoMemory };

    fn from(_: NoMemory) -> Self {
        Status::NoMemory
    }
}

impl From<JobFault> for Status {
    ghost use Rattle.std.specs.Prelude.{◌≡◌};
    ghost use Rattle.xif_cli.specs.Outcome.{job_status};

    ghost from_gives = { λ fault status. status ≡ job_status fault };

    fn from(fault: JobFault) -> Self {
        match fault {
            JobFault::NoMemory => Status::NoMemory,
            fault => Status::Job(fault),
        }
    }
}

impl From<ImageFault> for Status {
    ghost use Rattle.std.specs.Prelude.{◌≡◌};
    ghost use Rattle.xif_cli.specs.Outcome.{image_status};

    ghost from_gives = { λ fault status. status ≡ image_status fault };

    fn from(fault: ImageFault) -> Self {
        match fault {
            ImageFault::NoMemory => Status::NoMemory,
            fault => Status::Image(fault),
        }
    }
}

impl From<JudgeFail> for Status {
    ghost use Rattle.std.specs.Prelude.{◌≡◌};
    ghost use Rattle.xif_cli.specs.Outcome.{judge_status};

    ghost from_gives = { λ fail status. status ≡ judge_status fail };

    fn from(fail: JudgeFail) -> Self {
        match fail {
            JudgeFail::Vcd(fault) => Status::Vcd(fault),
            JudgeFail::Map(fault) => Status::Map(fault),
            JudgeFail::NoMemory => Status::NoMemory,
        }
    }
}

/// The fault line, without the end of the line: empty where there is none.
impl fmt::Display for Status {
    ghost use Rattle.std.specs.Prelude.{Some};
    ghost use Rattle.xif_cli.specs.Status.{fault_line};

    ghost output = { λ status. Some (fault_line status) };

    fn fmt<W: fmt::Write>(&self, f: &mut fmt::Formatter<W>) -> fmt::Result {
        match self {
            Status::Done | Status::Illegal => Ok(()),
            Status::Usage => f.write_str("usage"),
            Status::ReadFault(which) => write!(f, "read {}", which_word(*which)),
            Status::WriteFault(which) => write!(f, "write {}", which_word(*which)),
            Status::Job(fault) => write!(f, "job {}", JobWords(*fault)),
            Status::Image(fault) => write!(f, "image {}", ImageWords(*fault)),
            Status::Vcd(fault) => write!(f, "vcd {} at={}", vcd_word(fault.cause), fault.at),
            Status::Map(fault) => write!(f, "map {}", MapWords(*fault)),
            Status::TooBig(which) => write!(f, "too-big {}", which_word(*which)),
            Status::NoMemory => f.write_str("no memory"),
            Status::Unbuilt => f.write_str("unbuilt"),
        }
    }
}

// The word for a file or target in fault lines.
fn which_word(which: Which) -> &'static str
    ensures { result.now ≡ which_word which }
{
    match which {
        Which::Job => "job",
        Which::Image => "image",
        Which::Waveform => "waveform",
        Which::Trace => "trace",
        Which::Log => "log",
        Which::Output => "output",
    }
}

// What is said of a job's fault.
#[derive(Clone, Copy)]
struct JobWords(JobFault);

impl fmt::Display for JobWords {
    ghost use Rattle.std.specs.Prelude.{Some};
    ghost use Rattle.xif_cli.specs.Status.{job_words};

    ghost output = { λ words. Some (job_words words.0) };

    fn fmt<W: fmt::Write>(&self, f: &mut fmt::Formatter<W>) -> fmt::Result {
        match self.0 {
            JobFault::NotToml => f.write_str("not-toml"),
            JobFault::MissingField(field) => write!(f, "missing {}", field.name()),
            JobFault::WrongKind(field) => write!(f, "kind {}", field.name()),
            JobFault::OutOfRange(field) => write!(f, "range {}", field.name()),
            JobFault::UnknownField => f.write_str("unknown"),
            JobFault::Set(fault) => {
                let cause = cause_word(fault.cause);
                write!(f, "set {cause} unit={} entry={}", fault.unit, fault.entry)
            }
            JobFault::Script(fault) => {
                let cause = script_word(fault.cause);
                write!(f, "script {cause} list={}", fault.list)
            }
            JobFault::NoMemory => f.write_str("no memory"),
        }
    }
}

// The word for what is wrong with a set of units.
fn cause_word(cause: SetCause) -> &'static str
    ensures { result.now ≡ cause_word cause }
{
    match cause {
        SetCause::TooManyUnits => "units",
        SetCause::TooManyEntries => "entries",
        SetCause::BadMask => "mask",
        SetCause::BadAccumulator => "accumulator",
        SetCause::BadField => "field",
    }
}

// The word for what is wrong with a script of delays.
fn script_word(cause: ScriptCause) -> &'static str
    ensures { result.now ≡ script_word cause }
{
    match cause {
        ScriptCause::EmptyList => "empty",
        ScriptCause::LongList => "long",
        ScriptCause::BigDelay => "big",
    }
}

// What is said of an image's fault.
#[derive(Clone, Copy)]
struct ImageWords(ImageFault);

impl fmt::Display for ImageWords {
    ghost use Rattle.std.specs.Prelude.{Some};
    ghost use Rattle.xif_cli.specs.Status.{image_words};

    ghost output = { λ words. Some (image_words words.0) };

    fn fmt<W: fmt::Write>(&self, f: &mut fmt::Formatter<W>) -> fmt::Result {
        match self.0 {
            ImageFault::BadToken { at } => write!(f, "bad-token at={at}"),
            ImageFault::Outside { at } => write!(f, "outside at={at}"),
            ImageFault::Empty => f.write_str("empty"),
            ImageFault::NoMemory => f.write_str("no memory"),
        }
    }
}

// The word for what is wrong with the text of a waveform.
fn vcd_word(cause: VcdCause) -> &'static str
    ensures { result.now ≡ vcd_word cause }
{
    match cause {
        VcdCause::BadToken => "bad-token",
        VcdCause::OpenBlock => "open-block",
        VcdCause::BadVar => "bad-var",
        VcdCause::SizeDiffers => "size-differs",
        VcdCause::UnknownCode => "unknown-code",
        VcdCause::TooWide => "too-wide",
        VcdCause::BadTime => "bad-time",
        VcdCause::TimeBack => "time-back",
        VcdCause::NoDefinitionsEnd => "no-definitions-end",
    }
}

// What is said of a signal that isn't found.
#[derive(Clone, Copy)]
struct MapWords(MapFault);

impl fmt::Display for MapWords {
    ghost use Rattle.std.specs.Prelude.{Some};
    ghost use Rattle.xif_cli.specs.Status.{map_words};

    ghost output = { λ words. Some (map_words words.0) };

    fn fmt<W: fmt::Write>(&self, f: &mut fmt::Formatter<W>) -> fmt::Result {
        match self.0 {
            MapFault::Missing(signal) => write!(f, "missing {}", signal.name()),
            MapFault::Ambiguous(signal) => write!(f, "ambiguous {}", signal.name()),
            MapFault::Narrow(signal) => write!(f, "narrow {}", signal.name()),
        }
    }
}
