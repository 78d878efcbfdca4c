//! The table `image` of a job: where the memory's contents come from, and the first instruction.
ghost use Rattle.std.specs.Prelude.{◌≡◌, ◌≤◌, ◌-◌, ◌%◌, ◌^◌, IfOk};
ghost use Rattle.toml.specs.View.{table_view};
ghost use Rattle.xif_job.specs.FieldTable.{image_of, file_in};
ghost use Rattle.xif_job.specs.Outcome.{ReadsAs};
ghost use Rattle.xif_job.specs.Tables.{data_of};

use crate::readers::{Absent, Range, choice, find, number_u32, table, text, word};
use crate::{Field, JobFault};
use std::alloc::Global;
use toml::{Table, Value};
use xif_base::Name;

/// What the bytes of an image's file are.
#[derive(Clone, Copy, Debug, PartialEq, Eq)]
pub enum ImageKind {
    /// A text of hexadecimal bytes and addresses, as `$readmemh` reads it (IEEE 1364).
    Text,
    /// The bytes of the memory from an address on.
    Raw,
}

/// The words of the kinds.
const WORDS: [(&str, ImageKind); 2] = [("text", ImageKind::Text), ("raw", ImageKind::Raw)];

/// Where the image of the memory comes from.
#[derive(Debug, Drop)]
pub struct ImageSource {
    /// `image.file`, the name of its file, which the program opens where it runs. It is empty only
    /// where the job names none and needs none.
    pub file: Name,
    /// `image.kind`, what the file is. By default it is a text.
    pub kind: ImageKind,
    /// `image.load`, the address of the first byte of a raw image, any of 32 bits. By default it is
    /// the memory's first address. A text has addresses of its own.
    pub load: u32,
}

/// The image, and the address of the first instruction, a multiple of 4.
#[derive(Debug, Drop)]
pub(crate) struct Image {
    pub source: ImageSource,
    pub entry: u32,
}

/// The names in the table `image`.
const NAMES: [&str; 4] = ["file", "kind", "load", "entry"];

/// The addresses of bytes.
const ADDRESSES: Range = Range {
    low: 0,
    high: 4_294_967_295,
};

/// The addresses of instructions.
const ENTRIES: Range = Range {
    low: 0,
    high: 4_294_967_292,
};

/// The table `image`. `base` is the memory's first address.
#[tactic(auto, unfolding(crate::specs::FieldTable::image_of))]
pub(crate) fn read_image(
    alloc: Global,
    top: &Table,
    needs_image: bool,
    base: u32,
) -> Result<Image, JobFault>
    requires { base ≤ 2 ^ 32 - 4 }
    ensures value { ReadsAs (λ i. i) result (image_of needs_image base (table_view top.now)) }
    ensures entry { IfOk result (λ i. i.entry % 4 ≡ 0) }
{
    let base = u64::from(base);
    let table = table(Field::ImageFile, &NAMES, find(Some(top), "image"))?;
    let file = read_file(alloc, needs_image, find(table, "file"))?;
    let absent = Absent::Default(ImageKind::Text);
    let kind = choice(Field::ImageKind, &WORDS, absent, find(table, "kind"))?;
    let found = find(table, "load");
    let load = number_u32(Field::ImageLoad, ADDRESSES, Absent::Default(base), found)?;
    let found = find(table, "entry");
    let entry = word(Field::ImageEntry, ENTRIES, Absent::Default(base), found)?;
    let source = ImageSource { file, kind, load };
    Ok(Image { source, entry })
}

fn read_file(alloc: Global, needs_image: bool, value: Option<&Value>) -> Result<Name, JobFault>
    ensures { ReadsAs (λ n. n) result (file_in needs_image (data_of value.entry)) }
{
    if value.is_none() && !needs_image {
        return Ok(Name::of(alloc, "")?);
    }
    text(alloc, Field::ImageFile, value)
}
