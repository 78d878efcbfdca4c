//! The table that the bytes of a file are as TOML.
ghost use Rattle.std.specs.Prelude.{◌≡◌, ◌⊎◌, IfOk, IfErr, None, Some};
ghost use Rattle.toml.specs.View.{table_view};
ghost use Rattle.xif_job.specs.Document.{document_of};

use crate::JobFault;
use std::alloc::Global;
use toml::Table;

/// Parses the bytes of a file. They are not TOML where they are no text in UTF-8, or where an
/// integer has more than 64 bits.
pub(crate) fn document(alloc: Global, bytes: &[u8]) -> Result<Table, JobFault>
    ensures ok { IfOk result (λ t. document_of bytes.now ≡ Some (table_view t)) }
    ensures err { IfErr result (λ e.
        (e ≡ JobFault.NoMemory) ⊎ ((e ≡ JobFault.NotToml) × (document_of bytes.now ≡ None))) }
{
    let Ok(text) = str::from_utf8(bytes) else {
        return Err(JobFault::NotToml);
    };
    match toml::table_from_str(alloc, text) {
        Ok(table) => Ok(table),
        Err(error) => {
            if error.is_memory() {
                Err(JobFault::NoMemory)
            } else {
                Err(JobFault::NotToml)
            }
        }
    }
}
