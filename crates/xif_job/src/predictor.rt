//! The predictor of a job: its kind, and the bits or addresses that it has.
ghost use Rattle.std.specs.Prelude.{◌≡◌, ◌≤◌, IfOk, length};
ghost use Rattle.xif_job.specs.FieldTable.{predictor_of, kind_of};
ghost use Rattle.xif_job.specs.Outcome.{ReadsAs};
ghost use Rattle.xif_job.specs.Ranges.{IsLawfulKind};
ghost use Rattle.xif_job.specs.Tables.{members};

use crate::addresses::Addresses;
use crate::readers::{Absent, Range, choice, find, number_u8, numbers};
use crate::{Field, JobFault};
use std::alloc::Global;
use toml::Table;

/// How the core predicts the address of the next instruction.
#[derive(Debug, Drop)]
pub enum Kind {
    /// It is the next one in the memory.
    Never,
    /// JAL and branches to lower addresses are taken.
    Backward,
    /// There are 2^`bits` counters of two bits (`bits` is 1 to 12). JAL is taken, and a branch
    /// where its counter is 2 or 3.
    Bimodal { bits: u8 },
    /// The listed addresses in turn, whatever the instruction is: the next one once a control
    /// transfer has retired. There are 1 to 64 of them.
    Listed { targets: Addresses },
}

/// The kinds, which a job file names.
#[derive(Clone, Copy, Debug, PartialEq, Eq)]
pub(crate) enum KindName {
    Never,
    Backward,
    Bimodal,
    Listed,
}

/// The words of the kinds.
const WORDS: [(&str, KindName); 4] = [
    ("never", KindName::Never),
    ("backward", KindName::Backward),
    ("bimodal", KindName::Bimodal),
    ("listed", KindName::Listed),
];

/// The predictor that the table `core` says. Its bits and addresses are read for every kind.
#[tactic(auto, unfolding(crate::specs::FieldTable::predictor_of))]
pub(crate) fn read_predictor(alloc: Global, table: Option<&Table>) -> Result<Kind, JobFault>
    ensures kind { ReadsAs (λ k. k) result (predictor_of (members table.entry)) }
    ensures lawful { IfOk result IsLawfulKind }
{
    let absent = Absent::Default(KindName::Never);
    let name = choice(
        Field::CorePredictor,
        &WORDS,
        absent,
        find(table, "predictor"),
    )?;
    let bits = Range { low: 1, high: 12 };
    let bits = number_u8(
        Field::CoreBits,
        bits,
        Absent::Default(8),
        find(table, "bits"),
    )?;
    let counts = Range { low: 1, high: 64 };
    let addresses = Range {
        low: 0,
        high: 4_294_967_295,
    };
    let found = find(table, "targets");
    let targets = numbers(alloc, Field::CoreTargets, counts, addresses, found)?;
    Ok(kind_named(name, bits, Addresses::of(targets)))
}

/// The predictor of a name, which has the bits or the targets if it wants them.
fn kind_named(name: KindName, bits: u8, targets: Addresses) -> Kind
    requires bits { (1 ≤ bits) × (bits ≤ 12) }
    requires targets { (1 ≤ length targets) × (length targets ≤ 64) }
    ensures kind { result ≡ kind_of name bits targets }
    ensures lawful { IsLawfulKind result }
{
    match name {
        KindName::Never => Kind::Never,
        KindName::Backward => Kind::Backward,
        KindName::Bimodal => Kind::Bimodal { bits },
        KindName::Listed => Kind::Listed { targets },
    }
}
