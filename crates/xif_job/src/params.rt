//! The parameters of a job (CV-X-IF 1.0.0, "Parameters").
ghost use Rattle.std.specs.Prelude.{◌≡◌, IfOk, Ok};
ghost use Rattle.toml.specs.View.{table_view};
ghost use Rattle.xif_base.specs.Checks.{first_failing};
ghost use Rattle.xif_base.specs.Params.{ranges, IsInRange};
ghost use Rattle.xif_job.specs.FieldTable.{ports_of, params_of, checked};
ghost use Rattle.xif_job.specs.Outcome.{ReadsAs};
ghost use Rattle.xif_job.specs.Tables.{members};

use crate::field::field_of;
use crate::readers::{Absent, Range, find, flag, number_u8, port_width, table};
use crate::{Field, JobFault};
use toml::Table;
use xif_base::Params;

/// The names in the table `params`.
const NAMES: [&str; 10] = [
    "x_num_rs",
    "x_id_width",
    "x_rfr_width",
    "x_rfw_width",
    "x_num_harts",
    "x_hartid_width",
    "x_dualread",
    "x_dualwrite",
    "x_issue_register_split",
    "profile",
];

/// The number and the widths of the ports for source registers and for results, and the width of an
/// id, in bits.
#[derive(Clone, Copy)]
pub(crate) struct Ports {
    pub num_rs: u8,
    pub id_width: u8,
    pub rfr_width: u8,
    pub rfw_width: u8,
}

/// The table `params`.
#[tactic(auto, unfolding(crate::specs::FieldTable::params_of))]
pub(crate) fn read_params(top: &Table) -> Result<Params, JobFault>
    ensures value { ReadsAs (λ p. p) result (params_of (table_view top.now)) }
    ensures in_range { IfOk result IsInRange }
{
    let table = table(Field::ParamsNumRs, &NAMES, find(Some(top), "params"))?;
    let ports = read_ports(table)?;
    let range = Range { low: 1, high: 4 };
    let found = find(table, "x_num_harts");
    let num_harts = number_u8(Field::ParamsNumHarts, range, Absent::Default(1), found)?;
    let range = Range { low: 1, high: 8 };
    let found = find(table, "x_hartid_width");
    let hartid_width = number_u8(Field::ParamsHartidWidth, range, Absent::Default(1), found)?;
    let range = Range { low: 0, high: 3 };
    let found = find(table, "x_dualread");
    let dual_read = number_u8(Field::ParamsDualRead, range, Absent::Default(0), found)?;
    let found = find(table, "x_dualwrite");
    let dual_write = flag(Field::ParamsDualWrite, Absent::Default(0), found)?;
    let found = find(table, "x_issue_register_split");
    let split = flag(Field::ParamsIssueRegisterSplit, Absent::Default(1), found)?;
    let range = Range { low: 1, high: 2 };
    let found = find(table, "profile");
    let profile = number_u8(Field::ParamsProfile, range, Absent::Default(1), found)?;
    check(Params {
        num_rs: ports.num_rs,
        id_width: ports.id_width,
        rfr_width: ports.rfr_width,
        rfw_width: ports.rfw_width,
        num_harts,
        hartid_width,
        dual_read,
        dual_write,
        split,
        profile,
    })
}

/// The first four fields of the table.
#[tactic(auto, unfolding(crate::specs::FieldTable::ports_of))]
fn read_ports(table: Option<&Table>) -> Result<Ports, JobFault>
    ensures { ReadsAs (λ p. p) result (ports_of (members table.entry)) }
{
    let range = Range { low: 2, high: 3 };
    let found = find(table, "x_num_rs");
    let num_rs = number_u8(Field::ParamsNumRs, range, Absent::Default(2), found)?;
    let range = Range { low: 3, high: 12 };
    let found = find(table, "x_id_width");
    let id_width = number_u8(Field::ParamsIdWidth, range, Absent::Default(3), found)?;
    let found = find(table, "x_rfr_width");
    let rfr_width = port_width(Field::ParamsRfrWidth, Absent::Default(32), found)?;
    let found = find(table, "x_rfw_width");
    let rfw_width = port_width(Field::ParamsRfwWidth, Absent::Default(32), found)?;
    Ok(Ports {
        num_rs,
        id_width,
        rfr_width,
        rfw_width,
    })
}

/// Parameters that are in their ranges together.
fn check(params: Params) -> Result<Params, JobFault>
    ensures value { result ≡ checked params (first_failing (ranges params)) }
    ensures in_range { IfOk result IsInRange }
{
    match params.check() {
        Ok(()) => Ok(params),
        Err(fault) => Err(JobFault::OutOfRange(field_of(fault))),
    }
}
