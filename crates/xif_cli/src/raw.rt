//! The command `raw IMAGE COUNT`.
ghost use Rattle.std.specs.Prelude.{◌≡◌, ◌≤◌, length, IsTrue, IfErr, IfOk};
ghost use Rattle.std.specs.String.{string_bytes};
ghost use Rattle.xif_cli.specs.InOrder.{raw_report};
ghost use Rattle.xif_cli.specs.Limits.{longest_raw};
ghost use Rattle.xif_cli.specs.Outcome.{raw_outcome};
ghost use Rattle.xif_cli.specs.Reading.{Ends, seen, can_refuse_file};

use crate::answer::{Answer, End};
use crate::inorder::{raw_machine, run_report};
use crate::limits::RAW_LIMIT;
use crate::read::read_file;
use crate::status::Status;
use coproc_config::Set;
use std::alloc::Global;
use xif_base::{NoMemory, Params, Shelf, Which};

/// The parameters of the interface, which mean nothing without units: the least of each.
const LEAST_PARAMS: Params = Params {
    num_rs: 2,
    id_width: 3,
    rfr_width: 32,
    rfw_width: 32,
    num_harts: 1,
    hartid_width: 1,
    dual_read: 0,
    dual_write: false,
    split: false,
    profile: 1,
};

/// The report of the image of a file, which runs at address 0 for at most `count` retirements.
pub(crate) fn raw_answer<S: Shelf>(
    alloc: Global,
    image: &str,
    count: u32,
    shelf: &mut S,
) -> Result<Answer, Status>
    ensures ends { Ends S.files S.fetch_faults S.write_faults S.faultless shelf.old shelf.new
        (raw_outcome image.now count) (seen (λ answer. answer) result) }
    ensures refusal { IfErr result (λ status. IsTrue (can_refuse_file Which.Image status)) }
    ensures done { IfOk result (λ answer. answer.end ≡ End.Done) }
{
    let bytes = read_file(alloc, Which::Image, image, RAW_LIMIT, shelf)?;
    let text = report_of_image(alloc, &bytes, count)?;
    Ok(Answer {
        end: End::Done,
        text,
    })
}

// The report of a run of an image.
#[tactic(auto, unfolding(crate::specs::InOrder::raw_report))]
fn report_of_image(alloc: Global, image: &[u8], count: u32) -> Result<String, NoMemory>
    requires { length image.now ≤ longest_raw }
    ensures { IfOk result (λ text. string_bytes text ≡ raw_report image.now count) }
{
    let set = Set::new(alloc);
    let machine = raw_machine(alloc, image, &set)?;
    run_report(alloc, machine, &set, &LEAST_PARAMS, u64::from(count))
}
