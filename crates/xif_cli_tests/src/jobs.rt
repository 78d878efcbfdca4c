//! What stands in a job that was read. The faults of job files are rows of tests/jobs.txt.
use coproc_config::{Entry, Op};
use std::process::Abort;
use std::test::Fail;
use xif_base::Params;
use xif_job::{Addresses, Field, ImageKind, Job, Kind};
use xif_sampler::Place;
use xif_signals::Signal;

#[test]
fn fields_that_are_absent_have_their_defaults(rt: HostRuntime) -> Result<(), Fail> {
    let job = Job::read(rt.alloc(), b"", false)?;
    let params = Params {
        num_rs: 2,
        id_width: 3,
        rfr_width: 32,
        rfw_width: 32,
        num_harts: 1,
        hartid_width: 1,
        dual_read: 0,
        dual_write: false,
        split: true,
        profile: 1,
    };
    assert_eq!(rt; job.params, params);
    assert_eq!(rt; (job.base, job.size, job.entry), (0, 65_536, 0));
    assert_eq!(rt; (job.image.kind, job.image.load), (ImageKind::Text, 0));
    assert_eq!(rt; (job.window, job.budget), (8, 10_000));
    let names = (job.trace.as_str(), job.log.as_str());
    assert_eq!(rt; names, ("trace.vcd", "trace.log"));
    assert_eq!(rt; job.script.largest(), 0);
    assert_eq!(rt; job.image.file.as_str(), "");
    assert!(rt; matches!(&job.predictor, Kind::Never));
    assert_eq!(rt; job.set.len(), 0);
    assert!(rt; matches!(job.map.get(Signal::ResultWe), Place::Default));
    Ok(())
}

// A job with each field that a job file may have, none at its default.
const WHOLE: &str = "
[params]
x_num_rs = 3
x_id_width = 5
x_rfr_width = 64
x_rfw_width = 64
x_num_harts = 3
x_hartid_width = 2
x_dualread = 1
x_dualwrite = 1
x_issue_register_split = 0
profile = 2
[memory]
base = 4294966272
size = 1024
[image]
file = \"p.bin\"
kind = \"raw\"
load = 4294966280
entry = 4294966276
[core]
window = 32
budget = 200000
predictor = \"listed\"
bits = 12
targets = [8, 4294967295]
[script]
issue = [1, 2]
register = [3]
operand = [4]
result = [5]
take = [6, 200]
[[unit]]
[[unit]]
accumulators = 2
[[unit.entry]]
mask = 127
match = 11
op = \"acc_add\"
acc = 1
low = 2
len = 3
[trace]
vcd = \"p.vcd\"
log = \"p.log\"
[map]
clk = \"top.clk\"
issue_id = 31
issue_instr = {var = \"top.instr\", low = 1048575, high = 0}
";

#[test]
fn fields_are_what_the_file_says(rt: HostRuntime) -> Result<(), Fail> {
    let job = Job::read(rt.alloc(), WHOLE.as_bytes(), true)?;
    let params = Params {
        num_rs: 3,
        id_width: 5,
        rfr_width: 64,
        rfw_width: 64,
        num_harts: 3,
        hartid_width: 2,
        dual_read: 1,
        dual_write: true,
        split: false,
        profile: 2,
    };
    assert_eq!(rt; job.params, params);
    assert_eq!(rt; (job.base, job.size), (4_294_966_272, 1024));
    assert_eq!(rt; job.image.file.as_str(), "p.bin");
    let addresses = (job.image.load, job.entry);
    assert_eq!(rt; addresses, (4_294_966_280, 4_294_966_276));
    assert_eq!(rt; job.image.kind, ImageKind::Raw);
    assert_eq!(rt; (job.window, job.budget), (32, 200_000));
    let names = (job.trace.as_str(), job.log.as_str());
    assert_eq!(rt; names, ("p.vcd", "p.log"));
    let delays = (job.script.issue(3), job.script.register(0));
    assert_eq!(rt; delays, (2, 3));
    let delays = (job.script.operand(0), job.script.result(0));
    assert_eq!(rt; delays, (4, 5));
    assert_eq!(rt; (job.script.take(0), job.script.largest()), (6, 200));
    check_predictor(&rt, &job.predictor);
    check_units(&rt, &job);
    check_map(&rt, &job);
    Ok(())
}

fn check_predictor(rt: &impl Abort, predictor: &Kind) {
    let Kind::Listed { targets } = predictor else {
        assert!(rt; false, "the predictor is another");
        return;
    };
    assert_eq!(rt; targets.len(), 2);
    assert_eq!(rt; *targets.get(1), 4_294_967_295);
}

fn check_units(rt: &impl Abort, job: &Job) {
    assert_eq!(rt; job.set.len(), 2);
    assert_eq!(rt; (job.set.get(1).accumulators, job.set.get(1).len()), (2, 1));
    let entry = Entry {
        mask: 127,
        matched: 11,
        op: Op::AccAdd,
        acc: 1,
        low: 2,
        len: 3,
    };
    assert_eq!(rt; *job.set.get(1).get(0), entry);
}

fn check_map(rt: &impl Abort, job: &Job) {
    assert!(rt; is_variable(job.map.get(Signal::Clk), "top.clk", 0, None));
    assert!(rt; matches!(job.map.get(Signal::RstN), Place::Default));
    assert!(rt; matches!(job.map.get(Signal::IssueId), Place::Constant(31)));
    let instr = job.map.get(Signal::IssueInstr);
    assert!(rt; is_variable(instr, "top.instr", 1_048_575, Some(0)));
}

fn is_variable(place: &Place, wanted: &str, from: u32, to: Option<u32>) -> bool {
    match place {
        Place::Variable { name, low, high } => {
            name.as_str() == wanted && *low == from && *high == to
        }
        _ => false,
    }
}

#[test]
fn a_list_of_addresses_grows_and_a_field_has_a_name(rt: HostRuntime) -> Result<(), Fail> {
    let mut addresses = Addresses::new(rt.alloc());
    addresses.push(8)?;
    assert_eq!(rt; addresses.len(), 1);
    assert_eq!(rt; *addresses.get(0), 8);
    assert_eq!(rt; Field::UnitEntryMatch.name(), "unit.entry.match");
    assert_eq!(rt; Field::Map(Signal::RstN).name(), "map.rst_n");
    Ok(())
}
