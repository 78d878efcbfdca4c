//! The predictors and the script of delays.
use std::alloc::Global;
use std::test::Fail;
use xif_drive::{Backward, Bimodal, Delays, Listed, Never, Predictor, Script, ScriptLists};

/// At address 0x100: JAL by -8, BEQ by -4 and by 8, and ADDI.
const JAL_BACK: u32 = 0xff9f_f06f;

const BEQ_BACK: u32 = 0xfe00_0ee3;

const BEQ_ON: u32 = 0x0000_0463;

const ADDI: u32 = 0x0000_0013;

#[test]
fn predictors_answer_by_the_word(rt: HostRuntime) -> Result<(), Fail> {
    let backward = Backward::new();
    assert_eq!(rt; backward.next(0x100, JAL_BACK), 0xf8);
    assert_eq!(rt; backward.next(0x100, BEQ_BACK), 0xfc);
    assert_eq!(rt; backward.next(0x100, BEQ_ON), 0x104);
    assert_eq!(rt; backward.next(0xffff_fffc, ADDI), 0);
    assert_eq!(rt; Never::new().next(0x100, JAL_BACK), 0x104);
    Ok(())
}

#[test]
fn predictors_learn(rt: HostRuntime) -> Result<(), Fail> {
    let mut bimodal = Bimodal::new(rt.alloc(), 1)?;
    assert_eq!(rt; bimodal.next(0x100, BEQ_ON), 0x104);
    bimodal.learn(0x100, BEQ_ON, 0x108);
    assert_eq!(rt; bimodal.next(0x108, BEQ_ON), 0x110);
    assert_eq!(rt; bimodal.next(0x104, BEQ_ON), 0x108);
    let mut listed = Listed::new(rt.alloc(), &[4, 2])?;
    assert_eq!(rt; listed.next(0, ADDI), 4);
    listed.learn(0, ADDI, 0);
    assert_eq!(rt; listed.next(0, ADDI), 2);
    listed.learn(0, ADDI, 0);
    assert_eq!(rt; listed.next(0, ADDI), 4);
    Ok(())
}

/// A script of these delays for issue and take, and 0 for the others.
fn script(alloc: Global, issue: &[u16], take: &[u16]) -> Result<Script, Fail> {
    let lists = ScriptLists {
        issue: Delays::from_slice(alloc, issue)?,
        register: Delays::from_slice(alloc, &[0])?,
        operand: Delays::from_slice(alloc, &[0])?,
        result: Delays::from_slice(alloc, &[0])?,
        take: Delays::from_slice(alloc, take)?,
    };
    Ok(Script::new(alloc, &lists)?)
}

const ZEROS: [u16; 65] = [0; 65];

const CHECKS: &str = "\
Ok(())
Err(ScriptFault { cause: EmptyList, list: 0 })
Err(ScriptFault { cause: BigDelay, list: 0 })
Err(ScriptFault { cause: LongList, list: 4 })
";

fn text_of_checks(alloc: Global) -> Result<String, Fail> {
    let mut text = String::new(alloc);
    writeln!(
        text,
        "{:?}",
        script(alloc, &[3, 200], &ZEROS[..64])?.check()
    )?;
    writeln!(text, "{:?}", script(alloc, &[], &[])?.check())?;
    writeln!(text, "{:?}", script(alloc, &[0, 201], &[])?.check())?;
    writeln!(text, "{:?}", script(alloc, &[0], &ZEROS)?.check())?;
    Ok(text)
}

#[test]
fn scripts_are_checked_list_by_list(rt: HostRuntime) -> Result<(), Fail> {
    let text = text_of_checks(rt.alloc())?;
    assert_eq!(rt; text.as_str(), CHECKS);
    Ok(())
}

#[test]
fn delays_are_taken_in_turn(rt: HostRuntime) -> Result<(), Fail> {
    let script = script(rt.alloc(), &[3, 200], &[7])?.copy(rt.alloc())?;
    assert!(rt; script.check().is_ok());
    assert_eq!(rt;
        (script.issue(0), script.issue(3), script.issue(4)),
        (3, 200, 3)
    );
    assert_eq!(rt;
        (script.register(9), script.operand(9), script.result(9)),
        (0, 0, 0)
    );
    assert_eq!(rt; (script.take(u64::MAX), script.largest()), (7, 200));
    Ok(())
}
