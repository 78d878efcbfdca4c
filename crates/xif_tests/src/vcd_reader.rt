//! A waveform with what it says, and one with its fault, whatever the pieces. The outcomes are
//! those of an independent model of the format; tests/waveforms.txt has the other faults.

use crate::pieces::read;
use std::alloc::{AllocError, Global};
use std::process::Abort;
use std::test::Fail;
use vcd_text::{Declarations, Digit, FeedFail, Item, Reader, VcdCause, VcdFault};

const NESTED: &str = "$date today $end
$version sim $end
$timescale 1ps $end
$scope module top $end
$var wire 1 ! clk $end
$var wire 1 \" rst_n $end
$scope module xif $end
$var wire 1 # issue_valid $end
$var wire 1 $ issue_ready $end
$var wire 36 % issue_req [35:0] $end
$var wire 4 & issue_resp [3:0] $end
$upscope $end
$upscope $end
$enddefinitions $end
#0
$dumpvars
x!
0\"
x#
x$
bx %
bx &
$end
0!
#5
1!
$comment reset ends $end
1\"
0#
0$
#10
0!
#15
1!
1#
1$
b1110000000010110010 %
b0 &
#20
0!
#25
1!
b100 &
#30
0!
";

const NESTED_VARIABLES: &str =
    "top.clk=0:1 top.rst_n=1:1 top.xif.issue_valid=2:1 top.xif.issue_ready=3:1 top.xif.issue_req=4:36 top.xif.issue_resp=5:4 ";

const NESTED_ITEMS: &str =
    "#0 x@0 0@1 x@2 x@3 x@4 x@5 0@0 #5 1@0 1@1 0@2 0@3 #10 0@0 #15 1@0 1@2 1@3 1110000000010110010@4 0@5 #20 0@0 #25 1@0 100@5 #30 0@0 ";

/// Writes variables with their codes and sizes.
fn variables_text(
    alloc: Global,
    declarations: Option<&Declarations>,
) -> Result<String, AllocError> {
    let mut out = String::new(alloc);
    if let Some(declarations) = declarations {
        for variable in declarations.as_slice() {
            write!(
                out,
                "{}={}:{} ",
                variable.name.as_str(),
                variable.code,
                variable.size
            )?;
        }
    }
    Ok(out)
}

fn character(digit: Digit) -> char {
    match digit {
        Digit::Zero => '0',
        Digit::One => '1',
        Digit::X => 'x',
        Digit::Z => 'z',
    }
}

/// Writes the items of a reader, which are few.
fn items_text(alloc: Global, reader: &mut Reader) -> Result<String, AllocError> {
    let mut out = String::new(alloc);
    for _ in 0..100 {
        match reader.take() {
            Some(Item::Time(time)) => write!(out, "#{time} ")?,
            Some(Item::Change { code, digits }) => {
                for i in 0..digits.len() {
                    out.push(character(digits.get(i)))?;
                }
                write!(out, "@{code} ")?;
            }
            None => return Ok(out),
        }
    }
    Ok(out)
}

#[test]
fn variables_and_items_come_in_order(rt: HostRuntime) -> Result<(), Fail> {
    let mut reader = Reader::new(rt.alloc());
    let (front, back) = NESTED.as_bytes().split_at(100);
    assert_eq!(rt; reader.feed(front), Ok(()));
    assert!(rt; reader.declarations().is_none());
    assert_eq!(rt; reader.feed(back), Ok(()));
    let variables = variables_text(rt.alloc(), reader.declarations())?;
    assert_eq!(rt; variables.as_str(), NESTED_VARIABLES);
    assert_eq!(rt; reader.close(), Ok(()));
    let items = items_text(rt.alloc(), &mut reader)?;
    assert_eq!(rt; items.as_str(), NESTED_ITEMS);
    assert!(rt; reader.take().is_none());
    Ok(())
}

/// The declarations of one bit, some changes, and a change without its code.
const UNFINISHED: &str =
    "$var wire 1 ! c $end\n$enddefinitions $end\n#0\n0!\n#5\n1!\n#10\n0!\n#15\n1!\nb10";

#[test]
fn the_first_fault_is_reported_whatever_the_pieces(rt: HostRuntime) -> Result<(), Fail> {
    for len in [1000, 1, 7] {
        let fault = VcdFault {
            at: 68,
            cause: VcdCause::OpenBlock,
        };
        assert_eq!(rt;
            read(rt.alloc(), UNFINISHED.as_bytes(), len).map(|_| ()),
            Err(FeedFail::Vcd(fault)),
            "{len}"
        );
    }
    Ok(())
}
