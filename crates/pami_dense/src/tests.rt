//! Both eliminations on the same matrices: worked ones, and drawn ones in `cases.rt`.

ghost use Rattle.std.specs.Prelude.{◌≡◌, ◌<◌, ◌^◌, length, All, IfOk};

use crate::cases::{FIRST, SECOND};
use crate::eliminate_dense;
use pami_factoring::{Kept, LuFault};
use pami_frac::{Fault, Frac, ListOf, Op, OutOfMemory, Refused, read_fraction};
use pami_lu::{Lu, Steps, eliminate};
use pami_vec::SpVec;
use std::alloc::Global;
use std::process::Abort;
use std::test::Fail;

/// A matrix of so many rows by its columns, each with its entries by row, and the steps or the fault that are due.
pub(crate) struct Case {
    pub(crate) size: u32,
    pub(crate) columns: &'static str,
    pub(crate) due: &'static str,
}

/// Matrices whose steps were worked out by hand.
const WORKED: [Case; 10] = [
    // One entry.
    Case {
        size: 1,
        columns: "5",
        due: "0 0 | 5 | 0;",
    },
    // All pairs cost the same: the left column comes first, and in it the upper row.
    Case {
        size: 3,
        columns: "0 1 1|1 0 1|1 1 0",
        due: "1 0 | 1 0 1 | 0 0 1;0 1 | 0 1 1 | 0 0 1;2 2 | 0 0 -2 | 0 0 0;",
    },
    // Row 2 gets an entry in the middle, where it had 0.
    Case {
        size: 3,
        columns: "1 0 1|1 1 0|0 1 1",
        due: "0 0 | 1 1 0 | 0 0 1;1 1 | 0 1 1 | 0 0 -1;2 2 | 0 0 2 | 0 0 0;",
    },
    // Row 1 loses its entry in the middle, and so the next pivot is in row 2.
    Case {
        size: 3,
        columns: "1 1 2|1 1 1|2 3 1",
        due: "0 0 | 1 1 2 | 0 1 2;2 1 | 0 -1 -3 | 0 0 0;1 2 | 0 0 1 | 0 0 0;",
    },
    // The row of the least cost is the last one, and the other two are multiples of each other.
    Case {
        size: 3,
        columns: "1 2 0|2 4 0|3 6 1",
        due: "singular 1",
    },
    // Nothing at all.
    Case {
        size: 2,
        columns: "0 0|0 0",
        due: "singular 0",
    },
    // A multiplier, a product and a difference that don't fit.
    Case {
        size: 2,
        columns: "1/2 170141183460469231731687303715884105727|1 1",
        due: "refused div 170141183460469231731687303715884105727 1/2",
    },
    Case {
        size: 2,
        columns: "1 2|170141183460469231731687303715884105727 1",
        due: "refused mul 2 170141183460469231731687303715884105727",
    },
    Case {
        size: 2,
        columns: "3 2|1 170141183460469231731687303715884105727",
        due: "refused sub 170141183460469231731687303715884105727 2/3",
    },
    // Row 2 would meet its refusal at the same place, but row 1 comes first.
    Case {
        size: 3,
        columns: "1 2 3|1 1 1|170141183460469231731687303715884105727 1 1",
        due: "refused mul 2 170141183460469231731687303715884105727",
    },
];

// ---- the matrix

/// The fraction with this text.
fn number(text: &str) -> Result<Frac, Fail> {
    match read_fraction(text.as_bytes()) {
        Ok(value) => Ok(value),
        Err(_) => Err(Fail::from("a number")),
    }
}

/// The column of this line, which has so many rows.
fn column(alloc: Global, line: &str, height: u32) -> Result<SpVec, Fail>
    ensures { IfOk result (λ v. length v ≡ height) }
{
    let mut members = Vec::new(alloc);
    for word in line.split(' ') {
        members.push(number(word)?)?;
    }
    if members.len() != height as usize {
        return Err(Fail::from("a square matrix"));
    }
    Ok(SpVec::from_dense(alloc, &members)?)
}

/// The columns of these lines, so many.
fn columns_of(alloc: Global, lines: &str, height: u32) -> Result<Vec<SpVec>, Fail>
    ensures count { IfOk result (λ columns. length columns.items ≡ height) }
    ensures heights { IfOk result (λ columns. All (λ c. length c ≡ height) columns.items) }
{
    let mut columns = Vec::new(alloc);
    for line in lines.split('|') {
        columns.push(column(alloc, line, height)?)?;
    }
    if columns.len() != height as usize {
        return Err(Fail::from("a square matrix"));
    }
    Ok(columns)
}

/// The head that names each column at its own place.
fn all_in_turn(alloc: Global, count: u32) -> Result<Vec<u32>, OutOfMemory>
    ensures count { IfOk result (λ head. length head.items ≡ count) }
    ensures known { IfOk result (λ head. All (λ j. j < count) head.items) }
{
    let mut head = Vec::new(alloc);
    for j in 0..count {
        head.push(j)?;
    }
    Ok(head)
}

// ---- the outcomes

/// A blank and the number, for each.
fn put_list(out: &mut Vec<u8>, list: &[Frac]) -> Result<(), OutOfMemory> {
    for value in list {
        out.push(b' ')?;
        value.append_to(out)?;
    }
    Ok(())
}

/// The row and the place of a step, the row that it kept, and its multipliers.
fn put_step(
    alloc: Global,
    out: &mut Vec<u8>,
    row: usize,
    place: usize,
    kept: &[Frac],
    multipliers: &[Frac],
) -> Result<(), OutOfMemory> {
    out.extend_from_slice(format!(in alloc; "{row} {place} |")?.as_bytes())?;
    put_list(out, kept)?;
    out.extend_from_slice(b" |")?;
    put_list(out, multipliers)?;
    out.push(b';')?;
    Ok(())
}

fn put_fault(alloc: Global, out: &mut Vec<u8>, fault: &Fault<LuFault>) -> Result<(), OutOfMemory> {
    match fault {
        Fault::Named(LuFault::Singular { place }) => {
            out.extend_from_slice(format!(in alloc; "singular {place}")?.as_bytes())?;
        }
        Fault::Named(LuFault::Refused(refused)) => put_refusal(out, refused)?,
        Fault::OutOfMemory => return Err(OutOfMemory),
    }
    Ok(())
}

fn put_refusal(out: &mut Vec<u8>, refused: &Refused) -> Result<(), OutOfMemory> {
    out.extend_from_slice(match refused.op {
        Op::Add => b"refused add",
        Op::Sub => b"refused sub",
        Op::Mul => b"refused mul",
        Op::Div => b"refused div",
    })?;
    put_list(out, &[refused.left, refused.right])
}

/// The row that a step kept, and 0 at the places of the steps before it, whose numbers there nothing reads any more.
fn active_part(alloc: Global, step: &Kept, before: &[Kept]) -> Result<Vec<Frac>, OutOfMemory> {
    let mut part = step.kept.as_slice().to_vec(alloc)?;
    for earlier in before {
        if earlier.place < part.len() {
            part[earlier.place] = Frac::zero();
        }
    }
    Ok(part)
}

fn dense_text(
    alloc: Global,
    outcome: &Result<ListOf<Kept>, Fault<LuFault>>,
) -> Result<Vec<u8>, OutOfMemory> {
    let mut out = Vec::new(alloc);
    match outcome {
        Ok(list) => {
            let steps = list.as_slice();
            for (k, step) in steps.iter().enumerate() {
                let kept = active_part(alloc, step, &steps[..k])?;
                let multipliers = step.multipliers.as_slice();
                put_step(alloc, &mut out, step.row, step.place, &kept, multipliers)?;
            }
        }
        Err(fault) => put_fault(alloc, &mut out, fault)?,
    }
    Ok(out)
}

fn sparse_text(
    alloc: Global,
    outcome: &Result<Lu, Fault<LuFault>>,
) -> Result<Vec<u8>, OutOfMemory> {
    let mut out = Vec::new(alloc);
    match outcome {
        Ok(lu) => {
            for step in lu.steps() {
                let kept = step.kept.to_dense(alloc)?;
                let multipliers = step.multipliers.to_dense(alloc)?;
                put_step(alloc, &mut out, step.row, step.place, &kept, &multipliers)?;
            }
        }
        Err(fault) => put_fault(alloc, &mut out, fault)?,
    }
    Ok(out)
}

/// Both eliminations of a matrix, as texts.
fn both_texts(alloc: Global, case: &Case) -> Result<(Vec<u8>, Vec<u8>), Fail> {
    let columns = columns_of(alloc, case.columns, case.size)?;
    let head = all_in_turn(alloc, case.size)?;
    let mut steps: Steps<()> = Steps::new();
    let dense = dense_text(alloc, &eliminate_dense(alloc, &columns, &head))?;
    let sparse = sparse_text(alloc, &eliminate(alloc, &columns, &head, &mut steps))?;
    Ok((dense, sparse))
}

/// Do both eliminations of each matrix come to what is due?
fn agree(rt: &impl Abort, alloc: Global, cases: &[Case]) -> Result<(), Fail> {
    for case in cases {
        let (dense, sparse) = both_texts(alloc, case)?;
        assert_eq!(rt;
            dense.as_slice(),
            case.due.as_bytes(),
            "dense, {}",
            case.due
        );
        assert_eq!(rt;
            sparse.as_slice(),
            case.due.as_bytes(),
            "sparse, {}",
            case.due
        );
    }
    Ok(())
}

#[test]
fn both_agree_on_worked_matrices(rt: HostRuntime) -> Result<(), Fail> {
    agree(&rt, rt.alloc(), WORKED.as_slice())
}

#[test]
fn both_agree_on_drawn_matrices(rt: HostRuntime) -> Result<(), Fail> {
    agree(&rt, rt.alloc(), FIRST.as_slice())?;
    agree(&rt, rt.alloc(), SECOND.as_slice())
}
