//! Eliminations of matrices with three rows. The wanted steps were worked out by a program of its own over unbounded
//! fractions, one operation after the other, and their solutions were put into the systems.

ghost use Rattle.std.specs.Prelude.{◌≡◌, length, IfOk};
ghost use Rattle.pami_script.specs.Dense.{Rising};

use crate::{Lu, LuFault, SparseStep, Steps, eliminate};
use pami_frac::{Entry, Fault, Frac, Op, OutOfMemory, Refused};
use pami_vec::SpVec;
use std::alloc::Global;
use std::test::Fail;

const MAX: i128 = i128::MAX;

fn whole(value: i128) -> Frac {
    match Frac::new(value, 1) {
        Ok(value) => value,
        Err(_) => Frac::zero(),
    }
}

/// The entries of three members, zeros too.
fn three(values: [i128; 3]) -> [Entry; 3]
    ensures { Rising 0 3 result }
{
    [
        Entry {
            place: 0,
            value: whole(values[0]),
        },
        Entry {
            place: 1,
            value: whole(values[1]),
        },
        Entry {
            place: 2,
            value: whole(values[2]),
        },
    ]
}

fn column(alloc: Global, values: [i128; 3]) -> Result<SpVec, OutOfMemory>
    ensures { IfOk result (λ v. length v ≡ 3) }
{
    SpVec::from_entries(alloc, 3, &three(values))
}

/// A blank and the number, for each.
fn put_list(out: &mut Vec<u8>, list: &[Frac]) -> Result<(), OutOfMemory> {
    for value in list {
        out.push(b' ')?;
        value.append_to(out)?;
    }
    Ok(())
}

/// The same for all members of a vector.
fn put_vector(out: &mut Vec<u8>, vector: &SpVec) -> Result<(), OutOfMemory> {
    for place in 0..vector.len() {
        put_list(out, &[vector.at(place)])?;
    }
    Ok(())
}

/// For each step its row and place, the kept row, and the multipliers.
fn steps_text(alloc: Global, steps: &[SparseStep]) -> Result<Vec<u8>, OutOfMemory> {
    let mut out = Vec::new(alloc);
    for step in steps {
        out.extend_from_slice(format!(in alloc; "{} {} |", step.row, step.place)?.as_bytes())?;
        put_vector(&mut out, &step.kept)?;
        out.extend_from_slice(b" |")?;
        put_vector(&mut out, &step.multipliers)?;
        out.push(b';')?;
    }
    Ok(out)
}

fn refusal_text(alloc: Global, refused: &Refused) -> Result<Vec<u8>, OutOfMemory> {
    let mut out = Vec::new(alloc);
    out.extend_from_slice(match refused.op {
        Op::Add => b"refused Add",
        Op::Sub => b"refused Sub",
        Op::Mul => b"refused Mul",
        Op::Div => b"refused Div",
    })?;
    put_list(&mut out, &[refused.left, refused.right])?;
    Ok(out)
}

fn fault_text(alloc: Global, fault: &LuFault) -> Result<Vec<u8>, OutOfMemory> {
    match fault {
        LuFault::Singular { place } => {
            let mut out = Vec::new(alloc);
            out.extend_from_slice(format!(in alloc; "singular {place}")?.as_bytes())?;
            Ok(out)
        }
        LuFault::Refused(refused) => refusal_text(alloc, refused),
    }
}

fn outcome_text(
    alloc: Global,
    outcome: &Result<Lu, Fault<LuFault>>,
) -> Result<Vec<u8>, OutOfMemory> {
    match outcome {
        Ok(lu) => steps_text(alloc, lu.steps()),
        Err(Fault::Named(fault)) => fault_text(alloc, fault),
        Err(Fault::OutOfMemory) => Err(OutOfMemory),
    }
}

/// The elimination of these three columns.
fn eliminated(alloc: Global, columns: [[i128; 3]; 3]) -> Result<Vec<u8>, OutOfMemory> {
    let mut steps: Steps<()> = Steps::new();
    let first = column(alloc, columns[0])?;
    let second = column(alloc, columns[1])?;
    let third = column(alloc, columns[2])?;
    outcome_text(
        alloc,
        &eliminate(alloc, &[first, second, third], &[0, 1, 2], &mut steps),
    )
}

#[test]
fn eliminations(rt: HostRuntime) -> Result<(), Fail> {
    let rows = [
        (
            [[1, 0, 0], [0, 1, 0], [0, 0, 1]],
            "0 0 | 1 0 0 | 0 0 0;1 1 | 0 1 0 | 0 0 0;2 2 | 0 0 1 | 0 0 0;",
        ),
        (
            [[0, 0, 1], [1, 0, 0], [0, 1, 0]],
            "2 0 | 1 0 0 | 0 0 0;0 1 | 0 1 0 | 0 0 0;1 2 | 0 0 1 | 0 0 0;",
        ),
        (
            [[2, 0, 0], [0, -3, 0], [0, 0, 5]],
            "0 0 | 2 0 0 | 0 0 0;1 1 | 0 -3 0 | 0 0 0;2 2 | 0 0 5 | 0 0 0;",
        ),
        (
            [[1, 2, 3], [0, 1, 4], [5, 6, 0]],
            "2 1 | 3 4 0 | 0 1/4 0;0 0 | 1 0 5 | 0 5/4 0;1 2 | 0 0 -1/4 | 0 0 0;",
        ),
        (
            [[2, 1, 1], [1, 3, 2], [1, 0, 0]],
            "0 2 | 2 1 1 | 0 0 0;1 0 | 1 3 0 | 0 0 1;2 1 | 0 -1 0 | 0 0 0;",
        ),
        (
            [[1, 1, 1], [1, 2, 3], [1, 4, 9]],
            "0 0 | 1 1 1 | 0 1 1;1 1 | 0 1 3 | 0 0 2;2 2 | 0 0 2 | 0 0 0;",
        ),
        (
            [[4, -2, 1], [-2, 4, -2], [1, -2, 4]],
            "0 0 | 4 -2 1 | 0 -1/2 1/4;1 1 | 0 3 -3/2 | 0 0 -1/2;2 2 | 0 0 3 | 0 0 0;",
        ),
        (
            [[0, 2, 0], [3, 0, 7], [0, 5, 11]],
            "1 0 | 2 0 5 | 0 0 0;0 1 | 0 3 0 | 0 0 7/3;2 2 | 0 0 11 | 0 0 0;",
        ),
        (
            [[1, 1, 0], [0, 1, 1], [1, 0, 1]],
            "0 0 | 1 0 1 | 0 1 0;1 1 | 0 1 -1 | 0 0 1;2 2 | 0 0 2 | 0 0 0;",
        ),
        (
            [[3, 1, 2], [0, 0, 4], [7, 5, 6]],
            "2 1 | 2 4 6 | 0 0 0;0 0 | 3 0 7 | 0 1/3 0;1 2 | 0 0 8/3 | 0 0 0;",
        ),
        (
            [[-1, 0, 2], [0, -1, 3], [0, 0, -1]],
            "0 0 | -1 0 0 | 0 0 -2;1 1 | 0 -1 0 | 0 0 -3;2 2 | 0 0 -1 | 0 0 0;",
        ),
        (
            [[6, 3, 2], [4, 3, 5], [2, 7, 1]],
            "0 0 | 6 4 2 | 0 1/2 1/3;1 1 | 0 1 6 | 0 0 11/3;2 2 | 0 0 -65/3 | 0 0 0;",
        ),
        (
            [[0, 1, 1], [1, 0, 1], [1, 1, 0]],
            "1 0 | 1 0 1 | 0 0 1;0 1 | 0 1 1 | 0 0 1;2 2 | 0 0 -2 | 0 0 0;",
        ),
        (
            [
                [1_000_000_000_000_000_000, 1, 0],
                [1, 1_000_000_000_000_000_000, 1],
                [0, 1, 1_000_000_000_000_000_000],
            ],
            "refused Sub 1000000000000000000 1000000000000000000/999999999999999999999999999999999999",
        ),
        (
            [[1, 2, 2], [2, 1, 2], [2, 2, 1]],
            "0 0 | 1 2 2 | 0 2 2;1 1 | 0 -3 -2 | 0 0 2/3;2 2 | 0 0 -5/3 | 0 0 0;",
        ),
        (
            [[5, 0, 0], [8, 13, 0], [21, 34, 55]],
            "0 0 | 5 8 21 | 0 0 0;1 1 | 0 13 34 | 0 0 0;2 2 | 0 0 55 | 0 0 0;",
        ),
        ([[0, 0, 0], [1, 0, 0], [0, 1, 0]], "singular 0"),
        ([[1, 0, 0], [0, 0, 0], [0, 1, 0]], "singular 1"),
        ([[1, 0, 0], [0, 1, 0], [0, 0, 0]], "singular 2"),
        ([[1, 2, 3], [4, 5, 6], [7, 8, 9]], "singular 2"),
        ([[1, 1, 0], [1, 1, 0], [0, 0, 1]], "singular 1"),
        ([[1, 2, 0], [0, 0, 0], [0, 0, 0]], "singular 1"),
        ([[0, 0, 0], [0, 0, 0], [0, 0, 0]], "singular 0"),
        ([[2, 4, 6], [1, 2, 3], [0, 1, 1]], "singular 1"),
        (
            [[MAX, 3, 0], [MAX - 1, MAX, 0], [0, 0, 1]],
            "refused Mul 3/170141183460469231731687303715884105727 170141183460469231731687303715884105726",
        ),
        (
            [[3, MAX, 1], [MAX, 7, 0], [1, 0, 2]],
            "refused Mul 170141183460469231731687303715884105727/7 170141183460469231731687303715884105727",
        ),
        (
            [[1, MAX, 1], [2, 3, 1], [4, -MAX, 5]],
            "refused Mul 170141183460469231731687303715884105727 2",
        ),
        (
            [[3, 2, 0], [1, MAX, 0], [0, 0, 1]],
            "refused Sub 170141183460469231731687303715884105727 2/3",
        ),
    ];
    for (columns, wanted) in rows {
        let text = eliminated(rt.alloc(), columns)?;
        assert_eq!(rt; text.as_slice(), wanted.as_bytes(), "at {wanted}");
    }
    Ok(())
}
