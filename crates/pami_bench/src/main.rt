//! A fixed list of operations on fractions, run as often as asked, for timing.
//!
//! Stands on `pami_frac`. `pami_bench KIND ROUNDS` runs ROUNDS rounds over two pools of 64 fractions of one kind
//! (`small`, `word`, `wide` or `mix`) and prints a checksum of all results and the count of refused operations. A twin
//! in Rust, in `bench/arithmetic`, runs the same list, so both have to print the same line.
#![tactic(auto)]

use pami_frac::{Frac, Refused};
use std::alloc::{AllocError, Global};
use std::rt::Env;
use std::{env, io};

/// How many fractions a pool has.
const POOL: u32 = 64;

/// What numbers the fractions of the pools have.
#[derive(Clone, Copy, Debug, PartialEq, Eq)]
enum Kind {
    /// At most 10 bits.
    Small,
    /// About 60 bits.
    Word,
    /// About 120 bits beside 4 bits.
    Wide,
    /// Zeros, small whole numbers and small fractions, as in a run of the simplex method.
    Mix,
}

fn kind_of(word: &str) -> Option<Kind> {
    match word {
        "small" => Some(Kind::Small),
        "word" => Some(Kind::Word),
        "wide" => Some(Kind::Wide),
        "mix" => Some(Kind::Mix),
        _ => None,
    }
}

/// A stream of numbers that look random: a linear congruence modulo 2^64, of which the upper half is given.
#[derive(Clone, Copy)]
struct Draws {
    state: u64,
}

impl Draws {
    fn next(&mut self) -> i128 {
        self.state = self
            .state
            .wrapping_mul(6_364_136_223_846_793_005)
            .wrapping_add(1_442_695_040_888_963_407);
        i128::from(self.state >> 32)
    }

    /// A number of so many times 30 bits, at least 1.
    fn long(&mut self, parts: u32) -> i128 {
        let mut number: i128 = 1;
        for _ in 0..parts {
            number = number
                .wrapping_mul(1 << 30)
                .wrapping_add(self.next() % (1 << 30));
        }
        number
    }
}

/// The numerator and the denominator of the next fraction; the first pool's have the long part above, the second's below.
fn numbers(kind: Kind, first: bool, draws: &mut Draws) -> (i128, i128) {
    match kind {
        Kind::Small => (draws.next() % 2001 - 1000, draws.next() % 1000 + 1),
        Kind::Word => (draws.long(2).wrapping_sub(1 << 60), draws.long(2)),
        Kind::Wide if first => (draws.long(4).wrapping_sub(1 << 120), draws.next() % 15 + 1),
        Kind::Wide => (draws.next() % 31 - 15, draws.next() % 15 + 1),
        Kind::Mix => match draws.next() % 10 {
            0 | 1 | 2 | 3 => (0, 1),
            4 | 5 | 6 => (draws.next() % 21 - 10, 1),
            _ => (draws.next() % 41 - 20, draws.next() % 12 + 1),
        },
    }
}

fn pool(
    alloc: Global,
    kind: Kind,
    first: bool,
    draws: &mut Draws,
) -> Result<Vec<Frac>, AllocError> {
    let mut pool = Vec::new(alloc);
    for _ in 0..POOL {
        let (above, below) = numbers(kind, first, draws);
        pool.push(Frac::new(above, below).unwrap_or(Frac::one()))?;
    }
    Ok(pool)
}

/// The checksum of results, and how many operations were refused.
#[derive(Clone, Copy)]
struct Tally {
    sum: u128,
    refused: u64,
}

impl Tally {
    fn take(&mut self, outcome: Result<Frac, Refused>) {
        match outcome {
            Ok(value) => {
                self.sum = self
                    .sum
                    .wrapping_mul(31)
                    .wrapping_add(value.numerator().unsigned_abs())
                    .wrapping_add(value.denominator().unsigned_abs());
            }
            Err(_) => self.refused = self.refused.wrapping_add(1),
        }
    }

    /// The four operations of one pair.
    fn operate(&mut self, p: Frac, q: Frac) {
        self.take(p.add(q));
        self.take(p.sub(q));
        self.take(p.mul(q));
        if !q.is_zero() {
            self.take(p.div(q));
        }
    }
}

fn run(first: &[Frac], second: &[Frac], rounds: u32) -> Tally {
    let mut tally = Tally { sum: 0, refused: 0 };
    for round in 0..rounds {
        let turn = (round % POOL) as usize;
        let (front, back) = second.split_at(turn.min(second.len()));
        for (p, q) in first.iter().zip(back.iter().chain(front.iter())) {
            tally.operate(*p, *q);
        }
    }
    tally
}

/// The words after the program's name: a kind, and a count of rounds.
fn asked<R: Env + AllocGlobal>(rt: &R) -> io::Result<Option<(Kind, u32)>> {
    let mut words = env::args(rt)?.skip(1);
    let (Some(kind), Some(rounds)) = (words.next(), words.next()) else {
        return Ok(None);
    };
    Ok(
        match (kind_of(kind.as_str()), rounds.as_str().parse::<u32>()) {
            (Some(kind), Ok(rounds)) => Some((kind, rounds)),
            _ => None,
        },
    )
}

fn main(rt: HostRuntime) -> io::Result<()> {
    let Some((kind, rounds)) = asked(&rt)? else {
        return println!(rt; "usage: pami_bench small|word|wide|mix ROUNDS");
    };
    let mut draws = Draws { state: 1 };
    let first = pool(rt.alloc(), kind, true, &mut draws)?;
    let second = pool(rt.alloc(), kind, false, &mut draws)?;
    let tally = run(first.as_slice(), second.as_slice(), rounds);
    let (sum, refused) = (tally.sum, tally.refused);
    println!(rt; "{sum} {refused}")
}
