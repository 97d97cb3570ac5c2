//! The lines of each event and the words of each refused operation. Every expected text is worked out from the
//! format by hand.

use crate::{
    Event, ListTeller, Mode, Move, Place, Record, Spot, TellFailed, Teller, print_event,
    push_event, push_place,
};
use pami_frac::{Bounds, Fault, Frac, Op, Refused};
use pami_model::{Builder, Model};
use pami_vec::{PlaceList, Side, Stand};
use std::test::Fail;

/// The fraction, for numbers that make one.
fn frac(numerator: i128, denominator: i128) -> Frac {
    match Frac::new(numerator, denominator) {
        Ok(value) => value,
        Err(_) => Frac::zero(),
    }
}

/// Two rows, three columns and four stored entries.
fn model(rt: &HostRuntime) -> Result<Model, Fail> {
    let mut builder = Builder::new(rt.alloc()).ok().ok_or("a builder")?;
    let free = Bounds {
        low: None,
        high: None,
    };
    for name in [b"cap".as_slice(), b"r 2".as_slice()] {
        builder.add_row(name, free).ok().ok_or("a row")?;
    }
    for name in [b"a".as_slice(), b"b2".as_slice(), b"c".as_slice()] {
        builder.add_column(name).ok().ok_or("a column")?;
    }
    for (column, row) in [(0, 0), (0, 1), (1, 0), (2, 1)] {
        if column < builder.column_count() && row < builder.row_count() {
            builder
                .add_entry(column, row, frac(1, 2))
                .ok()
                .ok_or("an entry")?;
        }
    }
    Ok(builder.finish().ok().ok_or("a model")?)
}

/// A refused quotient of 1/3 by -7 in this script.
fn refused(task: Spot) -> Place {
    Place {
        task,
        refused: Refused {
            op: Op::Div,
            left: frac(1, 3),
            right: frac(-7, 1),
        },
    }
}

/// A major of these places and moves.
fn major(
    rt: &HostRuntime,
    number: u64,
    mode: Mode,
    chosen: &[u32],
    moves: &[Move],
) -> Result<Event, Fail> {
    Ok(Event::Major {
        number,
        mode,
        chosen: PlaceList::from_vec(chosen.to_vec(rt.alloc())?),
        moves: Record::from_vec(moves.to_vec(rt.alloc())?),
    })
}

#[test]
fn events_have_their_lines(rt: HostRuntime) -> Result<(), Fail> {
    let model = model(&rt)?;
    let chosen = major(&rt, 12, Mode::Full, &[1, 0, 255], &[])?;
    let alone = major(&rt, 18446744073709551615, Mode::Single, &[7], &[])?;
    let none = major(&rt, 1, Mode::Single, &[], &[])?;
    let back = Event::Rollback {
        number: 3,
        place: refused(Spot::Reach { minor: 1, place: 4 }),
    };
    let cases = [
        (&Event::Header, b"pami 1\nmodel 2 3 4\n".as_slice()),
        (&Event::Phase(1), b"phase 1\n".as_slice()),
        (&Event::Phase(2), b"phase 2\n".as_slice()),
        (&chosen, b"major 12 full 1 0 255\n".as_slice()),
        (&alone, b"major 18446744073709551615 single 7\n".as_slice()),
        (&none, b"major 1 single\n".as_slice()),
        (&back, b"rollback 3 reach-1-4 div 1/3 -7\n".as_slice()),
    ];
    for (event, wanted) in cases {
        let lines = print_event(rt.alloc(), &model, event)?;
        assert_eq!(rt; lines.as_slice(), wanted);
    }
    Ok(())
}

#[test]
fn moves_have_their_lines(rt: HostRuntime) -> Result<(), Fail> {
    let model = model(&rt)?;
    let moves = [
        Move::Dropped { place: 1 },
        Move::Flipped {
            variable: 1,
            stand: Stand::Upper,
        },
        Move::Flipped {
            variable: 4,
            stand: Stand::Lower,
        },
        Move::Pivoted {
            count: 1,
            place: 0,
            leaving: 3,
            side: Side::Below,
            entering: 2,
            tau: frac(75, 53),
        },
        Move::Pivoted {
            count: 2,
            place: 1,
            leaving: 0,
            side: Side::Above,
            entering: 4,
            tau: Frac::zero(),
        },
        Move::Stuck {
            place: 1,
            leaving: 5,
            side: Side::Above,
        },
    ];
    let event = major(&rt, 2, Mode::Full, &[0, 1], moves.as_slice())?;
    let mut out = Vec::new(rt.alloc());
    push_event(&mut out, &model, &Event::Phase(2))?;
    push_event(&mut out, &model, &event)?;
    assert_eq!(rt;
        out.as_slice(),
        b"phase 2\nmajor 2 full 0 1\ndrop 1\nflip x:b2 U\nflip r:r 2 L\npivot 1 0 r:cap L x:c 75/53\npivot 2 1 x:a U r:r 2 0\nnone 1 -\n".as_slice()
    );
    Ok(())
}

#[test]
fn refused_operations_have_their_words(rt: HostRuntime) -> Result<(), Fail> {
    let cases = [
        (Spot::Start, b" start div 1/3 -7".as_slice()),
        (Spot::Choose, b" choose div 1/3 -7".as_slice()),
        (Spot::Factor, b" factor div 1/3 -7".as_slice()),
        (
            Spot::Backward { place: 2 },
            b" backward-2 div 1/3 -7".as_slice(),
        ),
        (Spot::Row { minor: 1 }, b" row-1 div 1/3 -7".as_slice()),
        (
            Spot::Price { minor: 1, slice: 0 },
            b" price-1-0 div 1/3 -7".as_slice(),
        ),
        (Spot::Ratio { minor: 3 }, b" ratio-3 div 1/3 -7".as_slice()),
        (Spot::Step { minor: 4 }, b" step-4 div 1/3 -7".as_slice()),
        (
            Spot::Reach { minor: 5, place: 6 },
            b" reach-5-6 div 1/3 -7".as_slice(),
        ),
        (
            Spot::Shift { minor: 7, slice: 8 },
            b" shift-7-8 div 1/3 -7".as_slice(),
        ),
        (
            Spot::Column { minor: 9 },
            b" column-9 div 1/3 -7".as_slice(),
        ),
        (Spot::Flips, b" flips div 1/3 -7".as_slice()),
        (
            Spot::Transform { minor: 10 },
            b" transform-10 div 1/3 -7".as_slice(),
        ),
        (Spot::Values, b" values div 1/3 -7".as_slice()),
        (Spot::Switch, b" switch div 1/3 -7".as_slice()),
    ];
    for (task, wanted) in cases {
        let mut out = Vec::new(rt.alloc());
        push_place(&mut out, &refused(task))?;
        assert_eq!(rt; out.as_slice(), wanted);
    }
    let operations = [
        (Op::Add, b" add 1 -1/2".as_slice()),
        (Op::Sub, b" sub 1 -1/2".as_slice()),
        (Op::Mul, b" mul 1 -1/2".as_slice()),
        (Op::Div, b" div 1 -1/2".as_slice()),
    ];
    for (op, wanted) in operations {
        let mut out = Vec::new(rt.alloc());
        let place = Place {
            task: Spot::Flips,
            refused: Refused {
                op,
                left: Frac::one(),
                right: frac(-1, 2),
            },
        };
        push_place(&mut out, &place)?;
        assert_eq!(rt; &out.as_slice()[6..], wanted);
    }
    Ok(())
}

/// Counts its events, and fails at one of them.
#[derive(Debug, Drop)]
struct FailingTeller {
    calls: u64,
    fails_at: u64,
    faults: u64,
}

impl Teller for FailingTeller {
    ghost use Rattle.std.specs.Prelude.{◌≡◌, length};

    ghost stands = { λ t events. length events ≡ t.calls };

    ghost stopped = { λ t events. length events ≡ t.calls };

    ghost faults = { λ t. t.faults };

    fn tell(&mut self, event: &Event) -> Result<(), Fault<TellFailed>> {
        let _told = event;
        if self.calls == u64::MAX || self.faults == u64::MAX {
            return Err(Fault::OutOfMemory);
        }
        self.calls += 1;
        if self.calls == self.fails_at {
            self.faults += 1;
            return Err(Fault::Named(TellFailed));
        }
        Ok(())
    }
}

/// Tells the first events of a run.
fn tell_three<T: Teller>(teller: &mut T) -> Result<(), Fault<TellFailed>> {
    teller.tell(&Event::Header)?;
    teller.tell(&Event::Phase(1))?;
    teller.tell(&Event::Phase(2))
}

#[test]
fn tellers_keep_or_fail(rt: HostRuntime) -> Result<(), Fail> {
    let mut list = ListTeller::new(rt.alloc()).ok().ok_or("a teller")?;
    assert!(rt; tell_three(&mut list).is_ok());
    assert_eq!(rt; list.events().len(), 3);
    let mut failing = FailingTeller {
        calls: 0,
        fails_at: 2,
        faults: 0,
    };
    assert!(rt; matches!(tell_three(&mut failing), Err(Fault::Named(TellFailed))));
    assert_eq!(rt; failing.calls, 2);
    assert_eq!(rt; failing.faults, 1);
    Ok(())
}
