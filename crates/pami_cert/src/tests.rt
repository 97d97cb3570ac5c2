//! Texts of certificates: what is read of them, what is printed, and the first faults that the format works out.

use crate::{
    Cert, CertFault, CertKind, certificate_or_fault, not_certificate_and_fault, one_certificate,
    one_first_fault, print_cert, printed_texts_are_certificates, read_cert,
};
use pami_frac::{Bounds, Fault, Frac};
use pami_model::{BYTE_LIMIT, Builder, Model};
use std::alloc::{AllocError, Global};
use std::process::Abort;
use std::test::*;

/// A text whose lines end at each `|`.
fn lines(alloc: Global, text: &str) -> Result<Vec<u8>, AllocError> {
    let mut out = Vec::new(alloc);
    for byte in text.as_bytes() {
        out.push(if *byte == b'|' { b'\n' } else { *byte })?;
    }
    Ok(out)
}

fn free() -> Bounds {
    Bounds {
        low: None,
        high: None,
    }
}

/// The columns x and y and the rows c1 and c2.
fn model(alloc: Global) -> Option<Model> {
    let mut builder = Builder::new(alloc).ok()?;
    builder.add_row(b"c1", free()).ok()?;
    builder.add_row(b"c2", free()).ok()?;
    builder.add_column(b"x").ok()?;
    builder.add_column(b"y").ok()?;
    builder.finish().ok()
}

/// The first fault of a text, where it is refused.
fn fault_of(read: Result<Cert, Fault<CertFault>>) -> Option<CertFault> {
    match read {
        Err(Fault::Named(fault)) => Some(fault),
        Err(Fault::OutOfMemory) => None,
        Ok(_) => None,
    }
}

/// The text of the certificate alone, without what stands around it.
fn reprinted(alloc: Global, bytes: &[u8], model: &Model) -> Result<Vec<u8>, Fault<CertFault>> {
    let cert = read_cert(alloc, bytes, model)?;
    Ok(print_cert(alloc, model, &cert)?)
}

/// Whether each text is refused with this line and this kind.
fn refused(rt: &impl Abort, alloc: Global, rows: &[(&str, u32, CertKind)]) -> Result<(), Fail> {
    let model = model(alloc).ok_or("a model")?;
    for (text, line, kind) in rows {
        let bytes = lines(alloc, text)?;
        let found = fault_of(read_cert(alloc, bytes.as_slice(), &model));
        assert_eq!(rt;
            found,
            Some(CertFault {
                line: *line,
                kind: *kind
            }),
            "{text}"
        );
    }
    Ok(())
}

#[test]
fn a_text_is_read_and_printed(rt: HostRuntime) -> Result<(), Fail> {
    let model = model(rt.alloc()).ok_or("a model")?;
    let best = "certificate 1 optimal|objective 7/2|x x 1/2 0|x y 0 3|r c1 -5 0|r c2 12 -1/3|end|";
    let wide =
        "certificate 1 optimal|objective wide|x x -170141183460469231731687303715884105727/2 0|x y 0 0|r c1 0 0|r c2 0 1/170141183460469231731687303715884105727|end|";
    let texts = [
        (best, best),
        (wide, wide),
        (
            "certificate 1 infeasible|r c1 1|r c2 -1|end|",
            "certificate 1 infeasible|r c1 1|r c2 -1|end|",
        ),
        (
            "certificate 1 dual-infeasible|x x 1|x y 0|r c1 1|r c2 0|end|",
            "certificate 1 dual-infeasible|x x 1|x y 0|r c1 1|r c2 0|end|",
        ),
        // Other lines in front and behind, a last line without its end, and a carriage return in front of an end.
        (
            "pami 1|certificate 1| certificate 1 x|certificate 2 optimal|certificate 1 infeasible|r c1 0|r c2 0|end|end|certificate 1 x",
            "certificate 1 infeasible|r c1 0|r c2 0|end|",
        ),
        (
            "certificate 1 infeasible\r|r c1 0\r|r c2 0|end",
            "certificate 1 infeasible|r c1 0|r c2 0|end|",
        ),
    ];
    for (text, printed) in texts {
        let bytes = lines(rt.alloc(), text)?;
        let cert = read_cert(rt.alloc(), bytes.as_slice(), &model)
            .ok()
            .ok_or("a certificate")?;
        let out = print_cert(rt.alloc(), &model, &cert).ok().ok_or("a text")?;
        assert!(rt;
            out.as_slice() == lines(rt.alloc(), printed)?.as_slice(),
            "{text}"
        );
    }
    Ok(())
}

#[test]
fn each_number_has_its_list(rt: HostRuntime) -> Result<(), Fail> {
    let model = model(rt.alloc()).ok_or("a model")?;
    let text = "certificate 1 optimal|objective 9|x x 1 2|x y 3 4|r c1 5 6|r c2 7 8|end|";
    let bytes = lines(rt.alloc(), text)?;
    let whole = |n| Frac::new(n, 1).ok();
    match read_cert(rt.alloc(), bytes.as_slice(), &model) {
        Ok(
            Cert::Optimal {
                objective,
                x,
                d,
                r,
                y,
            },
        ) => {
            assert_eq!(rt; objective, whole(9));
            assert_eq!(rt; x.as_slice().get(1).copied(), whole(3));
            assert_eq!(rt; d.as_slice().get(0).copied(), whole(2));
            assert_eq!(rt; r.as_slice().get(1).copied(), whole(7));
            assert_eq!(rt; y.as_slice().get(0).copied(), whole(6));
        }
        _ => return Err("a certificate".into()),
    }
    Ok(())
}

#[test]
fn lines_that_should_begin_or_end_one(rt: HostRuntime) -> Result<(), Fail> {
    refused(
        &rt,
        rt.alloc(),
        [
            ("", 1, CertKind::Absent),
            ("|", 2, CertKind::Absent),
            ("certificate 1|certificate  1 optimal", 3, CertKind::Absent),
            (
                "certificate 2 optimal|Certificate 1 optimal|",
                3,
                CertKind::Absent,
            ),
            ("answer optimal|certificate 1 |", 2, CertKind::Word),
            (
                "certificate 1 best|certificate 1 infeasible|",
                1,
                CertKind::Word,
            ),
            ("certificate 1 optimal |", 1, CertKind::Word),
            ("certificate 1  optimal|", 1, CertKind::Word),
            ("certificate 1 unbounded|", 1, CertKind::Word),
            ("certificate 1 optimal|", 2, CertKind::EndMissing),
            ("certificate 1 infeasible", 2, CertKind::EndMissing),
            ("certificate 1 infeasible|r c1 1|", 3, CertKind::EndMissing),
            (
                "|certificate 1 infeasible|r c1 1|r c2 0",
                5,
                CertKind::EndMissing,
            ),
            (
                "certificate 1 infeasible|r c1 1|r c2 0|end now",
                4,
                CertKind::Word,
            ),
            (
                "certificate 1 infeasible|r c1 1|r c2 0||end",
                4,
                CertKind::Word,
            ),
            (
                "certificate 1 infeasible|r c1 1|r c2 0|end\r",
                4,
                CertKind::Word,
            ),
            (
                "certificate 1 infeasible|r c1 1|r c2 0|r c2 0",
                4,
                CertKind::Word,
            ),
        ]
        .as_slice(),
    )
}

#[test]
fn words_names_and_numbers(rt: HostRuntime) -> Result<(), Fail> {
    refused(
        &rt,
        rt.alloc(),
        [
            ("certificate 1 optimal|objective|", 2, CertKind::Word),
            ("certificate 1 optimal|objective 1 2|", 2, CertKind::Word),
            ("certificate 1 optimal|goal x|", 2, CertKind::Word),
            ("certificate 1 optimal|objective Wide|", 2, CertKind::Number),
            (
                "certificate 1 optimal|objective wide|x x 1|",
                3,
                CertKind::Word,
            ),
            (
                "certificate 1 optimal|objective wide|x z 4 0|",
                3,
                CertKind::Name,
            ),
            (
                "certificate 1 optimal|objective wide|x x 4 0.5|",
                3,
                CertKind::Number,
            ),
            (
                "certificate 1 optimal|objective wide|x x 0 0|x y 0 0|x c1 1 1",
                5,
                CertKind::Word,
            ),
            ("certificate 1 dual-infeasible|r c1 1|", 2, CertKind::Word),
            ("certificate 1 infeasible|r c2 0|", 2, CertKind::Name),
            ("certificate 1 infeasible|r c2 x|", 2, CertKind::Name),
            ("certificate 1 infeasible|x c2 x|", 2, CertKind::Word),
            ("certificate 1 infeasible|r c2 1 2|", 2, CertKind::Word),
            ("certificate 1 infeasible|r c1  1|", 2, CertKind::Word),
            ("certificate 1 infeasible|r  1|", 2, CertKind::Name),
            ("certificate 1 infeasible|r c1 |", 2, CertKind::Number),
            ("certificate 1 infeasible|r c1 0/5|", 2, CertKind::Number),
            ("certificate 1 infeasible|r c1 -0|", 2, CertKind::Number),
            ("certificate 1 infeasible|r c1 1/1|", 2, CertKind::Number),
            ("certificate 1 infeasible|r c1 2/4|", 2, CertKind::Number),
            ("certificate 1 infeasible|r c1 +1|", 2, CertKind::Number),
            ("certificate 1 infeasible|r c1 01|", 2, CertKind::Number),
            ("certificate 1 infeasible|r c1 1e2|", 2, CertKind::Number),
            (
                "certificate 1 infeasible|r c1 170141183460469231731687303715884105728|",
                2,
                CertKind::Number,
            ),
        ]
        .as_slice(),
    )
}

#[test]
fn a_text_past_the_limit(rt: HostRuntime) -> Result<(), Fail> {
    let model = model(rt.alloc()).ok_or("a model")?;
    let mut text = vec![in rt.alloc(); b' '; BYTE_LIMIT]?;
    let found = fault_of(read_cert(rt.alloc(), text.as_slice(), &model));
    assert_eq!(rt;
        found,
        Some(CertFault {
            line: 2,
            kind: CertKind::Absent
        })
    );
    text.push(b'\n')?;
    let found = fault_of(read_cert(rt.alloc(), text.as_slice(), &model));
    assert_eq!(rt;
        found,
        Some(CertFault {
            line: 0,
            kind: CertKind::TooLong
        })
    );
    Ok(())
}

#[test]
fn kinds_are_told_by_their_words(rt: HostRuntime) {
    let kinds = [
        (CertKind::Absent, b"none".as_slice()),
        (CertKind::Word, b"word".as_slice()),
        (CertKind::Name, b"name".as_slice()),
        (CertKind::Number, b"number".as_slice()),
        (CertKind::EndMissing, b"end-missing".as_slice()),
        (CertKind::TooLong, b"too-long".as_slice()),
    ];
    for (kind, word) in kinds {
        assert!(rt; kind.word() == word);
    }
}

#[test]
fn laws_return(_rt: HostRuntime) {
    one_certificate();
    one_first_fault();
    certificate_or_fault();
    not_certificate_and_fault();
    printed_texts_are_certificates();
}
