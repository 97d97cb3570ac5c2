//! Whole texts.

ghost use Rattle.std.specs.Prelude.{◌≡◌, ◌⊎◌, ℕ, List, IfOk};
ghost use Rattle.pami_model.specs.declared.fault.FileFault.{FileFault};
ghost use Rattle.pami_model.specs.Contents.{Contents, contents};
ghost use Rattle.pami_model.specs.ModelNames.{HasModelNames};
ghost use Rattle.pami_mps.specs.Mps.{Mps, FirstFault, IsRefused};
ghost use Rattle.pami_mps.specs.Reader.{seen_by_reader, placed_at, IsRead};

use crate::kind::Section;
use crate::reader::Reader;
use pami_edge::lines;
use pami_frac::Fault;
use pami_model::{BYTE_LIMIT, FileFault, FileKind, Model};
use std::alloc::Global;

/// What a reader has gathered as far as ENDATA, and the number of that line.
#[derive(Drop)]
pub(crate) struct Ending {
    pub(crate) reader: Reader,
    pub(crate) line: u32,
}

/// What is wrong with the line of this number.
fn at_line(line: u32, fault: Fault<FileKind>) -> Fault<FileFault>
    ensures { result ≡ placed_at line fault }
{
    match fault {
        Fault::Named(kind) => Fault::Named(FileFault { line, kind }),
        Fault::OutOfMemory => Fault::OutOfMemory,
    }
}

/// Takes the lines as far as ENDATA, one after another.
fn read_lines(alloc: Global, bytes: &[u8]) -> Result<Ending, Fault<FileFault>>
    ensures read { IfOk result (λ e. IsRead bytes.now (seen_by_reader e.reader) e.line) }
    ensures refused { IsRefused bytes.now result }
{
    if bytes.len() > BYTE_LIMIT {
        return Err(Fault::Named(FileFault {
            line: 0,
            kind: FileKind::TooLong,
        }));
    }
    let found = lines(alloc, bytes)?;
    let mut reader = Reader::new(alloc)?;
    let mut number = 0u32;
    for line in found.as_slice() {
        number += 1;
        if let Err(fault) = reader.take_line(alloc, line.of(bytes)) {
            return Err(at_line(number, fault));
        }
        if reader.section == Section::End {
            return Ok(Ending {
                reader,
                line: number,
            });
        }
    }
    Err(Fault::Named(FileFault {
        line: number + 1,
        kind: FileKind::EndMissing,
    }))
}

/// The model that the bytes are an MPS text of. Memory is asked of `alloc`.
///
/// # Errors
///
/// The first fault of the text, exactly where it is a text of no model: the line, counted from 1, and what is wrong
/// with it first after the lines before it. Bounds that are crossed are found at ENDATA. Where ENDATA is missing, the
/// line is the one behind the last; a text of more than 16,777,216 bytes is `TooLong` in line 0. `OutOfMemory` where
/// memory ran out.
pub fn read_mps(alloc: Global, bytes: &[u8]) -> Result<Model, Fault<FileFault>>
    // What is answered is a model of the text.
    ensures accepted { IfOk result (λ m. Mps bytes.now (contents m)) }
    // A named fault is the first fault of the text.
    ensures refused { IsRefused bytes.now result }
{
    let Ending { reader, line } = read_lines(alloc, bytes)?;
    match reader.builder.finish() {
        Ok(model) => Ok(model),
        Err(Fault::Named(_)) => Err(Fault::Named(FileFault {
            line,
            kind: FileKind::Crossed,
        })),
        Err(Fault::OutOfMemory) => Err(Fault::OutOfMemory),
    }
}

/// One text has one model.
pub fn one_model()
    ensures { (bytes : List ℕ) (c d : Contents) → Mps bytes c → Mps bytes d → c ≡ d }
{}

/// One text has one first fault.
pub fn one_fault()
    ensures { (bytes : List ℕ) (f g : FileFault) → FirstFault bytes f → FirstFault bytes g → f ≡ g }
{}

/// A text has a model or a first fault.
pub fn model_or_fault()
    ensures { (bytes : List ℕ) → ((c : Contents) × Mps bytes c) ⊎ ((f : FileFault) × FirstFault bytes f) }
{}

/// No text has both.
pub fn not_both()
    ensures { (bytes : List ℕ) (c : Contents) (f : FileFault) → Mps bytes c → FirstFault bytes f → ⊥ }
{}

/// The names of a text's model are words of it: none is empty, and each byte is above the space.
pub fn names_are_unbroken()
    ensures { (bytes : List ℕ) (c : Contents) → Mps bytes c → HasModelNames c }
{}
