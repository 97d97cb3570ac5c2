//! The shelf and the sink of the outside itself. They tell no bytes.

ghost use Rattle.std.specs.Prelude.{◌≡◌, [], None};
ghost use Rattle.pami_edge.specs.Outside.{since_open, since_open_none};

use crate::asked::Asked;
use crate::outside::{Failed, Shelf, Sink};
use crate::word::Word;
use std::fs;
use std::io::{Read, Write};
use std::marker::Model;
use std::rt::Files;

/// The files of a runtime, each under its path. An error of the runtime is a fault; a folder may be opened, and the
/// first `take` then fails.
#[derive(Drop)]
pub struct RealShelf<'a, R: Files> {
    runtime: &'a R,
    asked: Asked,
    file: Option<R::File>,
    taken: u64,
    faults: u64,
}

impl<'a, R: Files> Model for RealShelf<'a, R> {
    ghost use Rattle.std.specs.Prelude.{◌≡◌, [], None};
    ghost use Rattle.pami_edge.specs.Outside.{OpenedFiles};

    ghost Value = { OpenedFiles };

    ghost view = { λ s. record { asked = s.asked; taken = s.taken; faults = s.faults } };

    ghost invariant = { λ s. s.asked ≡ [] → (s.file ≡ None) × (s.taken ≡ 0) };
}

impl<'a, R: Files> RealShelf<'a, R> {
    /// The shelf of this runtime. Nothing is open.
    pub fn new(runtime: &'a R) -> RealShelf<'a, R>
        ensures unasked { ⟦<RealShelf<'a, R> as Shelf>⟧.asked result ≡ [] }
        ensures no_faults { ⟦<RealShelf<'a, R> as Shelf>⟧.faults result ≡ 0 }
    {
        RealShelf {
            runtime,
            asked: Asked::new(),
            file: None,
            taken: 0,
            faults: 0,
        }
    }
}

impl<'a, R: Files> Shelf for RealShelf<'a, R> {
    ghost files = { λ _. None };

    ghost rest = { λ _. None };

    ghost asked = { λ s. s.asked };

    ghost faults = { λ s. s.faults };

    ghost taken = { λ s. since_open s.asked 0 s.taken };

    ghost tells = { λ _ told. told };

    ghost unopened = { λ s none. (tt, since_open_none s.asked 0 s.taken none) };

    fn open(&mut self, name: Word) -> Result<(), Failed> {
        self.taken = 0;
        self.file = fs::open(self.runtime, name.as_str()).ok();
        self.asked.push(name);
        if self.file.is_none() {
            self.faults = self.faults.saturating_add(1);
            return Err(Failed);
        }
        Ok(())
    }

    fn take(&mut self, room: &mut [u8]) -> Result<usize, Failed> {
        let Some(file) = &mut self.file else {
            self.taken = self.taken.saturating_add(0);
            return Ok(0);
        };
        match file.read(room) {
            Ok(count) => {
                self.taken = self.taken.saturating_add(count as u64);
                Ok(count)
            }
            Err(_) => {
                self.faults = self.faults.saturating_add(1);
                Err(Failed)
            }
        }
    }
}

/// An output.
#[derive(Drop)]
pub struct RealSink<W> {
    out: W,
    faults: u64,
}

impl<W> Model for RealSink<W> {
    ghost use Rattle.std.specs.Prelude.{ℕ};

    ghost Value = { ℕ };

    ghost view = { λ s. s.faults };
}

impl<W: Write> RealSink<W> {
    /// The sink that writes to this output.
    pub fn new(out: W) -> RealSink<W>
        ensures { ⟦<RealSink<W> as Sink>⟧.faults result ≡ 0 }
    {
        RealSink { out, faults: 0 }
    }
}

impl<W: Write> Sink for RealSink<W> {
    ghost told = { λ _. None };

    ghost faults = { λ faults. faults };

    fn put(&mut self, piece: &[u8]) -> Result<usize, Failed> {
        match self.out.write(piece) {
            Ok(count) if count > 0 || piece.is_empty() => Ok(count),
            _ => {
                self.faults = self.faults.saturating_add(1);
                Err(Failed)
            }
        }
    }
}
