//! The text of a fraction.

ghost use Rattle.std.specs.Prelude.{◌≡◌, ◌++◌, length, take, IfOk, IfErr};
ghost use Rattle.pami_frac.specs.Printed.{printed};

use crate::fault::OutOfMemory;
use crate::frac::Frac;
use itoa::Buffer;
use std::alloc::Global;

impl Frac {
    /// The numerator, with a `-` in front where it is below 0, and `/` and the denominator where that isn't 1.
    ///
    /// # Errors
    ///
    /// `OutOfMemory` alone.
    pub fn print(&self, alloc: Global) -> Result<Vec<u8>, OutOfMemory>
        ensures { IfOk result (λ text. text.items ≡ printed self.now) }
    {
        let mut text = Vec::new(alloc);
        self.append_to(&mut text)?;
        Ok(text)
    }

    /// Puts the text that `print` gives at the end of `out`.
    ///
    /// # Errors
    ///
    /// `OutOfMemory` alone; `out` then holds what it did.
    pub fn append_to(&self, out: &mut Vec<u8>) -> Result<(), OutOfMemory>
        ensures text { IfOk result (λ _. out.new.items ≡ out.old.items ++ printed self.now) }
        ensures kept { IfErr result (λ _. out.new.items ≡ out.old.items) }
    {
        let before = out.len();
        match self.append_parts(out) {
            Ok(()) => Ok(()),
            Err(fault) => {
                out.truncate(before);
                Err(fault)
            }
        }
    }

    /// `append_to`, but where memory runs out a part of the text may stand in `out`.
    fn append_parts(&self, out: &mut Vec<u8>) -> Result<(), OutOfMemory>
        ensures text { IfOk result (λ _. out.new.items ≡ out.old.items ++ printed self.now) }
        ensures kept { IfErr result (λ _. take (length out.old.items) out.new.items ≡ out.old.items) }
    {
        let mut digits = Buffer::new();
        let below = self.below();
        out.extend_from_slice(digits.format(self.numerator()).as_bytes())?;
        if below != 1 {
            out.extend_from_slice(b"/")?;
            out.extend_from_slice(digits.format(below).as_bytes())?;
        }
        Ok(())
    }
}
