//! The sparse vector and its operations.

ghost use Rattle.std.specs.Prelude.{◌≡◌, ◌<◌, ◌^◌, length, IfOk, List};
ghost use Rattle.pami_linear.specs.Lists.{get};
ghost use Rattle.pami_script.specs.Dense.{dense, Rising};
ghost use Rattle.pami_frac.specs.Answers.{FollowsBy};
ghost use Rattle.pami_vec.specs.Entries.{NoZeros, AreEntriesOf};
ghost use Rattle.pami_vec.specs.Scripts.{dot_script, take_times_script, scale_script};

use crate::entries::{entry_at, index_after, lesser_place, place_from, put, value_from};
use pami_frac::{Entry, Fault, Frac, OutOfMemory, Refused};
use std::alloc::Global;
use std::marker::Model;

/// A vector of which the nonzero members are kept, by rising place.
///
/// A contract sees the list of all its members.
#[derive(Debug, Drop)]
pub struct SpVec {
    length: u32,
    entries: Vec<Entry>,
}

impl Model for SpVec {
    ghost use Rattle.std.specs.Prelude.{List};
    ghost use Rattle.std.specs.Coded.{coded_list};
    ghost use Rattle.pami_algebra.specs.Fraction.{Fraction};
    ghost use Rattle.pami_frac.specs.Stored.{fraction_code};
    ghost use Rattle.pami_script.specs.Dense.{dense, Rising};
    ghost use Rattle.pami_vec.specs.Entries.{NoZeros};

    ghost Value = { List Fraction };

    ghost coded = { coded_list fraction_code };

    ghost view = { λ v. dense v.length v.entries.items };

    ghost invariant = { λ v. Rising 0 v.length v.entries.items × NoZeros v.entries.items };
}

impl SpVec {
    /// The vector of this length with these entries.
    fn of(length: u32, entries: Vec<Entry>) -> SpVec
        requires rising { Rising 0 length entries.items }
        requires nonzero { NoZeros entries.items }
        ensures { result ≡ dense length entries.items }
    {
        SpVec { length, entries }
    }

    /// The count of all members.
    pub fn len(&self) -> u32
        ensures { result ≡ length self.now }
    {
        self.length
    }

    /// The members that aren't 0, by rising place.
    pub fn entries(&self) -> &[Entry]
        ensures { AreEntriesOf self.now result.now }
    {
        self.entries.as_slice()
    }

    /// The vector of `length` members that has these values at these places and 0 elsewhere. Entries of value 0 are
    /// left out.
    ///
    /// # Errors
    ///
    /// `OutOfMemory` alone.
    pub fn from_entries(alloc: Global, length: u32, entries: &[Entry]) -> Result<SpVec, OutOfMemory>
        requires { Rising 0 length entries.now }
        ensures { IfOk result (λ v. v ≡ dense length entries.now) }
    {
        let mut out = Vec::new(alloc);
        for entry in entries {
            put(&mut out, entry.place, entry.value)?;
        }
        Ok(SpVec::of(length, out))
    }

    /// The member at a place.
    pub fn at(&self, place: u32) -> Frac
        requires { place < length self.now }
        ensures { result ≡ get self.now place }
    {
        entry_at(self.entries(), place)
    }

    /// All members, by place, at a cost of the entries and the length.
    ///
    /// # Errors
    ///
    /// `OutOfMemory` alone.
    pub fn to_dense(&self, alloc: Global) -> Result<Vec<Frac>, OutOfMemory>
        ensures { IfOk result (λ members. members.items ≡ self.now) }
    {
        let entries = self.entries();
        let mut members = Vec::new(alloc);
        let mut next = 0;
        for place in 0..self.len() {
            if next < entries.len() && entries[next].place == place {
                members.push(entries[next].value)?;
                next += 1;
            } else {
                members.push(Frac::zero())?;
            }
        }
        Ok(members)
    }

    /// The vector of these members, by place.
    ///
    /// # Errors
    ///
    /// `OutOfMemory` alone.
    pub fn from_dense(alloc: Global, members: &[Frac]) -> Result<SpVec, OutOfMemory>
        requires { length members.now < 2 ^ 32 }
        ensures { IfOk result (λ v. v ≡ members.now) }
    {
        let mut entries = Vec::new(alloc);
        for (k, value) in members.iter().enumerate() {
            entries.push(Entry {
                place: k as u32,
                value: *value,
            })?;
        }
        SpVec::from_entries(alloc, members.len() as u32, &entries)
    }

    /// The sum of the products of members at one place: 0, and then each product added, places ascending, with
    /// `self` left. It takes no memory.
    ///
    /// # Errors
    ///
    /// `Refused` exactly where an operation of this script over all places doesn't fit: the first such.
    pub fn dot(&self, other: &SpVec) -> Result<Frac, Refused>
        requires { length self.now ≡ length other.now }
        ensures { result ≡ dot_script self.now other.now }
    {
        let left = self.entries();
        let right = other.entries();
        let mut total = Frac::zero();
        let mut i = 0;
        let mut j = 0;
        while i < left.len() && j < right.len() {
            let e = left[i];
            let f = right[j];
            if e.place < f.place {
                i += 1;
            } else if f.place < e.place {
                j += 1;
            } else {
                let product = e.value.mul(f.value)?;
                total = total.add(product)?;
                i += 1;
                j += 1;
            }
        }
        Ok(total)
    }

    /// `self - k other`, member by member, places ascending: the product first, with `k` left.
    ///
    /// # Errors
    ///
    /// `Named` exactly where an operation of this script over all places doesn't fit: the first such. `OutOfMemory`
    /// where memory runs out.
    pub fn take_times(&self, alloc: Global, k: Frac, other: &SpVec) -> Result<SpVec, Fault<Refused>>
        requires { length self.now ≡ length other.now }
        ensures { FollowsBy (λ v. v) (take_times_script self.now k other.now) result }
    {
        let left = self.entries();
        let right = other.entries();
        let mut out = Vec::new(alloc);
        let mut i = 0;
        let mut j = 0;
        while let Some(place) = lesser_place(place_from(left, i), place_from(right, j)) {
            let product = k.mul(value_from(right, j, place))?;
            let value = value_from(left, i, place).sub(product)?;
            put(&mut out, place, value)?;
            i = index_after(left, i, place);
            j = index_after(right, j, place);
        }
        Ok(SpVec::of(self.len(), out))
    }

    /// `k self`, member by member, places ascending, with `k` left.
    ///
    /// # Errors
    ///
    /// `Named` exactly where a product doesn't fit: the first such. `OutOfMemory` where memory runs out.
    pub fn scale(&self, alloc: Global, k: Frac) -> Result<SpVec, Fault<Refused>>
        ensures { FollowsBy (λ v. v) (scale_script k self.now) result }
    {
        let entries = self.entries();
        let mut out = Vec::new(alloc);
        for entry in entries {
            let product = k.mul(entry.value)?;
            put(&mut out, entry.place, product)?;
        }
        Ok(SpVec::of(self.len(), out))
    }
}
