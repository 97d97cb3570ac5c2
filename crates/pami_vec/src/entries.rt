//! Entries read side by side, and written one by one.

ghost use Rattle.std.specs.Prelude.{◌≡◌, ◌≤◌, length, drop, IfOk};
ghost use Rattle.pami_script.specs.Dense.{at};
ghost use Rattle.pami_vec.specs.Reads.{first_place, lesser, first_value, rest_after, with_entry};

use pami_frac::{Entry, Frac, OutOfMemory};

/// The value at a place, 0 where there is no entry.
pub fn entry_at(entries: &[Entry], place: u32) -> Frac
    ensures { result ≡ at entries.now place }
{
    for entry in entries {
        if entry.place == place {
            return entry.value;
        }
    }
    Frac::zero()
}

/// The place of the first entry from index `from` on.
pub(crate) fn place_from(entries: &[Entry], from: usize) -> Option<u32>
    ensures { result ≡ first_place (drop from entries.now) }
{
    if from < entries.len() {
        Some(entries[from].place)
    } else {
        None
    }
}

/// The lesser of two places, where there are any.
pub(crate) fn lesser_place(left: Option<u32>, right: Option<u32>) -> Option<u32>
    ensures { result ≡ lesser left right }
{
    match (left, right) {
        (None, other) => other,
        (Some(p), None) => Some(p),
        (Some(p), Some(q)) => { if q < p { Some(q) } else { Some(p) } }
    }
}

/// The value at a place, for entries from index `from` on of which none is below that place.
pub(crate) fn value_from(entries: &[Entry], from: usize, place: u32) -> Frac
    ensures { result ≡ first_value place (drop from entries.now) }
{
    if from < entries.len() && entries[from].place == place {
        return entries[from].value;
    }
    Frac::zero()
}

/// The index past that place.
pub(crate) fn index_after(entries: &[Entry], from: usize, place: u32) -> usize
    ensures { drop result entries.now ≡ rest_after place (drop from entries.now) }
{
    if from < entries.len() && entries[from].place == place {
        return from + 1;
    }
    from
}

/// Puts an entry at the end, unless its value is 0.
///
/// # Errors
///
/// `OutOfMemory` alone.
pub(crate) fn put(out: &mut Vec<Entry>, place: u32, value: Frac) -> Result<(), OutOfMemory>
    ensures { IfOk result (λ _. out.new.items ≡ with_entry out.old.items place value) }
{
    if value.is_zero() {
        return Ok(());
    }
    out.push(Entry { place, value })?;
    Ok(())
}
