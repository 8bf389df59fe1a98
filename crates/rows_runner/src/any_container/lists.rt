//! What containers hold, as words.

use rangemap::container::Container;
use rangemap_core::key_range::KeyRange;
use rows_text::{Fault, FromEnds, Memory, Word, write_pair, write_range};

/// Appends the pairs of a container.
pub fn write_container<M>(container: &M, out: &mut String) -> Result<(), Fault>
where
    M: Container<Alloc: Memory, Range: FromEnds<Key: Word<M::Alloc>>, Value: Word<M::Alloc>>,
{
    let mut pairs = Vec::new(*out.allocator());
    container.append_all(&mut pairs)?;
    write_pairs::<M::Range, M::Value, M::Alloc>(pairs.as_slice(), out)
}

/// Appends the words of pairs, with commas between them.
pub fn write_pairs<R: KeyRange<Key: Word<A>>, V: Word<A>, A: Copy>(
    pairs: &[(R, V)],
    out: &mut String,
) -> Result<(), Fault> {
    for (place, (range, value)) in pairs.iter().enumerate() {
        if place > 0 {
            out.push_str(", ")?;
        }
        write_pair::<R, V, A>(range, value, out)?;
    }
    Ok(())
}

/// Appends the words of ranges, with commas between them.
pub fn write_ranges<R: KeyRange<Key: Word<A>>, A: Copy>(
    ranges: &[R],
    out: &mut String,
) -> Result<(), Fault> {
    for (place, range) in ranges.iter().enumerate() {
        if place > 0 {
            out.push_str(", ")?;
        }
        write_range::<R, A>(range, out)?;
    }
    Ok(())
}
