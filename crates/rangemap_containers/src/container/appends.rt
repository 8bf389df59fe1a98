//! Clones of pairs, put behind a vector of the caller's.
//!
//! Items that were appended before a refusal are removed again, so a refused call leaves the vector as
//! it was.
ghost use Rattle.std.specs.Prelude.{◌≡◌, OnErr, OnOk};
ghost use Rattle.rangemap_core.specs.Appends.{AppendsOne};
ghost use Rattle.rangemap_core.specs.Clones.{KeysCloneFaithfully, ValuesCloneFaithfully};
ghost use Rattle.rangemap_core.specs.Ranges.{IsStorable};

use rangemap_core::cursor::Cursor;
use rangemap_core::key_range::KeyRange;
use rangemap_core::kind::Kind;
use rangemap_core::pairs::clone_pair;
use rangemap_core::reader::Reader;
use std::alloc::{AllocError, Allocator};
use std::marker::PhantomData;

/// Appends clones of the pairs that it reads to a vector. It returns `Err` if a clone or the growth of
/// the vector was refused. The vector is then as it was. If there are no pairs, it takes no memory.
pub struct Appending<Q, B>(PhantomData<(Q, B)>);

impl<Q: Kind<R>, R: KeyRange, V: Eq + Clone, B: Allocator> Reader<R, V> for Appending<Q, B> {
    ghost use Rattle.std.specs.Prelude.{◌≡◌, [], IsOk, OnErr, OnOk};
    ghost use Rattle.rangemap_core.specs.Appends.{Appends};
    ghost use Rattle.rangemap_core.specs.Clones.{KeysCloneFaithfully, ValuesCloneFaithfully};
    ghost use Rattle.rangemap_core.specs.Ranges.{IsStorable};
    ghost use Rattle.rangemap_core.specs.engine.Stretch.{Every};

    type State = Vec<(R, V), B>;

    type Answer = Result<(), AllocError>;

    ghost may_read = { λ pairs _. Every (λ pair. IsStorable Q.kind pair.0) pairs
        × KeysCloneFaithfully R.Key.is_clone R.Key.cmp
        × ValuesCloneFaithfully V.is_clone V.eq };

    ghost reads = { λ pairs old result new.
        OnOk result (Appends Q.kind V.eq pairs old.items new.items)
        × OnErr result (new.items ≡ old.items)
        × (pairs ≡ [] → IsOk result × (new.items ≡ old.items)) };

    fn read<C: Cursor<Range = R, Value = V, Given: Drop, GivenValue: Drop>>(
        pairs: C,
        out: &mut Vec<(R, V), B>,
    ) -> Result<(), AllocError> {
        let len = out.len();
        let mut rest = pairs;
        'pairs: while let Some(pair) = rest.take_first() {
            let (range, value) = C::parts(&pair);
            if let Err(error) = append_clone::<Q, R, V, B>(range, value, out) {
                out.truncate(len);
                return Err(error);
            }
        }
        Ok(())
    }
}

// Appends a clone of a stored pair. If a clone or the growth of the vector is refused, the vector is as
// it was.
fn append_clone<Q: Kind<R>, R: KeyRange, V: Eq + Clone, B: Allocator>(
    range: &R,
    value: &V,
    out: &mut Vec<(R, V), B>,
) -> Result<(), AllocError>
    requires stored { IsStorable Q.kind range.now }
    requires faithful_keys { KeysCloneFaithfully R.Key.is_clone R.Key.cmp }
    requires faithful_values { ValuesCloneFaithfully V.is_clone V.eq }
    ensures ok { OnOk result (AppendsOne Q.kind V.eq (range.now, value.now) out.old.items out.new.items) }
    ensures err { OnErr result (out.new.items ≡ out.old.items) }
{
    let copy = clone_pair::<Q, R, V>(range, value)?;
    out.push(copy)?;
    Ok(())
}
