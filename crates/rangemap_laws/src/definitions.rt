//! What the definitions say of small lists, so that a reader can compare them with what is meant.
ghost use Rattle.std.specs.Prelude.{◌≡◌, ◌∷◌, [], ℕ, Some as SomeWord, None as NoneWord, codes, nat_eq};
ghost use Rattle.std.specs.Ordering.{nat_cmp};
ghost use Rattle.std.specs.declared.cmp.Ordering.TheVariants.{Equal as EqualWord, Less as LessWord};
ghost use Rattle.rangemap_core.specs.ListOrder.{pairs_cmp, ranges_cmp};
ghost use Rattle.rangemap_core.specs.Ranges.{AreGaps, IsCanonOf, IsCanonical, covering, erase, half_open, overlapped, override, value_at};
ghost use Rattle.rangemap_formats.specs.Json.{IsForm, IsReading, RefusesToRead, list_of, map_entry, map_reader, map_writer, set_entry, set_writer};
ghost use Rattle.rangemap_formats.specs.Texts.{plain_map, plain_set};
ghost use Rattle.rangemap_formats.specs.declared.json.Form.TheVariants.{Any as AnyWord, Canonical as CanonicalWord};
ghost use Rattle.rangemap_formats.specs.declared.json.ReadError.TheVariants as read_error;
ghost use Rattle.rangemap_core.specs.Sets.{AreCommon, AreHulls};
ghost use Rattle.rangemap_laws.specs.SmallLists.{bytes, digit, inclusive, iterated, one_pair, range, reads, three_pairs, writes};
ghost use Rattle.serde_json.specs.declared.value.Value.{Value as Json};

/// Which lists of half-open ranges are canonical, what overriding and erasing make of (0..10, 1), and
/// how lists compare. `three_pairs` is (0..3, 1), (3..6, 2), (6..10, 1). No list is canonical whose
/// ranges touch with equal values, overlap, stand in another order or are empty. Lists compare by starts,
/// then ends, then values, and a beginning is less than the whole.
pub fn list_rows()
    ensures apart { IsCanonical (half_open nat_cmp) nat_eq three_pairs }
    ensures touching { ¬ (IsCanonical (half_open nat_cmp) nat_eq ((range 0 5, 1) ∷ (range 5 7, 1) ∷ [])) }
    ensures overlapping { ¬ (IsCanonical (half_open nat_cmp) nat_eq ((range 0 5, 1) ∷ (range 4 7, 2) ∷ [])) }
    ensures unordered { ¬ (IsCanonical (half_open nat_cmp) nat_eq ((range 5 7, 1) ∷ (range 0 5, 2) ∷ [])) }
    ensures empty { ¬ (IsCanonical (half_open nat_cmp) nat_eq ((range 5 5, 1) ∷ [])) }
    ensures reversed { ¬ (IsCanonical (half_open nat_cmp) nat_eq ((range 7 5, 1) ∷ [])) }
    ensures overridden { IsCanonOf (half_open nat_cmp) nat_eq
        (override (half_open nat_cmp) (value_at (half_open nat_cmp) one_pair) (range 3 6) 2)
        three_pairs }
    ensures overridden_back { IsCanonOf (half_open nat_cmp) nat_eq
        (override (half_open nat_cmp) (value_at (half_open nat_cmp) three_pairs) (range 3 6) 1)
        one_pair }
    ensures erased { IsCanonOf (half_open nat_cmp) nat_eq
        (erase (half_open nat_cmp) (value_at (half_open nat_cmp) one_pair) (range 3 6))
        ((range 0 3, 1) ∷ (range 6 10, 1) ∷ []) }
    ensures not_changed { ¬ (IsCanonOf (half_open nat_cmp) nat_eq
        (override (half_open nat_cmp) (value_at (half_open nat_cmp) one_pair) (range 3 6) 2)
        one_pair) }
    ensures starts { pairs_cmp (half_open nat_cmp) nat_cmp
        ((range 0 9, 9) ∷ []) ((range 1 2, 1) ∷ []) ≡ LessWord }
    ensures ends { pairs_cmp (half_open nat_cmp) nat_cmp
        ((range 0 5, 9) ∷ []) ((range 0 6, 1) ∷ []) ≡ LessWord }
    ensures values { pairs_cmp (half_open nat_cmp) nat_cmp
        ((range 0 5, 1) ∷ []) ((range 0 5, 2) ∷ []) ≡ LessWord }
    ensures beginning { pairs_cmp (half_open nat_cmp) nat_cmp [] one_pair ≡ LessWord }
    ensures same { pairs_cmp (half_open nat_cmp) nat_cmp three_pairs three_pairs ≡ EqualWord }
    ensures ranges { ranges_cmp (half_open nat_cmp) (range 0 5 ∷ range 7 8 ∷ []) (range 0 6 ∷ []) ≡ LessWord }
{}

/// Which half-open ranges touch, which keys a range has, which pair covers a key, which pairs a query
/// meets, and the gaps that a list leaves: an empty query within a stored range meets it, and so does a
/// reversed one; one that starts at its end does not; a reversed range has no gaps.
pub fn query_rows()
    ensures touch { (half_open nat_cmp).Touches (range 0 3) (range 3 6) }
    ensures gap { ¬ ((half_open nat_cmp).Touches (range 0 3) (range 4 6)) }
    ensures first_point { covering (half_open nat_cmp) three_pairs 3 ≡ SomeWord (range 3 6, 2) }
    ensures last_point { covering (half_open nat_cmp) three_pairs 9 ≡ SomeWord (range 6 10, 1) }
    ensures end { covering (half_open nat_cmp) three_pairs 10 ≡ NoneWord }
    ensures met { overlapped (half_open nat_cmp) three_pairs (range 1 6)
        ≡ (range 0 3, 1) ∷ (range 3 6, 2) ∷ [] }
    ensures met_by_empty { overlapped (half_open nat_cmp) one_pair (range 5 5) ≡ one_pair }
    ensures met_by_reversed { overlapped (half_open nat_cmp) one_pair (range 7 3) ≡ one_pair }
    ensures beside { overlapped (half_open nat_cmp) one_pair (range 10 12) ≡ [] }
    ensures gaps { AreGaps (half_open nat_cmp)
        (range 1 3 ∷ range 5 7 ∷ []) (range 0 8) (range 0 1 ∷ range 3 5 ∷ range 7 8 ∷ []) }
    ensures touching { AreGaps (half_open nat_cmp) (range 0 2 ∷ range 2 4 ∷ []) (range 0 4) [] }
    ensures reversed { AreGaps (half_open nat_cmp) (range 1 3 ∷ range 5 7 ∷ []) (range 8 0) [] }
{}

/// What closed ranges do, over bytes: two touch where no key lies between, and one that was iterated
/// to its end is empty. Which lists of them are canonical, which pairs a query meets, a reversed one
/// too, and the gaps that they leave: up to the last key, and of a single key.
pub fn closed_rows()
    ensures touch { bytes.Touches (inclusive 0 4) (inclusive 5 9) }
    ensures gap { ¬ (bytes.Touches (inclusive 0 4) (inclusive 6 9)) }
    ensures one_key { bytes.IsNonEmpty (inclusive 7 7) }
    ensures reversed { ¬ (bytes.IsNonEmpty (inclusive 8 7)) }
    ensures exhausted { ¬ (bytes.IsNonEmpty (iterated 0 4)) }
    ensures touching { ¬ (IsCanonical bytes nat_eq ((inclusive 0 4, 1) ∷ (inclusive 5 9, 1) ∷ [])) }
    ensures apart { IsCanonical bytes nat_eq ((inclusive 0 4, 1) ∷ (inclusive 6 9, 1) ∷ []) }
    ensures past_the_keys { ¬ (IsCanonical bytes nat_eq ((inclusive 0 256, 1) ∷ [])) }
    ensures last_point { covering {V = ℕ} bytes ((inclusive 0 9, 1) ∷ []) 9 ≡ SomeWord (inclusive 0 9, 1) }
    ensures met_by_reversed { overlapped {V = ℕ} bytes ((inclusive 3 8, 1) ∷ []) (inclusive 6 4)
        ≡ (inclusive 3 8, 1) ∷ [] }
    ensures beside { overlapped {V = ℕ} bytes ((inclusive 5 8, 1) ∷ []) (inclusive 6 4) ≡ [] }
    ensures gaps { AreGaps bytes
        (inclusive 0 9 ∷ inclusive 250 255 ∷ []) (inclusive 0 255) (inclusive 10 249 ∷ []) }
    ensures gap_of_one_key { AreGaps bytes (inclusive 0 9 ∷ []) (inclusive 10 10) (inclusive 10 10 ∷ []) }
    ensures no_gap { AreGaps bytes (inclusive 0 9 ∷ inclusive 10 255 ∷ []) (inclusive 0 255) [] }
{}

/// Which ranges are the hulls of given ones, and which the parts that two lists have in common: hulls
/// join what overlaps, and ranges that only touch stay apart. The texts of small lists: of a map, of
/// a set, of a set of closed ranges, and of nothing.
pub fn set_and_text_rows()
    ensures hulls { AreHulls (half_open nat_cmp)
        (range 0 2 ∷ range 4 6 ∷ range 5 9 ∷ []) (range 0 2 ∷ range 4 9 ∷ []) }
    ensures touching { AreHulls (half_open nat_cmp)
        (range 0 5 ∷ range 5 10 ∷ []) (range 0 5 ∷ range 5 10 ∷ []) }
    ensures joined { ¬ (AreHulls (half_open nat_cmp) (range 0 5 ∷ range 5 10 ∷ []) (range 0 10 ∷ [])) }
    ensures left_out { ¬ (AreHulls (half_open nat_cmp) (range 0 2 ∷ range 4 6 ∷ []) (range 0 2 ∷ [])) }
    ensures common { AreCommon (half_open nat_cmp)
        (range 0 2 ∷ range 4 6 ∷ []) (range 5 9 ∷ []) (range 5 6 ∷ []) }
    ensures none_common { AreCommon (half_open nat_cmp) (range 0 5 ∷ []) (range 5 9 ∷ []) [] }
    ensures pairs { plain_map (half_open nat_cmp)
        (codes "..") digit digit ((range 0 3, 1) ∷ (range 3 9, 2) ∷ [])
        ≡ codes "{0..3: 1, 3..9: 2}" }
    ensures ranges { plain_set (half_open nat_cmp) (codes "..") digit (range 0 3 ∷ range 4 9 ∷ [])
        ≡ codes "{0..3, 4..9}" }
    ensures closed_ranges { plain_set bytes (codes "..=") digit (inclusive 0 4 ∷ inclusive 6 9 ∷ [])
        ≡ codes "{0..=4, 6..=9}" }
    ensures of_nothing { plain_set (half_open nat_cmp) (codes "..") digit [] ≡ codes "{}" }
{}

/// The JSON form of small lists, where `of` is the part that stands for a number, and what is read of
/// lists of entries. The form of a map is the list of its entries `[[start, end], value]`, of a set
/// that of its entries `[start, end]`, of nothing the empty list; a list that lacks an entry is
/// not its form. With `Form::Any` entries are inserted in order, and with `Form::Canonical` they may
/// neither overlap nor be joined.
pub fn json_rows()
    ensures pairs { (of : ℕ → Json) (v one two : Json)
        → list_of v ≡ SomeWord (one ∷ two ∷ [])
        → map_entry one (of 0) (of 3) (of 1)
        → map_entry two (of 3) (of 9) (of 2)
        → IsForm (half_open nat_cmp) (map_writer (writes of) (writes of))
        ((range 0 3, 1) ∷ (range 3 9, 2) ∷ []) v }
    ensures ranges { (of : ℕ → Json) (v one two : Json)
        → list_of v ≡ SomeWord (one ∷ two ∷ [])
        → set_entry one (of 0) (of 4) (of 0)
        → set_entry two (of 6) (of 9) (of 6)
        → IsForm bytes (set_writer (writes of)) ((inclusive 0 4, tt) ∷ (inclusive 6 9, tt) ∷ []) v }
    ensures of_nothing { (of : ℕ → Json) (v : Json) → list_of v ≡ SomeWord []
        → IsForm (half_open nat_cmp) (set_writer (writes of)) [] v }
    ensures left_out { (of : ℕ → Json) (v : Json) → list_of v ≡ SomeWord []
        → ¬ (IsForm (half_open nat_cmp) (map_writer (writes of) (writes of)) one_pair v) }
    ensures inserted { (of : ℕ → Json) (v one two : Json)
        → list_of v ≡ SomeWord (one ∷ two ∷ [])
        → map_entry one (of 0) (of 10) (of 1)
        → map_entry two (of 3) (of 6) (of 2)
        → IsReading (half_open nat_cmp) (map_reader (reads of) (reads of)) nat_eq AnyWord v three_pairs }
    ensures out_of_order { (of : ℕ → Json) (v one two : Json)
        → list_of v ≡ SomeWord (one ∷ two ∷ [])
        → map_entry one (of 0) (of 10) (of 1)
        → map_entry two (of 3) (of 6) (of 2)
        → RefusesToRead (half_open nat_cmp) (map_reader (reads of) (reads of))
        nat_eq CanonicalWord v (read_error.OutOfOrder 1) }
    ensures uncoalesced { (of : ℕ → Json) (v one two : Json)
        → list_of v ≡ SomeWord (one ∷ two ∷ [])
        → map_entry one (of 0) (of 5) (of 1)
        → map_entry two (of 5) (of 9) (of 1)
        → RefusesToRead (half_open nat_cmp) (map_reader (reads of) (reads of))
        nat_eq CanonicalWord v (read_error.Uncoalesced 1) }
    ensures no_list { (of : ℕ → Json) (v : Json) → list_of v ≡ NoneWord
        → RefusesToRead (half_open nat_cmp) (map_reader (reads of) (reads of))
        nat_eq AnyWord v read_error.NotAList }
{}
