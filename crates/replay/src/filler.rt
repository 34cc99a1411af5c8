// What is lent to a call is all filler before it: bytes and numbers alike, each with their own; and whether what stands behind the
// first of them is still that.
ghost use Rattle.std.specs.Prelude.{◌≡◌, ◌&&◌, length, drop, nat_le};
ghost use Rattle.std.specs.List.{list_all};

// What bytes hold before a call, and what numbers do: two such bytes.
pub const FILLER: u8 = 165;

pub const NUMBER_FILLER: u16 = 42405;

// Whether each item is the one that is named.
pub fn all_are<T: Copy + PartialEq>(item: T, items: &[T]) -> bool
    ensures { result ≡ list_all (λ x. T.eq x item) items.now }
{
    items.iter().all(|x| *x == item)
}

// Whether there are so many items, and filler behind them.
pub fn kept<T: Copy + PartialEq>(filler: T, first: usize, items: &[T]) -> bool
    ensures { result ≡ (nat_le first (length items.now) && list_all (λ x. T.eq x filler) (drop first items.now)) }
{
    first <= items.len() && all_are(filler, &items[first..])
}
