//! Masks of 64 bits, bit by bit.
ghost use Rattle.std.specs.Prelude.{◌≡◌, ◌≢◌, ℕ, ◌+◌, ◌-◌, ◌<◌, ◌≤◌, ◌%◌, ◌^◌, count_ones};
ghost use Rattle.std.specs.Int.{bit_at};
ghost use Rattle.uriparse_text.specs.Marks.{IsLowest};

/// The place of the lowest bit that is set.
#[inline(always)]
pub fn lowest(m: u64) -> usize
    requires { m ≢ 0 }
    ensures bound { result < 64 }
    ensures set { bit_at m result ≡ 1 }
    ensures below { (k : ℕ) → k < result → bit_at m k ≡ 0 }
{
    m.trailing_zeros() as usize
}

/// The mask without its lowest bit.
#[inline(always)]
pub fn without_lowest(m: u64) -> u64
    requires { m ≢ 0 }
    ensures smaller { result < m }
    ensures cleared { (k : ℕ) → IsLowest m k → bit_at result k ≡ 0 }
    ensures kept { (k j : ℕ) → IsLowest m k → j ≢ k → bit_at result j ≡ bit_at m j }
    ensures no_more { (k : ℕ) → bit_at result k ≡ 1 → bit_at m k ≡ 1 }
{
    m & (m - 1)
}

/// The mask without the bits of the other.
#[inline(always)]
pub fn without(m: u64, other: u64) -> u64
    ensures no_more { (k : ℕ) → bit_at result k ≡ 1 → (bit_at m k ≡ 1) × (bit_at other k ≡ 0) }
    ensures gone { (k : ℕ) → k < 64 → bit_at result k ≡ 0 → bit_at m k ≡ 1 → bit_at other k ≡ 1 }
{
    m & !other
}

/// The place of the highest bit that is set.
#[inline(always)]
pub fn highest(m: u64) -> usize
    requires { m ≢ 0 }
    ensures bound { result < 64 }
    ensures set { bit_at m result ≡ 1 }
    ensures above { (k : ℕ) → result < k → bit_at m k ≡ 0 }
{
    63 - m.leading_zeros() as usize
}

/// The mask without the bits from a place on.
#[inline(always)]
pub fn bits_below(m: u64, offset: usize) -> u64
    requires { offset < 64 }
    ensures kept { (k : ℕ) → k < offset → bit_at result k ≡ bit_at m k }
    ensures gone { (k : ℕ) → offset ≤ k → bit_at result k ≡ 0 }
{
    m % (1 << offset)
}

/// How many bits are set below a place.
#[inline(always)]
pub fn count_below(m: u64, k: usize) -> usize
    requires { k < 64 }
    ensures { result ≡ count_ones (m % 2 ^ k) }
{
    (m % (1 << k)).count_ones() as usize
}

/// The mask shifted down by some bits.
#[inline(always)]
pub(super) fn shifted_down(m: u64, by: usize) -> u64
    requires { by < 64 }
    ensures { (k : ℕ) → bit_at result k ≡ bit_at m (by + k) }
{
    m >> by
}

/// The mask of `len` items, 8 to 16, from the bits of the first eight and then of the last
/// eight.
#[inline(always)]
pub(super) fn joined_ends(m: u64, len: usize) -> u64
    requires least { 8 ≤ len }
    requires most { len ≤ 16 }
    requires small { m < 65536 }
    ensures low { (k : ℕ) → k < 8 → bit_at result k ≡ bit_at m k }
    ensures high { (k : ℕ) → 8 ≤ k → bit_at result k ≡ bit_at m (24 - len + (k - 8)) }
{
    (m >> (24 - len)) * 256 + m % 256
}

/// The mask without each bit that `first` has too, if `later` has the next two.
#[inline(always)]
pub(super) fn without_triples(m: u64, first: u64, later: u64) -> u64
    ensures no_more { (k : ℕ) → bit_at result k ≡ 1 → bit_at m k ≡ 1 }
    ensures gone { (k : ℕ) → k < 64 → bit_at result k ≡ 0 → bit_at m k ≡ 1 → (bit_at first k ≡ 1) × (bit_at later (1 + k) ≡ 1) × (bit_at later (2 + k) ≡ 1) }
{
    m & !(first & (later >> 1) & (later >> 2))
}
