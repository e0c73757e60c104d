//! From whole numbers to indices.

ghost use Rattle.std.specs.Prelude.{◌≡◌, ◌≤◌, ◌<◌, pos, ◌+ℤ◌, ◌*ℤ◌};
ghost use Rattle.std.specs.Int.{int_div_euclid};
ghost use Rattle.index_types.specs.Indices.{is_index, index_of, wrapped};

/// Whether the number is an index of the length: `0 <= v < n`.
pub fn in_range(n: u32, v: i128) -> bool
    ensures { result ≡ is_index n v }
{
    0 <= v && v < i128::from(n)
}

/// The number as an index of the length, or none where it is none.
pub fn to_index(n: u32, v: i128) -> Option<u32>
    ensures { result ≡ index_of n v }
{
    if in_range(n, v) { Some(v as u32) } else { None }
}

/// The remainder of the number by a length from 1 to 65,535: the index that differs from it by a multiple of the length.
pub fn wrap_index(n: u32, v: i128) -> u32
    requires some { 1 ≤ n }
    requires few { n ≤ 65_535 }
    ensures value { result ≡ wrapped n v }
    ensures index { result < n }
    ensures multiple { v ≡ (int_div_euclid v (pos n) *ℤ pos n) +ℤ pos result }
{
    v.rem_euclid(i128::from(n)) as u32
}
