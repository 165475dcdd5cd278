// Bytes: parts of a slice, numbers in bytes, copying, filling and comparing, decimal digits, fields of text.
// A function on a whole slice has the loop; the one with `_at` lends it the part that is meant.
#![tactic(auto)]

ghost use Rattle.std.specs.Prelude.{◌≡◌, ◌+◌, ◌-◌, ◌*◌, ◌^◌, ◌<◌, ◌≤◌, min, length, get_or, take, replicate, ltb};
ghost use Rattle.std.specs.List.{position, list_any};
ghost use Rattle.octets.specs.Part.{part, splice, PartOf};
ghost use Rattle.octets.specs.Same.{same_bytes, place_among};
ghost use Rattle.octets.specs.Number.{from_le, to_le, digits};
ghost use Rattle.octets.specs.Field.{field};

// The bytes of a number of 64 bits.
const WORD: usize = 8;

// The byte at i; past the end there are zeros.
pub fn byte_at(s: &[u8], i: usize) -> u8
    ensures { result ≡ get_or s.now i 0 }
{
    s.get(i).copied().unwrap_or(0)
}

// The n bytes from `at` on, as far as there are any: a part of the slice itself.
pub fn part_of<'a>(s: &'a [u8], at: usize, n: usize) -> &'a [u8]
    ensures { (result.now ≡ part s.now at n) × PartOf s.entry at result }
{
    let from = at.min(s.len());
    let end = from + n.min(s.len() - from);
    &s[from..end]
}

// Whether a and b hold the same bytes, compared from the last ones on, eight at a time, and at last one by one.
// Stays: by `==` a search of twelve codes takes 84 instructions, not 21.
pub fn same(a: &[u8], b: &[u8]) -> bool
    ensures { result ≡ same_bytes a.now b.now }
{
    if a.len() != b.len() {
        return false;
    }
    let (mut left, mut right) = (a, b);
    while let (Some((front, word)), Some((others, other))) = (
        left.split_last_chunk::<WORD>(),
        right.split_last_chunk::<WORD>(),
    ) {
        if word != other {
            return false;
        }
        left = front;
        right = others;
    }
    left.iter().zip(right).all(|(x, y)| x == y)
}

// The same for longer values: the last eight bytes and the first eight are looked at before the others, since UTIs differ at one end.
// Stays: one contract with `same` and another speed.
pub fn same_long(a: &[u8], b: &[u8]) -> bool
    ensures { result ≡ same_bytes a.now b.now }
{
    if a.len() != b.len() {
        return false;
    }
    if a.len() < WORD {
        return same(a, b);
    }
    if a.last_chunk::<WORD>() != b.last_chunk::<WORD>() {
        return false;
    }
    if a.first_chunk::<WORD>() != b.first_chunk::<WORD>() {
        return false;
    }
    same(a, b)
}

// Stays: any width, and a slice that may be longer, here and in one_of: an array of codes asks more of a caller.
// The place of the first of `count` codes, each `width` bytes wide, that is the value; `count` where none is.
#[tactic(auto, unfolding(crate::specs::Same::place_among))]
pub fn place_in(v: &[u8], codes: &[u8], width: usize, count: usize) -> usize
    requires { count * width ≤ length codes.now }
    ensures { result ≡ place_among width count codes.now v.now }
{
    for k in 0..count {
        if same(v, part_of(codes, k * width, width)) {
            return k;
        }
    }
    count
}

// Whether the value is one of `count` codes, each `width` bytes wide.
pub fn one_of(v: &[u8], codes: &[u8], width: usize, count: usize) -> bool
    requires { count * width ≤ length codes.now }
    ensures { result ≡ ltb (place_among width count codes.now v.now) count }
{
    place_in(v, codes, width, count) < count
}

// The place of the first code of an array that is the value, where one is.
pub fn find_code<const W: usize>(v: &[u8], codes: &[[u8; W]]) -> Option<usize>
    ensures { result ≡ position (same_bytes v.now) codes.now }
{
    codes.iter().position(
        |c: &[u8; W]| -> bool
            ensures { result ≡ same_bytes v.entry.now c.now }
        { same(v, c) },
    )
}

// Whether the value is one of the codes of an array.
pub fn has_code<const W: usize>(v: &[u8], codes: &[[u8; W]]) -> bool
    ensures { result ≡ list_any (same_bytes v.now) codes.now }
{
    codes.iter().any(
        |code: &[u8; W]| -> bool
            ensures { result ≡ same_bytes v.entry.now code.now }
        { same(v, code) },
    )
}

// Copies src into dst, which is as long.
pub fn copy(dst: &mut [u8], src: &[u8])
    requires { length src.now ≡ length dst.old }
    ensures { dst.new ≡ src.now }
{
    // Stays: by `copy_from_slice` the archive for C needs memmove from outside.
    for (i, b) in dst.iter_mut().enumerate() {
        *b = src[i];
    }
}

// Fills dst with b.
pub fn fill(dst: &mut [u8], b: u8)
    ensures { dst.new ≡ replicate (length dst.old) b }
{
    dst.fill(b);
}

// The number that the bytes of s stand for, at every width up to 8.
pub fn read_le(s: &[u8]) -> u64
    requires { length s.now ≤ 8 }
    ensures { (result ≡ from_le s.now) × (result < 256 ^ length s.now) }
{
    let mut v: u64 = 0;
    for i in (0..s.len()).rev() {
        v = v * 256 + u64::from(s[i]);
    }
    v
}

// Writes the lowest bytes of v, as many as dst has.
pub fn write_le(dst: &mut [u8], v: u64)
    ensures { dst.new ≡ to_le (length dst.old) v }
{
    let mut rest = v;
    for b in dst {
        *b = (rest % 256) as u8;
        rest /= 256;
    }
}

// Writes the last decimal digits of v, as many as dst has.
pub fn write_digits(dst: &mut [u8], v: u64)
    ensures { dst.new ≡ digits (length dst.old) v }
{
    let mut rest = v;
    for i in (0..dst.len()).rev() {
        dst[i] = (rest % 10) as u8 + b'0';
        rest /= 10;
    }
}

// The number that the n bytes from `at` on stand for; past the end there are zeros.
pub fn read_at(s: &[u8], at: usize, n: usize) -> u64
    requires { n ≤ 8 }
    ensures { (result ≡ from_le (part s.now at n)) × (result < 256 ^ n) }
{
    // Stays: with `read_le(part_of(s, at, n))` a constant width is not unrolled: two bytes take 47 instructions, not 13.
    if s.len() < at {
        return 0;
    }
    if s.len() - at < n {
        return read_le(&s[at..]);
    }
    read_le(&s[at..at + n])
}

// Stays: no function over `impl FnOnce(&mut [u8])` in place of the five `_at`: its promise is the closure's `post`, theirs are the bytes.
// Stays: `at + n` within dst is asked of each: it is the bound of the slice that it lends, which a type for dst, at and n would ask as well.
// Copies src into dst from `at` on.
#[tactic(auto, unfolding(crate::specs::Part::splice))]
pub fn copy_at(dst: &mut [u8], at: usize, src: &[u8])
    requires { at + length src.now ≤ length dst.old }
    ensures { dst.new ≡ splice dst.old at src.now }
{
    copy(&mut dst[at..at + src.len()], src);
}

// Writes n times the byte b from `at` on.
#[tactic(auto, unfolding(crate::specs::Part::splice))]
pub fn fill_at(dst: &mut [u8], at: usize, n: usize, b: u8)
    requires { at + n ≤ length dst.old }
    ensures { dst.new ≡ splice dst.old at (replicate n b) }
{
    fill(&mut dst[at..at + n], b);
}

// Writes the n lowest bytes of v from `at` on.
#[tactic(auto, unfolding(crate::specs::Part::splice))]
pub fn write_at(dst: &mut [u8], at: usize, n: usize, v: u64)
    requires { at + n ≤ length dst.old }
    ensures { dst.new ≡ splice dst.old at (to_le n v) }
{
    write_le(&mut dst[at..at + n], v);
}

// Writes the last n decimal digits of v from `at` on.
#[tactic(auto, unfolding(crate::specs::Part::splice))]
pub fn digits_at(dst: &mut [u8], at: usize, n: usize, v: u64)
    requires { at + n ≤ length dst.old }
    ensures { dst.new ≡ splice dst.old at (digits n v) }
{
    write_digits(&mut dst[at..at + n], v);
}

// Writes s into dst from `at` on, as far as it fits, and answers the place behind it: a text is built piece by piece.
#[tactic(auto, using(crate::proofs::PartLaws::splice_none))]
pub fn append(dst: &mut [u8], at: usize, s: &[u8]) -> usize
    ensures { (dst.new ≡ splice dst.old at (take (length dst.old - at) s.now)) × (result ≡ min (length dst.old) (at + length s.now)) }
{
    let n = dst.len();
    if n < at {
        return n;
    }
    let fits = part_of(s, 0, n - at);
    copy_at(dst, at, fits);
    at + fits.len()
}

// Writes src into dst, left aligned, and spaces behind it.
pub fn write_field(dst: &mut [u8], src: &[u8])
    ensures { dst.new ≡ field (length dst.old) src.now }
{
    fill(dst, b' ');
    append(dst, 0, src);
}

// Writes src into the field of n bytes from `at` on.
#[tactic(auto, unfolding(crate::specs::Part::splice))]
pub fn field_at(dst: &mut [u8], at: usize, n: usize, src: &[u8])
    requires { at + n ≤ length dst.old }
    ensures { dst.new ≡ splice dst.old at (field n src.now) }
{
    write_field(&mut dst[at..at + n], src);
}
