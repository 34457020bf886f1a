//! Tables of the dots of all bytes.
ghost use Rattle.std.specs.Prelude.{ℕ, ◌≡◌, ◌<◌, ◌==◌, ◌-◌, ◌*◌, ◌^◌, ◌++◌, ◌⊎◌, true, length, slice_index};
ghost use Rattle.video_ula.specs.Pixels.{side_by_side};
ghost use Rattle.video_ula.specs.Colours.{table_of, IsReady, eight_at, sixteen_at, HasEights};

use crate::dots::sixteen;

/// The number of bytes that are computed one by one before the tables are: they cost about as much
/// as the tables.
const PATIENCE: u8 = 100;

#[derive(Drop)]
pub(crate) struct Ready {
    // The first eight dots of each byte without the cursor, and the last eight of its sixteen.
    first: [[u8; 8]; 256],
    last: [[u8; 8]; 256],
    // The number of further bytes that are computed one by one. If it is 0, both tables are right.
    waits: u8,
}

// Computes both tables.
fn fill(first: &mut [[u8; 8]; 256], last: &mut [[u8; 8]; 256], entries: &[u8; 16], width: u8)
    requires { width < 4 }
    ensures first { first.new ≡ table_of 0 entries.now (2 ^ (3 - width)) }
    ensures last { last.new ≡ table_of 8 entries.now (2 ^ (3 - width)) }
{
    for byte in 0..256usize {
        let [a, b, c, d, e, f, g, h, q, r, s, t, u, v, w, x] = sixteen(
            entries, byte as u8, false, width,
        );
        first[byte] = [a, b, c, d, e, f, g, h];
        last[byte] = [q, r, s, t, u, v, w, x];
    }
}

// Writes eight dots as one array: a copy of a slice would test for overlap.
#[inline(always)]
fn put_eight(to: &mut [u8], eight: [u8; 8])
    requires { length to.old ≡ 8 }
    ensures { to.new ≡ eight }
{
    if let Some(dots) = to.as_mut_array::<8>() {
        *dots = eight;
    }
}

// Writes sixteen dots as one array.
#[inline(always)]
fn put_sixteen(to: &mut [u8], sixteen: [u8; 16])
    requires { length to.old ≡ 16 }
    ensures { to.new ≡ sixteen }
{
    if let Some(dots) = to.as_mut_array::<16>() {
        *dots = sixteen;
    }
}

// Returns eight dots and eight after them.
#[inline(always)]
fn both(first: [u8; 8], last: [u8; 8]) -> [u8; 16]
    ensures dots { result ≡ first ++ last }
    ensures sixteen { length result ≡ 16 }
{
    let [a, b, c, d, e, f, g, h] = first;
    let [q, r, s, t, u, v, w, x] = last;
    [a, b, c, d, e, f, g, h, q, r, s, t, u, v, w, x]
}

impl Ready {
    /// Returns tables that are not computed.
    pub(crate) fn nothing() -> Ready
        ensures { result.waits ≡ PATIENCE }
    {
        Ready {
            first: [[0; 8]; 256],
            last: [[0; 8]; 256],
            waits: PATIENCE,
        }
    }

    /// Marks the tables as out of date.
    pub(crate) fn forget(&mut self)
        ensures { self.new.waits ≡ PATIENCE }
    {
        self.waits = PATIENCE;
    }

    /// Reports if the tables are right.
    #[inline(always)]
    pub(crate) fn is_ready(&self) -> bool
        ensures { result ≡ (self.now.waits == 0) }
    {
        self.waits == 0
    }

    /// Counts one more byte. Reports if it is time to compute the tables.
    pub(crate) fn wait(&mut self) -> bool
        ensures right { (result ≡ true) ⊎ (0 < self.new.waits) }
    {
        if self.waits > 1 {
            self.waits -= 1;
            return false;
        }
        true
    }

    /// Computes both tables.
    pub(crate) fn compute(&mut self, entries: &[u8; 16], width: u8)
        requires { width < 4 }
        ensures { IsReady entries.now (2 ^ (3 - width)) self.new }
    {
        fill(&mut self.first, &mut self.last, entries, width);
        self.waits = 0;
    }

    // Returns the first eight dots of a byte from the table, as a copy, so that they are written at
    // once.
    #[inline(always)]
    fn first(&self, byte: u8) -> [u8; 8]
        requires { HasEights self.now }
        ensures dots { result ≡ eight_at self.now.first byte }
        ensures eight { length result ≡ 8 }
    {
        self.first[byte as usize]
    }

    // Returns the last eight dots of a byte.
    #[inline(always)]
    fn last(&self, byte: u8) -> [u8; 8]
        requires { HasEights self.now }
        ensures dots { result ≡ eight_at self.now.last byte }
        ensures eight { length result ≡ 8 }
    {
        self.last[byte as usize]
    }

    /// Returns the sixteen dots of a byte from the tables.
    #[inline(always)]
    pub(crate) fn dots(&self, byte: u8) -> [u8; 16]
        requires { HasEights self.now }
        ensures dots { result ≡ sixteen_at self.now byte }
        ensures sixteen { length result ≡ 16 }
    {
        both(self.first(byte), self.last(byte))
    }

    /// Writes the first eight dots of each of `n` bytes, `step` apart, side by side.
    #[inline(always)]
    pub(crate) fn narrow_row(&self, bytes: &[u8], step: usize, n: usize, to: &mut [u8])
        requires table { HasEights self.now }
        requires bytes { (k : ℕ) → k < n → k * step < length bytes.now }
        requires room { length to.old ≡ n * 8 }
        ensures { to.new ≡ side_by_side (λ k. eight_at self.now.first (slice_index bytes.now (k * step))) n }
    {
        // All pictures except teletext have step 8. It is a constant in this call.
        if step == 8 {
            self.narrow_row_by(bytes, 8, n, to);
        } else {
            self.narrow_row_by(bytes, step, n, to);
        }
    }

    // Writes sixteen dots at a time, and eight at a time at the end.
    #[inline(always)]
    fn narrow_row_by(&self, bytes: &[u8], step: usize, n: usize, to: &mut [u8])
        requires table { HasEights self.now }
        requires bytes { (k : ℕ) → k < n → k * step < length bytes.now }
        requires room { length to.old ≡ n * 8 }
        ensures { to.new ≡ side_by_side (λ k. eight_at self.now.first (slice_index bytes.now (k * step))) n }
    {
        for i in 0..n / 4 {
            let one = both(
                self.first(bytes[4 * i * step]),
                self.first(bytes[(4 * i + 1) * step]),
            );
            let two = both(
                self.first(bytes[(4 * i + 2) * step]),
                self.first(bytes[(4 * i + 3) * step]),
            );
            put_sixteen(&mut to[32 * i..32 * i + 16], one);
            put_sixteen(&mut to[32 * i + 16..32 * i + 32], two);
        }
        for k in n / 4 * 4..n {
            let eight = self.first(bytes[k * step]);
            put_eight(&mut to[8 * k..8 * k + 8], eight);
        }
    }

    /// Writes the sixteen dots of each of `n` bytes, `step` apart, side by side.
    #[inline(always)]
    pub(crate) fn wide_row(&self, bytes: &[u8], step: usize, n: usize, to: &mut [u8])
        requires table { HasEights self.now }
        requires bytes { (k : ℕ) → k < n → k * step < length bytes.now }
        requires room { length to.old ≡ n * 16 }
        ensures { to.new ≡ side_by_side (λ k. sixteen_at self.now (slice_index bytes.now (k * step))) n }
    {
        for i in 0..n {
            let dots = self.dots(bytes[i * step]);
            put_sixteen(&mut to[16 * i..16 * i + 16], dots);
        }
    }
}
