// Little-endian numbers of 16, 32 and 64 bits at a place of a lent row of bytes, rows of such numbers, and clearing the front of a row.
// Nothing here knows of flowsheets. Each function asks for what its callers can show: that the place lies in the row.
#![tactic(auto)]

ghost use Rattle.std.specs.Prelude.{◌≡◌, ℕ, ◌+◌, ◌*◌, ◌≤◌, length};
ghost use Rattle.words.specs.Words.{number_at, with_number, with_numbers, cleared};

// A type of number that stands in a row as so many bytes, the low one first. Each wider one is two of half its width, so that one law over
// the width serves all three; std's `from_le_bytes` would want a law for each.
pub trait Word: Copy {
    ghost width: { ℕ };

    ghost number: { Self → ℕ };

    // The number at `at`.
    fn at(row: &[u8], at: usize) -> Self
        requires { at + width ≤ length row.now }
        ensures { number result ≡ number_at width row.now at };

    // Writes the number at `at`; every other byte stays.
    fn put(self, row: &mut [u8], at: usize)
        requires { at + width ≤ length row.old }
        ensures { row.new ≡ with_number width row.old at (number self) };
}

impl Word for u16 {
    ghost width = { 2 };

    ghost number = { λ n. n };

    #[tactic(auto, unfolding(crate::specs::Words::number_at))]
    fn at(row: &[u8], at: usize) -> u16 {
        u16::from(row[at]) + 256 * u16::from(row[at + 1])
    }

    #[tactic(auto, using(crate::proofs::Numbers::with_two))]
    fn put(self, row: &mut [u8], at: usize) {
        row[at] = (self % 256) as u8;
        row[at + 1] = (self / 256) as u8;
    }
}

impl Word for u32 {
    ghost width = { 4 };

    ghost number = { λ n. n };

    #[tactic(auto, using(crate::proofs::Numbers::number_four))]
    fn at(row: &[u8], at: usize) -> u32 {
        u32::from(u16::at(row, at)) + 65536 * u32::from(u16::at(row, at + 2))
    }

    #[tactic(auto, using(crate::proofs::Numbers::with_four))]
    fn put(self, row: &mut [u8], at: usize) {
        let low = (self % 65536) as u16;
        let high = (self / 65536) as u16;
        low.put(row, at);
        high.put(row, at + 2);
    }
}

impl Word for u64 {
    ghost width = { 8 };

    ghost number = { λ n. n };

    #[tactic(auto, using(crate::proofs::Numbers::number_eight))]
    fn at(row: &[u8], at: usize) -> u64 {
        u64::from(u32::at(row, at)) + 4294967296 * u64::from(u32::at(row, at + 4))
    }

    #[tactic(auto, using(crate::proofs::Numbers::with_eight))]
    fn put(self, row: &mut [u8], at: usize) {
        let low = (self % 4294967296) as u32;
        let high = (self / 4294967296) as u32;
        low.put(row, at);
        high.put(row, at + 4);
    }
}

// Writes numbers one after the other from the byte `at` on; every other byte stays.
#[tactic(auto, using(crate::proofs::Rows::one_more))]
pub fn put_numbers(row: &mut [u8], at: usize, numbers: &[u16])
    requires { at + 2 * length numbers.now ≤ length row.old }
    ensures { row.new ≡ with_numbers row.old at numbers.now }
{
    for (i, number) in numbers.iter().enumerate() {
        number.put(row, at + 2 * i);
    }
}

// Sets the first `count` bytes to zero; the rest stay.
pub fn clear_front(row: &mut [u8], count: usize)
    requires { count ≤ length row.old }
    ensures { row.new ≡ cleared row.old count }
{
    row[..count].fill(0);
}
