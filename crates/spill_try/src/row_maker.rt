//! Rows that are made, and what is told of many of them by a sum.

ghost use Rattle.std.specs.Prelude.{◌≡◌, ◌<◌, length};

/// How rows follow one another.
#[derive(Clone, Copy, Debug, PartialEq, Eq)]
pub enum Pattern {
    Random,
    Ascending,
    Descending,
    Equal,
}

impl Pattern {
    /// The pattern of a name.
    pub fn of(name: &str) -> Option<Pattern> {
        match name {
            "random" => Some(Pattern::Random),
            "ascending" => Some(Pattern::Ascending),
            "descending" => Some(Pattern::Descending),
            "equal" => Some(Pattern::Equal),
            _ => None,
        }
    }
}

/// What makes rows, one after another.
#[derive(Clone, Copy, Debug, PartialEq, Eq)]
pub struct RowMaker {
    pattern: Pattern,
    made: u64,
    seed: u64,
}

impl RowMaker {
    /// It has made no row.
    pub fn new(pattern: Pattern) -> RowMaker {
        RowMaker {
            pattern,
            made: 0,
            seed: 1,
        }
    }

    /// Fills a page with rows of so many bytes each.
    pub fn fill(&mut self, page: &mut [u8], width: usize)
        requires { 0 < width }
        ensures same_length { length page.new ≡ length page.old }
    {
        for row in page.chunks_exact_mut(width) {
            self.fill_row(row);
        }
    }

    fn fill_row(&mut self, row: &mut [u8]) {
        let number = self.made;
        self.made = self.made.wrapping_add(1);
        match self.pattern {
            Pattern::Random => self.fill_random(row),
            Pattern::Ascending => fill_number(row, number),
            Pattern::Descending => fill_number(row, u64::MAX - number),
            Pattern::Equal => row.fill(7),
        }
    }

    // A generator of Knuth's, whose high bits are used.
    fn fill_random(&mut self, row: &mut [u8]) {
        for byte in row.iter_mut() {
            self.seed = self
                .seed
                .wrapping_mul(6_364_136_223_846_793_005)
                .wrapping_add(1_442_695_040_888_963_407);
            *byte = (self.seed >> 56) as u8;
        }
    }
}

// Zeros, and at the end the number, the highest byte first, or its low bytes where the row has no more.
fn fill_number(row: &mut [u8], number: u64) {
    let bytes = number.to_be_bytes();
    let count = row.len().min(8);
    let from = row.len() - count;
    row.fill(0);
    row[from..].copy_from_slice(&bytes[8 - count..]);
}

/// A number that depends on the bytes of a row, and in their order.
pub fn row_sum(row: &[u8]) -> u64 {
    let mut sum = 14_695_981_039_346_656_037u64;
    for byte in row {
        sum = (sum ^ u64::from(*byte)).wrapping_mul(1_099_511_628_211);
    }
    sum
}

/// A number that depends on some rows, but not on their order.
pub fn rows_sum(page: &[u8], width: usize) -> u64
    requires { 0 < width }
{
    let mut sum = 0u64;
    for row in page.chunks_exact(width) {
        sum = sum.wrapping_add(row_sum(row));
    }
    sum
}
