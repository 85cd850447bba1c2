// A line is put together byte by byte in a lent block, which is written out whenever it is full.
ghost use Rattle.std.specs.Prelude.{◌≡◌, ◌-◌, ◌<◌, ◌≤◌, cond, length, negsuc, slice_index, unsigned_abs};
ghost use Rattle.std.specs.Int.Signed.{lt_z};

// Standard output, by way of a lent block of which the first `used` bytes wait to be written.
pub struct Output<'a> {
    pub block: &'a mut [u8],
    pub used: usize,
    pub ghost in_block: { used ≤ length block.now },
}

impl<'a> Output<'a> {
    pub fn new(block: &'a mut [u8]) -> Output<'a>
        ensures { result.used ≡ 0 }
    {
        Output { block, used: 0 }
    }

    // One more byte. A block of no bytes takes none.
    pub fn put(&mut self, byte: u8)
        ensures size { length self.new.block.now ≡ length self.old.block.now }
        ensures last { 0 < length self.new.block.now → slice_index self.new.block.now (self.new.used - 1) ≡ byte }
    {
        if self.used == self.block.len() {
            self.flush();
        }
        if self.used < self.block.len() {
            self.block[self.used] = byte;
            self.used += 1;
        }
    }

    // What waits is written.
    fn flush(&mut self)
        ensures nothing_waits { self.new.used ≡ 0 }
        ensures size { length self.new.block.now ≡ length self.old.block.now }
    {
        io::write_all(1, &self.block[..self.used]);
        self.used = 0;
    }

    // What waits is written, and the block is free again. An `Output` isn't `Drop`, so that this can't be forgotten.
    pub fn finish(self) {
        let Output { block, used } = self;
        io::write_all(1, &block[..used]);
    }

    pub fn word(&mut self, w: &[u8])
        ensures { length self.new.block.now ≡ length self.old.block.now }
    {
        for byte in w {
            self.put(*byte);
        }
    }

    // A number.
    pub fn digits(&mut self, n: u64)
        ensures { length self.new.block.now ≡ length self.old.block.now }
    {
        let mut text = [0u8; 20];
        let k = io::decimal(n, &mut text);
        self.word(&text[..k]);
    }

    // A space and a number.
    pub fn number(&mut self, n: u64)
        ensures { length self.new.block.now ≡ length self.old.block.now }
    {
        self.put(b' ');
        self.digits(n);
    }

    // A number of thousandths, which lies within ±1,000,000,000,000.
    pub fn signed(&mut self, z: i64)
        ensures { length self.new.block.now ≡ length self.old.block.now }
    {
        if z < 0 {
            self.put(b'-');
        }
        self.digits(magnitude(z));
    }
}

// Whether a number is defined: one that is not is -1,000,000,000,001.
pub fn is_defined(z: i64) -> bool
    ensures { result ≡ lt_z (negsuc 1000000000000) z }
{
    -1000000000001 < z
}

// A number without its sign; 0 where it is below those that are defined.
pub fn magnitude(z: i64) -> u64
    ensures { result ≡ cond (lt_z (negsuc 1000000000000) z) (unsigned_abs z) 0 }
{
    if is_defined(z) { z.unsigned_abs() } else { 0 }
}
