// Numbers are written into a lent text.
ghost use Rattle.std.specs.Prelude.{◌*◌, [], ◌∷◌, map, length};
ghost use Rattle.std.specs.Int.{w32};
ghost use Rattle.std.proofs.Common.{to_z};
ghost use Rattle.decimal.specs.Puts.{Puts, PutsWithin};
ghost use Rattle.decimal.specs.Decimal.{decimal, signed_decimal, spaced};

use itoa::Buffer;

// A lent text, and the place where writing goes on: as far as the text goes. A slice and a place, and no String: there is no heap.
#[derive(Drop)]
pub struct Text<'a> {
    pub lent: &'a mut [u8],
    pub at: usize,
}

impl Text<'_> {
    fn byte(&mut self, b: u8)
        ensures { Puts self.old (b ∷ []) self.new }
    {
        if self.at < self.lent.len() {
            self.lent[self.at] = b;
            self.at += 1;
        }
    }

    pub fn bytes(&mut self, source: &[u8])
        ensures { Puts self.old source.now self.new }
    {
        for b in source {
            self.byte(*b);
        }
    }

    // A number has ten digits at most.
    fn number(&mut self, n: u32)
        ensures { PutsWithin 10 self.old (decimal n) self.new }
    {
        let mut digits = Buffer::new();
        self.bytes(digits.format(n).as_bytes());
    }

    // The integer of a pattern has a sign and ten digits at most. Its digits are put as those of every number are.
    pub fn integer(&mut self, p: u32)
        ensures { PutsWithin 11 self.old (signed_decimal (to_z w32 p)) self.new }
    {
        if p < 2147483648 {
            return self.number(p);
        }
        self.byte(b'-');
        self.number(4294967295 - p + 1);
    }

    // A space and a number, for each.
    pub fn numbers(&mut self, words: &[u32])
        ensures { PutsWithin (11 * length words.now) self.old (spaced (map decimal words.now)) self.new }
    {
        for n in words {
            self.byte(b' ');
            self.number(*n);
        }
    }
}
