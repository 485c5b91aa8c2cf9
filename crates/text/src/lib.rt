// Text in lent bytes: what has no room is left out, and the place goes on past it, as if there were room.
#![tactic(auto)]

ghost use Rattle.std.specs.Prelude.{◌≡◌, [], ◌∷◌, ◌+◌, ◌^◌, ◌≤◌, ◌<◌, length};
ghost use Rattle.text.specs.Puts.{Puts};
ghost use Rattle.text.specs.Decimal.{decimal};
ghost use Rattle.text.specs.Line.{field, line};

// Lent bytes, and the place at which the next byte stands.
#[derive(Drop)]
pub struct Writer<'a> {
    out: &'a mut [u8],
    at: usize,
}

impl<'a> Writer<'a> {
    // At the first byte.
    pub fn new(out: &'a mut [u8]) -> Writer<'a>
        ensures same_reference { result.out.ghost_name ≡ out.entry.ghost_name }
        ensures bytes { result.out.now ≡ out.old }
        ensures place { result.at ≡ 0 }
    {
        Writer::at(out, 0)
    }

    // At a place, which may be past the last byte.
    pub fn at(out: &'a mut [u8], at: usize) -> Writer<'a>
        ensures same_reference { result.out.ghost_name ≡ out.entry.ghost_name }
        ensures bytes { result.out.now ≡ out.old }
        ensures place { result.at ≡ at }
    {
        Writer { out, at }
    }

    // How many bytes were put, those too that had no room.
    pub fn count(&self) -> usize
        ensures { result ≡ self.now.at }
    {
        self.at
    }

    // One byte.
    pub fn put_byte(&mut self, b: u8)
        requires { self.old.at + 1 < 2 ^ 64 }
        ensures { Puts self.old (b ∷ []) 1 self.new }
    {
        if self.at < self.out.len() {
            self.out[self.at] = b;
        }
        self.at += 1;
    }

    // The bytes of a word.
    pub fn put_word(&mut self, w: &[u8])
        requires { self.old.at + length w.now < 2 ^ 64 }
        ensures { Puts self.old w.now (length w.now) self.new }
    {
        for &b in w {
            self.put_byte(b);
        }
    }

    // A number in decimal: its last digit stands after those of a tenth of it.
    pub fn put_decimal(&mut self, x: usize)
        requires { self.old.at + 20 < 2 ^ 64 }
        ensures { Puts self.old (decimal x) 20 self.new }
    {
        let digit = b'0' + (x % 10) as u8;
        if x < 10 {
            self.put_byte(digit);
            return;
        }
        self.put_decimal(x / 10);
        self.put_byte(digit);
    }

    // One blank and a number.
    fn put_field(&mut self, x: usize)
        requires { self.old.at + 21 < 2 ^ 64 }
        ensures { Puts self.old (field x) 21 self.new }
    {
        self.put_byte(b' ');
        self.put_decimal(x);
    }

    // A line: its word and its fields, of which no line has more than four.
    pub fn put_line(&mut self, word: &[u8], fields: &[usize])
        requires at_bound { self.old.at < 2 ^ 32 }
        requires short { length word.now ≤ 7 }
        requires few { length fields.now ≤ 4 }
        ensures { Puts self.old (line word.now fields.now) 100 self.new }
    {
        self.put_word(word);
        for &x in fields {
            self.put_field(x);
        }
        self.put_byte(b'\n');
    }
}
