// Bytes put into a lent text, one after the other. Numbers go digit by digit: `write!` promises nothing of the text where
// it answers an error, no contract says that it answers none, and a char of `from_digit` would have to become a byte again.
// A clause `room` says how much of the text a word of any length may take: each has a number of its own.
ghost use Rattle.std.specs.Prelude.{◌≡◌, cond, [], ◌∷◌, ◌+◌, ◌*◌, ◌/◌, ◌%◌, ◌≤◌, ◌<◌, length};
ghost use Rattle.script.specs.Words.{digit_of, hex_of, decimal_of};

// A lent text, and the place that the next byte goes to.
#[derive(Drop)]
pub struct Text<'a> {
    pub bytes: &'a mut [u8],
    pub to: usize,
    ghost within: { to ≤ length bytes.now },
}

impl Text<'_> {
    ghost use Rattle.player.specs.Puts.{Puts, room_of};

    // How many bytes may still be put.
    pub fn room(&self) -> usize
        ensures { result ≡ room_of self.now }
    {
        self.bytes.len() - self.to
    }

    // Bytes as they are.
    pub fn put(&mut self, word: &[u8])
        requires { length word.now ≤ room_of self.old }
        ensures { Puts self.old word.now self.new }
    {
        let end = self.to + word.len();
        self.bytes[self.to..end].copy_from_slice(word);
        self.to = end;
    }

    // A word where there is something to report.
    pub fn put_if(&mut self, said: bool, word: &[u8])
        requires { length word.now ≤ room_of self.old }
        ensures puts { Puts self.old (cond said word.now []) self.new }
        ensures room { room_of self.old ≤ room_of self.new + length word.now }
    {
        if said {
            self.put(word);
        }
    }

    // A number below 100, in decimal digits.
    pub fn put_number(&mut self, n: u8)
        requires two_digits { n < 100 }
        requires room { 2 ≤ room_of self.old }
        ensures puts { Puts self.old (decimal_of n) self.new }
        ensures room { room_of self.old ≤ room_of self.new + 2 }
    {
        if n >= 10 {
            self.push(b'0' + n / 10);
        }
        self.push(b'0' + n % 10);
    }

    // Bytes, in digits of 16.
    pub fn put_hex(&mut self, given: &[u8])
        requires { 2 * length given.now ≤ room_of self.old }
        ensures puts { Puts self.old (hex_of given.now) self.new }
        ensures room { room_of self.old ≤ room_of self.new + 2 * length given.now }
    {
        for b in given {
            self.push(digit(b / 16));
            self.push(digit(b % 16));
        }
    }

    fn push(&mut self, byte: u8)
        requires { 1 ≤ room_of self.old }
        ensures { Puts self.old (byte ∷ []) self.new }
    {
        self.bytes[self.to] = byte;
        self.to += 1;
    }
}

fn digit(n: u8) -> u8
    requires { n < 16 }
    ensures { result ≡ digit_of n }
{
    if n < 10 { b'0' + n } else { b'a' - 10 + n }
}
