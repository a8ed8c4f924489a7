// Text that is written into a lent buffer, from its front on. Each writer asks for the room that it needs, sets exactly its own bytes, and moves the place
// behind them, at which the next begins. Not by std's `write!`: a line without room leaves its buffer as it was (`Printed`), so it is measured before its
// first byte, and no write can fail.
ghost use Rattle.std.specs.Prelude.{◌≡◌, [], ◌∷◌, ◌+◌, ◌*◌, ◌≤◌, ◌<◌, length};
ghost use Rattle.line.specs.Text.{decimal, hex, hex_digit, DigitCount};
ghost use Rattle.line.specs.Put.{Put};

#[derive(Drop)]
pub(crate) struct Text<'a> {
    pub(crate) out: &'a mut [u8],
    pub(crate) at: usize,
}

impl Text<'_> {
    // One byte.
    pub(crate) fn byte(&mut self, b: u8)
        requires { self.old.at < length self.old.out.now }
        ensures { Put (b ∷ []) self.old self.new }
    {
        self.out[self.at] = b;
        self.at += 1;
    }

    // All bytes of a word.
    pub(crate) fn word(&mut self, word: &[u8])
        requires { self.old.at + length word.now ≤ length self.old.out.now }
        ensures { Put word.now self.old self.new }
    {
        let end = self.at + word.len();
        self.out[self.at..end].copy_from_slice(word);
        self.at = end;
    }

    // A number in decimal.
    pub(crate) fn decimal(&mut self, n: usize)
        requires { self.old.at + length (decimal n) ≤ length self.old.out.now }
        ensures { Put (decimal n) self.old self.new }
    {
        if n >= 10 {
            self.decimal(n / 10);
        }
        self.byte(b'0' + (n % 10) as u8);
    }

    // Bytes in upper-case hex.
    pub(crate) fn hex(&mut self, bytes: &[u8])
        requires { self.old.at + 2 * length bytes.now ≤ length self.old.out.now }
        ensures { Put (hex bytes.now) self.old self.new }
    {
        for &b in bytes {
            self.byte(hex_digit(b / 16));
            self.byte(hex_digit(b % 16));
        }
    }
}

// How many digits a number has in decimal.
pub(crate) fn digits(n: usize) -> usize
    ensures { DigitCount n result }
{
    n.checked_ilog10().unwrap_or(0) as usize + 1
}

// The hex digit of a number below 16.
fn hex_digit(d: u8) -> u8
    requires { d < 16 }
    ensures { result ≡ hex_digit d }
{
    if d < 10 { b'0' + d } else { b'A' - 10 + d }
}
