// The text of an answer.
ghost use Rattle.std.specs.Prelude.{[], ◌∷◌, ◌++◌, ◌≡◌, ◌+◌, ◌≤◌, ◌<◌, length};
ghost use Rattle.script.specs.Text.{decimal, answer_text, unknown_text, Puts};

// A lent buffer, and the place in it where the next byte goes.
#[derive(Drop)]
pub struct Writer<'a> {
    pub out: &'a mut [u8],
    pub at: usize,
}

fn digit(n: u32) -> u8
    requires { n < 10 }
    ensures { result ≡ 48 + n }
{
    b'0' + n as u8
}

impl Writer<'_> {
    fn put(&mut self, byte: u8)
        requires { self.old.at < length self.old.out.now }
        ensures { Puts (byte ∷ []) self.old self.new }
    {
        self.out[self.at] = byte;
        self.at += 1;
    }

    // By hand: no clause of std says which bytes a `write!` puts into a lent slice, and a `String` takes a heap.
    fn put_decimal(&mut self, n: u32)
        requires { self.old.at + length (decimal n) ≤ length self.old.out.now }
        ensures { Puts (decimal n) self.old self.new }
    {
        if n < 10 {
            self.put(digit(n));
            return;
        }
        self.put_decimal(n / 10);
        self.put(digit(n % 10));
    }

    fn put_field(&mut self, n: u32, mark: u8)
        requires { self.old.at + length (decimal n) < length self.old.out.now }
        ensures { Puts (decimal n ++ mark ∷ []) self.old self.new }
    {
        self.put_decimal(n);
        self.put(mark);
    }

    // Takes at most 30 bytes: two numbers of 8 bits, two of 32, and a byte after each.
    pub fn put_answer(&mut self, refusal: u8, value: u32, wake: u8, retired: u32)
        requires { self.old.at + 30 ≤ length self.old.out.now }
        ensures { Puts (answer_text refusal value wake retired) self.old self.new }
    {
        self.put_field(refusal as u32, b' ');
        self.put_field(value, b' ');
        self.put_field(wake as u32, b' ');
        self.put_field(retired, b'\n');
    }

    // For a line of no form.
    pub fn put_unknown(&mut self)
        requires { self.old.at + 2 ≤ length self.old.out.now }
        ensures { Puts unknown_text self.old self.new }
    {
        self.put(b'?');
        self.put(b'\n');
    }
}
