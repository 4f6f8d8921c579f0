// What is printed, in lent bytes.
#![tactic(auto)]

ghost use Rattle.std.specs.Prelude.{◌≡◌, ℕ, ◌+◌, ◌≤◌, false, List, [], ◌∷◌, ◌++◌, length, take, decimal};
ghost use Rattle.output.specs.Digits.{digit, hex_of, pair_line};

// The bytes so far, and whether some found no room. They stand in lent bytes beside their number, since there is no heap.
// There is no `fmt::Write`: of what `write!` wrote something is known only where it says `Ok`, and it never says that it will.
// There is no `Model` either: once something found no room, the fields don't tell what was printed.
#[derive(Drop)]
pub struct Output<'a> {
    pub bytes: &'a mut [u8],
    pub len: usize,
    pub full: bool,
}

impl<'a> Output<'a> {
    ghost use Rattle.output.specs.Outputs.{Shows};

    // Nothing so far, to be printed into these bytes.
    pub fn new(bytes: &'a mut [u8]) -> Output<'a>
        ensures { (Shows result []) × (result.full ≡ false) }
    {
        Output {
            bytes,
            len: 0,
            full: false,
        }
    }
}

impl Output<'_> {
    ghost use Rattle.output.specs.Outputs.{Shows, Pushes, Prints};

    // What was printed, as much of it as there was room for.
    pub fn printed(&self) -> &[u8]
        ensures { (l : List ℕ) → Shows self.now l → result.now ≡ take (length self.now.bytes.now) l }
    {
        &self.bytes[..self.len.min(self.bytes.len())]
    }

    // Nothing was printed, as at the start.
    pub fn clear(&mut self)
        ensures { (Shows self.new []) × (self.new.full ≡ false) }
    {
        self.len = 0;
        self.full = false;
    }

    // One byte more; nothing is written past the end.
    pub fn push(&mut self, b: u8)
        ensures pushes { Pushes self.old b self.new }
        ensures prints { Prints self.old (b ∷ []) self.new }
    {
        if self.len < self.bytes.len() {
            self.bytes[self.len] = b;
            self.len += 1;
        } else {
            self.full = true;
        }
    }

    // Some text.
    pub fn text(&mut self, bytes: &[u8])
        ensures { Prints self.old bytes.now self.new }
    {
        for b in bytes {
            self.push(*b);
        }
    }

    // A number in decimal.
    pub fn number(&mut self, n: u64)
        ensures { Prints self.old (decimal n) self.new }
    {
        if n < 10 {
            self.push(b'0' + n as u8);
            return;
        }
        self.number(n / 10);
        self.push(b'0' + (n % 10) as u8);
    }

    // A number between two texts.
    pub fn numbered(&mut self, before: &[u8], n: u64, behind: &[u8])
        ensures { Prints self.old ((before.now ++ (decimal n ++ behind.now))) self.new }
    {
        self.text(before);
        self.number(n);
        self.text(behind);
    }

    // A line of a word and two numbers.
    pub fn pair(&mut self, word: &[u8], a: u64, b: u64)
        ensures { Prints self.old (pair_line word.now a b) self.new }
    {
        self.numbered(word, a, b" ");
        self.numbered(b"", b, b"\n");
    }

    // A byte as two hexadecimal digits.
    pub fn byte(&mut self, b: u8)
        ensures { Prints self.old (hex_of b) self.new }
    {
        self.push(hex(b / 16));
        self.push(hex(b % 16));
    }
}

// A hexadecimal digit.
fn hex(d: u8) -> u8
    requires { d ≤ 15 }
    ensures { result ≡ digit d }
{
    if d < 10 { b'0' + d } else { b'a' + (d - 10) }
}
