// Writing text into a buffer, and reading a number, in module `number`.
#![tactic(auto)]

ghost use Rattle.std.specs.Prelude.{[], ◌∷◌, ◌≡◌};
ghost use Rattle.text.specs.Decimal.{TAB as Decimal·TAB, decimal, tabbed};
ghost use Rattle.text.specs.Writing.{wrote};

mod number;

pub use number::number_of;

pub const TAB: u8 = b'\t';

// Writes text from the buffer's start on. Bytes past the buffer's end are counted and not stored, so that a writer over an empty
// buffer measures a text. The count stops at the largest usize, so that no text is refused.
#[derive(Drop)]
pub struct Writer<'a> {
    out: &'a mut [u8],
    end: usize,
}

impl<'a> Writer<'a> {
    // A writer at the start of a buffer.
    pub fn new(out: &'a mut [u8]) -> Self
        ensures { result ≡ record { out = out.entry; end = 0 } }
    {
        Writer { out, end: 0 }
    }

    // How long the text is so far.
    pub fn end(&self) -> usize
        ensures { result ≡ self.now.end }
    {
        self.end
    }

    // One byte.
    #[tactic(auto, unfolding(crate::specs::Writing::wrote))]
    pub fn put_byte(&mut self, byte: u8)
        ensures { self.new ≡ wrote self.old (byte ∷ []) }
    {
        let Writer { out, end } = self;
        if *end < out.len() {
            out[*end] = byte;
        }
        *end = end.saturating_add(1);
    }

    // A run of bytes.
    #[tactic(auto, using(crate::proofs::Writing::writing, crate::proofs::Writing::wrote_more))]
    pub fn put_bytes(&mut self, bytes: &[u8])
        ensures { self.new ≡ wrote self.old bytes.now }
    {
        for byte in bytes {
            self.put_byte(*byte);
        }
    }

    // A number's decimal digits: those of the number divided by ten, then the last one (a form that docs/DECISIONS.md 20 names).
    #[tactic(auto, using(crate::proofs::Decimal::decimal_one, crate::proofs::Decimal::decimal_more, crate::proofs::Writing::writing))]
    pub fn put_decimal(&mut self, n: usize)
        ensures { self.new ≡ wrote self.old (decimal n) }
    {
        if n < 10 {
            self.put_byte(b'0' + n as u8);
            return;
        }
        self.put_decimal(n / 10);
        self.put_byte(b'0' + (n % 10) as u8);
    }

    // A tab and a number.
    #[tactic(auto, using(crate::proofs::Writing::writing))]
    pub fn put_field(&mut self, n: usize)
        ensures { self.new ≡ wrote self.old (Decimal·TAB ∷ decimal n) }
    {
        self.put_byte(TAB);
        self.put_decimal(n);
    }

    // Numbers, each after a tab. The loop is not shared with put_bytes: over a closure it would need each item's text as a ghost
    // value, which no caller can pick there.
    #[tactic(auto, using(crate::proofs::Writing::writing, crate::proofs::Fields::no_field, crate::proofs::Fields::fields_more))]
    pub fn put_fields(&mut self, numbers: &[usize])
        ensures { self.new ≡ wrote self.old (tabbed numbers.now) }
    {
        for n in numbers {
            self.put_field(*n);
        }
    }
}
