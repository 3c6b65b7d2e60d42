// Bytes, numbers and lines, written into a lent room one behind the other. What lies past the room's end is counted and not
// written. They are not printed by `Display`: its contract lets every write fail, and `write_text` promises the whole text.
ghost use Rattle.std.specs.Prelude.{ℕ, List, [], ◌∷◌};
ghost use Rattle.text.specs.Numerals.{decimal};
ghost use Rattle.text.specs.Lines.{each, field, phrase, line};
ghost use Rattle.text.specs.Rooms.{Wrote};

// A room, and where what is written into it ends.
#[derive(Drop)]
pub(crate) struct Writer<'a> {
    pub(crate) room: &'a mut [u8],
    pub(crate) end: usize,
}

// What has a text of its own: the bytes, and how they are written.
pub(crate) trait Told {
    ghost text: { Self → List ℕ };

    fn tell(&self, to: &mut Writer<'_>)
        ensures { Wrote (text self.now) to.old to.new };
}

// A number, behind a blank.
impl Told for u64 {
    ghost text = { field };

    fn tell(&self, to: &mut Writer<'_>) {
        to.byte(b' ');
        to.decimal(*self);
    }
}

impl Writer<'_> {
    // A byte.
    fn byte(&mut self, byte: u8)
        ensures { Wrote (byte ∷ []) self.old self.new }
    {
        if self.end < self.room.len() {
            self.room[self.end] = byte;
        }
        self.end = self.end.saturating_add(1);
    }

    // Bytes, one behind the other.
    fn bytes(&mut self, bytes: &[u8])
        ensures { Wrote bytes.now self.old self.new }
    {
        for byte in bytes {
            self.byte(*byte);
        }
    }

    // The digits of a number: those of its tenth, and then the last one.
    fn decimal(&mut self, number: u64)
        ensures { Wrote (decimal number) self.old self.new }
    {
        if number < 10 {
            return self.byte(b'0' + number as u8);
        }
        self.decimal(number / 10);
        self.byte(b'0' + (number % 10) as u8)
    }

    // Things of a kind, in their order.
    pub(crate) fn each<T: Told>(&mut self, all: &[T])
        ensures { Wrote (each T.text all.now) self.old self.new }
    {
        for one in all {
            one.tell(self);
        }
    }

    // A word, and numbers behind it, each behind a blank.
    pub(crate) fn phrase(&mut self, word: &[u8], numbers: &[u64])
        ensures { Wrote (phrase word.now numbers.now) self.old self.new }
    {
        self.bytes(word);
        self.each(numbers);
    }

    // The same with a newline at its end.
    pub(crate) fn line(&mut self, word: &[u8], numbers: &[u64])
        ensures { Wrote (line word.now numbers.now) self.old self.new }
    {
        self.phrase(word, numbers);
        self.byte(b'\n');
    }
}
