// Reading a line: bytes, names and numbers, each of which is taken off the line's front.
ghost use Rattle.std.specs.Prelude.{◌<◌, length, IsTrue};
ghost use Rattle.cases.specs.Reading.{ReadOn};

// A number has no more digits once it is past this.
const SIZE_MOST: usize = 1000000000000;

// What is left of a line.
#[derive(Clone, Copy)]
pub(crate) struct Left<'a> {
    pub(crate) bytes: &'a [u8],
}

impl<'a> Left<'a> {
    // Takes this byte; is it here?
    // Stays: it moves on where it answers true, so its answers are no `&&`.
    pub(crate) fn take(&mut self, byte: u8) -> bool
        ensures shorter { IsTrue result → length self.new.bytes.now < length self.old.bytes.now }
        ensures on { ReadOn self.old self.new }
    {
        match self.bytes.split_first() {
            Some((first, rest)) if *first == byte => {
                self.bytes = rest;
                true
            }
            _ => false,
        }
    }

    // Takes a name, which is made of letters.
    pub(crate) fn name(&mut self) -> &'a [u8]
        ensures { ReadOn self.old self.new }
    {
        let end = self
            .bytes
            .iter()
            .position(|byte| *byte < b'a')
            .unwrap_or(self.bytes.len());
        let (taken, rest) = self.bytes.split_at(end);
        self.bytes = rest;
        taken
    }

    // Takes `=` and a minus, where they are here; is there a minus?
    fn minus(&mut self) -> bool
        ensures { ReadOn self.old self.new }
    {
        self.take(b'=');
        self.take(b'-')
    }

    // Takes the digits up to the next space or line end. What is no digit, or one too many, says nothing.
    // Stays: what is no digit adds none, as tests/model.py has it; std's parse refuses it.
    fn digits(&mut self) -> usize
        ensures { ReadOn self.old self.new }
    {
        let mut size = 0;
        // Stays: each turn takes its byte off the line's front: it counts no index.
        while let Some((byte, rest)) = self.bytes.split_first()
            && b' ' < *byte
        {
            if byte.is_ascii_digit() && size <= SIZE_MOST {
                size = 10 * size + usize::from(*byte - b'0');
            }
            self.bytes = rest;
        }
        size
    }

    // Takes a number, without its sign.
    pub(crate) fn size(&mut self) -> usize
        ensures { ReadOn self.old self.new }
    {
        self.minus();
        self.digits()
    }

    // Takes a number, as a signed word; what has more bits is the least word.
    pub(crate) fn word(&mut self) -> i32
        ensures { ReadOn self.old self.new }
    {
        let minus = self.minus();
        match i32::try_from(self.digits()) {
            Ok(x) if minus => -x,
            Ok(x) => x,
            Err(_) => i32::MIN,
        }
    }

    // Takes a number, without its sign, as a byte or an unsigned word; what has more bits is the greatest.
    pub(crate) fn byte(&mut self) -> u8 {
        u8::try_from(self.size()).unwrap_or(u8::MAX)
    }

    // Stays: beside byte, a line each: one function over their types would name a bound and the greatest of each.
    pub(crate) fn unsigned(&mut self) -> u32 {
        u32::try_from(self.size()).unwrap_or(u32::MAX)
    }

    // Takes `=` and a number, without its sign.
    pub(crate) fn setting(&mut self) -> Option<usize>
        ensures { ReadOn self.old self.new }
    {
        if self.take(b'=') {
            Some(self.size())
        } else {
            None
        }
    }
}
