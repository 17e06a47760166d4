// A thin reader over a lent reply: the slice and a position in it. Callers use the functions with plain parameters: they make a reader, read field after field through it, and give the fields back
// by value.
ghost use Rattle.std.specs.Prelude.{◌≡◌, ◌+◌, ◌<◌, ◌^◌, length};
ghost use Rattle.reply_bytes.specs.texts.Bytes.{u16_at, u32_at, text_from};
ghost use Rattle.reply_bytes.specs.texts.Code.{text_end};
ghost use Rattle.reply_bytes.specs.reader.Code.{header_of, start_of, entry_marks, offsets_of};

use crate::texts::Span;

#[derive(Clone, Copy)]
pub struct Reader<'a> {
    pub src: &'a [u8],
    pub at: usize,
}

impl<'a> Reader<'a> {
    pub fn new(src: &'a [u8], at: usize) -> Reader<'a>
        ensures { (result.src ≡ src.entry) × (result.at ≡ at) }
    {
        Reader { src, at }
    }

    // The u16 at the position.
    pub fn unit(self) -> u16
        requires { self.at + 1 < length self.src.now }
        ensures { result ≡ u16_at self.entry.src.now self.entry.at }
    {
        crate::texts::unit_at(self.src, self.at)
    }

    // The u32 at the position.
    pub fn word(self) -> u32
        requires { self.at + 3 < length self.src.now }
        ensures { result ≡ u32_at self.entry.src.now self.entry.at }
    {
        crate::texts::word_at(self.src, self.at)
    }

    // The text at the position.
    pub fn text(self) -> Option<Span>
        ensures { result ≡ text_end self.entry.at 0 (text_from self.entry.src.now self.entry.at) }
    {
        crate::texts::read_text(self.src, self.at)
    }

    // The reader n bytes on.
    pub fn moved(self, n: usize) -> Reader<'a>
        requires { self.at + n < 2 ^ 64 }
        ensures { (result.src ≡ self.entry.src) × (result.at ≡ self.entry.at + n) }
    {
        Reader {
            at: self.at + n,
            ..self
        }
    }
}

#[derive(Clone, Copy)]
pub struct Header {
    pub count: u16,
    pub flags: u32,
}

#[derive(Clone, Copy)]
pub struct Start {
    pub version: u16,
    pub size: u16,
}

#[derive(Clone, Copy)]
pub struct Marks {
    pub kind: u16,
    pub flags: u16,
    pub ttl: u32,
}

#[derive(Clone, Copy)]
pub struct Offsets {
    pub first: u16,
    pub second: u16,
    pub third: u16,
}

// The header of a reply.
pub fn read_header(src: &[u8]) -> Header
    requires { 7 < length src.now }
    ensures { result ≡ header_of src.now }
{
    let r = Reader::new(src, 2);
    Header {
        count: r.unit(),
        flags: r.moved(2).word(),
    }
}

// The start of the entry at e.
pub fn read_start(src: &[u8], e: usize) -> Start
    requires { e + 3 < length src.now }
    ensures { result ≡ start_of src.now e }
{
    let r = Reader::new(src, e);
    Start {
        version: r.unit(),
        size: r.moved(2).unit(),
    }
}

// Its ServerType, flags and TTL.
pub fn read_marks(src: &[u8], e: usize) -> Marks
    requires { e + 11 < length src.now }
    ensures { result ≡ entry_marks src.now e }
{
    let r = Reader::new(src, e + 4);
    Marks {
        kind: r.unit(),
        flags: r.moved(2).unit(),
        ttl: r.moved(4).word(),
    }
}

// The three numbers after its TTL.
pub fn read_offsets(src: &[u8], e: usize) -> Offsets
    requires { e + 17 < length src.now }
    ensures { result ≡ offsets_of src.now e }
{
    let r = Reader::new(src, e + 12);
    Offsets {
        first: r.unit(),
        second: r.moved(2).unit(),
        third: r.moved(4).unit(),
    }
}

// The u16 that starts at a byte.
pub fn read_unit(src: &[u8], at: usize) -> u16
    requires { at + 1 < length src.now }
    ensures { result ≡ u16_at src.now at }
{
    Reader::new(src, at).unit()
}

// The text that starts at a byte.
pub fn read_text(src: &[u8], at: usize) -> Option<Span>
    ensures { result ≡ text_end at 0 (text_from src.now at) }
{
    Reader::new(src, at).text()
}
