// A reader that borrows the chunk: its bytes and a place, in one record. Thin methods of it ask the cursor for the field there.
#![tactic(auto)]

ghost use Rattle.std.specs.Prelude.{◌≡◌};
ghost use Rattle.cursor.specs.Fields.{byte_at, line_at, bits_at, text_at};

use cursor::Text;

#[derive(Clone, Copy)]
pub struct Reader<'a> {
    pub bytes: &'a [u8],
    pub at: usize,
}

// A function and no method: theorem `reads` and the edit reader_at_the_start name it.
pub fn reader_at<'a>(bytes: &'a [u8], at: usize) -> Reader<'a>
    ensures { (result.bytes ≡ bytes.entry) × (result.at ≡ at) }
{
    Reader { bytes, at }
}

impl<'a> Reader<'a> {
    pub fn get_byte(self) -> Option<u8>
        ensures { byte_at self.entry.bytes.now self.entry.at ≡ result }
    {
        cursor::byte_at(self.bytes, self.at)
    }

    pub fn get_line(self) -> Option<u32>
        ensures { line_at self.entry.bytes.now self.entry.at ≡ result }
    {
        cursor::line_at(self.bytes, self.at)
    }

    pub fn get_bits(self) -> Option<u64>
        ensures { bits_at self.entry.bytes.now self.entry.at ≡ result }
    {
        cursor::bits_at(self.bytes, self.at)
    }

    pub fn get_text(self) -> Option<Text>
        ensures { text_at self.entry.bytes.now self.entry.at ≡ result }
    {
        cursor::text_at(self.bytes, self.at)
    }
}

// From a slice and a place, by a reader made there: what chunk, nodes and variables read through, and what theorem `reads` speaks of. `cursor::byte_at` .. `text_at` say the same.
pub fn read_byte(bytes: &[u8], at: usize) -> Option<u8>
    ensures { byte_at bytes.now at ≡ result }
{
    reader_at(bytes, at).get_byte()
}

pub fn read_line(bytes: &[u8], at: usize) -> Option<u32>
    ensures { line_at bytes.now at ≡ result }
{
    reader_at(bytes, at).get_line()
}

pub fn read_bits(bytes: &[u8], at: usize) -> Option<u64>
    ensures { bits_at bytes.now at ≡ result }
{
    reader_at(bytes, at).get_bits()
}

pub fn read_text(bytes: &[u8], at: usize) -> Option<Text>
    ensures { text_at bytes.now at ≡ result }
{
    reader_at(bytes, at).get_text()
}
