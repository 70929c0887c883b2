// The text of a listing, line by line.
ghost use Rattle.std.specs.Prelude.{◌≡◌, [], ◌++◌, map};
ghost use Rattle.listing.specs.Listing.{ending};
ghost use Rattle.listing.specs.Pages.{bytes_of, written, fitting};

use fixed::FixedList;
use itoa::Buffer;

// What a page has room for; no listing is longer than 299 bytes.
const PAGE: usize = 512;

// A field of a line: bytes as they stand, or a number in decimal.
#[derive(Clone, Copy)]
pub(crate) enum Field<'a> {
    Word(&'a [u8]),
    Number(u32),
}

// The lines so far. What goes beyond the room is cut off.
#[derive(Clone, Copy)]
pub(crate) struct Page {
    text: FixedList<u8, PAGE>,
}

impl Page {
    // Nothing is written yet.
    pub(crate) fn new() -> Page
        ensures { written result ≡ [] }
    {
        Page {
            text: FixedList::filled_with(0),
        }
    }

    // What is written.
    pub(crate) fn bytes(&self) -> &[u8]
        ensures { result.now ≡ written self.now }
    {
        self.text.as_slice()
    }

    // A `write!` would do, but may fail by its contract, and a listing may not.
    fn put(&mut self, field: Field<'_>)
        ensures { written self.new ≡ fitting (written self.old ++ bytes_of field.entry) }
    {
        match field {
            Field::Word(bytes) => self.text.fill_from(bytes),
            Field::Number(n) => self.text.fill_from(Buffer::new().format(n).as_bytes()),
        }
    }

    // Writes a line: its fields, with commas between them, and byte 10.
    pub(crate) fn put_line(&mut self, first: Field<'_>, others: &[Field<'_>])
        ensures { written self.new ≡ fitting (written self.old ++ (bytes_of first.entry ++ ending (map bytes_of others.now))) }
    {
        self.put(first);
        for field in others {
            self.put(Field::Word(b","));
            self.put(*field);
        }
        self.put(Field::Word(b"\n"));
    }
}
