ghost use Rattle.std.specs.Prelude.{◌≡◌, Some};
ghost use Rattle.listing.specs.Refusals.{number_of, text_of};

use std::error::Error;
use std::fmt;

// Why nothing is listed, with the number by which that is reported.
#[derive(Clone, Copy, PartialEq, Eq, Debug)]
pub enum ListingRefusal {
    // the buffer has less than 512 bytes
    BufferTooSmall = 30,
}

impl ListingRefusal {
    // The number by which the refusal is reported.
    pub fn number(self) -> u32
        ensures { result ≡ number_of self }
    {
        self as u32
    }
}

impl fmt::Display for ListingRefusal {
    ghost output = { λ r. Some (text_of r) };

    fn fmt<W: fmt::Write>(&self, f: &mut fmt::Formatter<W>) -> fmt::Result {
        match self {
            ListingRefusal::BufferTooSmall => f.write_str("a buffer that is too small"),
        }
    }
}

impl Error for ListingRefusal {}
