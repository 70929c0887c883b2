ghost use Rattle.std.specs.Prelude.{◌≡◌, length, if◌then◌else◌, nat_le};
ghost use Rattle.listing.specs.Laid.{laid};
ghost use Rattle.listing.specs.Listing.{listing};

use crate::listings::list;

// The listing call as a C program has it: the length of the listing, or 0 where the buffer has less than 512 bytes, since C has
// no `Result`. The crate listing_c gives it the symbol that C links. Like `list`, it says itself what the buffer holds then.
pub fn gap_listing(text: &[u8], out: &mut [u8]) -> usize
    ensures length { result ≡ (if nat_le 512 (length out.old) then length (listing text.now) else 0) }
    ensures bytes { out.new ≡ (if nat_le 512 (length out.old) then laid 0 (listing text.now) out.old else out.old) }
{
    list(text, out).unwrap_or(0)
}
