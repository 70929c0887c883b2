// The static library for a controller's C program. The header is include/gap_listing.h. The call stands here and in `listing`, since
// a crate is a library for other crates or one for C.
#![tactic(auto)]

ghost use Rattle.std.specs.Prelude.{◌≡◌, length, if◌then◌else◌, nat_le};
ghost use Rattle.listing.specs.Laid.{laid};
ghost use Rattle.listing.specs.Listing.{listing};

// The listing call as a C program reaches it: the length of the listing, or 0 where the buffer has less than 512 bytes.
#[unsafe(no_mangle)]
pub extern "C" fn gap_listing(text: &[u8], out: &mut [u8]) -> usize
    ensures length { result ≡ (if nat_le 512 (length out.old) then length (listing text.now) else 0) }
    ensures bytes { out.new ≡ (if nat_le 512 (length out.old) then laid 0 (listing text.now) out.old else out.old) }
{
    listing::gap_listing(text, out)
}
