// A text read into a referral cache: document 01, "The listing" and "Numbers given back".
ghost use Rattle.std.specs.Prelude.{◌≡◌, Err};
ghost use Rattle.listing_read.specs.listing_rules.Read.{read_number, read_after};
ghost use Rattle.listing_read.specs.read_listing.Code.{load_refusal};

use cache::places::PLACE;

// Why a text is not read into a cache.
#[derive(Clone, Copy, Debug, PartialEq, Eq)]
pub enum ReadError {
    NotInOrder,
    NotListing,
    TooMany,
}

impl From<ReadError> for u32 {
    ghost from_gives = { λ error n. n ≡ load_refusal (Err error) };

    fn from(error: ReadError) -> u32 {
        match error {
            ReadError::NotInOrder => 4,
            ReadError::NotListing => 8,
            ReadError::TooMany => 9,
        }
    }
}

// A listing replaces the referral cache. The whole text is tested before anything is written: a refusal changes nothing.
pub fn read(text: &[u16], refs: &mut [u16]) -> Result<(), ReadError>
    ensures number { load_refusal result ≡ read_number text.now refs.old }
    ensures cache { refs.new ≡ read_after text.now refs.old }
{
    if !cache::order::right_size(refs) {
        return Err(ReadError::NotInOrder);
    }
    let Some(count) = crate::check_listing::check_text(text) else {
        return Err(ReadError::NotListing);
    };
    if refs.len() / PLACE < count {
        return Err(ReadError::TooMany);
    }
    crate::fill_cache::fill(text, refs);
    Ok(())
}
