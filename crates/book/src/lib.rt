// The key book (document 01, "Replies and refusals"): records of a KeyID and a key, in a lent slice. No public function has a
// `requires`: any slice is a book, and `sound` says whether it is one to work with.
#![tactic(auto)]

ghost use Rattle.std.specs.Prelude.{◌≡◌};
ghost use Rattle.std.specs.Option.{option_copied};
ghost use Rattle.book.specs.Book.{sound_of, found_of};

// No sound book has more records.
const LIMIT: usize = 16;

pub const KEY_BYTES: usize = 16;

// A KeyID, and its key.
const RECORD_BYTES: usize = 1 + KEY_BYTES;

// Whether the book is one that no call refuses with 1.
pub fn sound(book: &[u8]) -> bool
    ensures { result ≡ sound_of book.now }
{
    let (records, rest) = book.as_chunks::<RECORD_BYTES>();
    rest.is_empty() & (records.len() <= LIMIT) & records.is_sorted_by(|a, b| a[0] < b[0])
}

// The key that stands under a KeyID, as a part of the book. KeyIDs are public, so the search may end early.
pub fn find(book: &[u8], id: u8) -> Option<&[u8]>
    ensures { option_copied result ≡ found_of id book.now }
{
    let (records, _) = book.as_chunks::<RECORD_BYTES>();
    records
        .iter()
        .find(|record| record[0] == id)
        .map(|record| &record[1..])
}
