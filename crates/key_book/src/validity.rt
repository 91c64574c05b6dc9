// Whether the bytes of a book are good: each record a key and zeros, and the keys ascend.
ghost use Rattle.std.specs.Prelude.{◌≡◌, true, false, not, ◌+◌, ◌*◌, ◌≤◌, ◌<◌, length, get_or};
ghost use Rattle.value_table.specs.Value.{max_length};
ghost use Rattle.json_theory.specs.Book.{book_size, before, good_record, book_records, bad_book};
ghost use Rattle.key_book.specs.Inside.Records.{book_record, HasRecord, GoodAt};

pub const SIZE: usize = 32;

// Record i.
pub fn record(book: &[u8], i: usize) -> &[u8]
    requires { HasRecord book.now i }
    ensures { (result.now ≡ book_record book.now i) × (length result.now ≡ book_size) }
{
    &book[SIZE * i..SIZE * i + SIZE]
}

// What stands behind a key, which is compared by words and not byte by byte.
const ZEROS: [u8; SIZE] = [0; SIZE];

// Whether a record is a key, of a byte or more, and zeros.
fn good_key(record: &[u8]) -> bool
    requires { length record.now ≡ book_size }
    ensures { result ≡ good_record record.now }
{
    let key = record.iter().position(|c| *c == 0).unwrap_or(record.len());
    let behind = &record[key..];
    key != 0 && behind == &ZEROS[key..]
}

// Whether record i comes before record i + 1.
fn ascends(book: &[u8], i: usize) -> bool
    requires { HasRecord book.now (i + 1) }
    ensures { result ≡ before (book_record book.now i) (book_record book.now (i + 1)) }
{
    record(book, i).cmp(&record(book, i + 1)).is_lt()
}

// Whether record i of `keys` is a key, and comes before the next one.
fn good_at(book: &[u8], i: usize, keys: usize) -> bool
    requires { HasRecord book.now i × (keys ≡ book_records book.now) }
    ensures { GoodAt book.now i result }
{
    good_key(record(book, i)) && (keys <= i + 1 || ascends(book, i))
}

// Whether the keys are well-formed and ascend.
pub fn good_book(book: &[u8]) -> bool
    requires { length book.now ≤ max_length }
    ensures { bad_book book.now ≡ not result }
{
    let keys = book.len() / SIZE;
    (0..keys).all(|i| good_at(book, i, keys))
}
