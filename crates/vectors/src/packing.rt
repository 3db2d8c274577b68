// Pages that are kept packed, and read back.

use crate::tester::{Subject, Tester, write_text};
use page_packing::{PackedPages, Unpacker, dictionary};
use std::alloc::{AllocError, Global};

// How often each text is repeated for a page: none and one byte, a page of one byte that is as long as a page may be, brackets, names with
// few bytes between them, hashes, ids of statements, and a page. Then so many bytes that look like chance.
const ROWS: &str = r#"0 x => the same
1 x => the same
3 ab => the same
8388608 a => the same
500000 [ => the same
100000 [{"a": => the same
20000 "0123456789abcdef0123456789abcdef01234567", => the same
9000 "Q42$F078E5B3-F9A8-480E-B7AC-D97778CBBEF9","q42$f078e5b3-f9a8-480e-b7ac-d97778cbbef9", => the same
1 {"entities":{"Q42":{"type":"item","id":"Q42","labels":{"en":{"language":"en","value":"Douglas Adams"}},"claims":{}}}} => the same
100000 chance => the same"#;

// Pages that are kept, and the buffer into which they are read back.
#[derive(Drop)]
struct Kept {
    pages: PackedPages,
    buffer: Unpacker,
}

impl Subject for Kept {
    fn answer(&mut self, alloc: Global, given: &str, found: &mut Vec<u8>) -> Option<()> {
        let (times, text) = given.split_once(' ')?;
        let page = page_of(alloc, times.parse().ok()?, text)?;
        let same = self.gives_back(page.as_slice());
        drop(page);
        write_text(if same? { "the same" } else { "another page" }, found)
    }
}

impl Kept {
    // Keeps a page, reads it back, and lets it go, and says whether it is the same; None where memory is refused, or the page is too long.
    fn gives_back(&mut self, page: &[u8]) -> Option<bool> {
        if page.len() > 8_388_608 {
            return None;
        }
        let piece = self.pages.put(page).ok()?;
        let read = self.pages.read(&piece, &mut self.buffer);
        self.pages.free(piece);
        Some(read.is_ok() && self.buffer.text() == page)
    }
}

// The page of a row.
fn page_of(alloc: Global, times: usize, text: &str) -> Option<Vec<u8>> {
    if text == "chance" {
        return noise(alloc, times).ok();
    }
    Some(text.repeat(alloc, times).ok()?.into_bytes())
}

// Bytes that look like chance, which don't pack.
fn noise(alloc: Global, length: usize) -> Result<Vec<u8>, AllocError> {
    let mut bytes = Vec::with_capacity(alloc, length)?;
    let mut state = 1u64;
    for _ in 0..length {
        state = state
            .wrapping_mul(6_364_136_223_846_793_005)
            .wrapping_add(1_442_695_040_888_963_407);
        bytes.push((state >> 56) as u8)?;
    }
    Ok(bytes)
}

// Pages of which none is kept.
fn nothing_kept(alloc: Global) -> Option<Kept> {
    let pages = PackedPages::new(alloc, dictionary()).ok()?;
    let buffer = Unpacker::new(alloc);
    Some(Kept { pages, buffer })
}

pub(crate) fn try_packing(tester: &mut Tester<'_>) {
    match nothing_kept(tester.alloc()) {
        Some(mut kept) => {
            tester.try_rows("pages are kept packed", ROWS, &mut kept);
            drop(kept);
        }
        None => tester.try_text("pages are kept packed", ROWS, None),
    }
}
