// The bytes lent for a relation: the first of them are listed, the others are zero.
use replay_text::lists;
use replay_text::text::Reader;

// How many bytes are lent, and those of them that are listed.
#[derive(Clone, Copy)]
pub struct Lent<'a> {
    pub room: usize,
    pub listed: &'a [u8],
}

// The bytes listed, to the front of `listed`; at most `most` are lent.
pub fn read<'a>(r: &mut Reader, listed: &'a mut [u8], most: usize) -> Lent<'a> {
    Lent {
        room: r.next_size_field(most),
        listed: r.next_list_field(listed),
    }
}

// The bytes listed, and zeros after them.
pub fn fill(store: &mut [u8], listed: &[u8]) {
    let n = store.len().min(listed.len());
    store[..n].copy_from_slice(&listed[..n]);
    store[n..].fill(0);
}

// The first n bytes are as stored, and the others zero.
// Stays: n is where the bytes listed end, and those behind it are looked at too.
pub fn expect(r: &mut Reader, store: &[u8], n: usize) {
    r.expect_list(lists::front(store, n));
    r.compared(lists::all_are(lists::behind(store, n), 0));
}
