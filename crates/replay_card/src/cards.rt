// A stored card: its bytes, the length of the store and the byte that it holds everywhere; the answer, and the text in the store.
use card::report;
use replay_text::lists;
use replay_text::text::Reader;

// The text is as stored, and the bytes after it are as they were.
fn expect_store(r: &mut Reader, out: &[u8], written: usize, byte: u8) {
    r.expect_hex(lists::front(out, written));
    r.compared(lists::all_are(lists::behind(out, written), byte));
}

pub fn run(r: &mut Reader, card: &mut [u8], out: &mut [u8]) {
    let card = r.next_hex_field(card);
    let room = r.next_size_field(out.len());
    let byte = (r.next_short_field() % 256) as u8;
    let out = lists::front_mut(out, room);
    out.fill(byte);
    let answer = report(card, out);
    r.expect_answer(answer);
    expect_store(r, out, answer.unwrap_or(0), byte);
}
