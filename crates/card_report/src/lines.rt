// Lines of numbers, written to a store.
ghost use Rattle.std.specs.Prelude.{◌≡◌, ◌+◌, ◌*◌, ◌≤◌, length};
ghost use Rattle.std.proofs.lemmas.List.Edits.{sets};
ghost use Rattle.card_layout.specs.Layout;

use card_layout::column;

// A line of numbers, stored in the first bytes.
// Stays: `out.chunks_exact_mut(6).zip(row)` has no k, by which the invariant says what of the line is written; it would speak of the parts that an iterator still lends.
pub(crate) fn put_line(out: &mut [u8], row: &[u32])
    requires { 6 * length row.now + 1 ≤ length out.old }
    ensures { out.new ≡ sets out.old 0 (Layout.line row.now) }
{
    for (k, n) in row.iter().enumerate() {
        out[6 * k..6 * k + 6].copy_from_slice(&column(*n));
    }
    out[6 * row.len()] = b'\n';
}
