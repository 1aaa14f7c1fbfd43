// Lines of numbers in columns of six.
ghost use Rattle.std.specs.Prelude.{◌≡◌, true, ◌+◌, ◌*◌, ◌≤◌, ◌<◌, length, get_or};
ghost use Rattle.card_layout.specs.Layout;
ghost use Rattle.card_layout.specs.Layout.{value};

// The byte at the place of the power p: a space above the first digit, else a digit.
fn place(p: u32, n: u32) -> u8
    requires { 0 < p }
    ensures { result ≡ Layout.place p n }
{
    if n < p {
        return b' ';
    }
    b'0' + (n / p % 10) as u8
}

// The six bytes of a number; of one over 999,999 its last six digits.
pub fn column(n: u32) -> [u8; 6]
    ensures { result ≡ Layout.column n }
{
    [
        place(100000, n),
        place(10000, n),
        place(1000, n),
        place(100, n),
        place(10, n),
        b'0' + (n % 10) as u8,
    ]
}

// What the byte at i counts as a digit, 0 past the end.
fn digit(s: &[u8], i: usize) -> u32
    ensures { (result ≡ Layout.digit (get_or s.now i 0)) × (result ≤ 207) }
{
    s.get(i).map_or(0, |b| u32::from(b.saturating_sub(b'0')))
}

// The number in the first six bytes; what is not there counts 0.
pub fn number(bytes: &[u8]) -> u32
    ensures { (result ≡ value bytes.now) × (result ≤ 22999977) }
{
    let high = 100000 * digit(bytes, 0) + 10000 * digit(bytes, 1) + 1000 * digit(bytes, 2);
    high + 100 * digit(bytes, 3) + 10 * digit(bytes, 4) + digit(bytes, 5)
}

// The line of k columns that the bytes begin with is as laid out.
fn line_laid(bytes: &[u8], k: usize) -> bool
    ensures is { result ≡ Layout.starts (Layout.line (Layout.numbers k bytes.now)) bytes.now }
    ensures room { result ≡ true → 6 * k + 1 ≤ length bytes.now }
{
    let mut rest = bytes;
    for _ in 0..k {
        if !rest.starts_with(&column(number(rest))) {
            return false;
        }
        rest = &rest[6..];
    }
    rest.starts_with(b"\n")
}

// The n lines of k columns that the bytes begin with are as laid out.
pub fn laid(bytes: &[u8], n: u32, k: usize) -> bool
    ensures is { result ≡ Layout.laid n k bytes.now }
    ensures room { result ≡ true → n * (6 * k + 1) ≤ length bytes.now }
{
    let mut rest = bytes;
    for _ in 0..n {
        if !line_laid(rest, k) {
            return false;
        }
        rest = &rest[6 * k + 1..];
    }
    true
}
