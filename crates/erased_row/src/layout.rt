// The layout table (document 01: sheet): two numbers for each row.
ghost use Rattle.std.specs.Prelude.{◌≡◌, ◌+◌, ◌*◌, ◌<◌, length, get_or};

// The number of cells of a row's result.
pub fn size_at(layout: &[u16], row: usize) -> usize
    requires { 2 * row + 1 < length layout.now }
    ensures { result ≡ get_or layout.now (2 * row) 0 }
{
    layout[2 * row] as usize
}

// A row's second number: an offset, or the size of a part.
pub fn second_at(layout: &[u16], row: usize) -> usize
    requires { 2 * row + 1 < length layout.now }
    ensures { result ≡ get_or layout.now (2 * row + 1) 0 }
{
    layout[2 * row + 1] as usize
}
