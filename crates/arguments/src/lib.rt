// Document 01, "Commands": the fixed table of argument lengths, looked up by command code. Board, encoder and decoder know from here what
// is served.
#![tactic(auto)]

ghost use Rattle.std.specs.Prelude.{◌≡◌, ◌&&◌, ℕ, eqb, leb, get_or};
ghost use Rattle.rules.specs.Commands.{tabled, served, length_allowed};

use byte_slices::wide;

// Codes 0x00 to 0x0e, a row each: served, shortest and longest.
// Columns and no Option: the clause of `row`, by column, is that of `tabled`.
pub const ARGUMENTS: [[u8; 3]; 15] = [
    [1, 0, 0],
    [1, 2, 2],
    [0, 0, 0],
    [1, 0, 0],
    [1, 0, 0],
    [1, 0, 0],
    [1, 2, 254],
    [1, 0, 0],
    [1, 3, 3],
    [1, 0, 0],
    [0, 0, 0],
    [0, 0, 0],
    [1, 0, 0],
    [0, 0, 0],
    [0, 0, 0],
];

// The row of a code; zeros for a code that the table has no row for.
pub fn row(code: usize) -> [u8; 3]
    ensures { (column : ℕ) → get_or result column 0 ≡ tabled code column }
{
    if 15 <= code {
        return [0, 0, 0];
    }
    let rows = ARGUMENTS;
    rows[code]
}

// The row's command is served.
pub fn row_serves(columns: [u8; 3]) -> bool
    ensures { result ≡ eqb (get_or columns 0 0) 1 }
{
    columns[0] == 1
}

// It allows so many argument bytes.
pub fn row_allows(columns: [u8; 3], n: usize) -> bool
    ensures { result ≡ (leb (get_or columns 1 0) n && leb n (get_or columns 2 0)) }
{
    wide(columns[1]) <= n && n <= wide(columns[2])
}

// The command is served here.
pub fn served(code: usize) -> bool
    ensures { result ≡ served code }
{
    row_serves(row(code))
}

// So many argument bytes are allowed for the command.
pub fn length_allowed(code: usize, n: usize) -> bool
    ensures { result ≡ length_allowed code n }
{
    row_allows(row(code), n)
}
