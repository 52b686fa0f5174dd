#![tactic(auto)]

// The constant table of rows: the factor of a kind in a row, and the kinds that have one.
ghost use Rattle.std.specs.Prelude.{◌≡◌, ◌<◌};
ghost use Rattle.standard.specs.Kinds.{number_of};
ghost use Rattle.standard.specs.Rows.{row_count, straining_in, factor_of};
ghost use Rattle.standard.specs.Columns.{entries_in, row_table, kinds_in};

use standard::{Kind, ROWS, Settings};

const COLUMNS: usize = 12;

pub type RowTable = [[u16; COLUMNS]; ROWS];

// Rows by number; the columns are D, F, H, L, L with live option 1, roof, S, W, E, Fa, Di, Wi.
// Stays: numbers by row and column, since one constant table by row number is a rule of the project.
static LINES: RowTable = [
    [0, 0, 0, 0, 0, 0, 0, 0, 0, 0, 0, 0],
    [1400, 1400, 0, 0, 0, 0, 0, 0, 0, 0, 0, 0],
    [1200, 1200, 1600, 1600, 1600, 500, 500, 0, 0, 0, 0, 0],
    [1200, 1200, 1600, 1000, 500, 1600, 1600, 0, 0, 0, 0, 0],
    [1200, 1200, 1600, 0, 0, 1600, 1600, 500, 0, 0, 0, 0],
    [1200, 1200, 1600, 1000, 500, 500, 500, 1000, 0, 0, 0, 0],
    [1200, 1200, 1600, 1000, 500, 0, 200, 0, 1000, 0, 0, 0],
    [900, 0, 1600, 0, 0, 0, 0, 1000, 0, 0, 0, 0],
    [900, 900, 1600, 0, 0, 0, 0, 0, 1000, 0, 0, 0],
    [1200, 1200, 1600, 1000, 500, 500, 500, 1000, 0, 2000, 0, 0],
    [900, 0, 1600, 0, 0, 0, 0, 1000, 0, 2000, 0, 0],
    [1200, 1200, 1600, 1000, 500, 500, 500, 500, 0, 1000, 0, 0],
    [900, 0, 1600, 0, 0, 0, 0, 500, 0, 1000, 0, 0],
    [1200, 1200, 1600, 1600, 1600, 0, 500, 0, 0, 0, 200, 0],
    [1200, 1200, 1600, 1000, 500, 0, 500, 0, 0, 0, 1000, 1000],
    [900, 0, 1600, 0, 0, 0, 0, 0, 0, 0, 1000, 1000],
    [0, 0, 0, 0, 0, 0, 0, 0, 0, 0, 0, 0],
    [0, 0, 0, 0, 0, 0, 0, 0, 0, 0, 0, 0],
    [0, 0, 0, 0, 0, 0, 0, 0, 0, 0, 0, 0],
    [0, 0, 0, 0, 0, 0, 0, 0, 0, 0, 0, 0],
    [0, 0, 0, 0, 0, 0, 0, 0, 0, 0, 0, 0],
    [1000, 1000, 0, 0, 0, 0, 0, 0, 0, 0, 0, 0],
    [1000, 1000, 1000, 1000, 1000, 0, 0, 0, 0, 0, 0, 0],
    [1000, 1000, 1000, 0, 0, 1000, 1000, 0, 0, 0, 0, 0],
    [1000, 1000, 1000, 750, 750, 750, 750, 0, 0, 0, 0, 0],
    [1000, 1000, 1000, 0, 0, 0, 0, 600, 0, 0, 0, 0],
    [1000, 1000, 1000, 0, 0, 0, 0, 0, 700, 0, 0, 0],
    [1000, 1000, 1000, 750, 750, 750, 750, 450, 0, 0, 0, 0],
    [1000, 1000, 1000, 750, 750, 0, 750, 0, 525, 0, 0, 0],
    [600, 0, 1000, 0, 0, 0, 0, 600, 0, 0, 0, 0],
    [600, 600, 1000, 0, 0, 0, 0, 0, 700, 0, 0, 0],
    [1000, 1000, 1000, 0, 0, 0, 0, 600, 0, 1500, 0, 0],
    [1000, 1000, 1000, 0, 0, 0, 0, 0, 0, 1500, 0, 0],
    [1000, 1000, 1000, 750, 750, 750, 750, 450, 0, 1500, 0, 0],
    [1000, 1000, 1000, 750, 750, 0, 750, 0, 0, 1500, 0, 0],
    [600, 0, 1000, 0, 0, 0, 0, 600, 0, 1500, 0, 0],
    [1000, 1000, 1000, 0, 0, 0, 0, 600, 0, 750, 0, 0],
    [1000, 1000, 1000, 0, 0, 0, 0, 0, 0, 750, 0, 0],
    [1000, 1000, 1000, 750, 750, 750, 750, 450, 0, 750, 0, 0],
    [1000, 1000, 1000, 750, 750, 0, 750, 0, 0, 750, 0, 0],
    [600, 0, 1000, 0, 0, 0, 0, 600, 0, 750, 0, 0],
    [1000, 1000, 1000, 1000, 1000, 0, 0, 0, 0, 0, 700, 0],
    [1000, 1000, 1000, 0, 0, 0, 1000, 0, 0, 0, 700, 700],
    [600, 0, 1000, 0, 0, 0, 0, 0, 0, 0, 700, 700],
];

// By row: bit j where kind j has a factor. A number that no row has is never open.
// Stays: numbers by row, as the table above.
static ROW_KINDS: [u16; ROWS] = [
    16384, 6, 16894, 16894, 17374, 17406, 17598, 16922, 17438, 19454, 18970, 19454, 18970, 20670,
    28862, 28698, 16384, 16384, 16384, 16384, 16384, 6, 16446, 16862, 16894, 16926, 17438, 17406,
    17598, 16922, 17438, 18974, 18462, 19454, 18622, 18970, 18974, 18462, 19454, 18622, 18970,
    20542, 28830, 28698,
];

// The factor of T in a row: the sheet's, and none in rows 1 and 21.
fn straining_in(s: Settings, row: u8) -> u16
    ensures { result ≡ straining_in s row }
{
    match row {
        1 | 21 => 0,
        _ => s.straining,
    }
}

// The rows by number, for callers outside the repository: `factor` reads a line where it stands.
pub fn row_table() -> RowTable
    ensures { result ≡ row_table }
{
    LINES
}

// The factors of a row, by column.
// Stays: a clause on the row, here and in `naming` and `governing`, since definitions make a `Best` of any row, and each would owe the
// fact; `terms::Row` has it.
fn line(row: u8) -> [u16; COLUMNS]
    requires { row < row_count }
    ensures { result ≡ entries_in row }
{
    LINES[usize::from(row)]
}

// The factor of a kind in a row.
#[tactic(auto, unfolding(standard::specs::Rows::factor_of, standard::specs::Columns::entries_in))]
pub fn factor(s: Settings, row: u8, kind: Kind) -> u16
    requires { row < row_count }
    ensures { result ≡ factor_of s row (number_of kind) }
{
    let line = line(row);
    match kind {
        Kind::Dead => line[0],
        Kind::Fluid => line[1],
        Kind::EarthPermanent | Kind::EarthOther => line[2],
        Kind::Live if s.live == 1 => line[4],
        Kind::Live => line[3],
        Kind::RoofLive | Kind::Rain => line[5],
        Kind::Snow => line[6],
        Kind::Wind => line[7],
        Kind::Earthquake => line[8],
        Kind::Flood => line[9],
        Kind::Ice => line[10],
        Kind::WindOnIce => line[11],
        Kind::SelfStraining => straining_in(s, row),
    }
}

// The kinds that have a factor in a row, as a set: bit j is kind j.
pub fn kinds_in(row: u8) -> u16
    requires { row < row_count }
    ensures { result ≡ kinds_in row }
{
    ROW_KINDS[usize::from(row)]
}
