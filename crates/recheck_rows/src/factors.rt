// The full factors of the kinds in a row, but for T.
// Stays: a function each, as each is a kind's column of the standard's table; `fluid` and `snow` are another's but for some rows.

ghost use Rattle.std.specs.Prelude.{◌≤◌};

// A factor of the standard, in thousandths: none is above 2.
#[derive(Clone, Copy)]
pub struct Factor {
    pub thousandths: u64,
    ghost bound: { thousandths ≤ 2000 },
}

// The plain row that a flood or ice row is made from; a plain row is its own.
fn plain(row: u8) -> u8 {
    match row {
        13 => 2,
        9 | 11 | 14 => 5,
        10 | 12 | 15 => 7,
        41 => 22,
        42 => 23,
        31 | 36 => 25,
        32 | 37 => 26,
        33 | 38 => 27,
        34 | 39 => 28,
        35 | 40 | 43 => 29,
        _ => row,
    }
}

pub fn dead(row: u8) -> Factor {
    let thousandths = match plain(row) {
        1 => 1400,
        2..=6 => 1200,
        7 | 8 => 900,
        21..=28 => 1000,
        29 | 30 => 600,
        _ => 0,
    };
    Factor { thousandths }
}

// As dead, but for rows 7 and 29, where fluid is left out.
pub fn fluid(row: u8) -> Factor {
    let thousandths = match plain(row) {
        7 | 29 => 0,
        _ => dead(row).thousandths,
    };
    Factor { thousandths }
}

// The full factor of both kinds of earth pressure.
pub fn earth(row: u8) -> Factor {
    let thousandths = match plain(row) {
        2..=8 => 1600,
        22..=30 => 1000,
        _ => 0,
    };
    Factor { thousandths }
}

// The live option halves the factor of lines 3 to 5 of the strength method and of the rows made from them, and of no other.
pub fn live(row: u8, option: u8) -> Factor {
    let thousandths = match plain(row) {
        2 => 1600,
        3 | 5 | 6 => { if option == 1 { 500 } else { 1000 } }
        22 => 1000,
        24 | 27 | 28 => 750,
        _ => 0,
    };
    Factor { thousandths }
}

// Asked of the row itself: in an ice row the roof load gives way to snow.
pub fn roof(row: u8) -> Factor {
    let thousandths = match row {
        2 | 5 | 9 | 11 => 500,
        3 | 4 => 1600,
        23 => 1000,
        24 | 27 | 33 | 38 => 750,
        _ => 0,
    };
    Factor { thousandths }
}

// Rows 6 and 28 and the ice rows take snow and no other load of the roof.
pub fn snow(row: u8) -> Factor {
    let thousandths = match row {
        6 => 200,
        28 | 34 | 39 => 750,
        13 | 14 => 500,
        42 => 1000,
        _ => roof(row).thousandths,
    };
    Factor { thousandths }
}

// Asked of the row itself: zone 2 of the strength method halves the wind of the plain row, and no ice row has it.
pub fn wind(row: u8) -> Factor {
    let thousandths = match row {
        4 => 500,
        5 | 7 | 9 | 10 => 1000,
        11 | 12 => 500,
        25 | 29 | 31 | 35 | 36 | 40 => 600,
        27 | 33 | 38 => 450,
        _ => 0,
    };
    Factor { thousandths }
}

// Asked of the row itself: no flood or ice row has earthquake.
pub fn earthquake(row: u8) -> Factor {
    let thousandths = match row {
        6 | 8 => 1000,
        26 | 30 => 700,
        28 => 525,
        _ => 0,
    };
    Factor { thousandths }
}

pub fn flood(row: u8) -> Factor {
    let thousandths = match row {
        9 | 10 => 2000,
        11 | 12 => 1000,
        31..=35 => 1500,
        36..=40 => 750,
        _ => 0,
    };
    Factor { thousandths }
}

// The weight of ice.
pub fn ice_weight(row: u8) -> Factor {
    let thousandths = match row {
        13 => 200,
        14 | 15 => 1000,
        41..=43 => 700,
        _ => 0,
    };
    Factor { thousandths }
}

// The wind on ice.
pub fn ice_wind(row: u8) -> Factor {
    let thousandths = match row {
        14 | 15 => 1000,
        42 | 43 => 700,
        _ => 0,
    };
    Factor { thousandths }
}
