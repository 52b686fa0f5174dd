// The lines for the names kept.
ghost use Rattle.std.specs.Prelude.{◌≡◌};
ghost use Rattle.case_names.specs.Text.{lines_of};
ghost use Rattle.case_names.specs.Table.{cases, kept};

use crate::table::Names;
use crate::text::Text;

// The most bytes of the lines.
const LINES: usize = 3200;

pub type Lines = Text<LINES>;

// The line of each case that has a name, rising.
// Stays: a cast, since a case fits; over `(0..32).zip(names.iter())` the loop has no index, and std has lemmas for a zip of two slices alone.
pub fn lines_for(names: &Names) -> Lines
    ensures { result ≡ lines_of (kept names.now) cases }
{
    let mut lines = Lines::new();
    for (case, name) in names.iter().enumerate() {
        let name = name.as_bytes();
        if !name.is_empty() {
            lines.push_line(case as u8, name);
        }
    }
    lines
}
