#![tactic(auto)]

// Two offices on one sheet (SCOPE 9.5): two lists of fields read side by side, each on a sheet of its own. They differ only in the effects
// and capacities of chosen stations, and all answers must be the same but those to looks at these stations.
ghost use Rattle.std.specs.Prelude.{◌≡◌, ◌≤◌, length};

mod counts;
mod fields_mut;
mod lists;
mod worked;

pub use counts::Counts;
use fields_mut::FieldsMut;
use lists::Lists;
use recheck_bytes::{LIST_ROOM, zeros};
use recheck_offices::{Stations, change};
use recheck_readings::Rests;
pub use worked::worked_lists_agree;

// The two lists, whose fields are as long as each other, field by field.
fn compare(list: &[u8], other: &[u8], chosen: Stations) -> Counts {
    let mut lists = Lists::fresh();
    for (rest, others) in Rests(list).zip(Rests(other)) {
        lists.step(rest, others, chosen);
    }
    lists.counts
}

// Other values, where a field gives those of a chosen station.
fn change_all(list: &mut [u8], chosen: Stations) {
    for field in FieldsMut(list) {
        change(field, chosen);
    }
}

// The stored list, and the same with other values for the chosen stations.
// Stays: zeros and a part of them, since the copy is changed where it stands, and a `Buffer` lends its bytes for reading alone.
fn with_changes(stored: &[u8], chosen: Stations) -> Counts
    requires { length stored.now ≤ 262144 }
{
    let mut room = zeros::<LIST_ROOM>();
    let other = &mut room[..stored.len()];
    other.copy_from_slice(stored);
    change_all(other, chosen);
    compare(stored, other, chosen)
}

// The same for each station in turn, with the stations chosen for it.
pub fn at_stations<F: Fn(u8) -> Stations>(stored: &[u8], choose: F) -> Counts
    requires callable { F.IsAlwaysCallable choose }
    requires stored_len { length stored.now ≤ 262144 }
{
    let mut counts = Counts::default();
    for station in 0..16 {
        counts += with_changes(stored, choose(station));
    }
    counts
}
