use envelope::{Extreme, Extremes, Utilised};
use recheck_bytes::{byte_at, index_at, number_at, word_at};
use recheck_sheet::{ACCEPTED, EXTREMES, REFUSED, UTILISATION};
use sheet::Answer;

// An extreme against its 17 bytes.
// Stays: beside the readings of recheck_answers, since here each number is compared with one that the library gives.
fn extreme_is(e: Extreme, part: &[u8]) -> bool {
    let value = e.value.cast_unsigned() == number_at(part, 0);
    let row = e.row == index_at(part, 8);
    let acting = e.acting == word_at(part, 9);
    let low = e.low == word_at(part, 13);
    value && row && acting && low
}

fn extremes_are(e: Extremes, answer: &[u8]) -> bool {
    let header = answer.len() == 37 && answer.starts_with(&[EXTREMES, 0, 34]);
    header && extreme_is(e.maximum, &answer[3..20]) && extreme_is(e.minimum, &answer[20..])
}

fn utilisation_is(u: Utilised, answer: &[u8]) -> bool {
    let header = answer.len() == 29 && answer.starts_with(&[UTILISATION, 0, 26]);
    let share = u.numerator == number_at(answer, 3) && u.denominator == number_at(answer, 11);
    let verdict = u.pass == (byte_at(answer, 19) == 1);
    let row = u.row == index_at(answer, 20);
    let acting = u.acting == word_at(answer, 21);
    let low = u.low == word_at(answer, 25);
    header && share && verdict && row && acting && low
}

// Whether the bytes are this answer.
pub fn answer_is(a: Answer, answer: &[u8]) -> bool {
    match a {
        Answer::Accepted => answer == [ACCEPTED, 0, 0].as_slice(),
        Answer::Extremes(e) => extremes_are(e, answer),
        Answer::Utilisation(u) => utilisation_is(u, answer),
        Answer::Refused(n) => answer == [REFUSED, 0, 1, n].as_slice(),
    }
}
