// Reads tagged fields from standard input and writes one answer field for each, as soon as the field is complete.

#![tactic(auto)]

use sheet::Sheet;

// The input buffer holds the largest field, 60,003 bytes.
fn main(rt: HostRuntime) {
    let mut sheet = Sheet::fresh(standard::fresh_settings());
    let mut input = io::large_buffer();
    let mut output = io::large_buffer();
    service::serve(
        &rt,
        &mut rt.stdin(),
        &mut rt.stdout(),
        &mut sheet,
        &mut input,
        &mut output,
    );
}
