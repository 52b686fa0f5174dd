use std::ops::AddAssign;

// Counts for the summary: looks at stations that are not chosen, answered the same where the lists differ since the last tag 01; looks
// at chosen stations that are answered differently; answers that are not as they must be.
#[derive(Clone, Copy, Debug, Default, PartialEq, Eq)]
pub struct Counts {
    pub same: u64,
    pub different: u64,
    pub failed: u64,
}

// The counts wrap: no run comes near 2^64 readings, and the proof needs no bound.
impl AddAssign for Counts {
    fn add_assign(&mut self, more: Counts) {
        self.same = self.same.wrapping_add(more.same);
        self.different = self.different.wrapping_add(more.different);
        self.failed = self.failed.wrapping_add(more.failed);
    }
}
