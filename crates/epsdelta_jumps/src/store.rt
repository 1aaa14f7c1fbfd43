// The lists that are lent for the rows of two models.

// Room for the exit rate of each state, where its jumps begin, and the target and rate of each jump.
#[derive(Drop)]
pub struct RowStore<'a> {
    pub exits: &'a mut [f64],
    pub starts: &'a mut [u32],
    pub targets: &'a mut [u32],
    pub probs: &'a mut [f64],
}
