// Why no further level is built.
#[derive(Clone, Copy)]
pub enum Stop {
    // A half has no room for a state of this level.
    Full(u32),
    // A job misses its deadline, with these finish times.
    Late(usize, u32, u32),
}
