// What stays the same while a level is built: the cores, the jobs, the states for which a half of the table has room, and the index of the level.
use store::Index;

#[derive(Clone, Copy)]
pub struct Shape {
    pub cores: usize,
    pub jobs: usize,
    pub capacity: usize,
    pub index: Index,
}
