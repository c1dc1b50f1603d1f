/// How many entries a history has, and how many replies of some kinds.
#[derive(Clone, Copy)]
pub struct Tally {
    pub entries: usize,
    pub refused: usize,
    pub purged: usize,
    pub killed: usize,
    pub freed: usize,
    pub compressed: usize,
}
