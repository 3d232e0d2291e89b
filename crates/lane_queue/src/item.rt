/// What is put in a lane. The numbers count from 0 in each lane.
#[derive(Drop)]
pub struct Item<T> {
    pub lane: u32,
    pub number: u64,
    /// Nothing follows it in its lane.
    pub last: bool,
    pub body: T,
}
