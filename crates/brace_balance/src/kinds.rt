use brace_num::List;

/// Why no cuts into so many strips have a lower load: there are no numbers; so many of them are one
/// number, in millionths; or so many stand between each post, in millionths, and the next.
#[derive(Drop)]
pub enum Proof {
    Empty,
    Stack(i64),
    Posts(List<i64>),
}

/// Cuts in millionths, the greatest number of numbers in one of their strips, and why no cuts have
/// a lower one.
#[derive(Drop)]
pub struct Balance {
    pub cuts: List<i64>,
    pub load: u32,
    pub proof: Proof,
}
