/// What a domain counts.
#[derive(Clone, Copy, Debug, PartialEq, Eq)]
pub struct Counts {
    /// Begins that were accepted.
    pub begins: u32,
    /// Requests for which no mapping was found.
    pub blocked: u64,
    /// Completions for which no Tag was open.
    pub unexpected: u64,
}
