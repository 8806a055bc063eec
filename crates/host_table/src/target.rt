use fab_types::Bdf;

/// What a table answers.
#[derive(Clone, Copy, Debug, PartialEq, Eq)]
pub enum Target {
    /// The frame of host memory of this number.
    Frame(u16),
    /// The register page of this function.
    Peer(Bdf),
    /// The page is not mapped for this access.
    None,
}
