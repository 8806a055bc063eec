/// The status of a completion (PCIe 4.0, 2.2.9).
#[derive(Clone, Copy, Debug, PartialEq, Eq, Hash)]
pub enum Status {
    /// Successful Completion.
    SC,
    /// Unsupported Request.
    UR,
    /// Configuration Request Retry Status.
    CRS,
    /// Completer Abort.
    CA,
}
