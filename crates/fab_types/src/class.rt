/// The three classes of packets (PCIe 4.0, 2.2.1 and 2.4.1).
/// They decide their credits and their order.
#[derive(Clone, Copy, Debug, PartialEq, Eq, PartialOrd, Ord, Hash)]
pub enum Class {
    /// Memory writes and messages: nobody answers them.
    Posted,
    /// Requests that are answered by a completion.
    NonPosted,
    /// Completions, which answer non-posted requests.
    Completion,
}
