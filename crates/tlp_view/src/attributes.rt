/// The Attr field (PCIe 4.0, 2.2.6.3).
#[derive(Clone, Copy, Debug, PartialEq, Eq)]
pub struct Attributes {
    /// ID-Based Ordering, Attr[2].
    pub id_based_ordering: bool,
    /// Relaxed Ordering, Attr[1].
    pub relaxed_ordering: bool,
    /// No Snoop, Attr[0].
    pub no_snoop: bool,
}
