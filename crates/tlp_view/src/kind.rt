//! The kinds of packets.

use fab_types::Class;

/// The kinds of packets (PCIe 4.0, 2.2.1).
#[derive(Clone, Copy, Debug, PartialEq, Eq, Hash)]
pub enum Kind {
    /// Memory Read Request.
    MRd,
    /// Memory Read Request, Locked.
    MRdLk,
    /// Memory Write Request.
    MWr,
    /// I/O Read Request.
    IORd,
    /// I/O Write Request.
    IOWr,
    /// Configuration Read Type 0.
    CfgRd0,
    /// Configuration Write Type 0.
    CfgWr0,
    /// Configuration Read Type 1.
    CfgRd1,
    /// Configuration Write Type 1.
    CfgWr1,
    /// Message Request.
    Msg,
    /// Message Request with data.
    MsgD,
    /// Completion without data.
    Cpl,
    /// Completion with data.
    CplD,
    /// Completion for a locked memory read, without data.
    CplLk,
    /// Completion for a locked memory read.
    CplDLk,
    /// Fetch and Add AtomicOp Request.
    FetchAdd,
    /// Unconditional Swap AtomicOp Request.
    Swap,
    /// Compare and Swap AtomicOp Request.
    CAS,
}

impl Kind {
    ghost use Rattle.std.specs.Prelude.{◌≡◌, Option};
    ghost use Rattle.tlp_view.specs.Kinds.{class_of_kind, has_data, has_address, is_fetch_add, is_memory, is_completion, is_one_dw, kind_at, either_size, small, large};

    /// The class that decides its order and its credits (PCIe 4.0, 2.4.1).
    pub fn class(self) -> Class
        ensures { result ≡ class_of_kind self }
    {
        match self {
            Kind::MWr | Kind::Msg | Kind::MsgD => Class::Posted,
            Kind::Cpl | Kind::CplD | Kind::CplLk | Kind::CplDLk => Class::Completion,
            Kind::MRd
            | Kind::MRdLk
            | Kind::IORd
            | Kind::IOWr
            | Kind::CfgRd0
            | Kind::CfgWr0
            | Kind::CfgRd1
            | Kind::CfgWr1
            | Kind::FetchAdd
            | Kind::Swap
            | Kind::CAS => Class::NonPosted,
        }
    }

    /// Does a payload follow the header?
    pub fn has_data(self) -> bool
        ensures { result ≡ has_data self }
    {
        match self {
            Kind::MWr
            | Kind::IOWr
            | Kind::CfgWr0
            | Kind::CfgWr1
            | Kind::MsgD
            | Kind::CplD
            | Kind::CplDLk
            | Kind::FetchAdd
            | Kind::Swap
            | Kind::CAS => true,
            _ => false,
        }
    }

    /// Is it a memory read or write, whose address and enables are read?
    pub fn is_memory(self) -> bool
        ensures { result ≡ is_memory self }
    {
        match self {
            Kind::MRd | Kind::MWr => true,
            _ => false,
        }
    }

    /// Is it the AtomicOp that the host serves, whose address is read?
    pub fn is_fetch_add(self) -> bool
        ensures { result ≡ is_fetch_add self }
    {
        match self {
            Kind::FetchAdd => true,
            _ => false,
        }
    }

    /// Are its address and AT read?
    pub fn has_address(self) -> bool
        ensures { result ≡ has_address self }
    {
        match self {
            Kind::MRd | Kind::MWr | Kind::FetchAdd => true,
            _ => false,
        }
    }

    /// Is it a completion, with or without data, locked or not?
    pub fn is_completion(self) -> bool
        ensures { result ≡ is_completion self }
    {
        match self {
            Kind::Cpl | Kind::CplD | Kind::CplLk | Kind::CplDLk => true,
            _ => false,
        }
    }

    /// I/O and configuration requests, which are of one DW.
    pub(crate) fn is_one_dw(self) -> bool
        ensures { result ≡ is_one_dw self }
    {
        match self {
            Kind::IORd | Kind::IOWr | Kind::CfgRd0 | Kind::CfgWr0 | Kind::CfgRd1 | Kind::CfgWr1 =>
                true,
            _ => false,
        }
    }

    /// The kind of a pair of Fmt and Type, if there is one (PCIe 4.0, 2.2.1).
    #[tactic(auto, unfolding(crate::specs::Kinds::kind_at))]
    pub(crate) fn of(fmt: u8, code: u8) -> Option<Kind>
        ensures { result ≡ kind_at fmt code }
    {
        if code == 0 {
            Kind::of_either_size(fmt, Some(Kind::MRd), Some(Kind::MWr))
        } else if code == 1 {
            Kind::of_either_size(fmt, Some(Kind::MRdLk), None)
        } else if code == 2 {
            Kind::of_3_dw(fmt, Kind::IORd, Kind::IOWr)
        } else if code == 4 {
            Kind::of_3_dw(fmt, Kind::CfgRd0, Kind::CfgWr0)
        } else if code == 5 {
            Kind::of_3_dw(fmt, Kind::CfgRd1, Kind::CfgWr1)
        } else if code == 10 {
            Kind::of_3_dw(fmt, Kind::Cpl, Kind::CplD)
        } else if code == 11 {
            Kind::of_3_dw(fmt, Kind::CplLk, Kind::CplDLk)
        } else if code == 12 {
            Kind::of_either_size(fmt, None, Some(Kind::FetchAdd))
        } else if code == 13 {
            Kind::of_either_size(fmt, None, Some(Kind::Swap))
        } else if code == 14 {
            Kind::of_either_size(fmt, None, Some(Kind::CAS))
        } else if code / 8 == 2 {
            Kind::of_4_dw(fmt, Kind::Msg, Kind::MsgD)
        } else {
            None
        }
    }

    fn of_either_size(fmt: u8, without: Option<Kind>, with_data: Option<Kind>) -> Option<Kind>
        ensures { result ≡ either_size fmt without with_data }
    {
        if fmt < 2 {
            without
        } else if fmt < 4 {
            with_data
        } else {
            None
        }
    }

    fn of_3_dw(fmt: u8, without: Kind, with_data: Kind) -> Option<Kind>
        ensures { result ≡ small fmt without with_data }
    {
        if fmt == 0 {
            Some(without)
        } else if fmt == 2 {
            Some(with_data)
        } else {
            None
        }
    }

    fn of_4_dw(fmt: u8, without: Kind, with_data: Kind) -> Option<Kind>
        ensures { result ≡ large fmt without with_data }
    {
        if fmt == 1 {
            Some(without)
        } else if fmt == 3 {
            Some(with_data)
        } else {
            None
        }
    }
}
