//! Why a domain refused to begin something.

ghost use Rattle.std.specs.Prelude.{◌≡◌};
ghost use Rattle.fab_types.specs.Faults.{
  begin_fault_name,
  begin_fault_number,
  mmio_fault_name,
  mmio_fault_number,
  submit_fault_name,
  submit_fault_number,
  tick_fault_name,
  tick_fault_number,
};

use thiserror::Error;

/// Why a submitted packet was refused. `NoFunction` is tested first, then the others in their order.
#[derive(Clone, Copy, Debug, PartialEq, Eq, Error)]
pub enum SubmitFault {
    /// Over 272 bytes.
    #[error("the packet is longer than 272 bytes")]
    TooLong,
    /// A well-formed completion: functions complete only what they received.
    #[error("completions are not submitted")]
    Completion,
    /// A well-formed non-posted request with a Tag that its function has open.
    #[error("the tag is open already")]
    TagBusy,
    /// The domain has begun as often as its budget allows.
    #[error("the budget of the domain is spent")]
    BudgetSpent,
    /// The domain has no such function.
    #[error("the domain has no such function")]
    NoFunction,
    /// Memory was refused.
    #[error("out of memory")]
    NoMemory,
}

impl SubmitFault {
    /// The number of the refusal.
    pub fn number(&self) -> u8
        ensures { result ≡ submit_fault_number self.now }
    {
        match self {
            SubmitFault::TooLong => 1,
            SubmitFault::Completion => 2,
            SubmitFault::TagBusy => 3,
            SubmitFault::BudgetSpent => 4,
            SubmitFault::NoFunction => 5,
            SubmitFault::NoMemory => 6,
        }
    }

    /// The name of the refusal.
    pub fn name(&self) -> &'static str
        ensures { result.now ≡ submit_fault_name self.now }
    {
        match self {
            SubmitFault::TooLong => "TooLong",
            SubmitFault::Completion => "Completion",
            SubmitFault::TagBusy => "TagBusy",
            SubmitFault::BudgetSpent => "BudgetSpent",
            SubmitFault::NoFunction => "NoFunction",
            SubmitFault::NoMemory => "NoMemory",
        }
    }
}

/// Why a tick was refused, in the order of the tests.
#[derive(Clone, Copy, Debug, PartialEq, Eq, Error)]
pub enum TickFault {
    /// The domain has no such function.
    #[error("the domain has no such function")]
    NoFunction,
    /// The domain has begun as often as its budget allows.
    #[error("the budget of the domain is spent")]
    BudgetSpent,
    /// Memory was refused.
    #[error("out of memory")]
    NoMemory,
}

impl TickFault {
    /// The number of the refusal.
    pub fn number(&self) -> u8
        ensures { result ≡ tick_fault_number self.now }
    {
        match self {
            TickFault::NoFunction => 1,
            TickFault::BudgetSpent => 2,
            TickFault::NoMemory => 3,
        }
    }

    /// The name of the refusal.
    pub fn name(&self) -> &'static str
        ensures { result.now ≡ tick_fault_name self.now }
    {
        match self {
            TickFault::NoFunction => "NoFunction",
            TickFault::BudgetSpent => "BudgetSpent",
            TickFault::NoMemory => "NoMemory",
        }
    }
}

/// Why an access of the host was refused, in the order of the tests.
#[derive(Clone, Copy, Debug, PartialEq, Eq, Error)]
pub enum MmioFault {
    /// The function is not of this domain.
    #[error("the function is not of this domain")]
    NotYours,
    /// The access is not 1 to 64 DW of the register page.
    /// Its offset is no multiple of 4, or it is not of 1 to 64 DW, or it passes byte 4,096.
    #[error("the access is not 1 to 64 DW of the register page")]
    Range,
    /// A read, with all 32 host tags open.
    #[error("all host tags are open")]
    NoTag,
    /// The domain has begun as often as its budget allows.
    #[error("the budget of the domain is spent")]
    BudgetSpent,
    /// Memory was refused.
    #[error("out of memory")]
    NoMemory,
}

impl MmioFault {
    /// The number of the refusal.
    pub fn number(&self) -> u8
        ensures { result ≡ mmio_fault_number self.now }
    {
        match self {
            MmioFault::NotYours => 1,
            MmioFault::Range => 2,
            MmioFault::NoTag => 3,
            MmioFault::BudgetSpent => 4,
            MmioFault::NoMemory => 5,
        }
    }

    /// The name of the refusal.
    pub fn name(&self) -> &'static str
        ensures { result.now ≡ mmio_fault_name self.now }
    {
        match self {
            MmioFault::NotYours => "NotYours",
            MmioFault::Range => "Range",
            MmioFault::NoTag => "NoTag",
            MmioFault::BudgetSpent => "BudgetSpent",
            MmioFault::NoMemory => "NoMemory",
        }
    }
}

/// Why a begin was refused: the fault of the call that it is.
#[derive(Clone, Copy, Debug, PartialEq, Eq, Error)]
pub enum BeginFault {
    /// A submit was refused.
    #[error(transparent)]
    Submit(SubmitFault),
    /// A tick was refused.
    #[error(transparent)]
    Tick(TickFault),
    /// An access of the host was refused.
    #[error(transparent)]
    Mmio(MmioFault),
}

impl BeginFault {
    /// The number of the call's refusal.
    pub fn number(&self) -> u8
        ensures { result ≡ begin_fault_number self.now }
    {
        match self {
            BeginFault::Submit(fault) => fault.number(),
            BeginFault::Tick(fault) => fault.number(),
            BeginFault::Mmio(fault) => fault.number(),
        }
    }

    /// The name of the call's refusal.
    pub fn name(&self) -> &'static str
        ensures { result.now ≡ begin_fault_name self.now }
    {
        match self {
            BeginFault::Submit(fault) => fault.name(),
            BeginFault::Tick(fault) => fault.name(),
            BeginFault::Mmio(fault) => fault.name(),
        }
    }
}
