//! What the lines of a layout text say, each by itself: its form and its fields.
#![tactic(auto)]

mod forms;
mod lines;

pub use forms::layout_line_of;
pub use lines::{
    BudgetText, CreditText, EgressText, FunctionText, LayoutLine, MapText, PortText, RightsText,
    SwitchText, TargetText,
};
