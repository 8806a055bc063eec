//! What the worker of a function does in its thread.

mod arrive;
mod function_work;
mod parts;

pub use function_work::FunctionWork;
pub use parts::FunctionParts;
