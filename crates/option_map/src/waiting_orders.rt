// The orders that set an option, and those of them that wait.
pub(crate) mod held;
pub(crate) mod laws;
pub(crate) mod order;
pub(crate) mod translate;

pub use held::{HeldOrders, MOST_BYTES, MOST_ORDERS};
pub use laws::{asked_orders_are_spelled, last_orders_are_held, paths_are_set_as_strings};
pub use order::{AskedOption, ORDER_BYTES, OptionValue, SetupOrder};
