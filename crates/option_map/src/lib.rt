//! The options of a chess engine, as an interface sees and sets them, and the orders that wait for it; and the
//! features that the interface is offered, and when (Chess Engine Communication Protocol, version 2, `feature`).
#![tactic(auto)]

mod declared_options;
mod feature_lists;
mod waiting_orders;

pub use declared_options::{
    Declared, FEATURE_BYTES, FeatureStyle, MOST_OPTIONS, OptionFault, Options,
};
pub use feature_lists::{
    FeatureNegotiation, MOST_NAME, ProtoverAnswer, ShownName, feature_lists_are_short,
    name_to_show, shown_name, unnamed, write_bare_list, write_list,
};
pub use waiting_orders::{
    AskedOption, HeldOrders, MOST_BYTES, MOST_ORDERS, ORDER_BYTES, OptionValue, SetupOrder,
    asked_orders_are_spelled, last_orders_are_held, paths_are_set_as_strings,
};
