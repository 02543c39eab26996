// The features that the interface is offered, and when.
pub(crate) mod engine_name;
pub(crate) mod features;
pub(crate) mod laws;
pub(crate) mod list;
pub(crate) mod measure;
pub(crate) mod negotiation;

pub use engine_name::{ShownName, name_to_show, unnamed};
pub use laws::feature_lists_are_short;
pub use list::{MOST_NAME, shown_name, write_bare_list, write_list};
pub use negotiation::{FeatureNegotiation, ProtoverAnswer};
