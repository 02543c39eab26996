// The declared options: how they are kept, named, shown and set.
pub(crate) mod choices;
pub(crate) mod declared;
pub(crate) mod declaring;
pub(crate) mod fault;
pub(crate) mod keeping;
pub(crate) mod names;
pub(crate) mod options;
pub(crate) mod plain;
pub(crate) mod setting;
pub(crate) mod stored;
pub(crate) mod storing;
pub(crate) mod style;

pub use declared::Declared;
pub use fault::OptionFault;
pub use options::{FEATURE_BYTES, MOST_OPTIONS, Options};
pub use style::FeatureStyle;
