// The name that the engine is shown by.
ghost use Rattle.std.specs.Prelude.{◌≡◌};
ghost use Rattle.option_map.specs.DeclaredOptions.Styles.{name_in_style};
ghost use Rattle.option_map.specs.FeatureLists.Features.{shown_name};

use option_map::{FeatureStyle, ShownName, name_to_show, unnamed};
use std::marker::Model;

/// The name that the engine is shown by: the last one it gave, if that can be shown.
#[derive(Drop)]
pub struct EngineName {
    text: ShownName,
}

impl Model for EngineName {
    ghost use Rattle.std.specs.Prelude.{ℕ, List};

    ghost Value = { List ℕ };

    ghost view = { λ n. n.text.items };
}

impl EngineName {
    ghost use Rattle.std.specs.Prelude.{[]};

    /// Before the engine gave a name.
    pub fn new() -> EngineName
        ensures { result ≡ shown_name [] }
    {
        EngineName { text: unnamed() }
    }

    /// The engine gave this name, which is shown in this style.
    pub fn set(&mut self, style: FeatureStyle, said: &[u8])
        ensures { self.new ≡ shown_name (name_in_style style said.now) }
    {
        self.text = name_to_show(style, said);
    }

    /// The name as the interface is shown it.
    pub fn text(&self) -> &[u8]
        ensures { result.now ≡ self.now }
    {
        self.text.as_slice()
    }
}
