// How the options and the name of an engine are shown.
ghost use Rattle.std.specs.Prelude.{◌≡◌, ◌≤◌, length};
ghost use Rattle.option_map.specs.DeclaredOptions.Styles.{ends_as_path, ends_as_file, feature_by_end, text_feature, text_word};
ghost use Rattle.option_map.specs.declared.declared_options.names.TheConstants.{MOST_OPTION_NAME};

use crate::declared_options::names::folded;

/// How the options and the name of an engine are shown.
#[derive(Clone, Copy)]
pub struct FeatureStyle {
    /// Options that limit how strongly the engine plays are shown.
    pub strength: bool,
    /// No option with a control byte in a text is shown, and the engine's name has blanks for such bytes.
    pub plain: bool,
    /// String options whose names say so are shown as paths and files.
    pub paths: bool,
}

/// What the feature of a string option is called: the word that tells an interface what to offer for it.
#[derive(Clone, Copy)]
pub(crate) enum TextFeature {
    AsString,
    AsPath,
    AsFile,
}

fn ends_as_path(name: &[u8]) -> bool
    ensures { result ≡ ends_as_path name.now }
{
    name.ends_with(b"path") || name.ends_with(b"dir") || name.ends_with(b"folder")
}

fn ends_as_file(name: &[u8]) -> bool
    ensures { result ≡ ends_as_file name.now }
{
    name.ends_with(b"file") || name.ends_with(b"book")
}

fn feature_by_end(name: &[u8]) -> TextFeature
    ensures { result ≡ feature_by_end name.now }
{
    if ends_as_path(name) {
        TextFeature::AsPath
    } else if ends_as_file(name) {
        TextFeature::AsFile
    } else {
        TextFeature::AsString
    }
}

/// What the feature of a string option of this name is called.
pub(crate) fn text_feature(style: FeatureStyle, name: &[u8]) -> TextFeature
    requires { length name.now ≤ MOST_OPTION_NAME }
    ensures { result ≡ text_feature style name.now }
{
    if style.paths {
        feature_by_end(folded(name).as_slice())
    } else {
        TextFeature::AsString
    }
}

/// The word of such a feature, with the blanks around it.
pub(crate) fn text_word(feature: TextFeature) -> &'static [u8]
    ensures word { result.now ≡ text_word feature }
    ensures short { length (text_word feature) ≤ 9 }
{
    match feature {
        TextFeature::AsString => b" -string ",
        TextFeature::AsPath => b" -path ",
        TextFeature::AsFile => b" -file ",
    }
}
