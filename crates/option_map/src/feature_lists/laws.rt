// The laws of lists of features.
ghost use Rattle.option_map.specs.FeatureLists.Features.{FeatureListIsShort, ShowsAgain};

/// A list of features has at most 1,000 bytes beside those of the options' lines, and a name that is shown is
/// shown again as it is.
pub fn feature_lists_are_short()
    ensures short { FeatureListIsShort }
    ensures again { ShowsAgain }
{}
