//! Laws of displays, which hold for any code that writes displays.
ghost use Rattle.thes_display.specs.Alphabetical.{HasOneAlphabetical};
ghost use Rattle.thes_display.specs.Hierarchical.{EachHasOneHome, HasOneHierarchical};

/// No effect; for the proof, states that a scheme of a state has at most one alphabetical display
/// in a language.
pub fn one_alphabetical()
    ensures { HasOneAlphabetical }
{}

/// No effect; for the proof, states that a scheme of a state has at most one hierarchical display
/// in a language.
pub fn one_hierarchical()
    ensures { HasOneHierarchical }
{}

/// No effect; for the proof, states that in the hierarchical display of a legal state each live
/// concept of the scheme has exactly one line at home: as a top concept, or below the broader
/// concept that is its home.
pub fn one_home()
    ensures { EachHasOneHome }
{}
