//! Laws of the definition of a head, whichever program reads it.
ghost use Rattle.thes_http_request.specs.Laws.{CutIsNotBad, HeadIsWhole, OneHead};

/// No effect; for the proof, states that no bytes are both an incomplete head and a bad head.
pub fn cut_is_not_bad()
    ensures { CutIsNotBad }
{}

/// No effect; for the proof, states that bytes which begin with a head within the limits aren't an
/// incomplete head, and that no prefix of them is a bad head.
pub fn head_is_whole()
    ensures { HeadIsWhole }
{}

/// No effect; for the proof, states that bytes begin with at most one head.
pub fn one_head()
    ensures { OneHead }
{}
