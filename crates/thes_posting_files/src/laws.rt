//! Laws of posting files: their rows, and a posting that is sent again.
ghost use Rattle.thes_posting_files.specs.OneFile.{HasOneListOfRows};
ghost use Rattle.thes_posting_files.specs.RepeatedPost.{AnswersAgain};

/// No effect; for the proof, states that a file has at most one list of rows, and none if it has no
/// header.
pub fn one_file()
    ensures { HasOneListOfRows }
{}

/// No effect; for the proof, states that an accepted posting sent again is answered with its
/// number, whatever requests come between.
pub fn answers_again()
    ensures { AnswersAgain }
{}
