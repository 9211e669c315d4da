// Laws of how long texts are, one function a law, so that a caller's proof can name them. They do nothing when they run.
ghost use Rattle.gd_cert.specs.Sizes.{GroupsLieWithin, KeptLinesLieWithin, LinesAreFew, OneGroupIsShort, TextsAreShort};

/// The text of a certificate in bounds has at most 200 bytes, and for each group 289 where it has a witness, else 67 and 35
/// a line of its tree.
pub fn show_texts_are_short()
    ensures { TextsAreShort }
{}

/// The text of a certificate of one group, whose tree has at most 2,000,004 lines, fits a file.
pub fn show_one_group_is_short()
    ensures { OneGroupIsShort }
{}

/// A text has at least as many bytes as lines.
pub fn show_lines_are_few()
    ensures { LinesAreFew }
{}

/// The lines of each group are among the lines of the text.
pub fn show_groups_lie_within()
    ensures { GroupsLieWithin }
{}

/// The lines of each group, from the one that it keeps, are among the lines of the text.
pub fn show_kept_lines_lie_within()
    ensures { KeptLinesLieWithin }
{}
