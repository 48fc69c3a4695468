// What holds of every program, and of those that are written. A law is the contract of a function that does nothing.
ghost use Rattle.gcode_text.specs.Following.{FewMovesLaw, FollowLaw};
ghost use Rattle.gcode_text.specs.Path.{ReadBackLaw, TitledLaw};
ghost use Rattle.gcode_text.specs.Visits.{VisitsReadBackLaw};
ghost use Rattle.gcode_text.specs.Written.{WrittenLinesLaw};

/// A text of written lines is read as their words say: its moves are those of the lines, one after the other.
pub fn written_lines_law()
    ensures { WrittenLinesLaw }
{}

/// The program of a path within the limits is read as exactly the moves through the nodes of its chains, whatever its title and its
/// notes say.
pub fn titled_law()
    ensures { TitledLaw }
{}

/// The same of a job's program, whose notes are the report on what it leaves uncut.
pub fn read_back_law()
    ensures { ReadBackLaw }
{}

/// The program of a path of visits is read as exactly the moves through them, where there are no more than `MOST_MOVES`.
pub fn visits_read_back_law()
    ensures { VisitsReadBackLaw }
{}

/// The moves of a program follow each other, the first from a place at or above the surface, and there are no more than
/// `MOST_MOVES` of them.
pub fn follow_law()
    ensures follow { FollowLaw }
    ensures few { FewMovesLaw }
{}
