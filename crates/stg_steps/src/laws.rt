//! The laws of logs, for all nets and texts. Nothing here does work at run time.

ghost use Rattle.stg_steps.specs.Laws.{LogIsOne, BadLineHasNoLog, BadLineIsOne, TextIsTold};

/// A text is that of at most one log and has at most one bad line. It is that of a log, or it has a
/// bad line, and not both.
pub fn law_one_log()
    ensures log { LogIsOne }
    ensures apart { BadLineHasNoLog }
    ensures bad_line { BadLineIsOne }
    ensures told { TextIsTold }
{}
