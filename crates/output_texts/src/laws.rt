//! A law of the texts.
ghost use Rattle.output_texts.specs.Laws.{SortedLinesAreTheText};

/// Law: relations whose rows were put in ascending order read, as they stand, as the text of the
/// relations before that.
pub fn sorted_lines_are_the_text()
    ensures { SortedLinesAreTheText }
{}
