//! Laws of the texts that tokens are: each function's contract is one, and it does nothing.
ghost use Rattle.text_progress.specs.ParsedTexts.{ParsedTextsAreWritten, ParsedTextsMeanText};

use known_texts::accepted_texts_mean_text;

/// The definitions that tokens are, and those that are gathered of them, are as the grammar has them.
pub fn parsed_texts_are_written()
    ensures { ParsedTextsAreWritten }
{}

/// The core of a text that is parsed and gathered, that the tables accept, and that isn't refused for its shapes, does what the text does.
pub fn parsed_texts_mean_text()
    ensures { ParsedTextsMeanText }
{
    accepted_texts_mean_text();
}
