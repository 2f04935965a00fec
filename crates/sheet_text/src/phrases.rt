// Refusals, verdicts and misread texts in words.
ghost use Rattle.std.specs.Prelude.{◌≡◌};
ghost use Rattle.sheet_text.specs.Phrases.{misread_words};

use super::reading::Misread;
pub use card::fault::cause_words;
pub use sheets::verdict_words;

// What should stand where a text is not in its form.
pub fn misread_words(misread: Misread) -> &'static str
    ensures { result.now ≡ misread_words misread }
{
    match misread {
        Misread::Kind => "the text begins with `kind` and a number from 0 to 255",
        Misread::Lines => "after the kind come `lines` and a number from 0 to 255",
        Misread::Plan => "after the line count comes `plan`",
        Misread::Holds =>
            "after `plan` come at most 64 numbers from 0 to 255 or -, and then `holds`",
        Misread::Sheet =>
            "after `holds` come at most 64 numbers from 0 to 255 or -, and then `sheet`",
        Misread::End =>
            "after `sheet` come at most 64 numbers from 0 to 255 or -, and nothing else",
    }
}
