// The search for the input that ends at a place.
ghost use Rattle.std.specs.Prelude.{◌≡◌, ◌<◌};
ghost use Rattle.card.specs.Meaning.{Lawful};
ghost use Rattle.turned.specs.Turning.{source, EndsAt};

use card::Card;

// The one input that ends at this output. A `for`: tried with `find`, whose predicate would have to ask the card and unwrap, and
// the proof did not close.
pub(super) fn ending_at<C: Card>(card: &C, setting: &[u8], output: u8) -> u8
    requires lawful { Lawful (C.Card.meaning card.now) setting.now }
    requires inside { output < (C.Card.meaning card.now).lines }
    ensures found { result ≡ source (C.Card.meaning card.now) setting.now output }
    ensures only { EndsAt (C.Card.meaning card.now) setting.now output result }
{
    let columns = card.columns();
    for input in 0..card.lines() {
        if card.place(setting, input, columns).unwrap() == output {
            return input;
        }
    }
    unreachable()
}
